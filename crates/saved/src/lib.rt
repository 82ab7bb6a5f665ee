// The saved form of a map: writing it in a version.
#![tactic(auto)]

ghost use Rattle.std.specs.Prelude.{◌≡◌, ◌≤◌, length};
ghost use Rattle.finite.specs.Overwriting.{over};
ghost use Rattle.model.specs.Saved.{notes_place, saved_in, saved_length};
ghost use Rattle.saved.specs.Fields.{unnoted};

use layout::{HEADER_LENGTH, helpers_place, links_place, notes_place};
use model::SoundMap;

mod writing;

use writing::{coordinate_field, note_field, noted_in, write_block, write_header};

// Writes a map in a version over the front of the lent list, which keeps its tail.
// The version is a number, since what is promised (`saved_in`) holds of any.
pub fn write_map(sound: SoundMap<'_>, version: usize, lent: &mut [u8])
    requires { saved_length version sound.map.now.count ≤ length lent.old }
    ensures { lent.new ≡ over (saved_in version sound.entry.map.now) lent.old }
{
    write_unnoted(sound, version, lent);
    let count = sound.map.count;
    let noted = noted_in(version, count);
    let start = notes_place(count);
    write_block(noted, 5, |k| note_field(sound, k), &mut lent[start..]);
}

// Writes all but the notes.
fn write_unnoted(sound: SoundMap<'_>, version: usize, lent: &mut [u8])
    requires { notes_place sound.map.now.count ≤ length lent.old }
    ensures { lent.new ≡ over (unnoted version sound.entry.map.now) lent.old }
{
    let map = sound.map;
    let count = map.count;
    write_header(version, count, map.reference, lent);
    write_block(
        2 * count,
        4,
        |i| coordinate_field(sound, i),
        &mut lent[HEADER_LENGTH..],
    );
    let helpers_start = helpers_place(count);
    write_block(
        count,
        1,
        |k| map.has_helper(k) as usize,
        &mut lent[helpers_start..],
    );
    let links_start = links_place(count);
    write_block(2 * count, 2, |d| map.edge_link(d), &mut lent[links_start..]);
}
