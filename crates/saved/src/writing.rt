// Writing the parts of a file, each over the front of a lent list, and what stands in their fields.

ghost use Rattle.std.specs.Prelude.{◌≡◌, ℕ, ◌*◌, ◌≤◌, ◌<◌, length};
ghost use Rattle.finite.specs.Overwriting.{over};
ghost use Rattle.model.specs.Maps.{point_limit};
ghost use Rattle.model.specs.Saved.{block, complement, coordinate, header, header_length, packed_note};
ghost use Rattle.saved.specs.Fields.{Gives, noted_in};

use layout::numbers::{complement, put_number};
use layout::{COUNT_PLACE, OLD_VERSION, REFERENCE_PLACE, VERSION_PLACE, saved_length};
use model::SoundMap;

// What a number of 2 bytes stands below.
const HALF_WORD: usize = 65536;

// The header in a version of a map of so many points with a reference.
pub fn write_header(version: usize, count: usize, reference: usize, lent: &mut [u8])
    requires { (count ≤ point_limit) × (header_length ≤ length lent.old) }
    ensures { lent.new ≡
        over (header version count reference) lent.old }
{
    let following = saved_length(version, count) - VERSION_PLACE;
    put_number(lent, 4, following);
    put_number(&mut lent[VERSION_PLACE..], 1, version);
    put_number(&mut lent[COUNT_PLACE..], 2, count);
    put_number(&mut lent[REFERENCE_PLACE..], 2, reference);
}

// A block of so many fields of a width, each the number that `field` gives for its place. Whatever rule these
// numbers follow, the block is that of the rule.
pub fn write_block<F: Fn(usize) -> usize>(count: usize, width: usize, field: F, lent: &mut [u8])
    requires room { width * count ≤ length lent.old }
    requires callable { (i : ℕ) → i < count → F.pre field i }
    ensures { (f : ℕ → ℕ) → Gives (F.post field) count f → lent.new ≡ over (block count width f) lent.old }
{
    // By number: i is what the closure is asked and tells the place; `chunks_exact_mut` would name the place too.
    for i in 0..count {
        let at = width * i;
        let number = field(i);
        put_number(&mut lent[at..], width, number);
    }
}

// What stands for coordinate i of the points, x and y in turn.
pub fn coordinate_field(sound: SoundMap<'_>, i: usize) -> usize
    ensures { result ≡ complement (coordinate sound.entry.map.now i) }
{
    let p = sound.point(i / 2).point;
    if i % 2 == 0 {
        complement(p.x)
    } else {
        complement(p.y)
    }
}

// Of how many of so many points a version has notes.
pub fn noted_in(version: usize, count: usize) -> usize
    ensures { result ≡ noted_in version count }
{
    if version == OLD_VERSION { 0 } else { count }
}

// What stands for what is noted of point k: its arrival, and two bytes for each freed dart.
// Packed as `packed_note` has it.
pub fn note_field(sound: SoundMap<'_>, k: usize) -> usize
    requires { k < point_limit }
    ensures { result ≡ packed_note sound.entry.map.now k }
{
    let noted = sound.map.notes[k];
    let arrival = noted.arrival as usize;
    let left = noted.left as usize;
    let right = noted.right as usize;
    (arrival * HALF_WORD + left) * HALF_WORD + right
}
