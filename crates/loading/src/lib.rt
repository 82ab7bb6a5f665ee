// The map of a file: its points are offered anew, once, and what they build is written in the file's version and
// compared with the file, byte by byte.
#![tactic(auto)]

mod reading;

ghost use Rattle.std.specs.Prelude.{◌≡◌, T, length};
ghost use Rattle.finite.specs.Lists.{same_list};
ghost use Rattle.model.specs.Saved.{file_in_form, saved_in, saved_length};
ghost use Rattle.loading.specs.Opening.{opened};

use crate::reading::points_in;
use comparing::same;
use layout::numbers::number_at;
use layout::{COUNT_PLACE, VERSION_PLACE};
use maps::empty_map;
use model::{Map, Refusal, SoundMap};
use saved::write_map;
use soundness::rebuild_in;

// How many bytes a file has at most.
const FILE_LIMIT: usize = 9225;

// The map of a file that is in form: number 1 where it is not sound.
pub fn map_of(file: &[u8]) -> Result<Map, Refusal>
    requires { T (file_in_form file.now) }
    ensures { result ≡ opened file.now }
{
    let count = number_at(file, COUNT_PLACE, 2);
    let points = points_in(file, count);
    // In a map of its own, and not by `rebuild`, whose map would be copied out of what it answers.
    let mut map = empty_map();
    rebuild_in(&mut map, &points, count).ok_or(Refusal::NotSound)?;
    let version = number_at(file, VERSION_PLACE, 1);
    if !writes(SoundMap { map: &map }, version, file) {
        return Err(Refusal::NotSound);
    }
    Ok(map)
}

// Whether a map writes this file in a version.
fn writes(sound: SoundMap<'_>, version: usize, file: &[u8]) -> bool
    requires { length file.now ≡ saved_length version sound.map.now.count }
    ensures { result ≡ same_list (saved_in version sound.entry.map.now) file.now }
{
    let mut written = [0u8; FILE_LIMIT];
    write_map(sound, version, &mut written);
    same(&written[..file.len()], file)
}
