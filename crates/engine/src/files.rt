// Saving a map into a lent list, and loading the map of a file.

ghost use Rattle.std.specs.Prelude.{[], ◌∷◌};
ghost use Rattle.model.specs.Answers.{Answered};
ghost use Rattle.model.specs.Reading.{unsound};
ghost use Rattle.model.specs.Lent.{Wrote};
ghost use Rattle.model.specs.Saved.{load_call, saved};

use layout::{VERSION, is_in_form, saved_length};
use loading::map_of;
use model::{Map, Refusal};
use saved::write_map;
use soundness::checked;

// The bytes of a map, in version 2, written into a lent list: numbers 1 and 10. A longer list keeps its tail,
// and a refused call writes nothing.
pub fn save(map: &Map, lent: &mut [u8]) -> Result<usize, Refusal>
    ensures { Wrote (unsound map.now ∷ []) (saved map.now)
        lent.old lent.new result }
{
    let sound = checked(map)?;
    let length = saved_length(VERSION, map.count);
    if lent.len() < length {
        return Err(Refusal::ShortList);
    }
    write_map(sound, VERSION, lent);
    Ok(length)
}

// The map of a file of either version: number 7, and then number 1.
pub fn load(file: &[u8]) -> Result<Map, Refusal>
    ensures { Answered (load_call file.now) result }
{
    if !is_in_form(file) {
        return Err(Refusal::BadFile);
    }
    map_of(file)
}
