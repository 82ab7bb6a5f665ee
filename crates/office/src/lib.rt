// What is asked for beyond document 01: by the drawing office, the outline of a map as text, for its viewer,
// and the corners of such a text; by candidates, twice the outline's area, the mark of a claimed outline, and
// the last mark taken back. These are entry points, as those of `engine` are: each checks for itself, asks
// nothing of its caller, and promises its answer and what a lent list holds, for every argument.
#![tactic(auto)]

ghost use Rattle.std.specs.Prelude.{[], ◌∷◌};
ghost use Rattle.model.specs.Reading.{unsound};
ghost use Rattle.model.specs.Answers.{Answered};
ghost use Rattle.model.specs.Lent.{Wrote};
ghost use Rattle.model.specs.Outlines.{coordinates, corner_points, corners_spelt, outline_rules, outline_text};
ghost use Rattle.model.specs.Area.{area_call};
ghost use Rattle.model.specs.Removal.{remove_call};
ghost use Rattle.model.specs.Marking.{mark_call, points_of};

use corners::listing::corners_of;
use drawings::{text_length, write_text};
use measures::area_of;
use model::{Map, Refusal};
use removal::taken_back;
use soundness::checked;

// The text of a map's outline, written into a lent list: numbers 1 and 10. A longer list keeps its tail,
// and a refused call writes nothing.
pub fn write_outline(map: &Map, lent: &mut [u8]) -> Result<usize, Refusal>
    ensures { Wrote (unsound map.now ∷ []) (outline_text (corner_points map.now))
        lent.old lent.new result }
{
    let sound = checked(map)?;
    let list = corners_of(sound);
    let corners = list.as_slice();
    let length = text_length(&map.points, corners);
    if lent.len() < length {
        return Err(Refusal::ShortList);
    }
    write_text(&map.points, corners, lent);
    Ok(length)
}

// The corners of an outline's text, their coordinates x and y in turn written into a lent list: numbers 9,
// 11, 3, 12 and 10. A longer list keeps its tail, and a refused call writes nothing.
pub fn read_outline(text: &[u8], lent: &mut [i64]) -> Result<usize, Refusal>
    ensures { Wrote (outline_rules text.now)
        (coordinates (corners_spelt text.now)) lent.old lent.new result }
{
    listings::read_outline(text, lent, true)
}

// Twice the area of a map's outline, as a fan of triangles from the corner at a place of the listing: numbers 1
// and 6. Fewer than three points give 0 for any place.
pub fn area(map: &Map, place: usize) -> Result<i64, Refusal>
    ensures { Answered (area_call map.now place) result }
{
    area_of(checked(map)?, place)
}

// Whether a claimed list of point numbers is the corner listing of the points, begun at any corner, or the first
// refusal met when the points are offered to the empty map: numbers 2, 3 and 4. Points are pairs x, y; an odd last
// number names no point.
pub fn mark(points: &[i64], claim: &[usize]) -> Result<bool, Refusal>
    ensures { Answered (mark_call (points_of points.now) claim.now) result }
{
    marking::mark(points, claim)
}

// The map before its last point: numbers 1 and 13.
pub fn remove_last(map: &Map) -> Result<Map, Refusal>
    ensures { Answered (remove_call map.now) result }
{
    checked(map)?;
    if map.count == 0 {
        return Err(Refusal::NoPoint);
    }
    Ok(taken_back(map))
}
