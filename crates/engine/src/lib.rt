// The engine's entry points: every call that takes a map checks it for itself, and then calls the inner
// function that knows a sound map. No entry asks anything of its caller, and each promises its answer,
// its number and values, and what every lent list holds, for every argument.
#![tactic(auto)]

pub mod checks;
pub mod files;
pub mod texts;

ghost use Rattle.std.specs.Prelude.{◌≡◌, [], ◌∷◌};
ghost use Rattle.model.specs.Maps.{empty_map};
ghost use Rattle.model.specs.Sound.{sound};
ghost use Rattle.model.specs.Outline.{corners};
ghost use Rattle.model.specs.Answers.{Answered};
ghost use Rattle.model.specs.Reading.{counts_call, orbit_call, unsound, walk_call, walker_call};
ghost use Rattle.model.specs.Offers.{offer_call};
ghost use Rattle.model.specs.Placing.{place_call};
ghost use Rattle.model.specs.Lent.{Wrote};
ghost use Rattle.plane.specs.OrientedAnswer.{OrientedAnswer};

use crate::checks::check_dart;
use corners::listing::{corners_of, write_corners};
use corners::query::placed;
use hull::admitted;
use maps::traversal::{counts_of, moved, orbit_of, walk_of};
use model::{Counts, Kind, Link, Map, Offered, Placed, Point, Refusal};
use orbits::{DartSet, Walk, Walker};
use plane::{orientation_of, ranged};
use soundness::checked;

// The orientation of three points, positive for a left turn: number 3. A value lies within its limit.
pub fn orientation(a: Point, b: Point, c: Point) -> Result<i64, Refusal>
    ensures { OrientedAnswer a b c result }
{
    orientation_of(a, b, c)
}

// The map without points, from which every survey starts.
pub fn empty_map() -> Map
    ensures { result ≡ empty_map }
{
    maps::empty_map()
}

// Whether a map is sound, whatever its fields hold; the answer is never refused.
pub fn is_sound(map: &Map) -> bool
    ensures { result ≡ sound map.now }
{
    soundness::is_sound(map)
}

// The map after a point is offered to it, and how the point arrived: numbers 1 to 4.
pub fn offer(map: &Map, p: Point) -> Result<Offered, Refusal>
    ensures { Answered (offer_call map.now p) result }
{
    admitted(checked(map)?, p)
}

// The orbit of a dart, of the kind that is named: numbers 1 and 6.
pub fn orbit(map: &Map, kind: Kind, dart: usize) -> Result<DartSet, Refusal>
    ensures { Answered (orbit_call map.now kind dart) result }
{
    let sound = check_dart(map, dart)?;
    Ok(orbit_of(sound, kind, dart))
}

// The numbers of darts, vertices, edges, faces and connected parts: number 1.
pub fn counts(map: &Map) -> Result<Counts, Refusal>
    ensures { Answered (counts_call map.now) result }
{
    let sound = checked(map)?;
    Ok(counts_of(sound))
}

// The walk from a dart: numbers 1 and 6.
pub fn walk(map: &Map, dart: usize) -> Result<Walk, Refusal>
    ensures { Answered (walk_call map.now dart) result }
{
    check_dart(map, dart)?;
    Ok(walk_of(map, dart))
}

// A walker moved by a link, or started where it stands, by none; the dart where it stands is checked:
// numbers 1 and 6.
pub fn move_walker(map: &Map, link: Link, walker: Walker) -> Result<Walker, Refusal>
    ensures { Answered (walker_call map.now link walker.dart) result }
{
    check_dart(map, walker.dart)?;
    Ok(moved(map, link, walker))
}

// Where a query point lies: numbers 1 and 3.
pub fn place(map: &Map, p: Point) -> Result<Placed, Refusal>
    ensures { Answered (place_call map.now p) result }
{
    let sound = checked(map)?;
    let p = ranged(p)?;
    Ok(placed(sound, p))
}

// The corners in listing order, written into a lent list: numbers 1 and 10. A longer list keeps its tail,
// and a refused call writes nothing.
pub fn list_corners(map: &Map, lent: &mut [usize]) -> Result<usize, Refusal>
    ensures { Wrote (unsound map.now ∷ []) (corners map.now) lent.old lent.new result }
{
    let sound = checked(map)?;
    let list = corners_of(sound);
    let count = list.count;
    if lent.len() < count {
        return Err(Refusal::ShortList);
    }
    write_corners(&list, lent);
    Ok(count)
}
