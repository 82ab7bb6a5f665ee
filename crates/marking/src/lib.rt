// Marking a candidate's outline: whether a claimed list of point numbers is the corner listing of a list of points,
// begun at any corner. No map is built: the points are admitted one after another by their coordinates, and each
// edge of the claim is tested against all of them.
#![tactic(auto)]

ghost use Rattle.std.specs.Prelude.{◌≡◌, ◌<◌, length};
ghost use Rattle.model.specs.Answers.{Answered};
ghost use Rattle.model.specs.Maps.{empty_map, point_in};
ghost use Rattle.model.specs.Marking.{mark_call, points_of};
ghost use Rattle.marking.specs.Claims.{PointsTaken, claim_passes, edge_at};

use admission::hashes::{Hashes, admission_hashed};
use maps::support::{RangedPoints, is_supporting_edge};
use model::{POINT_LIMIT, Point, Refusal};

// Whether a claim is right or wrong, or the first refusal met among the points: numbers 2, 3 and 4. Points are pairs
// x, y; an odd last number names no point.
pub fn mark(points: &[i64], claim: &[usize]) -> Result<bool, Refusal>
    ensures { Answered (mark_call (points_of points.now) claim.now) result }
{
    let mut places = [Point { x: 0, y: 0 }; POINT_LIMIT];
    take_points(points, &mut places)?;
    let taken = RangedPoints {
        points: &places[..points.len() / 2],
    };
    Ok(is_outline(taken, claim))
}

// Whether all points of a list are accepted, offered one after another, or the first refusal met. They are written into
// places that are lent empty: there is no heap.
fn take_points(points: &[i64], places: &mut [Point; POINT_LIMIT]) -> Result<(), Refusal>
    requires { places.old ≡ empty_map.points }
    ensures { PointsTaken (points_of points.now) result places.new }
{
    let mut hashes = Hashes::empty();
    for (k, pair) in points.chunks_exact(2).enumerate() {
        let offered = Point {
            x: pair[0],
            y: pair[1],
        };
        let p = admission_hashed(&places[..k], &hashes, offered)?;
        places[k] = p.point;
        hashes.put(p);
    }
    Ok(())
}

// Whether a claim is the corner listing of the points, begun at any corner.
fn is_outline(taken: RangedPoints<'_>, claim: &[usize]) -> bool
    ensures { result ≡ claim_passes (point_in taken.entry.points.now) (length taken.entry.points.now) claim.now }
{
    if claim.is_empty() {
        return taken.points.is_empty();
    }
    // By number: an edge is a place of the claim and the next one round.
    for i in 0..claim.len() {
        if !is_edge(taken, claim, i) {
            return false;
        }
    }
    true
}

// Whether place i of a claim holds the number of one of the points, and not the first number again, and the other
// points lie beside the edge from it to the number after it, or to the first after the last.
fn is_edge(taken: RangedPoints<'_>, claim: &[usize], i: usize) -> bool
    requires { i < length claim.now }
    ensures { result ≡ edge_at (point_in taken.entry.points.now) (length taken.entry.points.now) claim.now i }
{
    let a = claim[i];
    let next = claim[(i + 1) % claim.len()];
    a < taken.points.len() && (i == 0 || a != claim[0]) && is_supporting_edge(taken, a, next)
}
