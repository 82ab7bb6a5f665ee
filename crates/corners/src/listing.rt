// The corners of a map in listing order.

ghost use Rattle.std.specs.Prelude.{◌≡◌, ◌≤◌, length};
ghost use Rattle.finite.specs.Overwriting.{over};
ghost use Rattle.corners.specs.Listing.{ListsCorners, listed, lower_of, lowest_round};

use model::{Map, POINT_LIMIT, SoundMap};
use plane::lower::is_lower;

// The corners of a map are the first `count` of `points`, in listing order. There is no heap, so they stand in an array
// for as many as a map can have.
#[derive(Clone, Copy)]
pub struct CornerList {
    pub points: [usize; POINT_LIMIT],
    pub count: usize,
}

impl CornerList {
    // The corners.
    pub fn as_slice(&self) -> &[usize]
        ensures { result.now ≡ listed self.now }
    {
        &self.points[..self.count.min(POINT_LIMIT)]
    }
}

// The corners of a sound map: the lowest first, and then anticlockwise. One point lists itself.
pub fn corners_of(sound: SoundMap<'_>) -> CornerList
    ensures { ListsCorners sound.entry.map.now result }
{
    let map = sound.map;
    let mut points = [0usize; POINT_LIMIT];
    let count = map.count;
    if count < 2 {
        return CornerList { points, count };
    }
    let first = lowest_corner(map, map.reference / 2);
    let mut a = first;
    // By number: a walk of at most so many corners, which fills the places from the first on.
    for i in 0..count {
        points[i] = a;
        a = map.next_corner(a);
        if a == first {
            return CornerList {
                points,
                count: i + 1,
            };
        }
    }
    CornerList { points, count }
}

// The lowest corner round from corner `start`, of at most so many as the map has points: the smallest y, then the
// smallest x.
fn lowest_corner(map: &Map, start: usize) -> usize
    ensures { result ≡ lowest_round map.now start }
{
    let mut lowest = start;
    let mut a = start;
    // A walk of at most so many corners; no number is counted.
    for _ in 0..map.count {
        lowest = lower_of(map, lowest, a);
        a = map.next_corner(a);
        if a == start {
            break;
        }
    }
    lowest
}

// The lower one of points a and b; a where neither is lower.
fn lower_of(map: &Map, a: usize, b: usize) -> usize
    ensures { result ≡ lower_of map.now a b }
{
    if is_lower(map.point(b), map.point(a)) {
        b
    } else {
        a
    }
}

// Writes the corners into a lent list that has room for them; the rest of it stays as it is.
pub fn write_corners(list: &CornerList, lent: &mut [usize])
    requires { list.now.count ≤ length lent.old }
    ensures { lent.new ≡ over (listed list.now) lent.old }
{
    let corners = list.as_slice();
    lent[..corners.len()].copy_from_slice(corners);
}
