// Corners that some survey lists: read from a text, tested, and written as coordinates.
#![tactic(auto)]

ghost use Rattle.std.specs.Prelude.{◌≡◌, ◌&&◌, ◌*◌, ◌≤◌, leb, length, take};
ghost use Rattle.std.specs.List.{list_all};
ghost use Rattle.finite.specs.Overwriting.{over};
ghost use Rattle.model.specs.Plane.{left_of, lower};
ghost use Rattle.model.specs.Maps.{point_limit};
ghost use Rattle.model.specs.Outlines.{coordinates, listable, lowest_is_first};
ghost use Rattle.maps.specs.Places.{AllRanged};
ghost use Rattle.polygons.specs.Spellings.{Ready};
ghost use Rattle.listings.specs.Listings.{CoordinatesWritten, ListingRead, turn_at, turns_at};

use maps::support::RangedPoints;
use model::{POINT_LIMIT, Point, Ranged, Refusal};
use plane::lower::is_lower;
use plane::orientation_in_range;
use polygons::{Corners, read_corners};
use survey::lines::is_too_long;

// Reads the corners of a text, and writes their coordinates into a lent list, x and y in turn: numbers 9, 11,
// 3, 12, and 10, which a caller also asks for that has no room for their number.
// `room` is a flag, since number 10 comes after the numbers that only this function finds.
pub fn read_outline(text: &[u8], lent: &mut [i64], room: bool) -> Result<usize, Refusal>
    ensures { CoordinatesWritten text.now room lent.old lent.new result }
{
    let mut points = [Point { x: 0, y: 0 }; POINT_LIMIT];
    let count = read_listing(text, &mut points)?;
    let length = 2 * count;
    if lent.len() < length || !room {
        return Err(Refusal::ShortList);
    }
    write_coordinates(&points[..count], lent);
    Ok(length)
}

// Reads the corners of a text into an array, and answers how many they are: numbers 9, 11, 3 and 12.
fn read_listing(text: &[u8], points: &mut [Point; POINT_LIMIT]) -> Result<usize, Refusal>
    requires { Ready points.old }
    ensures { ListingRead text.now result points.new }
{
    if is_too_long(text) {
        return Err(Refusal::LongText);
    }
    let Corners { count, ranged } = read_corners(text, points).ok_or(Refusal::BadOutline)?;
    if !ranged {
        return Err(Refusal::OutOfRange);
    }
    if !is_listable(points, count) {
        return Err(Refusal::NoSurvey);
    }
    Ok(count)
}

// Writes the coordinates of points over the front of a lent list that has room for them, x and y in turn.
fn write_coordinates(points: &[Point], lent: &mut [i64])
    requires { 2 * length points.now ≤ length lent.old }
    ensures { lent.new ≡ over (coordinates points.now) lent.old }
{
    for (k, p) in points.iter().enumerate() {
        lent[2 * k] = p.x;
        lent[2 * k + 1] = p.y;
    }
}

// Whether some survey lists the first n points: not too many, the lowest first, and all of them beside
// the edge from each to the next one round. Since the first is the lowest, it is enough that they turn left.
fn is_listable(points: &[Point; POINT_LIMIT], n: usize) -> bool
    requires { AllRanged points.now }
    ensures { result ≡ (leb n point_limit && listable (take n points.now)) }
{
    match points.get(..n) {
        Some(corners) => lowest_is_first(corners) && turn_left(RangedPoints { points: corners }),
        None => false,
    }
}

// Whether the first of them is lower than every other one.
fn lowest_is_first(corners: &[Point]) -> bool
    ensures { result ≡ lowest_is_first corners.now }
{
    match corners.split_first() {
        Some((first, others)) => is_lowest(*first, others),
        None => true,
    }
}

// Whether a point is lower than others.
fn is_lowest(first: Point, others: &[Point]) -> bool
    ensures { result ≡ list_all (λ p. lower first p) others.now }
{
    others.iter().all(|p| is_lower(first, *p))
}

// Whether points turn left all the way, and as the first one sees them: then they go round once. By index:
// of `windows(3).all(..)` it was not proved that the closure may be called, which asks points in range.
fn turn_left(corners: RangedPoints<'_>) -> bool
    ensures { result ≡ turns_at corners.entry.points.now }
{
    for k in 2..corners.points.len() {
        if !turns_left_to(corners, k) {
            return false;
        }
    }
    true
}

// Whether point k is reached by a left turn from the two points before it, and from the first point and the
// one before it.
fn turns_left_to(corners: RangedPoints<'_>, k: usize) -> bool
    requires { 2 ≤ k }
    ensures { result ≡ turn_at corners.entry.points.now k }
{
    let corner = corners.point(k - 1);
    let p = corners.point(k);
    is_left(corners.point(0), corner, p) && is_left(corners.point(k - 2), corner, p)
}

// Whether c lies strictly left of the edge from a to b.
#[tactic(auto, unfolding(model::specs::Plane::left_of))]
fn is_left(a: Ranged, b: Ranged, c: Ranged) -> bool
    ensures { result ≡ left_of a.point b.point c.point }
{
    0 < orientation_in_range(a, b, c)
}
