// The outline of a map as text: how many bytes it takes, and the bytes, written into a lent list. A
// caller asks for the length first, so that nothing is written before the room is known.
#![tactic(auto)]

pub mod positions;

ghost use Rattle.std.specs.Prelude.{◌≡◌, ◌≤◌, length};
ghost use Rattle.finite.specs.Overwriting.{over};
ghost use Rattle.model.specs.Maps.{point_limit};
ghost use Rattle.model.specs.Outlines.{outline_text};
ghost use Rattle.printing.specs.Writing.{Room, PutAt};
ghost use Rattle.drawings.specs.Positions.{points_at};

use crate::positions::{position_length, positions_length, put_next, put_positions};
use model::{Point, point_in};
use printing::writing::{put_byte, put_word};

// How many bytes the text of an outline takes that has these corners: what opens the positions, the positions and what
// closes them, with the lengths of the words that are written.
// The points and the numbers of the corners stay two parameters: all but the first corner are handed on.
pub fn text_length(points: &[Point], corners: &[usize]) -> usize
    requires { length corners.now ≤ point_limit }
    ensures { result ≡ length (outline_text (points_at points.now corners.now)) }
{
    let count = corners.len();
    if count == 0 {
        return 13;
    }
    let first = point_in(points, corners[0]);
    let positions = positions_length(points, first, &corners[1..]);
    if count == 1 {
        return 7 + positions + 1;
    }
    if count == 2 {
        return 12 + positions + 1;
    }
    let closing = 2 + position_length(first);
    10 + positions + closing + 2
}

#[tactic(auto, using(finite::specs::Overwriting::over_front))]
// Writes that text into a lent list that has room for it; the rest of it stays as it is.
pub fn write_text(points: &[Point], corners: &[usize], lent: &mut [u8])
    requires { length (outline_text (points_at points.now corners.now)) ≤ length lent.old }
    ensures { lent.new ≡ over (outline_text (points_at points.now corners.now)) lent.old }
{
    put_outline(lent, 0, points, corners);
}

// Writes the text of an outline, by the number of its corners. A ring of three or more is closed:
// its first position is written again.
fn put_outline<'a>(lent: &mut [u8], at: usize, points: &'a [Point], corners: &'a [usize]) -> usize
    requires { Room lent.old at (outline_text (points_at points.now corners.now)) }
    ensures { PutAt lent.old at (outline_text (points_at points.now corners.now)) lent.new result }
{
    let count = corners.len();
    if count == 0 {
        return put_word(lent, at, b"POLYGON EMPTY");
    }
    let first = point_in(points, corners[0]);
    let others = &corners[1..];
    if count == 1 {
        let end = put_positions(lent, at, b"POINT (", points, first, others);
        return put_byte(lent, end, b')');
    }
    if count == 2 {
        let end = put_positions(lent, at, b"LINESTRING (", points, first, others);
        return put_byte(lent, end, b')');
    }
    let end = put_positions(lent, at, b"POLYGON ((", points, first, others);
    let closed = put_next(lent, end, first);
    put_word(lent, closed, b"))")
}
