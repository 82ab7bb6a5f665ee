// Positions, each the two coordinates of a point with a space between, and several of them with a
// comma and a space between: their lengths, and writing them at a place of a lent list.

ghost use Rattle.std.specs.Prelude.{◌≡◌, ◌++◌, ◌≤◌, length};
ghost use Rattle.model.specs.Maps.{point_limit};
ghost use Rattle.model.specs.Outlines.{joined, point_text};
ghost use Rattle.printing.specs.Writing.{Room, PutAt};
ghost use Rattle.drawings.specs.Positions.{next_text, points_at};

use model::{Point, point_in};
use printing::writing::{number_length, put_byte, put_number, put_word};

// How many bytes a position takes.
#[tactic(auto, using(crate::proofs::Joined::spelt_most), unfolding(model::specs::Outlines::point_text))]
pub fn position_length(p: Point) -> usize
    ensures { result ≡ length (point_text p) }
{
    number_length(p.x) + 1 + number_length(p.y)
}

// Writes a position.
#[tactic(auto, using(printing::proofs::Overwriting::room_first, printing::proofs::Overwriting::room_second, printing::proofs::Overwriting::wrote_then), unfolding(model::specs::Outlines::point_text))]
fn put_position(lent: &mut [u8], at: usize, p: Point) -> usize
    requires { Room lent.old at (point_text p) }
    ensures { PutAt lent.old at (point_text p) lent.new result }
{
    let x_end = put_number(lent, at, p.x);
    let y_start = put_byte(lent, x_end, b' ');
    put_number(lent, y_start, p.y)
}

// Writes a position that comes after another one.
#[tactic(auto, using(printing::proofs::Overwriting::room_first, printing::proofs::Overwriting::room_second, printing::proofs::Overwriting::wrote_then), unfolding(crate::specs::Positions::next_text, model::specs::Spelling::bytes))]
pub fn put_next(lent: &mut [u8], at: usize, p: Point) -> usize
    requires { Room lent.old at (next_text p) }
    ensures { PutAt lent.old at (next_text p) lent.new result }
{
    let position = put_word(lent, at, b", ");
    put_position(lent, position, p)
}

// How many bytes the positions of a first point and of other ones take. They are a map's corners at
// most.
pub fn positions_length(points: &[Point], first: Point, others: &[usize]) -> usize
    requires { length others.now ≤ point_limit }
    ensures { result ≡ length (joined first (points_at points.now others.now)) }
{
    let mut total = position_length(first);
    for &a in others {
        total += 2 + position_length(point_in(points, a));
    }
    total
}

// Writes a word and the positions of a first point and of other ones.
pub fn put_positions<'a>(
    lent: &mut [u8],
    at: usize,
    word: &'a [u8],
    points: &'a [Point],
    first: Point,
    others: &'a [usize],
) -> usize
    requires { Room lent.old at (word.now ++ joined first (points_at points.now others.now)) }
    ensures { PutAt lent.old at (word.now ++ joined first (points_at points.now others.now)) lent.new result }
{
    let position = put_word(lent, at, word);
    let mut end = put_position(lent, position, first);
    for &a in others {
        end = put_next(lent, end, point_in(points, a));
    }
    end
}
