// The numbers that stand for the words of answers, and the values after them.

ghost use Rattle.std.specs.Prelude.{◌≡◌, Ok};
ghost use Rattle.model.specs.Plane.{at};
ghost use Rattle.model.specs.Answers.{arrival_answer, placed_answer, walked_answer};
ghost use Rattle.replies.specs.Replies.{arrival_told, place_told, walk_told};

use model::{Arrival, Placed, Point, Refusal};
use orbits::{Ending, Walk};

// The point of two coordinates.
pub fn point(x: i64, y: i64) -> Point
    ensures { result ≡ at x y }
{
    Point { x, y }
}

// The last dart of a walk, the number of its ending, and its moves.
// Functions and no `From`: the numbers are those of the boundary (`walk_told` and its like), not the values' own.
pub fn walk_values(walk: Walk) -> [u64; 3]
    ensures { result ≡ walk_told (walked_answer (Ok walk)) }
{
    let ending = match walk.ending {
        Ending::Home => 0,
        Ending::Loose => 1,
    };
    [walk.last as u64, ending, walk.moves as u64]
}

// The number of a place, or of a refusal, and its values.
pub fn placed_values(placed: Result<Placed, Refusal>) -> [u64; 3]
    ensures { result ≡ place_told (placed_answer placed) }
{
    match placed {
        Ok(Placed::NoOutline) => [0, 0, 0],
        Ok(Placed::Corner(k)) => [1, k as u64, 0],
        Ok(Placed::Edge { from, to }) => [2, from as u64, to as u64],
        Ok(Placed::Inside) => [3, 0, 0],
        Ok(Placed::Outside(visible)) => [4, visible as u64, 0],
        Err(refusal) => [5, usize::from(refusal) as u64, 0],
    }
}

// The number of an arrival, or of a refusal, and its values.
pub fn arrival_values(arrival: Result<Arrival, Refusal>) -> [u64; 4]
    ensures { result ≡ arrival_told (arrival_answer arrival) }
{
    match arrival {
        Ok(Arrival::First) => [0, 0, 0, 0],
        Ok(Arrival::Second) => [1, 0, 0, 0],
        Ok(Arrival::Inside) => [2, 0, 0, 0],
        Ok(
            Arrival::Outside {
                left,
                right,
                visible,
            },
        ) => [3, left as u64, right as u64, visible as u64],
        Err(refusal) => [4, usize::from(refusal) as u64, 0, 0],
    }
}
