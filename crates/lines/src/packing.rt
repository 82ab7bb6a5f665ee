// The answer of a line as one number: a refusal's own number, or one for each arrival. It stays a number:
// there is no heap, and a report keeps the answers of 65,536 lines in an array, 4 bytes each.

ghost use Rattle.std.specs.Prelude.{◌≡◌};
ghost use Rattle.lines.specs.Packing.{Packable, packed, refusal_of, unpacked};

use model::{Arrival, POINT_LIMIT, Refusal};

// The least numbers that stand for arrivals; an outside arrival adds what it reports.
const FIRST: u32 = 11;

const SECOND: u32 = 12;

const INSIDE: u32 = 13;

const OUTSIDE: u32 = 14;

// The number of an answer.
#[tactic(auto, using(crate::proofs::Packed::small_values, model::proofs::Answers::number_most), unfolding(crate::specs::Packing::packed))]
pub fn packed(answer: Result<Arrival, Refusal>) -> u32
    requires { Packable answer }
    ensures { result ≡ packed answer }
{
    match answer {
        Ok(Arrival::First) => FIRST,
        Ok(Arrival::Second) => SECOND,
        Ok(Arrival::Inside) => INSIDE,
        Ok(
            Arrival::Outside {
                left,
                right,
                visible,
            },
        ) => OUTSIDE + (left + POINT_LIMIT * (right + POINT_LIMIT * visible)) as u32,
        Err(refusal) => usize::from(refusal) as u32,
    }
}

// The answer of a number.
#[tactic(auto, unfolding(crate::specs::Packing::unpacked))]
pub fn unpacked(number: u32) -> Result<Arrival, Refusal>
    ensures { result ≡ unpacked number }
{
    match number {
        0..FIRST => Err(refusal_of(number)),
        FIRST => Ok(Arrival::First),
        SECOND => Ok(Arrival::Second),
        INSIDE => Ok(Arrival::Inside),
        _ => {
            let values = (number - OUTSIDE) as usize;
            Ok(Arrival::Outside {
                left: values % POINT_LIMIT,
                right: values / POINT_LIMIT % POINT_LIMIT,
                visible: values / POINT_LIMIT / POINT_LIMIT,
            })
        }
    }
}

// What a line is refused for, by its number; a number that no line gets stands for the last.
#[tactic(auto, unfolding(crate::specs::Packing::refusal_of))]
fn refusal_of(number: u32) -> Refusal
    ensures { result ≡ refusal_of number }
{
    match number {
        2 => Refusal::Full,
        3 => Refusal::OutOfRange,
        4 => Refusal::Repeated,
        _ => Refusal::BadLine,
    }
}
