// The printed lines of answers, written at a place of a lent list, each with its length.

ghost use Rattle.std.specs.Prelude.{◌≡◌, [], ◌∷◌, ◌≤◌, pos, length};
ghost use Rattle.model.specs.Spelling.{space, spelt};
ghost use Rattle.model.specs.Maps.{point_limit};
ghost use Rattle.model.specs.Answers.{arrival_answer, refused};
ghost use Rattle.model.specs.Report.{printed};
ghost use Rattle.printing.specs.Writing.{Room, PutAt};
ghost use Rattle.printing.specs.Printing.{answer_line, arrival_line, values_spaced};

use super::writing::{natural_length, put_byte, put_natural, put_word};
use model::{Arrival, Refusal};

// Writes what an offered point is answered, after the number of the survey's line.
pub fn put_arrival(
    lent: &mut [u8],
    at: usize,
    line: usize,
    answer: Result<Arrival, Refusal>,
) -> usize
    requires { Room lent.old at (arrival_line line answer) }
    ensures { PutAt lent.old at (arrival_line line answer) lent.new result }
{
    let after_number = put_natural(lent, at, line as u64);
    let after_space = put_byte(lent, after_number, b' ');
    put_arrival_answer(lent, after_space, answer)
}

// How many bytes that takes.
pub fn arrival_length(line: usize, answer: Result<Arrival, Refusal>) -> usize
    ensures { result ≡ length (arrival_line line answer) }
{
    natural_length(line as u64) + 1 + arrival_answer_length(answer)
}

// Writes the word of an arrival or of a refusal, its values and a line feed.
fn put_arrival_answer(lent: &mut [u8], at: usize, answer: Result<Arrival, Refusal>) -> usize
    requires { Room lent.old at (printed (arrival_answer answer)) }
    ensures { PutAt lent.old at (printed (arrival_answer answer)) lent.new result }
{
    match answer {
        Ok(Arrival::First) => put_line(lent, at, b"first"),
        Ok(Arrival::Second) => put_line(lent, at, b"second"),
        Ok(Arrival::Inside) => put_line(lent, at, b"inside"),
        Ok(
            Arrival::Outside {
                left,
                right,
                visible,
            },
        ) => put_answer(lent, at, b"outside", &[left, right, visible]),
        Err(refusal) => put_refused(lent, at, refusal),
    }
}

fn arrival_answer_length(answer: Result<Arrival, Refusal>) -> usize
    ensures { result ≡ length (printed (arrival_answer answer)) }
{
    match answer {
        Ok(Arrival::First) => 6,
        Ok(Arrival::Second) => 7,
        Ok(Arrival::Inside) => 7,
        Ok(
            Arrival::Outside {
                left,
                right,
                visible,
            },
        ) => 8 + values_length(&[left, right, visible]),
        Err(refusal) => refused_length(refusal),
    }
}

// Writes the line of a refusal.
#[tactic(auto, unfolding(model::specs::Answers::arrival_answer, model::specs::Report::printed, model::specs::Spelling::bytes, crate::specs::Printing::answer_line))]
pub fn put_refused(lent: &mut [u8], at: usize, refusal: Refusal) -> usize
    requires { Room lent.old at (printed (refused refusal)) }
    ensures { PutAt lent.old at (printed (refused refusal)) lent.new result }
{
    put_answer(lent, at, b"refused", &[usize::from(refusal)])
}

// How many bytes the line of a refusal takes.
pub fn refused_length(refusal: Refusal) -> usize
    ensures { result ≡ length (printed (refused refusal)) }
{
    8 + values_length(&[usize::from(refusal)])
}

// Writes a value after a space.
fn put_value(lent: &mut [u8], at: usize, value: usize) -> usize
    requires { Room lent.old at (space ∷ spelt (pos value)) }
    ensures { PutAt lent.old at (space ∷ spelt (pos value)) lent.new result }
{
    let digits = put_byte(lent, at, b' ');
    put_natural(lent, digits, value as u64)
}

// Writes values, each after a space.
pub fn put_values(lent: &mut [u8], at: usize, values: &[usize]) -> usize
    requires { Room lent.old at (values_spaced values.now) }
    ensures { PutAt lent.old at (values_spaced values.now) lent.new result }
{
    let mut end = at;
    for value in values {
        end = put_value(lent, end, *value);
    }
    end
}

// How many bytes values take. They are a map's corners at most.
pub fn values_length(values: &[usize]) -> usize
    requires { length values.now ≤ point_limit }
    ensures { result ≡ length (values_spaced values.now) }
{
    let mut total = 0;
    for value in values {
        total += 1 + natural_length(*value as u64);
    }
    total
}

// Writes a line of a word and its values.
pub fn put_answer(lent: &mut [u8], at: usize, word: &[u8], values: &[usize]) -> usize
    requires { Room lent.old at (answer_line word.now values.now) }
    ensures { PutAt lent.old at (answer_line word.now values.now) lent.new result }
{
    let after_word = put_word(lent, at, word);
    let after_values = put_values(lent, after_word, values);
    put_byte(lent, after_values, b'\n')
}

// Writes a line of a word alone.
pub fn put_line(lent: &mut [u8], at: usize, word: &[u8]) -> usize
    requires { Room lent.old at (answer_line word.now []) }
    ensures { PutAt lent.old at (answer_line word.now []) lent.new result }
{
    let after_word = put_word(lent, at, word);
    put_byte(lent, after_word, b'\n')
}
