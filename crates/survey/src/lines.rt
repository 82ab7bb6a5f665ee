// Lines of a text by their places: what the line at a place names, and where the next one begins.
// A line is read from its front on; in a line that is not in form the line feed is sought from where
// reading stopped. The functions take a text and a place and no `Reader`: `at_end` and `read_at` are
// promised so.

ghost use Rattle.std.specs.Prelude.{◌≡◌, ◌+◌, ◌==◌, not, ltb, drop, get_or, length, take_while};
ghost use Rattle.model.specs.declared.Refusal.{Refusal};
ghost use Rattle.model.specs.Text.{line_read, lines, one_line};
ghost use Rattle.model.specs.Report.{text_limit};
ghost use Rattle.model.specs.Spelling.{line_feed};
ghost use Rattle.survey.specs.Numbers.{front_number, named, number_read};
ghost use Rattle.survey.specs.Places.{at_end, found_at, line_bytes, line_end, read_at};

use super::numbers::{Front, front_number};
use model::{Point, Refusal};

// A text above so many bytes is refused.
pub const TEXT_LIMIT: usize = 65536;

// What a line names, and the place at which the next line begins.
#[derive(Clone, Copy)]
pub struct Read {
    pub line: Result<Point, Refusal>,
    pub next: usize,
}

// Whether a text is too long to be read: number 9.
pub fn is_too_long(text: &[u8]) -> bool
    ensures { result ≡ ltb text_limit (length text.now) }
{
    TEXT_LIMIT < text.len()
}

// The point that a line names which is lent by itself, with its one line feed or without it.
pub fn read_line(line: &[u8]) -> Result<Point, Refusal>
    ensures { result ≡ line_read (one_line (lines line.now)) }
{
    let read = read_at(line, 0);
    if read.next == line.len() {
        read.line
    } else {
        Err(Refusal::BadLine)
    }
}

// Whether no line is left at place `at`.
#[tactic(auto, unfolding(crate::specs::Places::at_end))]
pub fn at_end(text: &[u8], at: usize) -> bool
    ensures { result ≡ at_end text.now at }
{
    text.len() <= at
}

// The line at place `at`; where no line is left, it is refused as a blank one is.
pub fn read_at(text: &[u8], at: usize) -> Read
    ensures { result ≡ read_at text.now at }
{
    match front_at(text, at) {
        Some(Front { value, end }) => {
            let stop = at + end;
            if byte_at(text, stop) == b' ' {
                read_second(text, stop + 1, value)
            } else {
                refused_from(text, stop)
            }
        }
        None => refused_from(text, at),
    }
}

// The line whose first number is x, read on from the second number, at place `at`.
fn read_second(text: &[u8], at: usize, x: i64) -> Read
    ensures { result ≡ found_at (named (Some x) (number_read (line_bytes text.now at))) text.now at }
{
    match front_at(text, at) {
        Some(Front { value, end }) => {
            let stop = at + end;
            let line = Ok(Point { x, y: value });
            match text.get(stop) {
                None => Read { line, next: stop },
                Some(b'\n') => Read {
                    line,
                    next: stop + 1,
                },
                Some(_) => refused_from(text, stop),
            }
        }
        None => refused_from(text, at),
    }
}

// A line that is not in form, from a place within it on: its line feed is sought.
fn refused_from(text: &[u8], at: usize) -> Read
    ensures { result ≡ found_at (Err Refusal.BadLine) text.now at }
{
    let line = Err(Refusal::BadLine);
    let end = line_end(text, at);
    if end < text.len() {
        Read {
            line,
            next: end + 1,
        }
    } else {
        Read { line, next: end }
    }
}

// The place of the line feed of the line at place `at`, or the end of the text. Past the end it is `at`.
fn line_end(text: &[u8], at: usize) -> usize
    ensures { result ≡ line_end text.now at }
{
    match text.get(at..) {
        Some(rest) => at + line_length(rest),
        None => at,
    }
}

// How many bytes stand before the first line feed, or in all.
fn line_length(rest: &[u8]) -> usize
    ensures { result ≡ length (take_while (λ b. not (b == line_feed)) rest.now) }
{
    rest.iter().take_while(|b| **b != b'\n').count()
}

// The number at the front of what stands from place `at` on.
fn front_at(text: &[u8], at: usize) -> Option<Front>
    ensures { result ≡ front_number (drop at text.now) }
{
    front_number(text.get(at..)?)
}

// What stands at a place of a list, or 0 past its end.
// 0 past the end, and no `Option`: so `get_or` of the definitions has it.
pub fn byte_at(list: &[u8], at: usize) -> u8
    ensures { result ≡ get_or list.now at 0 }
{
    list.get(at).copied().unwrap_or(0)
}
