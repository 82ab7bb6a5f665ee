// Positions in a text: two numbers with one space between, and positions one after another; and words.
#![tactic(auto)]

pub mod words;

ghost use Rattle.std.specs.Prelude.{◌≡◌, ◌&&◌, set};
ghost use Rattle.model.specs.Plane.{in_range};
ghost use Rattle.positions.specs.Positions.{front_position, step, ReadAll};

use crate::words::{is_word, starts_with};
use model::{POINT_LIMIT, Point};
use plane::in_range;
use survey::lines::byte_at;
use survey::numbers::front_number;

// A position at the front of a list, and how many bytes it takes.
#[derive(Clone, Copy)]
pub struct Position {
    pub point: Point,
    pub size: usize,
}

// One position of a list: the last, with the closing word after it, or one with a comma and a space
// after it, and then how many bytes it takes with them.
#[derive(Clone, Copy)]
pub struct Step {
    pub point: Point,
    pub more: Option<usize>,
}

// Positions that were read: how many, whether all are in range, and the last of them.
// The points stand in a lent array, since there is no heap, and the count may be more than it holds.
#[derive(Clone, Copy)]
pub struct Listed {
    pub count: usize,
    // Beside the count, and no `Option`: number 3 is given only where all else is in form.
    pub ranged: bool,
    pub last: Point,
}

// The position at the front of a list: two numbers with one space between.
pub fn front_position(s: &[u8]) -> Option<Position>
    ensures { result ≡ front_position s.now }
{
    let first = front_number(s)?;
    if byte_at(s, first.end) != b' ' {
        return None;
    }
    let second = front_number(&s[first.end + 1..])?;
    Some(Position {
        point: Point {
            x: first.value,
            y: second.value,
        },
        size: first.end + 1 + second.end,
    })
}

// The position at the front of a list, by what stands after it.
pub fn next_position(s: &[u8], closing: &[u8]) -> Option<Step>
    ensures { result ≡ step closing.now s.now }
{
    let Position { point, size } = front_position(s)?;
    let rest = &s[size..];
    if starts_with(rest, b", ") {
        return Some(Step {
            point,
            more: Some(size + 2),
        });
    }
    if is_word(rest, closing) {
        return Some(Step { point, more: None });
    }
    None
}

// Reads positions up to the closing word and the end of the text, however many they are, and keeps
// the first POINT_LIMIT of them.
pub fn read_positions(s: &[u8], closing: &[u8], points: &mut [Point; POINT_LIMIT]) -> Option<Listed>
    ensures { ReadAll closing.now s.now result points.old points.new }
{
    let mut place = 0;
    let mut count = 0;
    let mut ranged = true;
    // By how many bytes each position takes, which no range tells beforehand.
    loop {
        let step = next_position(&s[place..], closing)?;
        keep(points, count, step.point);
        count += 1;
        ranged = still_ranged(ranged, step.point);
        match step.more {
            Some(size) => place += size,
            None => {
                return Some(Listed {
                    count,
                    ranged,
                    last: step.point,
                });
            }
        }
    }
}

// Keeps a point at place k, where there is such a place.
fn keep(points: &mut [Point; POINT_LIMIT], k: usize, p: Point)
    ensures { points.new ≡ set points.old k p }
{
    if k < POINT_LIMIT {
        points[k] = p;
    }
}

// Whether all so far are in range, and one point more.
fn still_ranged(before: bool, p: Point) -> bool
    ensures { result ≡ (before && in_range p) }
{
    before && in_range(p)
}
