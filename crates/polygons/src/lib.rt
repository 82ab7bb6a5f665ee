// Outlines as text, read: the corners that a text spells, by the word at its front.
#![tactic(auto)]

ghost use Rattle.std.specs.Prelude.{◌≡◌, T};
ghost use Rattle.model.specs.Outlines.{starts_with};
ghost use Rattle.polygons.specs.Spellings.{CornersRead, ReadBetween, Ready, counted_as, ring_as};

use model::{POINT_LIMIT, Point};
use plane::is_same;
use positions::words::{is_word, starts_with};
use positions::{Listed, read_positions};

// Corners that were read: how many, and whether all are in range.
#[derive(Clone, Copy)]
pub struct Corners {
    pub count: usize,
    // Beside the count, and no `Option`: number 3 is given only where all else is in form.
    pub ranged: bool,
}

// Reads the corners that a text spells, however many they are, and keeps the first POINT_LIMIT of them.
pub fn read_corners(text: &[u8], points: &mut [Point; POINT_LIMIT]) -> Option<Corners>
    requires { Ready points.old }
    ensures { CornersRead text.now result points.new }
{
    if is_word(text, b"POLYGON EMPTY") {
        return Some(Corners {
            count: 0,
            ranged: true,
        });
    }
    if starts_with(text, b"POINT (") {
        return counted(read_between(text, b"POINT (", b")", points), 1);
    }
    if starts_with(text, b"LINESTRING (") {
        return counted(read_between(text, b"LINESTRING (", b")", points), 2);
    }
    if starts_with(text, b"POLYGON ((") {
        let listed = read_between(text, b"POLYGON ((", b"))", points);
        return ring(listed, points[0]);
    }
    None
}

// Reads the positions of a text between the word at its front and its closing.
fn read_between(
    text: &[u8],
    opening: &[u8],
    closing: &[u8],
    points: &mut [Point; POINT_LIMIT],
) -> Option<Listed>
    requires { T (starts_with opening.now text.now) }
    ensures { ReadBetween opening.now closing.now text.now result points.old points.new }
{
    read_positions(&text[opening.len()..], closing, points)
}

// Just n positions.
#[tactic(auto, unfolding(crate::specs::Spellings::counted_as))]
fn counted(listed: Option<Listed>, n: usize) -> Option<Corners>
    ensures { result ≡ counted_as n listed }
{
    let Listed { count, ranged, .. } = listed?;
    if count == n {
        Some(Corners { count, ranged })
    } else {
        None
    }
}

// Four positions or more, of which the last is the first again.
#[tactic(auto, unfolding(crate::specs::Spellings::ring_as))]
fn ring(listed: Option<Listed>, first: Point) -> Option<Corners>
    ensures { result ≡ ring_as first listed }
{
    let Listed {
        count,
        ranged,
        last,
    } = listed?;
    if 4 <= count && is_same(first, last) {
        Some(Corners {
            count: count - 1,
            ranged,
        })
    } else {
        None
    }
}
