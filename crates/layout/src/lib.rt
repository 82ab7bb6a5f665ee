// The layout of a saved map: numbers in bytes, the places where they stand, and whether a file is in
// form. It is that of model/specs/Saved.
#![tactic(auto)]

ghost use Rattle.std.specs.Prelude.{◌≡◌, ◌+◌, ◌*◌, ◌≤◌, ◌<◌, leb, length};
ghost use Rattle.finite.specs.Bounded.{all};
ghost use Rattle.model.specs.Maps.{point_limit};
ghost use Rattle.model.specs.Saved.{file_in_form, file_in_form_of, number_at};
ghost use Rattle.model.specs.Saved.{helpers_place, links_place, notes_place, saved_length};

use model::POINT_LIMIT;

pub mod numbers;

// The version that is saved, and the one before it, which is still read. They are numbers and no enum:
// what `saved_length` and `file_in_form_of` say holds of any version.
pub const VERSION: usize = 2;

pub const OLD_VERSION: usize = 1;

// Where the numbers of the header stand.
pub const VERSION_PLACE: usize = 4;

pub const COUNT_PLACE: usize = 5;

pub const REFERENCE_PLACE: usize = 7;

// How long the header is.
pub const HEADER_LENGTH: usize = 9;

// How many bytes the file in a version of a map of so many points has.
// Each place asks for a count that a map has: a type for it would be opened at every sum, and is no plainer.
pub fn saved_length(version: usize, count: usize) -> usize
    requires { count ≤ point_limit }
    ensures { result ≡ saved_length version count }
{
    if version == OLD_VERSION {
        notes_place(count)
    } else {
        notes_place(count) + 5 * count
    }
}

// Where the helper bytes begin in the file of a map of so many points.
pub fn helpers_place(count: usize) -> usize
    requires { count ≤ point_limit }
    ensures { result ≡ helpers_place count }
{
    HEADER_LENGTH + 8 * count
}

// Where the edge links begin.
pub fn links_place(count: usize) -> usize
    requires { count ≤ point_limit }
    ensures { result ≡ links_place count }
{
    HEADER_LENGTH + 9 * count
}

// Where the edge links end, and what is noted of the points begins.
pub fn notes_place(count: usize) -> usize
    requires { count ≤ point_limit }
    ensures { result ≡ notes_place count }
{
    HEADER_LENGTH + 13 * count
}

// Whether a file is in form, whatever its bytes and however many.
#[tactic(auto, unfolding(model::specs::Saved::file_in_form))]
pub fn is_in_form(file: &[u8]) -> bool
    ensures { result ≡ file_in_form file.now }
{
    is_in_form_of(file, OLD_VERSION) || is_in_form_of(file, VERSION)
}

// Whether a file is in the form of a version.
fn is_in_form_of(file: &[u8], version: usize) -> bool
    ensures { result ≡ file_in_form_of version file.now }
{
    if file.len() < HEADER_LENGTH {
        return false;
    }
    let count = numbers::number_at(file, COUNT_PLACE, 2);
    if POINT_LIMIT < count {
        return false;
    }
    let length = saved_length(version, count);
    if file.len() != length {
        return false;
    }
    let following = numbers::number_at(file, 0, 4);
    if following != length - VERSION_PLACE {
        return false;
    }
    let found = numbers::number_at(file, VERSION_PLACE, 1);
    if found != version {
        return false;
    }
    let helpers_start = helpers_place(count);
    if !bytes_at_most(file, helpers_start, 1, count, 1) {
        return false;
    }
    if version == OLD_VERSION {
        return true;
    }
    let notes_start = notes_place(count);
    bytes_at_most(file, notes_start, 5, count, 3)
}

// Whether the first byte of each group is at most a limit, for so many groups of a width from a place on. A
// loop: of `(0..count).all(..)` it was not proved that it answers this.
fn bytes_at_most(file: &[u8], at: usize, width: usize, count: usize, limit: usize) -> bool
    requires { (1 ≤ width) × (at + width * count ≤ length file.now) }
    ensures { result ≡ all count (λ k. leb (number_at file.now (at + width * k) 1) limit) }
{
    for k in 0..count {
        if limit < numbers::number_at(file, at + width * k, 1) {
            return false;
        }
    }
    true
}
