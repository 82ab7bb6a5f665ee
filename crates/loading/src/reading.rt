// Reading the points of a file that is long enough to hold them, in either version.

ghost use Rattle.std.specs.Prelude.{◌≡◌, ◌+◌, ◌*◌, ◌≤◌, ◌<◌, length};
ghost use Rattle.model.specs.Maps.{point_limit};
ghost use Rattle.model.specs.Saved.{coordinate_in_file, header_length, notes_place, places_in_file};

use layout::HEADER_LENGTH;
use layout::numbers::{number_at, signed};
use model::{POINT_LIMIT, Point};

// The points of a file of so many, and 0, 0 at every other place.
pub(crate) fn points_in(file: &[u8], count: usize) -> [Point; POINT_LIMIT]
    requires { (count ≤ point_limit) × (notes_place count ≤ length file.now) }
    ensures { result ≡ places_in_file file.now count }
{
    let mut points = [Point { x: 0, y: 0 }; POINT_LIMIT];
    // By number: k tells the place in the file and in the list; `enumerate` would name the place of the list too.
    for k in 0..count {
        points[k] = Point {
            x: coordinate_in(file, 2 * k),
            y: coordinate_in(file, 2 * k + 1),
        };
    }
    points
}

// Coordinate i of the points.
fn coordinate_in(file: &[u8], i: usize) -> i64
    requires { header_length + 4 * (i + 1) ≤ length file.now }
    ensures { result ≡ coordinate_in_file file.now i }
{
    signed(number_at(file, HEADER_LENGTH + 4 * i, 4))
}
