// Whether a point is none of others.

ghost use Rattle.std.specs.Prelude.{◌≡◌};
ghost use Rattle.maps.specs.Places.{new_in};

use model::Point;

// Whether p is none of the points.
pub fn is_new(points: &[Point], p: Point) -> bool
    ensures { result ≡ new_in points.now p }
{
    !points.contains(&p)
}
