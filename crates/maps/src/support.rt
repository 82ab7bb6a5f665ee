// Points that are in range, and whether they lie beside an edge between two of them.

ghost use Rattle.std.specs.Prelude.{◌≡◌, length};
ghost use Rattle.finite.specs.Bounded.{all};
ghost use Rattle.model.specs.Maps.{point_in};
ghost use Rattle.maps.specs.Places.{AllRanged, aside_in};

use model::{Point, Ranged, point_in};
use plane::is_beside;

// Points in range, in a list that is lent: whoever lends it proves it.
#[derive(Clone, Copy)]
pub struct RangedPoints<'a> {
    pub points: &'a [Point],
    pub ghost ranged: { AllRanged points.now },
}

impl RangedPoints<'_> {
    // Point k, which is in range, as a place without a point is.
    pub fn point(self, k: usize) -> Ranged
        ensures { result.point ≡ point_in self.entry.points.now k }
    {
        Ranged {
            point: point_in(self.points, k),
        }
    }
}

// Whether the points, but for a and b, lie beside the edge from a to b. Most do, so that is asked first.
pub fn is_supporting_edge(ranged: RangedPoints<'_>, a: usize, b: usize) -> bool
    ensures { result ≡ all (length ranged.entry.points.now) (aside_in ranged.entry.points.now a b) }
{
    let from = ranged.point(a);
    let to = ranged.point(b);
    for (c, p) in ranged.points.iter().enumerate() {
        if !is_beside(from, to, Ranged { point: *p }) && c != a && c != b {
            return false;
        }
    }
    true
}
