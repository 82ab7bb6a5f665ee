// Where a query point lies.

ghost use Rattle.std.specs.Prelude.{◌≡◌, cond, ◌<◌, ltb};
ghost use Rattle.model.specs.Maps.{point_limit};
ghost use Rattle.model.specs.Placing.{place_among};
ghost use Rattle.corners.specs.Viewing.{side_of, viewed};

use crate::listing::corners_of;
use model::{Placed, Ranged, SoundMap};
use plane::between::are_opposite;
use plane::orientation_in_range;

// How a point lies to an edge: strictly left of it, so that it is visible, in line and strictly
// between its ends, or in line otherwise.
#[derive(Clone, Copy)]
pub enum Side {
    Left,
    Visible,
    Between,
    Beyond,
}

// What is found of a point on the way round the corners: the start of the first edge between whose
// ends it lies; whether it lies left of all edges; and how many are visible.
#[derive(Clone, Copy)]
pub struct View {
    pub start: Option<usize>,
    pub inside: bool,
    pub visible: usize,
}

impl View {
    // What is found with the edge that leaves corner a, to which the point lies on this side. Of several edges between
    // whose ends it lies the first one counts.
    fn with(self, side: Side, a: usize) -> View
        requires { self.visible < point_limit }
        ensures { result ≡ viewed self side a }
    {
        match side {
            Side::Left => self,
            Side::Visible => View {
                inside: false,
                visible: self.visible + 1,
                ..self
            },
            Side::Between => View {
                start: Some(self.start.unwrap_or(a)),
                inside: false,
                ..self
            },
            Side::Beyond => View {
                inside: false,
                ..self
            },
        }
    }
}

// Where p lies in a sound map, once round its corners in listing order.
pub fn placed(sound: SoundMap<'_>, p: Ranged) -> Placed
    ensures { result ≡ cond (ltb sound.entry.map.now.count 2) Placed.NoOutline
        (place_among sound.entry.map.now p.point) }
{
    let map = sound.map;
    if map.count < 2 {
        return Placed::NoOutline;
    }
    let list = corners_of(sound);
    let mut view = View {
        start: None,
        inside: true,
        visible: 0,
    };
    for &a in list.as_slice() {
        let from = sound.point(a);
        if from.point == p.point {
            return Placed::Corner(a);
        }
        let to = sound.point(map.next_corner(a));
        view = view.with(side_of(from, to, p), a);
    }
    match view.start {
        Some(from) => Placed::Edge {
            from,
            to: map.next_corner(from),
        },
        None if view.inside => Placed::Inside,
        None => Placed::Outside(view.visible),
    }
}

// How p lies to the edge from a to b.
#[tactic(auto, unfolding(crate::specs::Viewing::side_of, model::specs::Plane::left_of, model::specs::Plane::visible_from))]
fn side_of(a: Ranged, b: Ranged, p: Ranged) -> Side
    ensures { result ≡ side_of a.point b.point p.point }
{
    let z = orientation_in_range(a, b, p);
    if 0 < z {
        return Side::Left;
    }
    if z < 0 {
        return Side::Visible;
    }
    if !are_opposite(a, b, p) {
        return Side::Beyond;
    }
    Side::Between
}
