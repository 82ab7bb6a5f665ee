// Maps of darts: the empty map, and in modules what is asked of points and read from a sound map.
#![tactic(auto)]

ghost use Rattle.std.specs.Prelude.{◌≡◌};
ghost use Rattle.model.specs.Maps.{empty_map};

use model::{Map, NO_DART, NONE_FREED, Note, POINT_LIMIT, Point};

pub mod arrays;
pub mod places;
pub mod support;
pub mod traversal;

// What is noted at a place without a point.
pub const NO_NOTE: Note = Note {
    arrival: 0,
    left: NONE_FREED,
    right: NONE_FREED,
};

// The empty map.
#[tactic(auto, unfolding(model::specs::Maps::empty_map))]
pub fn empty_map() -> Map
    ensures { result ≡ empty_map }
{
    let edge = arrays::fixed_links();
    Map {
        points: [Point { x: 0, y: 0 }; POINT_LIMIT],
        helpers: [false; POINT_LIMIT],
        edge,
        notes: [NO_NOTE; POINT_LIMIT],
        count: 0,
        reference: NO_DART,
    }
}
