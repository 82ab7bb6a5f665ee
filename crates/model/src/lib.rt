// The declared types of the engine: what goes in and what comes out. Their meaning is in specs/. A call
// that can be refused answers a `Result` whose error is a `Refusal`. The functions are what is read of a map
// or of a list of points, and the number of a refusal.
#![tactic(auto)]

ghost use Rattle.std.specs.Prelude.{◌≡◌, T};
ghost use Rattle.model.specs.Refusals.{number};
ghost use Rattle.model.specs.Plane.{in_range};
ghost use Rattle.model.specs.Maps.{edge_link, has_helper, is_present, point, point_in};
ghost use Rattle.model.specs.Outline.{next_corner, previous_corner};
ghost use Rattle.model.specs.Shape.{Shaped};

use orbits::{DART_LIMIT, link_of};

// The most points that a map has.
pub const POINT_LIMIT: usize = 512;

// The reference of a map without outline.
pub const NO_DART: usize = DART_LIMIT;

// The same, as it is noted of a point that freed no dart.
pub const NONE_FREED: u16 = 1024;

// A mark: whole numbers of thousandths of a millimetre.
#[derive(Clone, Copy, PartialEq, Eq)]
pub struct Point {
    pub x: i64,
    pub y: i64,
}

// A point in range: whoever makes one proves it.
#[derive(Clone, Copy)]
pub struct Ranged {
    pub point: Point,
    pub ghost ranged: { T (in_range point) },
}

// What is noted of a point: its arrival (0 first, 1 second, 2 inside, 3 outside), and the darts that it
// freed, the left corner's old partner and the right corner's, or 1,024 for none. They are numbers, as the
// definitions (`note`, `packed_note`) and the file have them.
#[derive(Clone, Copy, PartialEq, Eq)]
pub struct Note {
    pub arrival: u8,
    pub left: u16,
    pub right: u16,
}

// A map of darts. Point k stands at place k of `points` and owns dart 2k; it has the helper dart 2k + 1
// where `helpers` says so. `edge` holds the edge link of each dart; the point link follows from the
// helpers. What is noted of point k stands at place k of `notes`. A place without a point holds the point
// 0, 0 and the note 0, 1,024, 1,024. `reference` is a dart of the outline, or 1,024 for none, as document 01
// has it and the file.
// The arrays stay apart, with the count beside them: there is no heap, `helpers` alone tells the point links and
// the present darts (`point_link_by`, `present_by`), and `edge` has a number for each dart.
#[derive(Clone, Copy)]
pub struct Map {
    pub points: [Point; POINT_LIMIT],
    pub helpers: [bool; POINT_LIMIT],
    pub edge: [usize; DART_LIMIT],
    pub notes: [Note; POINT_LIMIT],
    pub count: usize,
    pub reference: usize,
}

// Point k of a list; a place past it holds 0, 0.
pub fn point_in(points: &[Point], k: usize) -> Point
    ensures { result ≡ point_in points.now k }
{
    points.get(k).copied().unwrap_or(Point { x: 0, y: 0 })
}

// What is read from a map. Every method takes every number: one that is no point or no dart of the map lies
// at 0, 0, has no helper, is absent, and is left where it is.
#[tactic(auto, unfolding(crate::specs::Maps::point, crate::specs::Maps::has_helper, crate::specs::Maps::is_present, crate::specs::Maps::edge_link, crate::specs::Outline::next_corner, crate::specs::Outline::previous_corner,))]
impl Map {
    // Point k.
    pub fn point(&self, k: usize) -> Point
        ensures { result ≡ point self.now k }
    {
        point_in(&self.points, k)
    }

    // Whether point k has a helper dart.
    pub fn has_helper(&self, k: usize) -> bool
        ensures { result ≡ has_helper self.now k }
    {
        self.helpers.get(k).copied().unwrap_or(false)
    }

    // Whether dart d is present.
    pub fn is_present(&self, d: usize) -> bool
        ensures { result ≡ is_present self.now d }
    {
        d / 2 < self.count && (d % 2 == 0 || self.has_helper(d / 2))
    }

    // The edge partner of dart d.
    pub fn edge_link(&self, d: usize) -> usize
        ensures { result ≡ edge_link self.now d }
    {
        link_of(&self.edge, d)
    }

    // The corner after corner a.
    // Two methods, as the definitions have two; the dart is all in which they differ.
    pub fn next_corner(&self, a: usize) -> usize
        ensures { result ≡ next_corner self.now a }
    {
        if a < self.edge.len() {
            self.edge_link(2 * a) / 2
        } else {
            a
        }
    }

    // The corner before corner a.
    pub fn previous_corner(&self, a: usize) -> usize
        ensures { result ≡ previous_corner self.now a }
    {
        if a < self.edge.len() {
            self.edge_link(2 * a + 1) / 2
        } else {
            a
        }
    }
}

// A map of which all holds that document 01 says of a sound one: whoever makes one proves it. The map is lent,
// not copied.
#[derive(Clone, Copy)]
pub struct SoundMap<'a> {
    pub map: &'a Map,
    pub ghost shaped: { Shaped map.now },
}

#[tactic(auto, using(crate::proofs::Shape::place_ranged))]
impl SoundMap<'_> {
    // Point k, which is in range, as a place without a point is.
    pub fn point(self, k: usize) -> Ranged
        ensures { result.point ≡ point self.entry.map.now k }
    {
        Ranged {
            point: self.map.point(k),
        }
    }
}

// Why a call is refused. specs/Refusals gives each its number.
#[derive(Clone, Copy)]
pub enum Refusal {
    NotSound,
    Full,
    OutOfRange,
    Repeated,
    NoDart,
    BadFile,
    BadLine,
    LongText,
    ShortList,
    BadOutline,
    NoSurvey,
    NoPoint,
}

// The number of a refusal.
impl From<Refusal> for usize {
    ghost from_gives = { λ refusal n. n ≡ number refusal };

    #[tactic(auto, unfolding(crate::specs::Refusals::number))]
    fn from(refusal: Refusal) -> usize {
        match refusal {
            Refusal::NotSound => 1,
            Refusal::Full => 2,
            Refusal::OutOfRange => 3,
            Refusal::Repeated => 4,
            Refusal::NoDart => 6,
            Refusal::BadFile => 7,
            Refusal::BadLine => 8,
            Refusal::LongText => 9,
            Refusal::ShortList => 10,
            Refusal::BadOutline => 11,
            Refusal::NoSurvey => 12,
            Refusal::NoPoint => 13,
        }
    }
}

// How an accepted point arrived. Corners are named by their point numbers.
#[derive(Clone, Copy)]
pub enum Arrival {
    First,
    Second,
    Inside,
    Outside {
        left: usize,
        right: usize,
        visible: usize,
    },
}

// The map after an accepted offer, and how the point arrived.
#[derive(Clone, Copy)]
pub struct Offered {
    pub map: Map,
    pub arrival: Arrival,
}

// Which orbit of a dart: its edge, its vertex, its face, or its connected part.
#[derive(Clone, Copy)]
pub enum Kind {
    Edge,
    Vertex,
    Face,
    Part,
}

// The numbers of darts, and of their vertices, edges, faces and connected parts.
#[derive(Clone, Copy)]
pub struct Counts {
    pub darts: usize,
    pub vertices: usize,
    pub edges: usize,
    pub faces: usize,
    pub parts: usize,
}

// By which link a walker is moved.
// `None` is a link, and no `Option`: it is the word of `along`, and of `reach_walker`.
#[derive(Clone, Copy)]
pub enum Link {
    None,
    Edge,
    Point,
}

// Where a query point lies. Corners, and the ends of an edge, are named by their point numbers.
// `NoOutline` is a place, and no `Option`: document 01 has it as an answer, "none".
#[derive(Clone, Copy)]
pub enum Placed {
    NoOutline,
    Corner(usize),
    Edge { from: usize, to: usize },
    Inside,
    Outside(usize),
}
