// A map after an arrival: how a point is put and what is noted of it, how links are cut and made, and how a point
// alone, the first two points and every later corner are linked.
#![tactic(auto)]

ghost use Rattle.std.specs.Prelude.{◌≡◌, ◌<◌, true, set};
ghost use Rattle.orbits.specs.Sets.{dart_limit};
ghost use Rattle.orbits.specs.Links.{link_of};
ghost use Rattle.model.specs.Maps.{point_limit, own, helper};
ghost use Rattle.model.specs.Arrival.{alone, cut, freed_by, freeing_by, freeing_none, join, pair, spliced, with_point};
ghost use Rattle.linking.specs.Requires.{Cuttable, Linked, Spliceable};

use model::{Map, NONE_FREED, Note, POINT_LIMIT, Point};
use orbits::{DART_LIMIT, link_of};

// How a point arrived, as it is noted.
// Numbers, as `note` of the definitions and the file have them.
pub const FIRST: u8 = 0;

pub const SECOND: u8 = 1;

pub const INSIDE: u8 = 2;

pub const OUTSIDE: u8 = 3;

// The partner of dart d is fixed.
#[tactic(auto, unfolding(model::specs::Arrival::cut))]
pub fn cut(edge: &mut [usize; DART_LIMIT], d: usize)
    requires { Cuttable edge.old d }
    ensures { edge.new ≡ cut d edge.old }
{
    let e = edge[d];
    edge[e] = e;
}

// Darts a and b are each other's partner.
#[tactic(auto, unfolding(model::specs::Arrival::join))]
pub fn join(edge: &mut [usize; DART_LIMIT], a: usize, b: usize)
    requires { (a < dart_limit) × (b < dart_limit) }
    ensures { edge.new ≡ join a b edge.old }
{
    edge[a] = b;
    edge[b] = a;
}

// Point p is the next one, and this is noted of it.
// This and the functions that call it ask for room: they write the map, and no type that lends it can hold the fact.
#[tactic(auto, unfolding(model::specs::Arrival::with_point))]
fn put_point(map: &mut Map, p: Point, note: Note)
    requires { map.old.count < point_limit }
    ensures { map.new ≡ with_point map.old p note map.old.helpers map.old.edge map.old.reference }
{
    let k = map.count;
    map.points[k] = p;
    map.notes[k] = note;
    map.count = k + 1;
}

// What is noted of an arrival that frees no dart.
fn freeing_none(kind: u8) -> Note
    ensures { result ≡ freeing_none kind }
{
    Note {
        arrival: kind,
        left: NONE_FREED,
        right: NONE_FREED,
    }
}

// What is noted of a point between the corners `left` and `right`, from the links before it.
fn freeing(edge: &[usize], left: usize, right: usize) -> Note
    requires { Linked edge.now left right }
    ensures { result ≡ freeing_by (link_of edge.now) left right }
{
    let own = 2 * left;
    let helper = 2 * right + 1;
    Note {
        arrival: OUTSIDE,
        left: freed(edge, own, helper),
        right: freed(edge, helper, own),
    }
}

// The partner that dart d loses, or none where that is the other dart.
fn freed(edge: &[usize], d: usize, other: usize) -> u16
    requires { link_of edge.now d < dart_limit }
    ensures { result ≡ freed_by (link_of edge.now) d other }
{
    let partner = link_of(edge, d);
    if partner == other {
        NONE_FREED
    } else {
        partner as u16
    }
}

// A point arrives alone: nothing is linked with it.
#[tactic(auto, unfolding(model::specs::Arrival::alone))]
pub fn put_alone(map: &mut Map, kind: u8, p: Point)
    requires { map.old.count < point_limit }
    ensures { map.new ≡ alone kind map.old p }
{
    put_point(map, p, freeing_none(kind));
}

// Points 0 and 1 have helpers, and an edge leads each way between them.
pub fn pair(helpers: &mut [bool; POINT_LIMIT], edge: &mut [usize; DART_LIMIT])
    ensures { (helpers.new ≡ set (set helpers.old 0 true) 1 true)
        × (edge.new ≡ join 2 1 (join 0 3 edge.old)) }
{
    helpers[0] = true;
    helpers[1] = true;
    join(edge, 0, 3);
    join(edge, 2, 1);
}

// Point k is a corner between the corners `left` and `right`.
pub fn splice(
    helpers: &mut [bool; POINT_LIMIT],
    edge: &mut [usize; DART_LIMIT],
    k: usize,
    left: usize,
    right: usize,
)
    requires room { k < point_limit }
    requires linked { Linked edge.old left right }
    ensures { (helpers.new ≡ set helpers.old k true)
        × (edge.new ≡ join (own k) (helper right)
        (join (own left) (helper k) (cut (helper right) (cut (own left) edge.old)))) }
{
    let l = 2 * left;
    let r = 2 * right + 1;
    helpers[k] = true;
    cut(edge, l);
    cut(edge, r);
    join(edge, l, 2 * k + 1);
    join(edge, 2 * k, r);
}

// The second point arrives: it is paired with the first.
#[tactic(auto, unfolding(model::specs::Arrival::pair, model::specs::Arrival::with_point))]
pub fn put_pair(map: &mut Map, p: Point)
    requires { map.old.count < point_limit }
    ensures { map.new ≡ pair map.old p }
{
    put_point(map, p, freeing_none(SECOND));
    pair(&mut map.helpers, &mut map.edge);
    map.reference = 2;
}

// A point arrives between the corners `left` and `right`.
pub fn put_between(map: &mut Map, p: Point, left: usize, right: usize)
    requires { Spliceable map.old left right }
    ensures { map.new ≡ spliced map.old p left right }
{
    let k = map.count;
    let note = freeing(&map.edge, left, right);
    splice(&mut map.helpers, &mut map.edge, k, left, right);
    map.reference = 2 * k;
    put_point(map, p, note);
}
