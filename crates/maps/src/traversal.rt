// What is read from a sound map dart by dart: the orbit of a dart, the counts, the walk from a dart,
// and a walker moved by a link of the map. No map is copied.

ghost use Rattle.std.specs.Prelude.{◌≡◌, ◌≤◌, T};
ghost use Rattle.orbits.specs.Walks.{walk, walker_at};
ghost use Rattle.model.specs.Maps.{point_limit, is_present, edge_link, point_link};
ghost use Rattle.model.specs.Reading.{along, orbit_set, counts, darts};

use super::arrays::{point_link, point_links, present_darts};
use model::{Counts, Kind, Link, Map, SoundMap};
use orbits::steps::walk;
use orbits::{DartSet, Walk, Walker, compose, orbit, orbit_count, part};

// The orbit of a present dart: its edge, its vertex, its face, or its connected part.
pub fn orbit_of(sound: SoundMap<'_>, kind: Kind, d: usize) -> DartSet
    requires { T (is_present sound.map.now d) }
    ensures { result ≡ orbit_set sound.entry.map.now kind d }
{
    let map = sound.map;
    let n = map.count;
    let point = point_links(map);
    // A case for each kind, as `links_of` of the definitions has it: a closure would name the same four.
    match kind {
        Kind::Edge => orbit(&map.edge, d),
        Kind::Vertex => orbit(&point, d),
        Kind::Face => {
            let mut face = point;
            compose(&map.edge, &point, 2 * n, &mut face);
            orbit(&face, d)
        }
        Kind::Part => part(&map.edge, &point, d),
    }
}

// The numbers of darts, vertices, edges, faces and connected parts. Since the numbers balance, vertices +
// edges + faces - darts = 2 × parts, no part has to be visited for its own sake.
pub fn counts_of(sound: SoundMap<'_>) -> Counts
    ensures { result ≡ counts sound.entry.map.now }
{
    let map = sound.map;
    let n = map.count;
    let point = point_links(map);
    let mut face = point;
    compose(&map.edge, &point, 2 * n, &mut face);
    let present = present_darts(map);
    let darts = dart_count(map);
    let vertices = orbit_count(&point, 2 * n, &present);
    let edges = orbit_count(&map.edge, 2 * n, &present);
    let faces = orbit_count(&face, 2 * n, &present);
    Counts {
        darts,
        vertices,
        edges,
        faces,
        parts: (vertices + edges + faces - darts) / 2,
    }
}

// How many darts are present.
fn dart_count(map: &Map) -> usize
    requires { map.now.count ≤ point_limit }
    ensures { result ≡ darts map.now }
{
    let mut darts = 0;
    // By number: d is a dart that the map is asked of; a chain would have to name the sum's step beside it.
    for d in 0..2 * map.count {
        darts += map.is_present(d) as usize;
    }
    darts
}

// The walk from a dart, edge and point in turn. It takes any map of at most 512 points, and not a `SoundMap`, which
// would ask more than it did.
pub fn walk_of(map: &Map, d: usize) -> Walk
    requires { map.now.count ≤ point_limit }
    ensures { result ≡ walk (edge_link map.now) (point_link map.now) (darts map.now) d }
{
    let n = map.count;
    let point = point_links(map);
    let darts = dart_count(map);
    walk(&map.edge, &point, darts, d)
}

// A walker moved by a link of the map, or by none.
#[tactic(auto, unfolding(model::specs::Reading::along))]
pub fn moved(map: &Map, link: Link, walker: Walker) -> Walker
    ensures { result ≡ walker_at (along link map.now walker.dart) }
{
    // A case for each link, as `along` has it.
    match link {
        Link::None => walker,
        Link::Edge => Walker::starting_at(map.edge_link(walker.dart)),
        Link::Point => Walker::starting_at(point_link(map, walker.dart)),
    }
}
