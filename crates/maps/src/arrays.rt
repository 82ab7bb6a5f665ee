// Arrays for all darts, filled from a rule: links that move nothing, the point links and the present
// darts of a map.

ghost use Rattle.std.specs.Prelude.{◌≡◌};
ghost use Rattle.finite.specs.Bounded.{table};
ghost use Rattle.orbits.specs.Sets.{dart_limit};
ghost use Rattle.model.specs.Maps.{is_present, point_link};

use model::Map;
use orbits::DART_LIMIT;

// Links that leave every dart where it is.
pub fn fixed_links() -> [usize; DART_LIMIT]
    ensures { result ≡ table dart_limit (λ d. d) }
{
    std::array::from_fn(|d| d)
}

// The point links of a map.
pub fn point_links(map: &Map) -> [usize; DART_LIMIT]
    ensures { result ≡ table dart_limit (point_link map.now) }
{
    let mut links = [0usize; DART_LIMIT];
    for (d, link) in links.iter_mut().enumerate() {
        *link = point_link(map, d);
    }
    links
}

// The partner of dart d by the point link: the other dart of its point, where that has a helper.
#[tactic(auto, unfolding(model::specs::Maps::point_link))]
pub fn point_link(map: &Map, d: usize) -> usize
    ensures { result ≡ point_link map.now d }
{
    if !map.has_helper(d / 2) {
        d
    } else if d % 2 == 0 {
        d + 1
    } else {
        d - 1
    }
}

// Which darts are present in a map.
pub fn present_darts(map: &Map) -> [bool; DART_LIMIT]
    ensures { result ≡ table dart_limit (is_present map.now) }
{
    let mut present = [false; DART_LIMIT];
    for (d, is_present) in present.iter_mut().enumerate() {
        *is_present = map.is_present(d);
    }
    present
}
