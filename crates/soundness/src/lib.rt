// Whether a map is sound: its points are offered anew, one after another, and what they build is compared with it.
#![tactic(auto)]

ghost use Rattle.std.specs.Prelude.{◌≡◌};
ghost use Rattle.finite.specs.Bounded.{table};
ghost use Rattle.model.specs.Maps.{empty_map, point_in};
ghost use Rattle.model.specs.Sound.{agree, sound};
ghost use Rattle.soundness.specs.Checking.{Checked};
ghost use Rattle.soundness.specs.Rebuilding.{rebuilt, rebuilt_in};

use admission::hashes::{Hashes, admission_hashed};
use comparing::same;
use hull::grow;
use maps::empty_map;
use model::{Map, Point, Refusal, SoundMap, point_in};

// A map as a sound one, or number 1.
pub fn checked(map: &Map) -> Result<SoundMap<'_>, Refusal>
    ensures { Checked map.now result }
{
    if is_sound(map) {
        Ok(SoundMap { map })
    } else {
        Err(Refusal::NotSound)
    }
}

// Whether a map is sound, whatever its fields hold: any coordinate, link, note or reference, and any count.
pub fn is_sound(map: &Map) -> bool
    ensures { result ≡ sound map.now }
{
    match rebuild(&map.points, map.count) {
        Some(built) => agree(map, &built),
        None => false,
    }
}

// The map of the first points of a list, offered one after another, or none where one is refused.
pub fn rebuild(points: &[Point], count: usize) -> Option<Map>
    ensures { result ≡ rebuilt (table count (point_in points.now)) }
{
    let mut map = empty_map();
    rebuild_in(&mut map, points, count)?;
    Some(map)
}

// The same in a map that is lent, the empty one, for a caller that keeps it: it holds the map, or none where one is
// refused. No map has more than 512 points, so this ends soon whatever the count.
pub fn rebuild_in(map: &mut Map, points: &[Point], count: usize) -> Option<()>
    requires { map.old ≡ empty_map }
    ensures { rebuilt_in result map.new ≡ rebuilt (table count (point_in points.now)) }
{
    let mut hashes = Hashes::empty();
    // By number: the count may go beyond the list, where points lie at 0, 0.
    for k in 0..count {
        let p = point_in(points, k);
        let accepted = admission_hashed(&map.points[..map.count], &hashes, p).ok()?;
        grow(map, accepted.point);
        hashes.put(accepted);
    }
    Some(())
}

// Whether two maps have the same fields.
// Field by field as `agree` of the definitions has it, the numbers first: a derive would compare the points first.
fn agree(m: &Map, n: &Map) -> bool
    ensures { result ≡ agree m.now n.now }
{
    m.count == n.count
        && m.reference == n.reference
        && same(&m.points, &n.points)
        && same(&m.helpers, &n.helpers)
        && same(&m.edge, &n.edge)
        && same(&m.notes, &n.notes)
}
