// The arrival of a point in a map: why an offered point is refused, or how it arrives.
#![tactic(auto)]

ghost use Rattle.std.specs.Prelude.{◌≡◌};
ghost use Rattle.model.specs.Arrival.{admitted, arrive, arrived, later_point};
ghost use Rattle.sight.specs.Requires.{Accepted, OutlineFor};

use admission::admission;
use linking::{FIRST, INSIDE, put_alone, put_between, put_pair};
use model::{Arrival, Map, Offered, Point, Refusal, SoundMap};
use sight::{Outlook, seen_from};

// A point offered to a sound map: the map after it and how the point arrived, or why it is refused.
pub fn admitted(sound: SoundMap<'_>, p: Point) -> Result<Offered, Refusal>
    ensures { result ≡ admitted sound.entry.map.now p }
{
    let map = sound.map;
    admission(&map.points[..map.count], p)?;
    let mut grown = *map;
    let arrival = grow(&mut grown, p);
    Ok(Offered {
        map: grown,
        arrival,
    })
}

// The arrival of a point that is not refused, written into the map: no map is copied. The map is written, so it is
// no `SoundMap`, which is only lent.
pub fn grow(map: &mut Map, p: Point) -> Arrival
    requires { Accepted map.old p }
    ensures { arrived result map.new ≡ arrive map.old p }
{
    if map.count == 0 {
        put_alone(map, FIRST, p);
        return Arrival::First;
    }
    if map.count == 1 {
        put_pair(map, p);
        return Arrival::Second;
    }
    grow_later(map, p)
}

// The arrival in a map that has an outline: inside if no edge of it is visible, otherwise outside.
fn grow_later(map: &mut Map, p: Point) -> Arrival
    requires { OutlineFor map.old p }
    ensures { arrived result map.new ≡ later_point map.old p }
{
    let seen = seen_from(Outlook { map, point: p });
    if seen.visible == 0 {
        put_alone(map, INSIDE, p);
        return Arrival::Inside;
    }
    put_between(map, p, seen.left, seen.right);
    Arrival::Outside {
        left: seen.left,
        right: seen.right,
        visible: seen.visible,
    }
}
