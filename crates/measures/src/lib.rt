// What is measured of the outline of a sound map: twice its area.
#![tactic(auto)]

ghost use Rattle.std.specs.Prelude.{◌≡◌};
ghost use Rattle.model.specs.Answers.{answer_of};
ghost use Rattle.model.specs.Area.{fan};
ghost use Rattle.measures.specs.Areas.{Fanned, corners_at, sound_area_call};

use corners::listing::corners_of;
use model::{Ranged, Refusal, SoundMap};
use plane::orientation_in_range;

// Twice the area of a sound map's outline, as a fan of triangles from the corner at a place of the listing:
// number 6. Fewer than three points give 0 for any place.
#[tactic(auto, using(crate::proofs::Calls::few_served))]
pub fn area_of(sound: SoundMap<'_>, place: usize) -> Result<i64, Refusal>
    ensures { result ≡ answer_of (sound_area_call sound.entry.map.now place) }
{
    if sound.map.count < 3 {
        return Ok(0);
    }
    let list = corners_of(sound);
    let corners = list.as_slice();
    let Some(&from) = corners.get(place) else {
        return Err(Refusal::NoDart);
    };
    Ok(fan_from(sound, corners, sound.point(from)))
}

// The sum of the triangles from q to the edges that lead round the corners, from the last one to the first and so
// on. No triangle is negative, so no part of the sum is larger than the whole.
fn fan_from(sound: SoundMap<'_>, corners: &[usize], q: Ranged) -> i64
    requires { Fanned sound.map.now corners.now q.point }
    ensures { result ≡ fan q.point (corners_at sound.entry.map.now corners.now) }
{
    let mut total = 0i64;
    let mut a = corners[corners.len() - 1];
    for &b in corners {
        total += orientation_in_range(q, sound.point(a), sound.point(b));
        a = b;
    }
    total
}
