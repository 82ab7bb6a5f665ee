// Why a sound map refuses a point, asked of the map's points: no map is copied for it.
#![tactic(auto)]

pub mod hashes;

ghost use Rattle.admission.specs.Admission.{Admitted};

use maps::places::is_new;
use model::{POINT_LIMIT, Point, Ranged, Refusal};
use plane::ranged;

// A point that is accepted beside the points that a map has, as one in range, or why it is refused.
pub fn admission(points: &[Point], p: Point) -> Result<Ranged, Refusal>
    ensures { Admitted points.now p result }
{
    if POINT_LIMIT <= points.len() {
        return Err(Refusal::Full);
    }
    let accepted = ranged(p)?;
    if !is_new(points, p) {
        return Err(Refusal::Repeated);
    }
    Ok(accepted)
}
