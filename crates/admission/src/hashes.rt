// The hashes of the points that a map has, as a list of which are set: a point whose hash is not set is
// none of them, and need not be compared with each.

ghost use Rattle.std.specs.Prelude.{◌≡◌, false, get_or};
ghost use Rattle.admission.specs.Admission.{Admitted};
ghost use Rattle.admission.specs.Hashes.{AllHashed, hash, no_hashes, with_hash};

use maps::places::is_new;
use model::{POINT_LIMIT, Point, Ranged, Refusal};
use plane::{COORDINATE_LIMIT, ranged};

// How many hashes there are.
pub const HASH_COUNT: usize = 16384;

// How far the hashes of two points lie apart of which one stands above the other.
const HASH_ROW: i64 = 2039;

// Which hashes are set.
#[derive(Clone, Copy)]
pub struct Hashes {
    pub set: [bool; HASH_COUNT],
}

#[tactic(auto, using(crate::proofs::Hashing::hash_below))]
impl Hashes {
    // No hash is set.
    pub fn empty() -> Self
        ensures { result ≡ no_hashes }
    {
        Hashes {
            set: [false; HASH_COUNT],
        }
    }

    // The hash of a point is set.
    pub fn put(&mut self, p: Ranged)
        ensures { self.new ≡ with_hash self.old p.point }
    {
        let k = hash(p);
        self.set[k] = true;
    }

    // Whether the hash of a point is set.
    fn has(&self, p: Ranged) -> bool
        ensures { result ≡ get_or self.now.set (hash p.point) false }
    {
        let k = hash(p);
        self.set[k]
    }
}

// A point that is accepted, as one in range, or why it is refused, where the hashes of the map's points are set: a
// point in range whose hash is not set is none of them, and is refused only by a full map.
// The rules of `admission`, one after another, with the hash asked before the points: to call `admission` for the rest
// would test the first two rules again for each repeated point.
pub fn admission_hashed(points: &[Point], hashes: &Hashes, p: Point) -> Result<Ranged, Refusal>
    requires { AllHashed points.now hashes.now }
    ensures { Admitted points.now p result }
{
    if POINT_LIMIT <= points.len() {
        return Err(Refusal::Full);
    }
    let accepted = ranged(p)?;
    if !hashes.has(accepted) {
        return Ok(accepted);
    }
    if !is_new(points, p) {
        return Err(Refusal::Repeated);
    }
    Ok(accepted)
}

// The hash of a point.
fn hash(p: Ranged) -> usize
    ensures { result ≡ hash p.point }
{
    let column = p.point.x + COORDINATE_LIMIT;
    let row = p.point.y + COORDINATE_LIMIT;
    (column + HASH_ROW * row) as usize % HASH_COUNT
}
