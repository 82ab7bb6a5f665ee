// What entries check before they call an inner function.

ghost use Rattle.engine.specs.Checks.{CheckedDart};

use model::{Map, Refusal, SoundMap};
use soundness::checked;

// The map as a sound one where a dart of it is present: numbers 1 and 6.
pub fn check_dart(map: &Map, dart: usize) -> Result<SoundMap<'_>, Refusal>
    ensures { CheckedDart map.now dart result }
{
    let sound = checked(map)?;
    if !map.is_present(dart) {
        return Err(Refusal::NoDart);
    }
    Ok(sound)
}

#[cfg(test)]
mod tests {
    use super::check_dart;
    use crate::{empty_map, offer};
    use model::{Map, Point};

    // The number that a dart is refused with, or 0 where the map is handed on.
    fn number(map: &Map, dart: usize) -> usize {
        match check_dart(map, dart) {
            Ok(_) => 0,
            Err(refusal) => usize::from(refusal),
        }
    }

    // The numbers are those of the table of refusals, and the darts those of one point and of two.
    #[test]
    fn numbers_of_darts(rt: HostRuntime) {
        let empty = empty_map();
        assert_eq!(rt; number(&empty, 0), 6);
        let one = offer(&empty, Point { x: 3, y: -4 })
            .ok()
            .expect(&rt, "the first point")
            .map;
        assert_eq!(rt; number(&one, 0), 0);
        assert_eq!(rt; number(&one, 1), 6);
        let mut two = offer(&one, Point { x: 3, y: 5 })
            .ok()
            .expect(&rt, "the second point")
            .map;
        assert_eq!(rt; number(&two, 3), 0);
        assert_eq!(rt; number(&two, 4), 6);
        // 1 comes before 6
        two.reference = 0;
        assert_eq!(rt; number(&two, 3), 1);
        assert_eq!(rt; number(&two, 4), 1);
    }
}
