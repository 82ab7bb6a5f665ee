// The map of a file, after the checks of a call: the file's own, and then those of a dart or of a
// point.

ghost use Rattle.model.specs.Reading.{dart_rules};
ghost use Rattle.model.specs.Placing.{place_call};
ghost use Rattle.replies.specs.Opened.{Opened, of_file};

use engine::files::load;
use model::{Map, Point, Refusal};
use plane::in_range;

// The map of a file, for a call about one of its darts.
pub fn load_at(file: &[u8], dart: usize) -> Result<Map, Refusal>
    ensures { Opened
        file.now (of_file file.now (λ m. dart_rules m dart)) result }
{
    let map = load(file)?;
    if !map.is_present(dart) {
        return Err(Refusal::NoDart);
    }
    Ok(map)
}

// The map of a file, for a call about a query point.
pub fn load_near(file: &[u8], p: Point) -> Result<Map, Refusal>
    ensures { Opened file.now
        (of_file file.now (λ m. (place_call m p).rules)) result }
{
    let map = load(file)?;
    if !in_range(p) {
        return Err(Refusal::OutOfRange);
    }
    Ok(map)
}
