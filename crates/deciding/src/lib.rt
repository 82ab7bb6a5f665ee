// What becomes of the lines of a text, one after another. One reader goes through the text. A
// refused line asks the points of the map, and an accepted point is put into the map itself: no map is
// copied.
#![tactic(auto)]

ghost use Rattle.deciding.specs.Deciding.{Decidable, DecidedLine, Surveying, Surveys};

use admission::hashes::{Hashes, admission_hashed};
use hull::grow;
use lines::packing::packed;
use model::{Arrival, Map, Point, Refusal};
use survey::lines::TEXT_LIMIT;
use survey::reader::Reader;

// Decides one line: how its point arrives, or why it is refused. An accepted point is put into the
// map, and its hash is set.
fn decide_line(
    map: &mut Map,
    hashes: &mut Hashes,
    line: Result<Point, Refusal>,
) -> Result<Arrival, Refusal>
    requires { Decidable map.old hashes.old line }
    ensures { DecidedLine map.old map.new hashes.new line result }
{
    let p = admission_hashed(&map.points[..map.count], hashes, line?)?;
    let arrival = grow(map, p.point);
    hashes.put(p);
    Ok(arrival)
}

// Decides every line of a text: the answer of each is put down at its number. The reader is made once,
// and has come to the end of the text when the last line is decided. How many lines there are is
// returned, and counted for that.
pub fn survey(
    text: &[u8],
    map: &mut Map,
    hashes: &mut Hashes,
    answers: &mut [u32; TEXT_LIMIT],
) -> usize
    requires { Surveying text.now map.old hashes.old answers.old 0 0 }
    ensures { Surveys text.now map.new answers.new result }
{
    let mut lines = 0;
    let reader = Reader { text, at: 0 };
    for line in reader {
        let answer = decide_line(map, hashes, line);
        answers[lines] = packed(answer);
        lines += 1;
    }
    lines
}
