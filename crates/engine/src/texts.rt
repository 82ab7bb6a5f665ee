// The entries over texts: what a line names, and the report on a survey text.

ghost use Rattle.std.specs.Prelude.{◌≤◌, length};
ghost use Rattle.model.specs.Answers.{Answered};
ghost use Rattle.model.specs.Lent.{Wrote};
ghost use Rattle.model.specs.Report.{report, report_rules, text_limit};
ghost use Rattle.model.specs.Text.{line_call};

use model::{Point, Refusal};
use reports::{decide, length_of, no_answers, write_report};
use survey::lines::is_too_long;

// The point that a line names, lent with its one line feed or without it: number 8.
pub fn read_line(line: &[u8]) -> Result<Point, Refusal>
    ensures { Answered (line_call line.now) result }
{
    survey::lines::read_line(line)
}

// The report on a survey text, written into a lent list: numbers 9 and 10. A longer list keeps its
// tail, and a refused call writes nothing.
pub fn report(text: &[u8], lent: &mut [u8]) -> Result<usize, Refusal>
    ensures { Wrote (report_rules text.now) (report text.now)
        lent.old lent.new result }
{
    if is_too_long(text) {
        return Err(Refusal::LongText);
    }
    report_lines(text, lent)
}

// The report on a text that is not too long: number 10. The answers of its lines stand here, so
// that a call that is refused by number 9 has no need of their room.
fn report_lines(text: &[u8], lent: &mut [u8]) -> Result<usize, Refusal>
    requires { length text.now ≤ text_limit }
    ensures { Wrote (report_rules text.now) (report text.now)
        lent.old lent.new result }
{
    let mut answers = no_answers();
    let decided = decide(text, &mut answers);
    let length = length_of(&answers, &decided);
    if lent.len() < length {
        return Err(Refusal::ShortList);
    }
    write_report(&answers, &decided, lent);
    Ok(length)
}
