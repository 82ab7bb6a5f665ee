// The report on a survey text. First every line is decided, then the report's length is known, and
// then its bytes are written: no line is decided twice, and no array holds a report. The answers of
// the lines stand in an array that the caller lends, so that no call copies them.
#![tactic(auto)]

ghost use Rattle.std.specs.Prelude.{◌≡◌, ◌≤◌, length};
ghost use Rattle.finite.specs.Overwriting.{over};
ghost use Rattle.model.specs.Report.{text_limit};
ghost use Rattle.deciding.specs.Deciding.{Readable, Surveys};
ghost use Rattle.reports.specs.Summaries.{report_of, corners_in, Decides, Fits};
ghost use Rattle.reports.specs.Pieces.{WroteLines};

use admission::hashes::Hashes;
use corners::listing::{CornerList, corners_of};
use deciding::survey;
use lines::positions::{Ends, Lines, Piece};
use maps::empty_map;
use maps::traversal::counts_of;
use model::{Map, POINT_LIMIT, SoundMap};
use survey::lines::{TEXT_LIMIT, is_too_long};

// What is decided of a text beside the answers of its lines: the corners, and the ends, or none where
// the text is too long to be read.
// That these are within their limits (`Fits`) is asked by the functions that print, and no field: the laws on
// pieces (`pieces_are_the_report`) speak of any summary that fits, whoever made it.
#[derive(Clone, Copy)]
pub struct Summary {
    pub corners: CornerList,
    pub ends: Option<Ends>,
}

impl Summary {
    // The printed lines of the report, with the answers of the text's lines.
    fn lines<'a>(&'a self, answers: &'a [u32]) -> Lines<'a>
        ensures answers { result.answers.now ≡ answers.now }
        ensures corners { result.corners.now ≡ corners_in self.now }
        ensures ends { result.ends ≡ self.now.ends }
    {
        Lines {
            answers,
            corners: self.corners.as_slice(),
            ends: self.ends,
        }
    }
}

// The map at the end of a text, and how many lines the text has.
#[derive(Clone, Copy)]
pub struct Surveyed {
    pub map: Map,
    pub lines: usize,
}

// As many answers as a text may have lines, each as one number.
pub fn no_answers() -> [u32; TEXT_LIMIT]
    ensures { text_limit ≡ length result }
{
    [0u32; TEXT_LIMIT]
}

// Decides every line of a text that is not too long, from the empty map on.
fn decide_lines(text: &[u8], answers: &mut [u32; TEXT_LIMIT]) -> Surveyed
    requires { Readable text.now answers.old }
    ensures { Surveys text.now result.map answers.new result.lines }
{
    let mut map = empty_map();
    let mut hashes = Hashes::empty();
    let lines = survey(text, &mut map, &mut hashes, answers);
    Surveyed { map, lines }
}

// Decides a text, whatever its bytes are, and leaves the answers of its lines in a lent array. One
// that is too long is decided without being read.
pub fn decide(text: &[u8], answers: &mut [u32; TEXT_LIMIT]) -> Summary
    requires { length answers.old ≡ text_limit }
    ensures { Decides text.now answers.new result }
{
    if is_too_long(text) {
        return Summary {
            corners: CornerList {
                points: [0; POINT_LIMIT],
                count: 0,
            },
            ends: None,
        };
    }
    let Surveyed { map, lines } = decide_lines(text, answers);
    let sound = SoundMap { map: &map };
    let corners = corners_of(sound);
    let counts = counts_of(sound);
    Summary {
        corners,
        ends: Some(Ends { lines, counts }),
    }
}

// How many bytes the report takes.
pub fn length_of(answers: &[u32], decided: &Summary) -> usize
    requires { Fits decided.now }
    ensures { result ≡ length (report_of answers.now decided.now) }
{
    decided.lines(answers).total_length()
}

// Writes the report into a lent list that has room for it; the rest of it stays as it is.
pub fn write_report(answers: &[u32], decided: &Summary, lent: &mut [u8])
    requires fits { Fits decided.now }
    requires decided_in_bounds { length (report_of answers.now decided.now) ≤ length lent.old }
    ensures { lent.new ≡
        over (report_of answers.now decided.now) lent.old }
{
    decided.lines(answers).put_lines(lent, 0);
}

// Writes the printed lines from a position on, as many whole ones as the lent list holds, and says
// where to go on. Position 0 is the report's first line.
pub fn write_lines(answers: &[u32], decided: &Summary, from: usize, lent: &mut [u8]) -> Piece
    requires { Fits decided.now }
    ensures { WroteLines answers.now decided.now from
        lent.old lent.new result }
{
    decided.lines(answers).put_lines(lent, from)
}
