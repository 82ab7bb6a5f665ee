// The reader of a survey text: it holds the lent text and how far it has come. Reading is left to
// the functions on a text and a place.

ghost use Rattle.std.specs.Prelude.{◌≡◌};
ghost use Rattle.survey.specs.Readers.{line_of, lines_left, moved_on, taken};

use super::lines::{at_end, read_at};
use model::{Point, Refusal};

#[derive(Clone, Copy, Drop)]
pub struct Reader<'a> {
    pub text: &'a [u8],
    pub at: usize,
}

impl<'a> Reader<'a> {
    // What the line names at which the reader stands; the reader moves on to the next one.
    pub fn next_line(&mut self) -> Result<Point, Refusal>
        ensures line { result ≡ line_of self.old }
        ensures reader { self.new ≡ moved_on self.old }
    {
        let read = read_at(self.text, self.at);
        self.at = read.next;
        read.line
    }
}

// What the lines name, one after another, until the text ends.
impl<'a> Iterator for Reader<'a> {
    type Item = Result<Point, Refusal>;

    ghost next_gives = { λ r line later. (line ≡ taken r) × (later ≡ moved_on r) };

    ghost remaining = { lines_left };

    fn next(&mut self) -> Option<Result<Point, Refusal>> {
        if at_end(self.text, self.at) {
            None
        } else {
            Some(self.next_line())
        }
    }
}
