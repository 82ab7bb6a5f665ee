// The printed lines of a report by their positions: how long each is, writing one at a place, and
// writing as many whole ones as a lent list holds.

ghost use Rattle.std.specs.Prelude.{◌≡◌, ◌≤◌, get_or, length};
ghost use Rattle.model.specs.Maps.{point_limit};
ghost use Rattle.printing.specs.Writing.{Room, PutAt};
ghost use Rattle.lines.specs.Lines.{counts_values, line_count, lines_from, report_line};
ghost use Rattle.lines.specs.Printing.{Printable, PutLines};

use super::packing::unpacked;
use model::{Counts, Refusal};
use printing::answers::{
    arrival_length, put_answer, put_arrival, put_refused, refused_length, values_length,
};
use printing::writing::put_word;

// How many lines the text has, and the counts of the map at its end.
#[derive(Clone, Copy)]
pub struct Ends {
    pub lines: usize,
    pub counts: Counts,
}

// The printed lines of a report: the answers of the text's lines, the corners of the map at its end, and
// the ends, or none where the text is too long to be read. The methods ask how many corners and lines
// there are at most, and no ghost field does: `put_line` asks neither, and may not ask more.
#[derive(Clone, Copy)]
pub struct Lines<'a> {
    pub answers: &'a [u32],
    pub corners: &'a [usize],
    pub ends: Option<Ends>,
}

// The position after the last line that was written, and how many bytes were written.
#[derive(Clone, Copy)]
pub struct Piece {
    pub next: usize,
    pub length: usize,
}

impl<'a> Lines<'a> {
    // How many printed lines a report has.
    #[tactic(auto, unfolding(crate::specs::Lines::line_count))]
    pub fn line_count(&self) -> usize
        requires { Printable self.now.ends }
        ensures { result ≡ line_count self.now.ends }
    {
        match self.ends {
            Some(ends) => ends.lines + 3,
            None => 2,
        }
    }

    // How many bytes the printed line at position j takes.
    // By position, as `report_line` of the definitions has it.
    pub fn line_length(&self, j: usize) -> usize
        requires { length self.now.corners.now ≤ point_limit }
        ensures { result ≡
            length (report_line self.now.answers.now self.now.corners.now self.now.ends j) }
    {
        if j == 0 {
            return 10;
        }
        let i = j - 1;
        match self.ends {
            None => refused_length(Refusal::LongText),
            Some(ends) => {
                if i < ends.lines {
                    return arrival_length(i, unpacked(self.answer(i)));
                }
                if i == ends.lines {
                    return 8 + values_length(self.corners);
                }
                7 + values_length(&counts_values(ends.counts))
            }
        }
    }

    // Writes the printed line at position j.
    pub fn put_line(&self, lent: &mut [u8], at: usize, j: usize) -> usize
        requires { Room lent.old at
            (report_line self.now.answers.now self.now.corners.now self.now.ends j) }
        ensures { PutAt lent.old at
            (report_line self.now.answers.now self.now.corners.now self.now.ends j)
            lent.new result }
    {
        if j == 0 {
            return put_word(lent, at, b"OUTLINE 1\n");
        }
        let i = j - 1;
        match self.ends {
            None => put_refused(lent, at, Refusal::LongText),
            Some(ends) => {
                if i < ends.lines {
                    return put_arrival(lent, at, i, unpacked(self.answer(i)));
                }
                if i == ends.lines {
                    return put_answer(lent, at, b"corners", self.corners);
                }
                put_answer(lent, at, b"counts", &counts_values(ends.counts))
            }
        }
    }

    // The number of the answer at a place, or 0 past the end.
    fn answer(&self, i: usize) -> u32
        ensures { result ≡ get_or self.now.answers.now i 0 }
    {
        self.answers.get(i).copied().unwrap_or(0)
    }

    // How many bytes all printed lines take.
    pub fn total_length(&self) -> usize
        requires corners_len_bound { length self.now.corners.now ≤ point_limit }
        requires printable { Printable self.now.ends }
        ensures { result ≡
            length (lines_from self.now.answers.now self.now.corners.now self.now.ends 0
            (line_count self.now.ends)) }
    {
        let mut total = 0;
        // By number: a printed line is asked for by its position.
        for j in 0..self.line_count() {
            total += self.line_length(j);
        }
        total
    }

    // Writes the printed lines from a position on, as many whole ones as the list holds.
    pub fn put_lines(&self, lent: &mut [u8], from: usize) -> Piece
        requires corners_len_bound { length self.now.corners.now ≤ point_limit }
        requires printable { Printable self.now.ends }
        ensures { PutLines self.now.answers.now self.now.corners.now self.now.ends from
            lent.old lent.new result }
    {
        let count = self.line_count();
        let mut end = 0;
        // By number: a printed line is asked for by its position.
        for next in from..count {
            if lent.len() - end < self.line_length(next) {
                return Piece { next, length: end };
            }
            end = self.put_line(lent, end, next);
        }
        Piece {
            next: count.max(from),
            length: end,
        }
    }
}

// The counts in the order of their line.
fn counts_values(counts: Counts) -> [usize; 5]
    ensures { result ≡ counts_values counts }
{
    [
        counts.darts,
        counts.vertices,
        counts.edges,
        counts.faces,
        counts.parts,
    ]
}
