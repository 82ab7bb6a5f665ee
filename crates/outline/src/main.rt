// Reads a survey text from standard input and prints the report on it to standard output. An error
// of the operating system ends it with a message on standard error.
//
// Proved: each read is given only the rest of the list, and reading stops only where the input
// ended, the list is full or a read failed; the pieces that are made, one after another, put together
// the report on what was read, and printing comes to its end unless a write failed. Which bytes
// reach the system no contract can say, and `main` can have none: that the pieces are written is
// tested, by the session beside this folder and by the comparison of tests/.
//
// The exit status is 0 also where the system failed: an empty report or part of one, with a message on
// standard error, is a failure. Arguments are ignored.
#![tactic(auto)]

ghost use Rattle.std.specs.Prelude.{◌≡◌, ◌+◌, length};
ghost use Rattle.model.specs.Report.{text_limit};
ghost use Rattle.reports.specs.Summaries.{Fits};
ghost use Rattle.outline.specs.Reading.{ReadText};
ghost use Rattle.outline.specs.Printing.{PrintsLines, PrintsReport};

use reports::{Summary, decide, no_answers, write_lines};
use std::io;
use std::io::Read;
use survey::lines::TEXT_LIMIT;

// One byte more than a text may have: who has read so many knows that the text is too long.
const READ_LIMIT: usize = TEXT_LIMIT + 1;

fn main(rt: HostRuntime) {
    let mut text = empty_text();
    let mut stdin = rt.stdin();
    let Ok(length) = read_text(&mut stdin, &mut text) else {
        let _ = rt.eprintln("outline: standard input cannot be read");
        return;
    };
    let mut next = 0;
    if print_report(&rt, &text[..length], &mut next).is_err() {
        let _ = rt.eprintln("outline: standard output cannot be written");
    }
}

fn empty_text() -> [u8; READ_LIMIT]
    ensures { text_limit + 1 ≡ length result }
{
    [0u8; READ_LIMIT]
}

// Reads standard input until it ends or the list is full: how many bytes were read. Each read is given
// the rest of the list, so that what was read before it is kept.
fn read_text<R: Read>(stdin: &mut R, text: &mut [u8]) -> io::Result<usize>
    ensures { ReadText (R.remaining stdin.old) (R.remaining stdin.new) text.old text.new result }
{
    let mut filled = 0;
    // By how much was read, which no range tells beforehand.
    while filled < text.len() {
        let more = stdin.read(&mut text[filled..])?;
        filled += more;
        if more == 0 {
            break;
        }
    }
    Ok(filled)
}

// Prints the report on a text. The position up to which it is printed stands in `next`, also where a
// write failed.
fn print_report(rt: &impl Print, text: &[u8], next: &mut usize) -> io::Result<()>
    ensures { PrintsReport text.now next.new result }
{
    let mut answers = no_answers();
    let decided = decide(text, &mut answers);
    print_lines(rt, &answers, &decided, next)
}

// Prints what was decided piece by piece, each of whole lines.
fn print_lines(
    rt: &impl Print,
    answers: &[u32],
    decided: &Summary,
    next: &mut usize,
) -> io::Result<()>
    requires { Fits decided.now }
    ensures { PrintsLines answers.now decided.now next.new result }
{
    let mut buffer = empty_buffer();
    *next = 0;
    // By how far each piece came, which no range tells beforehand.
    loop {
        let piece = write_lines(answers, decided, *next, &mut buffer);
        if piece.length == 0 {
            *next = piece.next;
            return Ok(());
        }
        rt.write_all(&buffer[..piece.length])?;
        *next = piece.next;
    }
}

// Long enough that a report of some length takes few writes.
fn empty_buffer() -> [u8; 65536]
    ensures { 65536 ≡ length result }
{
    [0u8; 65536]
}
