// What the session writes to standard output: points and numbers, and how a line ends.

use model::{Point, Refusal};
use orbits::{DART_LIMIT, DartSet};
use std::io;

// Writes numbers without a sign, each after a space.
pub(crate) fn say_naturals(rt: &impl Print, values: &[usize]) -> io::Result<()> {
    for value in values {
        print!(rt; " {value}")?;
    }
    Ok(())
}

// Writes a point after a space.
pub(crate) fn say_point(rt: &impl Print, p: Point) -> io::Result<()> {
    print!(rt; " ({},{})", p.x, p.y)
}

// Ends a line with the word of an answer and its values.
pub(crate) fn tell(rt: &impl Print, word: &str, values: &[usize]) -> io::Result<()> {
    print!(rt; ": {word}")?;
    say_naturals(rt, values)?;
    rt.println("")
}

// Ends a line with a number.
pub(crate) fn tell_number(rt: &impl Print, z: i64) -> io::Result<()> {
    println!(rt; ": {z}")
}

// Ends a line with numbers.
pub(crate) fn tell_numbers(rt: &impl Print, values: &[i64]) -> io::Result<()> {
    rt.print(": numbers")?;
    for z in values {
        print!(rt; " {z}")?;
    }
    rt.println("")
}

// Ends a line with the number of a refusal.
pub(crate) fn tell_refused(rt: &impl Print, refusal: Refusal) -> io::Result<()> {
    tell(rt, "refused", &[usize::from(refusal)])
}

// Ends a line with the darts of a set.
pub(crate) fn tell_darts(rt: &impl Print, darts: DartSet) -> io::Result<()> {
    rt.print(": darts")?;
    // By number: d is a dart that the set is asked for.
    for d in 0..DART_LIMIT {
        if darts.contains(d) {
            print!(rt; " {d}")?;
        }
    }
    rt.println("")
}

// Ends a line with bytes, each as two hexadecimal digits.
// Beside `tell_numbers`, since the two print in other bases.
pub(crate) fn tell_bytes(rt: &impl Print, bytes: &[u8]) -> io::Result<()> {
    rt.print(": bytes")?;
    for byte in bytes {
        print!(rt; " {byte:02x}")?;
    }
    rt.println("")
}
