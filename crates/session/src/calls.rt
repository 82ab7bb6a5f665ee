// One function for each entry that answers: it writes the call, asks the engine, and ends the line with
// the answer.

ghost use Rattle.std.specs.Prelude.{◌≡◌, IfOk};
ghost use Rattle.model.specs.Offers.{map_after, offer};

use crate::telling::{
    say_naturals, say_point, tell, tell_bytes, tell_darts, tell_number, tell_numbers, tell_refused,
};
use model::{Arrival, Kind, Link, Map, Placed, Point};
use orbits::{Ending, Walk, Walker};
use std::io;

pub(crate) fn orientation(rt: &impl Print, a: Point, b: Point, c: Point) -> io::Result<()> {
    rt.print("orientation")?;
    say_point(rt, a)?;
    say_point(rt, b)?;
    say_point(rt, c)?;
    match engine::orientation(a, b, c) {
        Ok(z) => tell_number(rt, z),
        Err(refusal) => tell_refused(rt, refusal),
    }
}

pub(crate) fn is_sound(rt: &impl Print, map: &Map) -> io::Result<()> {
    rt.print("is_sound")?;
    let word = if engine::is_sound(map) { "yes" } else { "no" };
    tell(rt, word, &[])
}

// The map that is returned goes on to the next call: where the point is refused, it is the one that was
// lent.
pub(crate) fn offer(rt: &impl Print, map: &Map, p: Point) -> io::Result<Map>
    ensures { IfOk result (λ after. after ≡ map_after map.now (offer map.now p)) }
{
    rt.print("offer")?;
    say_point(rt, p)?;
    match engine::offer(map, p) {
        Ok(offered) => {
            tell_arrival(rt, offered.arrival)?;
            Ok(offered.map)
        }
        Err(refusal) => {
            tell_refused(rt, refusal)?;
            Ok(*map)
        }
    }
}

// Ends a line with how a point arrived.
fn tell_arrival(rt: &impl Print, arrival: Arrival) -> io::Result<()> {
    match arrival {
        Arrival::First => tell(rt, "first", &[]),
        Arrival::Second => tell(rt, "second", &[]),
        Arrival::Inside => tell(rt, "inside", &[]),
        Arrival::Outside {
            left,
            right,
            visible,
        } => tell(rt, "outside", &[left, right, visible]),
    }
}

pub(crate) fn orbit(
    rt: &impl Print,
    map: &Map,
    name: &str,
    kind: Kind,
    dart: usize,
) -> io::Result<()> {
    print!(rt; "orbit {name} {dart}")?;
    match engine::orbit(map, kind, dart) {
        Ok(darts) => tell_darts(rt, darts),
        Err(refusal) => tell_refused(rt, refusal),
    }
}

pub(crate) fn counts(rt: &impl Print, map: &Map) -> io::Result<()> {
    rt.print("counts")?;
    match engine::counts(map) {
        Ok(n) => tell(
            rt,
            "numbers",
            &[n.darts, n.vertices, n.edges, n.faces, n.parts],
        ),
        Err(refusal) => tell_refused(rt, refusal),
    }
}

pub(crate) fn walk(rt: &impl Print, map: &Map, dart: usize) -> io::Result<()> {
    print!(rt; "walk {dart}")?;
    match engine::walk(map, dart) {
        Ok(walk) => tell_walk(rt, walk),
        Err(refusal) => tell_refused(rt, refusal),
    }
}

// Ends a line with how a walk ended.
fn tell_walk(rt: &impl Print, walk: Walk) -> io::Result<()> {
    let word = match walk.ending {
        Ending::Home => "home",
        Ending::Loose => "loose",
    };
    tell(rt, word, &[walk.last, walk.moves])
}

pub(crate) fn move_walker(
    rt: &impl Print,
    map: &Map,
    name: &str,
    link: Link,
    dart: usize,
) -> io::Result<()> {
    print!(rt; "move_walker {name} {dart}")?;
    match engine::move_walker(map, link, Walker::starting_at(dart)) {
        Ok(walker) => tell(rt, "dart", &[walker.dart()]),
        Err(refusal) => tell_refused(rt, refusal),
    }
}

pub(crate) fn place(rt: &impl Print, map: &Map, p: Point) -> io::Result<()> {
    rt.print("place")?;
    say_point(rt, p)?;
    match engine::place(map, p) {
        Ok(placed) => tell_placed(rt, placed),
        Err(refusal) => tell_refused(rt, refusal),
    }
}

// Ends a line with where a point lies.
fn tell_placed(rt: &impl Print, placed: Placed) -> io::Result<()> {
    match placed {
        Placed::NoOutline => tell(rt, "none", &[]),
        Placed::Corner(corner) => tell(rt, "corner", &[corner]),
        Placed::Edge { from, to } => tell(rt, "edge", &[from, to]),
        Placed::Inside => tell(rt, "inside", &[]),
        Placed::Outside(visible) => tell(rt, "outside", &[visible]),
    }
}

// The list is lent by the caller.
pub(crate) fn list_corners(rt: &impl Print, map: &Map, lent: &mut [usize]) -> io::Result<()> {
    rt.print("list_corners")?;
    match engine::list_corners(map, lent) {
        Ok(length) => tell(rt, "corners", &lent[..length]),
        Err(refusal) => tell_refused(rt, refusal),
    }
}

pub(crate) fn save(rt: &impl Print, map: &Map, lent: &mut [u8]) -> io::Result<()> {
    rt.print("save")?;
    match engine::files::save(map, lent) {
        Ok(length) => tell_bytes(rt, &lent[..length]),
        Err(refusal) => tell_refused(rt, refusal),
    }
}

// The counts of the map that is loaded stand on a line of their own.
pub(crate) fn load(rt: &impl Print, file: &[u8]) -> io::Result<()> {
    rt.print("load")?;
    match engine::files::load(file) {
        Ok(map) => {
            tell(rt, "served", &[])?;
            counts(rt, &map)
        }
        Err(refusal) => tell_refused(rt, refusal),
    }
}

pub(crate) fn read_line(rt: &impl Print, line: &[u8]) -> io::Result<()> {
    rt.print("read_line ")?;
    rt.write_all(line)?;
    match engine::texts::read_line(line) {
        Ok(p) => {
            rt.print(": point")?;
            say_point(rt, p)?;
            rt.println("")
        }
        Err(refusal) => tell_refused(rt, refusal),
    }
}

// The report stands on lines of its own.
pub(crate) fn report(rt: &impl Print, text: &[u8], lent: &mut [u8]) -> io::Result<()> {
    rt.print("report")?;
    match engine::texts::report(text, lent) {
        Ok(length) => {
            tell(rt, "length", &[length])?;
            rt.write_all(&lent[..length])
        }
        Err(refusal) => tell_refused(rt, refusal),
    }
}

pub(crate) fn write_outline(rt: &impl Print, map: &Map, lent: &mut [u8]) -> io::Result<()> {
    rt.print("write_outline")?;
    match office::write_outline(map, lent) {
        Ok(length) => {
            rt.print(": ")?;
            rt.write_all(&lent[..length])?;
            rt.println("")
        }
        Err(refusal) => tell_refused(rt, refusal),
    }
}

pub(crate) fn read_outline(rt: &impl Print, text: &[u8], lent: &mut [i64]) -> io::Result<()> {
    rt.print("read_outline ")?;
    rt.write_all(text)?;
    match office::read_outline(text, lent) {
        Ok(length) => tell_numbers(rt, &lent[..length]),
        Err(refusal) => tell_refused(rt, refusal),
    }
}

pub(crate) fn area(rt: &impl Print, map: &Map, place: usize) -> io::Result<()> {
    print!(rt; "area {place}")?;
    match office::area(map, place) {
        Ok(z) => tell_number(rt, z),
        Err(refusal) => tell_refused(rt, refusal),
    }
}

pub(crate) fn mark(rt: &impl Print, points: &[i64], claim: &[usize]) -> io::Result<()> {
    rt.print("mark")?;
    say_naturals(rt, claim)?;
    match office::mark(points, claim) {
        Ok(true) => tell(rt, "right", &[]),
        Ok(false) => tell(rt, "wrong", &[]),
        Err(refusal) => tell_refused(rt, refusal),
    }
}
