// The session of document 01 taken through every entry of `engine` and of `office`, but for `remove_last`, for
// whoever writes the next crate that uses them. Each call prints a line: its name, what it was given (maps and
// lists are left out, but for a claim), a colon, and the answer, by its word and its values. The values stand in
// the order of the declared types:
//     offer          left corner, right corner, visible edges
//     orbit          the darts of the set
//     counts         darts, vertices, edges, faces, parts
//     walk           the last dart, the moves made
//     move_walker    the dart that the walker has reached
//     place          the corner; the ends of the edge; the visible edges
//     read_outline   x and y of each corner
//     area           twice the area
// A refused call prints `refused` and the number of document 01's table; every number that is in use is
// seen, but for 13.
#![tactic(auto)]

mod calls;
mod telling;

ghost use Rattle.std.specs.Prelude.{◌≡◌, length};

use model::{Kind, Link, Map, NO_DART, POINT_LIMIT, Point};
use std::io;

// A write that fails ends the session.
fn main(rt: HostRuntime) {
    let _ = session(&rt);
}

fn session(rt: &impl Print) -> io::Result<()> {
    orientations(rt)?;
    let map = survey(rt)?;
    rail(rt)?;
    readings(rt, &map)?;
    queries(rt, &map)?;
    lists(rt, &map)?;
    files(rt)?;
    texts(rt)?;
    outlines(rt, &map)?;
    areas(rt, &map)?;
    marks(rt)?;
    unsound(rt, &map)?;
    calls::offer(rt, &full_map(), at(512, 0))?;
    Ok(())
}

fn at(x: i64, y: i64) -> Point {
    Point { x, y }
}

// Positive is a left turn.
fn orientations(rt: &impl Print) -> io::Result<()> {
    calls::orientation(rt, at(0, 0), at(4, 0), at(1, 3))?;
    calls::orientation(rt, at(4, 0), at(0, 0), at(1, 3))?;
    calls::orientation(rt, at(0, 0), at(1, 1), at(2, 2))?;
    calls::orientation(
        rt,
        at(-1000000, -1000000),
        at(1000000, -1000000),
        at(1000000, 1000000),
    )?;
    calls::orientation(
        rt,
        at(-1000000000, -1000000000),
        at(1000000000, -1000000000),
        at(1000000000, 1000000000),
    )?;
    calls::orientation(rt, at(0, 0), at(4, 0), at(1, 1000000001))
}

// The worked survey, offered point by point. A refused point leaves the map as it was.
fn survey(rt: &impl Print) -> io::Result<Map> {
    let none = engine::empty_map();
    calls::is_sound(rt, &none)?;
    calls::counts(rt, &none)?;
    calls::place(rt, &none, at(0, 0))?;
    let one = calls::offer(rt, &none, at(0, 0))?;
    calls::counts(rt, &one)?;
    let two = calls::offer(rt, &one, at(4, 0))?;
    calls::counts(rt, &two)?;
    let three = calls::offer(rt, &two, at(1, 3))?;
    let four = calls::offer(rt, &three, at(5, 4))?;
    let kept = calls::offer(rt, &four, at(1000000001, 0))?;
    let kept = calls::offer(rt, &kept, at(4, 0))?;
    let five = calls::offer(rt, &kept, at(2, 1))?;
    calls::offer(rt, &five, at(6, 7))
}

// Marks along a rail: the third is in line beyond the second, and its left and right corner are both
// the first, which is farther from it. A mark on an edge is inside; one beyond the rail is outside.
fn rail(rt: &impl Print) -> io::Result<()> {
    let one = calls::offer(rt, &engine::empty_map(), at(0, 0))?;
    let two = calls::offer(rt, &one, at(2, 0))?;
    let three = calls::offer(rt, &two, at(4, 0))?;
    calls::counts(rt, &three)?;
    calls::place(rt, &three, at(6, 0))?;
    calls::offer(rt, &three, at(1, 0))?;
    Ok(())
}

// What is read from the map of six points.
fn readings(rt: &impl Print, map: &Map) -> io::Result<()> {
    calls::orbit(rt, map, "edge", Kind::Edge, 2)?;
    calls::orbit(rt, map, "edge", Kind::Edge, 10)?;
    calls::orbit(rt, map, "edge", Kind::Edge, 6)?;
    calls::orbit(rt, map, "vertex", Kind::Vertex, 10)?;
    calls::orbit(rt, map, "face", Kind::Face, 0)?;
    calls::orbit(rt, map, "part", Kind::Part, 0)?;
    calls::orbit(rt, map, "part", Kind::Part, 6)?;
    calls::orbit(rt, map, "face", Kind::Face, 9)?;
    calls::counts(rt, map)?;
    calls::walk(rt, map, 0)?;
    calls::walk(rt, map, 6)?;
    calls::walk(rt, map, 1024)?;
    calls::move_walker(rt, map, "none", Link::None, 2)?;
    calls::move_walker(rt, map, "edge", Link::Edge, 2)?;
    calls::move_walker(rt, map, "point", Link::Point, 11)?;
    calls::move_walker(rt, map, "edge", Link::Edge, 9)
}

// Query points: a corner, an edge between two corners, inside, outside, out of range.
fn queries(rt: &impl Print, map: &Map) -> io::Result<()> {
    calls::place(rt, map, at(6, 7))?;
    calls::place(rt, map, at(2, 0))?;
    calls::place(rt, map, at(2, 1))?;
    calls::place(rt, map, at(-1, 0))?;
    calls::place(rt, map, at(0, -1000000001))
}

// Lists that are lent, long enough and too short, for corners and for a file.
fn lists(rt: &impl Print, map: &Map) -> io::Result<()> {
    let mut corners = [0usize; 4];
    calls::list_corners(rt, map, &mut corners)?;
    let mut short_list = [0usize; 3];
    calls::list_corners(rt, map, &mut short_list)?;
    let mut file = [0u8; 117];
    calls::save(rt, map, &mut file)?;
    calls::load(rt, &file)?;
    let mut short_file = [0u8; 116];
    calls::save(rt, map, &mut short_file)
}

// The file of the empty map; the same in version 1, in no version, and with a reference. The file of one point in
// version 1 and in version 2, with an arrival above 3, and with a freed dart above 1,024.
fn files(rt: &impl Print) -> io::Result<()> {
    let mut file = [0u8; 9];
    calls::save(rt, &engine::empty_map(), &mut file)?;
    calls::load(rt, &file)?;
    calls::load(rt, b"\0\0\0\x05\x01\0\0\x04\0")?;
    calls::load(rt, b"\0\0\0\x05\x03\0\0\x04\0")?;
    calls::load(rt, b"\0\0\0\x05\x02\0\0\0\0")?;
    calls::load(
        rt,
        b"\0\0\0\x12\x01\0\x01\x04\0\0\0\0\0\0\0\0\0\0\0\0\0\x01",
    )?;
    calls::load(
        rt,
        b"\0\0\0\x17\x02\0\x01\x04\0\0\0\0\0\0\0\0\0\0\0\0\0\x01\0\x04\0\x04\0",
    )?;
    calls::load(
        rt,
        b"\0\0\0\x17\x02\0\x01\x04\0\0\0\0\0\0\0\0\0\0\0\0\0\x01\x04\x04\0\x04\0",
    )?;
    calls::load(
        rt,
        b"\0\0\0\x17\x02\0\x01\x04\0\0\0\0\0\0\0\0\0\0\0\0\0\x01\0\x04\x01\x04\0",
    )
}

// Lines, and the report on the worked survey.
fn texts(rt: &impl Print) -> io::Result<()> {
    calls::read_line(rt, b"-12 1000000000")?;
    calls::read_line(rt, b"1  2")?;
    let mut lent = [0u8; 118];
    calls::report(rt, b"0 0\n4 0\n1 3\n5 4\n2 1\n6 7\n", &mut lent)?;
    let mut short = [0u8; 34];
    calls::report(rt, b"", &mut short)?;
    calls::report(rt, &long_text(), &mut short)
}

// The outline as text, and what such texts are read as: of the worked survey, of none and of two points; in
// another spelling, out of range, of corners that no survey lists; into a list that is too short.
fn outlines(rt: &impl Print, map: &Map) -> io::Result<()> {
    let mut text = [0u8; 35];
    calls::write_outline(rt, map, &mut text)?;
    calls::write_outline(rt, &engine::empty_map(), &mut text)?;
    let mut short = [0u8; 12];
    calls::write_outline(rt, &engine::empty_map(), &mut short)?;
    let mut numbers = [0i64; 8];
    calls::read_outline(rt, b"POLYGON ((0 0, 4 0, 6 7, 1 3, 0 0))", &mut numbers)?;
    calls::read_outline(rt, b"LINESTRING (0 0, 4 0)", &mut numbers)?;
    calls::read_outline(rt, b"LINESTRING (0 0,4 0)", &mut numbers)?;
    calls::read_outline(rt, b"POINT (0 1000000001)", &mut numbers)?;
    calls::read_outline(rt, b"LINESTRING (4 0, 0 0)", &mut numbers)?;
    let mut few = [0i64; 1];
    calls::read_outline(rt, b"POINT (0 0)", &mut few)
}

// Twice the area: from each corner of the worked survey, and at a place that no corner has; of no points, from any
// place; of the whole range.
fn areas(rt: &impl Print, map: &Map) -> io::Result<()> {
    calls::area(rt, map, 0)?;
    calls::area(rt, map, 1)?;
    calls::area(rt, map, 2)?;
    calls::area(rt, map, 3)?;
    calls::area(rt, map, 4)?;
    calls::area(rt, &engine::empty_map(), 9)?;
    calls::area(rt, &whole_range(rt)?, 3)
}

// The corners of the range.
fn whole_range(rt: &impl Print) -> io::Result<Map> {
    let one = calls::offer(rt, &engine::empty_map(), at(-1000000000, -1000000000))?;
    let two = calls::offer(rt, &one, at(1000000000, 1000000000))?;
    let three = calls::offer(rt, &two, at(-1000000000, 1000000000))?;
    calls::offer(rt, &three, at(1000000000, -1000000000))
}

// A claimed outline of the worked survey: its listing, begun at two corners; clockwise, twice round, and nothing.
// Then what is claimed of no points, and of points of which the third is the first again.
fn marks(rt: &impl Print) -> io::Result<()> {
    let points = [0i64, 0, 4, 0, 1, 3, 5, 4, 2, 1, 6, 7];
    let listing = [0usize, 1, 5, 2];
    calls::mark(rt, &points, &listing)?;
    let begun = [5usize, 2, 0, 1];
    calls::mark(rt, &points, &begun)?;
    let clockwise = [2usize, 5, 1, 0];
    calls::mark(rt, &points, &clockwise)?;
    let twice = [0usize, 1, 5, 2, 0, 1, 5, 2];
    calls::mark(rt, &points, &twice)?;
    calls::mark(rt, &points, &[])?;
    calls::mark(rt, &[], &[])?;
    let again = [0i64, 0, 4, 0, 0, 0];
    calls::mark(rt, &again, &listing)
}

// One byte more than a survey text may have.
fn long_text() -> [u8; 65537]
    ensures { 65537 ≡ length result }
{
    [0u8; 65537]
}

// A map that is not sound: its outline has no reference.
fn unsound(rt: &impl Print, map: &Map) -> io::Result<()> {
    let mut map = *map;
    map.reference = NO_DART;
    calls::is_sound(rt, &map)?;
    calls::offer(rt, &map, at(2, 5))?;
    calls::orbit(rt, &map, "face", Kind::Face, 0)?;
    calls::counts(rt, &map)?;
    calls::walk(rt, &map, 0)?;
    calls::move_walker(rt, &map, "edge", Link::Edge, 0)?;
    calls::place(rt, &map, at(2, 5))?;
    let mut corners = [0usize; 4];
    calls::list_corners(rt, &map, &mut corners)?;
    let mut file = [0u8; 117];
    calls::save(rt, &map, &mut file)?;
    calls::write_outline(rt, &map, &mut file)?;
    calls::area(rt, &map, 0)
}

// As many points as a map has, along a parabola.
fn full_map() -> Map {
    let mut map = engine::empty_map();
    // By number: k is the coordinate.
    for k in 0..POINT_LIMIT {
        let x = k as i64;
        if let Ok(offered) = engine::offer(&map, at(x, x * x)) {
            map = offered.map;
        }
    }
    map
}
