// The engine for other languages: one exported function for each call. A map comes as its saved
// bytes, which are checked as a file is. The number that is returned is that of the refusal, 0
// where the call is served; values are written into lent lists. Behind each stands a function that
// loads, checks, computes its values, and then writes them where there is room: it answers a `Result`,
// and only the exported one turns that into the number (`code`).
#![tactic(auto)]

ghost use Rattle.std.specs.Prelude.{◌≡◌, [], ◌∷◌, length};
ghost use Rattle.model.specs.declared.Link.{Link};
ghost use Rattle.model.specs.Plane.{at, orientation_call};
ghost use Rattle.model.specs.Maps.{empty_map};
ghost use Rattle.model.specs.Outline.{corners};
ghost use Rattle.model.specs.Reading.{unsound};
ghost use Rattle.model.specs.Saved.{load_call, map_in, saved};
ghost use Rattle.model.specs.Text.{line_call};
ghost use Rattle.model.specs.Report.{report, report_rules};
ghost use Rattle.model.specs.Outlines.{coordinates, corner_points, corners_spelt, outline_rules, outline_text};
ghost use Rattle.model.specs.Marking.{points_of};
ghost use Rattle.replies.specs.Served.{Served, ServedBoth, code_of, number_by, only};
ghost use Rattle.replies.specs.Opened.{of_file};
ghost use Rattle.measures.specs.Areas.{sound_area_call};
ghost use Rattle.replies.specs.Replies.{Offering, area_reply, counts_reply, from_file, length_told};
ghost use Rattle.replies.specs.Replies.{mark_reply};
ghost use Rattle.replies.specs.Replies.{orbit_reply, place_reply, reply, values_of};
ghost use Rattle.replies.specs.Replies.{walk_reply, walker_reply};

use corners::listing::corners_of;
use corners::query::placed;
use drawings::{text_length, write_text};
use engine::files::load;
use engine::texts::report;
use layout::{VERSION, saved_length};
use listings::read_outline;
use maps::traversal::{counts_of, moved, orbit_of, walk_of};
use marking::mark;
use measures::area_of;
use model::{Kind, Link, Point, Ranged, Refusal, SoundMap};
use orbits::Walker;
use plane::orientation_of;
use replies::opening::{load_at, load_near};
use replies::values::{placed_values, point, walk_values};
use replies::writing::{
    check_room, code, uncounted, write_admitted, write_corner_list, write_darts, write_saved,
    write_values,
};
use survey::lines::read_line;

// The orientation of three points: numbers 3 and 10.
#[unsafe(no_mangle)]
pub extern "C" fn reach_orientation(
    ax: i64,
    ay: i64,
    bx: i64,
    by: i64,
    cx: i64,
    cy: i64,
    out: &mut [i64],
) -> u32
    ensures { Served (reply values_of (orientation_call (at ax ay) (at bx by) (at cx cy)))
        out.old out.new result }
{
    code(write_orientation(point(ax, ay), point(bx, by), point(cx, cy), out))
}

// The orientation of three points.
fn write_orientation(a: Point, b: Point, c: Point, out: &mut [i64]) -> Result<(), Refusal>
    ensures { Served (reply values_of (orientation_call a b c))
        out.old out.new (code_of result) }
{
    let z = orientation_of(a, b, c)?;
    write_values(&[z], out)
}

// The bytes of the map without points: number 10.
#[unsafe(no_mangle)]
pub extern "C" fn reach_empty(out: &mut [u8]) -> u32
    ensures { Served (only (saved empty_map)) out.old out.new result }
{
    code(write_empty(out))
}

// The bytes of the map without points: 5 more after the first four, version 2, no point, and no reference.
// As numbers and not by `write_map`, for which the whole map would be made.
fn write_empty(out: &mut [u8]) -> Result<(), Refusal>
    ensures { Served (only (saved empty_map)) out.old out.new (code_of result) }
{
    let length = saved_length(VERSION, 0);
    if out.len() < length {
        return Err(Refusal::ShortList);
    }
    out[..length].copy_from_slice(&[0, 0, 0, 5, 2, 0, 0, 4, 0]);
    Ok(())
}

// Whether a file loads: numbers 7 and 1.
#[unsafe(no_mangle)]
pub extern "C" fn reach_check(map: &[u8]) -> u32
    ensures { result ≡ number_by (load_call map.now).rules }
{
    code(load(map))
}

// The version 2 file of a file's map, and how long it is: numbers 7, 1 and 10.
#[unsafe(no_mangle)]
pub extern "C" fn reach_load(file: &[u8], out: &mut [u8], length: &mut [usize]) -> u32
    ensures { ServedBoth (of_file file.now (λ m. unsound m ∷ []))
        (saved (map_in file.now)) (length_told (saved (map_in file.now)))
        out.old out.new length.old length.new result }
{
    code(write_loaded(file, out, length))
}

// The version 2 file of a file's map.
fn write_loaded(file: &[u8], out: &mut [u8], length: &mut [usize]) -> Result<(), Refusal>
    ensures { ServedBoth (of_file file.now (λ m. unsound m ∷ []))
        (saved (map_in file.now)) (length_told (saved (map_in file.now)))
        out.old out.new length.old length.new (code_of result) }
{
    let map = load(file)?;
    let sound = SoundMap { map: &map };
    write_saved(sound, out, length)
}

// A point offered to a map: numbers 7, 1, 2 to 4 and 10.
#[unsafe(no_mangle)]
pub extern "C" fn reach_offer(
    map: &[u8],
    x: i64,
    y: i64,
    out: &mut [u8],
    arrival: &mut [u64],
) -> u32
    ensures { Offering map.now (at x y) out.old out.new
        arrival.old arrival.new result }
{
    code(write_offer(map, point(x, y), out, arrival))
}

// The map of a file after a point is offered to it, and the arrival.
fn write_offer(map: &[u8], p: Point, out: &mut [u8], arrival: &mut [u64]) -> Result<(), Refusal>
    ensures { Offering map.now p out.old out.new
        arrival.old arrival.new (code_of result) }
{
    let map = load(map)?;
    let sound = SoundMap { map: &map };
    write_admitted(sound, p, out, arrival)
}

// The numbers of darts, vertices, edges, faces and connected parts: numbers 7, 1 and 10.
#[unsafe(no_mangle)]
pub extern "C" fn reach_counts(map: &[u8], out: &mut [u64]) -> u32
    ensures { Served (from_file counts_reply map.now)
        out.old out.new result }
{
    code(write_counts(map, out))
}

// The numbers of a file's map.
fn write_counts(map: &[u8], out: &mut [u64]) -> Result<(), Refusal>
    ensures { Served (from_file counts_reply map.now)
        out.old out.new (code_of result) }
{
    let map = load(map)?;
    let sound = SoundMap { map: &map };
    let n = counts_of(sound);
    let values = [
        n.darts as u64,
        n.vertices as u64,
        n.edges as u64,
        n.faces as u64,
        n.parts as u64,
    ];
    write_values(&values, out)
}

// The orbit of a dart: numbers 7, 1, 6 and 10.
// The four exports below differ in a kind, and three more in a link: C has no generic functions.
fn write_orbit(map: &[u8], kind: Kind, dart: usize, out: &mut [u64]) -> Result<(), Refusal>
    ensures { Served (from_file (orbit_reply kind dart) map.now)
        out.old out.new (code_of result) }
{
    let map = load_at(map, dart)?;
    let sound = SoundMap { map: &map };
    write_darts(&orbit_of(sound, kind, dart), out)
}

// The edge of a dart: numbers 7, 1, 6 and 10.
#[unsafe(no_mangle)]
pub extern "C" fn reach_edge_orbit(map: &[u8], dart: usize, out: &mut [u64]) -> u32
    ensures { Served (from_file (orbit_reply Kind.Edge dart) map.now)
        out.old out.new result }
{
    code(write_orbit(map, Kind::Edge, dart, out))
}

// The vertex of a dart: numbers 7, 1, 6 and 10.
#[unsafe(no_mangle)]
pub extern "C" fn reach_vertex_orbit(map: &[u8], dart: usize, out: &mut [u64]) -> u32
    ensures { Served (from_file (orbit_reply Kind.Vertex dart) map.now)
        out.old out.new result }
{
    code(write_orbit(map, Kind::Vertex, dart, out))
}

// The face of a dart: numbers 7, 1, 6 and 10.
#[unsafe(no_mangle)]
pub extern "C" fn reach_face_orbit(map: &[u8], dart: usize, out: &mut [u64]) -> u32
    ensures { Served (from_file (orbit_reply Kind.Face dart) map.now)
        out.old out.new result }
{
    code(write_orbit(map, Kind::Face, dart, out))
}

// The connected part of a dart: numbers 7, 1, 6 and 10.
#[unsafe(no_mangle)]
pub extern "C" fn reach_part_orbit(map: &[u8], dart: usize, out: &mut [u64]) -> u32
    ensures { Served (from_file (orbit_reply Kind.Part dart) map.now)
        out.old out.new result }
{
    code(write_orbit(map, Kind::Part, dart, out))
}

// The walk from a dart: numbers 7, 1, 6 and 10.
#[unsafe(no_mangle)]
pub extern "C" fn reach_walk(map: &[u8], dart: usize, out: &mut [u64]) -> u32
    ensures { Served (from_file (walk_reply dart) map.now)
        out.old out.new result }
{
    code(write_walk(map, dart, out))
}

// The walk from a dart of a file's map.
fn write_walk(map: &[u8], dart: usize, out: &mut [u64]) -> Result<(), Refusal>
    ensures { Served (from_file (walk_reply dart) map.now)
        out.old out.new (code_of result) }
{
    let map = load_at(map, dart)?;
    write_values(&walk_values(walk_of(&map, dart)), out)
}

// A walker started at a dart and moved: numbers 7, 1, 6 and 10.
fn write_walker(map: &[u8], link: Link, dart: usize, out: &mut [u64]) -> Result<(), Refusal>
    ensures { Served (from_file (walker_reply link dart) map.now)
        out.old out.new (code_of result) }
{
    let map = load_at(map, dart)?;
    let walker = moved(&map, link, Walker { dart });
    write_values(&[walker.dart as u64], out)
}

// A walker started at a dart: numbers 7, 1, 6 and 10.
#[unsafe(no_mangle)]
pub extern "C" fn reach_walker(map: &[u8], dart: usize, out: &mut [u64]) -> u32
    ensures { Served (from_file (walker_reply Link.None dart) map.now)
        out.old out.new result }
{
    code(write_walker(map, Link::None, dart, out))
}

// A walker started at a dart and moved by the edge link: numbers 7, 1, 6 and 10.
#[unsafe(no_mangle)]
pub extern "C" fn reach_walker_edge(map: &[u8], dart: usize, out: &mut [u64]) -> u32
    ensures { Served (from_file (walker_reply Link.Edge dart) map.now)
        out.old out.new result }
{
    code(write_walker(map, Link::Edge, dart, out))
}

// A walker started at a dart and moved by the point link: numbers 7, 1, 6 and 10.
#[unsafe(no_mangle)]
pub extern "C" fn reach_walker_point(map: &[u8], dart: usize, out: &mut [u64]) -> u32
    ensures { Served (from_file (walker_reply Link.Point dart) map.now)
        out.old out.new result }
{
    code(write_walker(map, Link::Point, dart, out))
}

// Where a query point lies: numbers 7, 1, 3 and 10.
#[unsafe(no_mangle)]
pub extern "C" fn reach_place(map: &[u8], x: i64, y: i64, out: &mut [u64]) -> u32
    ensures { Served (from_file (place_reply (at x y)) map.now)
        out.old out.new result }
{
    code(write_placed(map, point(x, y), out))
}

// Where a point lies in the map of a file.
fn write_placed(map: &[u8], p: Point, out: &mut [u64]) -> Result<(), Refusal>
    ensures { Served (from_file (place_reply p) map.now)
        out.old out.new (code_of result) }
{
    let map = load_near(map, p)?;
    let sound = SoundMap { map: &map };
    let p = Ranged { point: p };
    write_values(&placed_values(Ok(placed(sound, p))), out)
}

// The corners in listing order, and how many they are: numbers 7, 1 and 10.
#[unsafe(no_mangle)]
pub extern "C" fn reach_corners(map: &[u8], out: &mut [usize], count: &mut [usize]) -> u32
    ensures { ServedBoth (of_file map.now (λ m. unsound m ∷ []))
        (corners (map_in map.now)) (length_told (corners (map_in map.now)))
        out.old out.new count.old count.new result }
{
    code(write_corners(map, out, count))
}

// The corners of a file's map.
fn write_corners(map: &[u8], out: &mut [usize], count: &mut [usize]) -> Result<(), Refusal>
    ensures { ServedBoth (of_file map.now (λ m. unsound m ∷ []))
        (corners (map_in map.now)) (length_told (corners (map_in map.now)))
        out.old out.new count.old count.new (code_of result) }
{
    let map = load(map)?;
    let sound = SoundMap { map: &map };
    write_corner_list(sound, out, count)
}

// The point that a text line names, with its one line feed or without it: numbers 8 and 10.
#[unsafe(no_mangle)]
pub extern "C" fn reach_line(line: &[u8], out: &mut [i64]) -> u32
    ensures { Served (reply values_of (line_call line.now))
        out.old out.new result }
{
    code(write_line(line, out))
}

// The point that a text line names.
fn write_line(line: &[u8], out: &mut [i64]) -> Result<(), Refusal>
    ensures { Served (reply values_of (line_call line.now))
        out.old out.new (code_of result) }
{
    let p = read_line(line)?;
    write_values(&[p.x, p.y], out)
}

// The report on a survey text, and how many bytes it has: numbers 9 and 10.
#[unsafe(no_mangle)]
pub extern "C" fn reach_report(text: &[u8], out: &mut [u8], count: &mut [usize]) -> u32
    ensures { ServedBoth (report_rules text.now) (report text.now)
        (length_told (report text.now)) out.old out.new
        count.old count.new result }
{
    code(write_report(text, out, count))
}

// The report on a survey text.
fn write_report(text: &[u8], out: &mut [u8], count: &mut [usize]) -> Result<(), Refusal>
    ensures { ServedBoth (report_rules text.now) (report text.now)
        (length_told (report text.now)) out.old out.new
        count.old count.new (code_of result) }
{
    if count.len() < 1 {
        return Err(uncounted(text));
    }
    let length = report(text, out)?;
    count[0] = length;
    Ok(())
}

// The text of a map's outline, and how many bytes it has: numbers 7, 1 and 10.
#[unsafe(no_mangle)]
pub extern "C" fn reach_write_outline(map: &[u8], out: &mut [u8], count: &mut [usize]) -> u32
    ensures { ServedBoth (of_file map.now (λ m. unsound m ∷ []))
        (outline_text (corner_points (map_in map.now)))
        (length_told (outline_text (corner_points (map_in map.now))))
        out.old out.new count.old count.new result }
{
    code(write_outline(map, out, count))
}

// The text of the outline of a file's map.
fn write_outline(map: &[u8], out: &mut [u8], count: &mut [usize]) -> Result<(), Refusal>
    ensures { ServedBoth (of_file map.now (λ m. unsound m ∷ []))
        (outline_text (corner_points (map_in map.now)))
        (length_told (outline_text (corner_points (map_in map.now))))
        out.old out.new count.old count.new (code_of result) }
{
    let map = load(map)?;
    let sound = SoundMap { map: &map };
    write_outline_text(sound, out, count)
}

// Writes the text of a sound map's outline, and how many bytes it has: number 10.
fn write_outline_text(
    sound: SoundMap<'_>,
    out: &mut [u8],
    count: &mut [usize],
) -> Result<(), Refusal>
    ensures { ServedBoth [] (outline_text (corner_points sound.entry.map.now))
        (length (outline_text (corner_points sound.entry.map.now)) ∷ [])
        out.old out.new count.old count.new (code_of result) }
{
    let map = sound.map;
    let list = corners_of(sound);
    let corners = list.as_slice();
    let written = text_length(&map.points, corners);
    check_room(written, out, 1, count)?;
    write_text(&map.points, corners, out);
    count[0] = written;
    Ok(())
}

// The coordinates of the corners of an outline's text, x and y in turn, and how many numbers they are:
// numbers 9, 11, 3, 12 and 10.
#[unsafe(no_mangle)]
pub extern "C" fn reach_read_outline(text: &[u8], out: &mut [i64], count: &mut [usize]) -> u32
    ensures { ServedBoth (outline_rules text.now)
        (coordinates (corners_spelt text.now))
        (length_told (coordinates (corners_spelt text.now)))
        out.old out.new count.old count.new result }
{
    code(write_corners_spelt(text, out, count))
}

// The coordinates of the corners of an outline's text.
fn write_corners_spelt(text: &[u8], out: &mut [i64], count: &mut [usize]) -> Result<(), Refusal>
    ensures { ServedBoth (outline_rules text.now)
        (coordinates (corners_spelt text.now))
        (length_told (coordinates (corners_spelt text.now)))
        out.old out.new count.old count.new (code_of result) }
{
    let length = read_outline(text, out, 1 <= count.len())?;
    count[0] = length;
    Ok(())
}

// Twice the area of the outline, from the corner at a place of the listing: numbers 7, 1, 6 and 10.
#[unsafe(no_mangle)]
pub extern "C" fn reach_area(map: &[u8], place: usize, out: &mut [i64]) -> u32
    ensures { Served (from_file (area_reply place) map.now)
        out.old out.new result }
{
    code(write_loaded_area(map, place, out))
}

// Twice the area of the outline of a file's map.
fn write_loaded_area(map: &[u8], place: usize, out: &mut [i64]) -> Result<(), Refusal>
    ensures { Served (from_file (area_reply place) map.now)
        out.old out.new (code_of result) }
{
    let map = load(map)?;
    let sound = SoundMap { map: &map };
    write_area(sound, place, out)
}

// Writes twice the area of a sound map's outline: numbers 6 and 10.
fn write_area(sound: SoundMap<'_>, place: usize, out: &mut [i64]) -> Result<(), Refusal>
    ensures { Served (reply values_of (sound_area_call sound.entry.map.now place))
        out.old out.new (code_of result) }
{
    let z = area_of(sound, place)?;
    write_values(&[z], out)
}

// Whether a claimed list of point numbers is the corner listing of the points, begun at any corner: 1, or else 0.
// Points are pairs x, y; an odd last number names no point. Numbers 2, 3 and 4, by the first point that is refused,
// and 10.
#[unsafe(no_mangle)]
pub extern "C" fn reach_mark(points: &[i64], claim: &[usize], out: &mut [u64]) -> u32
    ensures { Served (mark_reply (points_of points.now) claim.now)
        out.old out.new result }
{
    code(write_mark(points, claim, out))
}

// Whether a claimed list of point numbers is the corner listing of the points.
fn write_mark(points: &[i64], claim: &[usize], out: &mut [u64]) -> Result<(), Refusal>
    ensures { Served (mark_reply (points_of points.now) claim.now)
        out.old out.new (code_of result) }
{
    let right = mark(points, claim)?;
    write_values(&[right as u64], out)
}
