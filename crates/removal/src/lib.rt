// The last point of a map taken back: what is noted of it says how its darts are unlinked.
#![tactic(auto)]

ghost use Rattle.std.specs.Prelude.{◌≡◌, ◌≤◌, ◌<◌, T, length};
ghost use Rattle.model.specs.Maps.{point_limit};
ghost use Rattle.model.specs.Sound.{sound};
ghost use Rattle.model.specs.Removal.{before_last};
ghost use Rattle.removal.specs.Unlinking.{Unspliceable, is_corner, latest, unspliced};

use linking::{OUTSIDE, SECOND, cut, join};
use maps::NO_NOTE;
use maps::arrays::fixed_links;
use model::{Map, NO_DART, Note, POINT_LIMIT, Point};
use orbits::DART_LIMIT;

// The map before its last point. It asks more than a `SoundMap` knows: that the points build this map.
// The notes' numbers are compared as numbers, and 1,024 stands for no dart, as in `linking` and the file.
pub fn taken_back(map: &Map) -> Map
    requires { T (sound map.now) × (0 < map.now.count) }
    ensures { result ≡ before_last map.now }
{
    let k = map.count - 1;
    let note = map.notes[k];
    let mut before = *map;
    before.points[k] = Point { x: 0, y: 0 };
    before.notes[k] = NO_NOTE;
    before.count = k;
    if note.arrival == SECOND {
        before.helpers = [false; POINT_LIMIT];
        before.edge = fixed_links();
        before.reference = NO_DART;
        return before;
    }
    if note.arrival == OUTSIDE {
        before.helpers[k] = false;
        unsplice(&mut before.edge, k, note.left as usize, note.right as usize);
        before.reference = latest(&map.notes[..k]);
        return before;
    }
    before
}

// Point k is no corner any more: the darts beside it are joined again with those that it freed, or with
// each other.
fn unsplice(edge: &mut [usize; DART_LIMIT], k: usize, left: usize, right: usize)
    requires { Unspliceable edge.old k left right }
    ensures { edge.new ≡ unspliced k left right edge.old }
{
    let l = edge[2 * k + 1];
    let r = edge[2 * k];
    cut(edge, l);
    cut(edge, r);
    if left == NO_DART {
        join(edge, l, r);
        return;
    }
    join(edge, l, left);
    join(edge, r, right);
}

// The reference that points leave of which this is noted.
fn latest(notes: &[Note]) -> usize
    requires { length notes.now ≤ point_limit }
    ensures { result ≡ latest notes.now (length notes.now) }
{
    // By number: what is answered is the point's dart; with `enumerate` the note would be named beside it.
    for j in (0..notes.len()).rev() {
        if is_corner(notes[j].arrival) {
            return 2 * j;
        }
    }
    NO_DART
}

// Whether a point that arrived so moved the reference to its own dart.
fn is_corner(arrival: u8) -> bool
    ensures { result ≡ is_corner arrival }
{
    arrival == SECOND || arrival == OUTSIDE
}
