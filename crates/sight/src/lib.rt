// What is seen of an outline from a point.
#![tactic(auto)]

ghost use Rattle.std.specs.Prelude.{◌≡◌, T};
ghost use Rattle.model.specs.Arrival.{farther, is_beyond};
ghost use Rattle.sight.specs.Requires.{OutlineFor};
ghost use Rattle.sight.specs.Sight.{seen, sought_at, turning};

use model::{Map, Point, Ranged, SoundMap};
use plane::between::are_opposite;
use plane::sees_edge;

// The corners between which the visible edges lie, and their number.
// No `Option` where nothing is visible: `seen` and `turning` tell all three numbers of any point.
#[derive(Clone, Copy)]
pub struct Seen {
    pub left: usize,
    pub right: usize,
    pub visible: usize,
}

// A map that has an outline, and a point that no condition refuses, which looks at it: whoever makes one proves it.
#[derive(Clone, Copy)]
pub struct Outlook<'a> {
    pub map: &'a Map,
    pub point: Point,
    pub ghost outline: { OutlineFor map.now point },
}

// What is seen from the point. Where some edge is visible and the outline has no corner at which that turns,
// all of it is visible: the point is in line beyond one of two corners, and both are the farther one.
pub fn seen_from(outlook: Outlook<'_>) -> Seen
    ensures { result ≡ seen outlook.entry.map.now outlook.entry.point }
{
    let turning = turning_from(outlook);
    if turning.visible == 0 {
        return turning;
    }
    if turning.left != turning.right {
        return turning;
    }
    let far = farther_corner(outlook);
    Seen {
        left: far,
        right: far,
        visible: turning.visible,
    }
}

// The corner farther from the point, which is in line beyond one of two corners: the other one lies ahead of
// it, between it and the point.
fn farther_corner(outlook: Outlook<'_>) -> usize
    requires { T (is_beyond outlook.map.now outlook.point) }
    ensures { result ≡ farther outlook.entry.map.now outlook.entry.point }
{
    let map = outlook.map;
    let sound = SoundMap { map };
    let p = Ranged {
        point: outlook.point,
    };
    let a = map.reference / 2;
    let b = map.next_corner(a);
    let ahead = are_opposite(sound.point(a), p, sound.point(b));
    if ahead { a } else { b }
}

// What is seen from the point once round the outline, with the corners where what is visible turns.
fn turning_from(outlook: Outlook<'_>) -> Seen
    ensures { result ≡ turning outlook.entry.map.now outlook.entry.point }
{
    let map = outlook.map;
    let sound = SoundMap { map };
    let p = Ranged {
        point: outlook.point,
    };
    let start = map.reference / 2;
    let last = map.previous_corner(start);
    let mut entering = sees_edge(sound.point(last), sound.point(start), p);
    let mut left = None;
    let mut right = None;
    let mut visible = 0;
    let mut a = start;
    let mut from = sound.point(start);
    // A walk of at most so many corners; no number is counted.
    for _ in 0..map.count {
        let b = map.edge[2 * a] / 2;
        let to = Ranged {
            point: map.points[b],
        };
        let leaving = sees_edge(from, to, p);
        if entering != leaving {
            left = sought_at(left, entering, leaving, a);
            right = sought_at(right, leaving, entering, a);
        }
        visible += leaving as usize;
        entering = leaving;
        a = b;
        from = to;
        if b == start {
            break;
        }
    }
    Seen {
        left: left.unwrap_or(0),
        right: right.unwrap_or(0),
        visible,
    }
}

// The corner sought if it is found; else corner a, where a test that failed before it passes after it.
fn sought_at(sought: Option<usize>, before: bool, after: bool, a: usize) -> Option<usize>
    ensures { result ≡ sought_at sought before after a }
{
    if sought.is_none() && !before && after {
        Some(a)
    } else {
        sought
    }
}
