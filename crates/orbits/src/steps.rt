// The walk along two links in turn: an edge step and a point step that call each other, with one move
// less left at each call. Document 01 names this form. The links are lent as slices, and any number may
// stand in them.

ghost use Rattle.std.specs.Prelude.{◌≡◌, ◌+◌, ◌<◌, ◌^◌};
ghost use Rattle.orbits.specs.Walks.{ends, edge_step, point_step, walk};
ghost use Rattle.orbits.specs.Links.{link_of};

use crate::{Ending, Walk, Walker};

// The walk from dart d along the links f and g in turn, of at most n moves.
pub fn walk<'a>(f: &'a [usize], g: &'a [usize], n: usize, d: usize) -> Walk
    ensures { result ≡ walk (link_of f.now) (link_of g.now) n d }
{
    edge_step(f, g, d, n, Walker::starting_at(d), 0)
}

// How the walk from `start` ends that stands before an edge step.
#[cycle(edge_step_point_step)]
fn edge_step<'a>(
    f: &'a [usize],
    g: &'a [usize],
    start: usize,
    left: usize,
    walker: Walker,
    moves: usize,
) -> Walk
    requires { left + moves < 2 ^ 64 }
    ensures { result ≡
        edge_step (link_of f.now) (link_of g.now) start left walker.dart moves }
{
    if left == 0 {
        return ended(Ending::Loose, walker, moves);
    }
    let next = walker.moved(f);
    if next.dart == walker.dart {
        return ended(Ending::Loose, walker, moves);
    }
    point_step(f, g, start, left - 1, next, moves + 1)
}

// How the walk from `start` ends that stands before a point step.
#[cycle(edge_step_point_step)]
fn point_step<'a>(
    f: &'a [usize],
    g: &'a [usize],
    start: usize,
    left: usize,
    walker: Walker,
    moves: usize,
) -> Walk
    requires { left + moves < 2 ^ 64 }
    ensures { result ≡
        point_step (link_of f.now) (link_of g.now) start left walker.dart moves }
{
    if left == 0 {
        return ended(Ending::Loose, walker, moves);
    }
    let next = walker.moved(g);
    if next.dart == start {
        return ended(Ending::Home, next, moves + 1);
    }
    edge_step(f, g, start, left - 1, next, moves + 1)
}

// The walk that has ended where the walker stands.
fn ended(ending: Ending, walker: Walker, moves: usize) -> Walk
    ensures { result ≡ ends ending walker.dart moves }
{
    Walk {
        last: walker.dart,
        ending,
        moves,
    }
}
