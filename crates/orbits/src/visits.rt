// The queue by which darts are visited.
ghost use Rattle.std.specs.Prelude.{◌≡◌, ◌&&◌, not, ℕ, ◌<◌, T, length, get_or};
ghost use Rattle.finite.specs.Bounded.{count};
ghost use Rattle.orbits.specs.Sets.{dart_limit, set_of};
ghost use Rattle.orbits.specs.Links.{test_of};
ghost use Rattle.orbits.specs.Queue.{queued};

use crate::{DART_LIMIT, DartSet};

// The first `end` places of `order` are the queue, and `seen` marks the darts that stand in it. So no dart
// is put twice, and what is reached from a dart is found in as many steps as it has darts.
// There is no heap, so that the queue is an array and its end.
#[derive(Drop)]
pub(crate) struct Queue {
    order: [usize; DART_LIMIT],
    seen: [bool; DART_LIMIT],
    end: usize,
    ghost order_whole: { length order ≡ dart_limit },
    ghost seen_whole: { length seen ≡ dart_limit },
    ghost held: { (i : ℕ) → i < end → T (test_of seen (get_or order i 0)) },
    ghost placed: { (d : ℕ) → T (test_of seen d) → T (queued order end d) },
    ghost size: { end ≡ count dart_limit (test_of seen) },
}

impl Queue {
    ghost use Rattle.orbits.specs.Visits.{Put, Ready, Visited};

    // The queue of no dart.
    pub(crate) fn empty() -> Self
        ensures { result.end ≡ 0 }
    {
        Queue {
            order: [0; DART_LIMIT],
            seen: [false; DART_LIMIT],
            end: 0,
        }
    }

    // Puts d at the end, if it is not there.
    fn put(&mut self, d: usize)
        requires { d < dart_limit }
        ensures { Put d self.old self.new }
    {
        if !self.seen[d] {
            self.seen[d] = true;
            self.order[self.end] = d;
            self.end += 1;
        }
    }

    // Puts all that is reached from d by f and g.
    pub(crate) fn visit(&mut self, f: &[usize; DART_LIMIT], g: &[usize; DART_LIMIT], d: usize)
        requires { Ready f.now g.now d self.old }
        ensures { Visited f.now g.now d self.old self.new }
    {
        let mut head = self.end;
        self.put(d);
        // Counted by hand: a `for` would hold the queue, which `put` lengthens.
        while head < self.end {
            let a = self.order[head];
            self.put(f[a]);
            self.put(g[a]);
            head += 1;
        }
    }

    // Its darts as a set.
    pub(crate) fn darts(&self) -> DartSet
        ensures { result ≡ set_of (queued self.now.order self.now.end) }
    {
        let mut darts = DartSet::empty();
        for d in &self.order[..self.end] {
            darts = darts.with_dart(*d);
        }
        darts
    }

    // Whether dart a is present and not in the queue.
    pub(crate) fn is_unseen(&self, present: &[bool; DART_LIMIT], a: usize) -> bool
        requires { a < dart_limit }
        ensures { result ≡ test_of present.now a && not (test_of self.now.seen a) }
    {
        present[a] && !self.seen[a]
    }
}
