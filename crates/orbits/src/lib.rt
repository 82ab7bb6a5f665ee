// Orbits, connected parts and walks of darts, with the links as parameters, and the set of darts
// that an orbit is given as.
#![tactic(auto)]

pub mod steps;
mod visits;

ghost use Rattle.std.specs.Prelude.{◌≡◌, length};
ghost use Rattle.orbits.specs.Reach.{by_one, by_two, reaches, StaysBelow};
ghost use Rattle.orbits.specs.Classes.{classes};
ghost use Rattle.orbits.specs.Sets.{dart_limit, set_of, no_darts, has, with_dart};
ghost use Rattle.orbits.specs.Walks.{walker_at};
ghost use Rattle.orbits.specs.Links.{link_of, test_of, Composable, Composed, Followable, Permuted};

use visits::Queue;

// Darts are numbered 0 to 1,023.
pub const DART_LIMIT: usize = 1024;

// A set of the darts, beside its size: bit j of word w stands for dart 64 * w + j. Document 01 names
// this form.
#[derive(Clone, Copy)]
pub struct DartSet {
    pub words: [u64; 16],
    pub size: usize,
}

impl DartSet {
    // The set of no dart.
    pub fn empty() -> Self
        ensures { result ≡ no_darts }
    {
        DartSet {
            words: [0u64; 16],
            size: 0,
        }
    }

    // Whether d is a member. No number past the darts is one.
    pub fn contains(self, d: usize) -> bool
        ensures { result ≡ has self d }
    {
        let w = d / 64;
        if 16 <= w {
            return false;
        }
        let word = self.words[w];
        word & 1u64 << (d % 64) != 0
    }

    // The set with one dart more: the same set where d is a member, or no dart. The size of a set that
    // no call made may be any number: one that is no number of darts stays, so that nothing wraps.
    pub fn with_dart(self, d: usize) -> Self
        ensures { result ≡ with_dart self d }
    {
        if DART_LIMIT <= d {
            return self;
        }
        if self.contains(d) {
            return self;
        }
        let mut words = self.words;
        let w = d / 64;
        words[w] |= 1u64 << (d % 64);
        let size = if self.size < DART_LIMIT {
            self.size + 1
        } else {
            self.size
        };
        DartSet { words, size }
    }
}

// How a walk ends: back at its start, or at a dart that the first link fixes.
#[derive(Clone, Copy)]
pub enum Ending {
    Home,
    Loose,
}

// What a walk gives: the last dart, the ending and the moves made.
#[derive(Clone, Copy)]
pub struct Walk {
    pub last: usize,
    pub ending: Ending,
    pub moves: usize,
}

// A walker stands at a dart. Document 01 names this form.
#[derive(Clone, Copy)]
pub struct Walker {
    pub dart: usize,
}

impl Walker {
    // A walker that starts at dart d.
    pub fn starting_at(d: usize) -> Self
        ensures { result ≡ walker_at d }
    {
        Walker { dart: d }
    }

    // The walker moved along a link. At a number past the list it stays.
    pub fn moved(self, link: &[usize]) -> Self
        ensures { result ≡ walker_at (link_of link.now self.dart) }
    {
        Walker {
            dart: link_of(link, self.dart),
        }
    }

    // The dart that it has reached.
    pub fn dart(self) -> usize
        ensures { result ≡ self.dart }
    {
        self.dart
    }
}

// Where the link that a list holds leads from d; a number past the list stays.
pub fn link_of(links: &[usize], d: usize) -> usize
    ensures { result ≡ link_of links.now d }
{
    links.get(d).copied().unwrap_or(d)
}

// Makes the link g, which `both` holds, the link "f, then g". From n on f moves nothing, and g is both.
// f and g stay two parameters, here and below: `orbit` gives one link twice, and a struct would be named by its
// fields in each clause.
pub fn compose(
    f: &[usize; DART_LIMIT],
    g: &[usize; DART_LIMIT],
    n: usize,
    both: &mut [usize; DART_LIMIT],
)
    requires { Composable f.now g.now n both.old }
    ensures { Composed f.now g.now both.new }
{
    // By number: `both.iter_mut().take(n).enumerate()` would say the same with a name more.
    for d in 0..n {
        both[d] = link_of(g, link_of(f, d));
    }
}

// The connected part of dart d: all that is reached from it by the links f and g.
pub fn part(f: &[usize; DART_LIMIT], g: &[usize; DART_LIMIT], d: usize) -> DartSet
    requires { Followable f.now g.now d }
    ensures { result ≡
        set_of (reaches (by_two (link_of f.now) (link_of g.now)) dart_limit d) }
{
    let mut queue = Queue::empty();
    queue.visit(f, g, d);
    queue.darts()
}

// The orbit of dart d: all that is reached from it by the link f.
pub fn orbit(f: &[usize; DART_LIMIT], d: usize) -> DartSet
    requires { (length f.now ≡ dart_limit) × StaysBelow dart_limit (by_one (link_of f.now)) d }
    ensures { result ≡ set_of (reaches (by_one (link_of f.now)) dart_limit d) }
{
    part(f, f, d)
}

// How many connected parts the present darts below n have under the links f and g. Each part is visited
// from its least dart.
pub fn part_count(
    f: &[usize; DART_LIMIT],
    g: &[usize; DART_LIMIT],
    n: usize,
    present: &[bool; DART_LIMIT],
) -> usize
    requires { Permuted n (test_of present.now) f.now g.now }
    ensures { result ≡
        classes (by_two (link_of f.now) (link_of g.now)) n (test_of present.now) }
{
    let mut queue = Queue::empty();
    let mut parts = 0;
    // By number: the queue is asked of the dart too, and not only the list of those present.
    for a in 0..n {
        if queue.is_unseen(present, a) {
            queue.visit(f, g, a);
            parts += 1;
        }
    }
    parts
}

// How many orbits the present darts below n have under the link f.
pub fn orbit_count(f: &[usize; DART_LIMIT], n: usize, present: &[bool; DART_LIMIT]) -> usize
    requires { Permuted n (test_of present.now) f.now f.now }
    ensures { result ≡ classes (by_one (link_of f.now)) n (test_of present.now) }
{
    part_count(f, f, n, present)
}
