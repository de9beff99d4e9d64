// The bows that states beside an arrow block, and the first free one.
#![tactic(auto)]

ghost use Rattle.std.specs.Prelude.{◌≡◌, ◌++◌, ◌+◌, ◌<◌, ◌≤◌, length};
ghost use Rattle.free.specs.Chords as C;
ghost use Rattle.free.specs.Blocked as B;
ghost use Rattle.free.specs.Free as F;

use shape::{NODE_RADIUS, V};
use stack::Stack;

// The free space that an arrow keeps around states that it passes.
pub const CLEARANCE: f64 = 10.0;

// The straight way from the centre of one state to that of another: a to b, with its direction and length.
#[derive(Clone, Copy)]
pub struct Chord {
    pub from: usize,
    pub to: usize,
    pub a: V,
    pub b: V,
    pub along: V,
    pub len: f64,
}

// An open interval of bows.
#[derive(Clone, Copy)]
pub struct Span {
    pub lo: f64,
    pub hi: f64,
}

impl Chord {
    // The chord from one state to another.
    pub fn of(nodes: &[V], from: usize, to: usize) -> Chord
        requires from_in_bounds { from < length nodes.now }
        requires to_in_bounds { to < length nodes.now }
        ensures { result ≡ C.chord nodes.now from to }
    {
        let a = nodes[from];
        let b = nodes[to];
        let along = (b - a).unit_or(V::new(1.0, 0.0));
        let len = a.dist(b);
        Chord {
            from,
            to,
            a,
            b,
            along,
            len,
        }
    }

    // Whether state k is an end of the chord.
    pub fn is_end(self, k: usize) -> bool
        ensures { result ≡ C.is_end self k }
    {
        k == self.from || k == self.to
    }

    // Whether a state at p does not lie beside the chord.
    fn is_off(self, p: V) -> bool
        ensures { result ≡ B.off_chord self p }
    {
        let distance = (p - self.a).dot(self.along);
        distance <= 0.0 || self.len <= distance
    }

    // The bows at which the arc comes nearer than CLEARANCE to the rim of a state at p.
    fn span_of(self, p: V) -> Span
        ensures { result ≡ B.span_of self p }
    {
        let rel = p - self.a;
        let t = rel.dot(self.along) / self.len;
        let rise = 2.0 * t * (1.0 - t);
        let across = rel.dot(self.along.left());
        let need = NODE_RADIUS + CLEARANCE;
        Span {
            lo: (across - need) / rise,
            hi: (across + need) / rise,
        }
    }

    // The intervals that the states block, one behind another, behind those that are there.
    pub fn blocked<const N: usize>(self, nodes: &[V], spans: &mut Stack<Span, N>)
        requires room { length spans.old + length nodes.now ≤ N }
        ensures { spans.new ≡ spans.old ++ B.blocked self nodes.now }
    {
        for (k, p) in nodes.iter().enumerate() {
            if !self.is_end(k) && !self.is_off(*p) {
                spans.push(self.span_of(*p));
            }
        }
    }
}

// The way that the search for a free bow goes.
#[derive(Clone, Copy, Debug, PartialEq, Eq)]
pub enum Search {
    Up,
    Down,
}

// From a direction: up where it is above 0.
impl From<f64> for Search {
    ghost from_gives = { λ dir way. way ≡ F.way_of dir };

    fn from(dir: f64) -> Search {
        if dir > 0.0 { Search::Up } else { Search::Down }
    }
}

impl Span {
    // What fills room before there is an interval.
    pub const NONE: Span = Span { lo: 0.0, hi: 0.0 };

    // Whether h lies inside the open interval.
    fn contains(self, h: f64) -> bool
        ensures { result ≡ F.inside self h }
    {
        self.lo < h && h < self.hi
    }

    // Where the search leaves the interval.
    fn end(self, way: Search) -> f64
        ensures { result ≡ F.sent_to way self }
    {
        match way {
            Search::Up => self.hi,
            Search::Down => self.lo,
        }
    }
}

// Whether some interval has h inside.
pub fn inside_some(spans: &[Span], h: f64) -> bool
    ensures { result ≡ F.inside_some spans.now h }
{
    spans.iter().any(|s| s.contains(h))
}

// What a pass has come to: where h is, and whether anything moved it. Not an Option, since h is the answer either way.
#[derive(Clone, Copy)]
pub struct Pass {
    pub h: f64,
    pub moved: bool,
}

// One interval's step: an h inside it goes to the end where the search leaves it.
#[tactic(auto, unfolding(crate::specs::Free::visit))]
fn visit(way: Search, p: Pass, s: Span) -> Pass
    ensures { result ≡ F.visit way p s }
{
    if s.contains(p.h) {
        return Pass {
            h: s.end(way),
            moved: true,
        };
    }
    p
}

// One pass over all intervals.
#[tactic(auto, unfolding(crate::specs::Free::pass))]
fn full_pass(way: Search, spans: &[Span], h: f64) -> Pass
    ensures { result ≡ F.pass way spans.now h }
{
    spans
        .iter()
        .fold(Pass { h, moved: false }, |p, s| visit(way, p, *s))
}

// The first h from `start` that way that is inside no interval: passes over all intervals, until one moves nothing.
pub fn first_free(spans: &[Span], start: f64, way: Search) -> f64
    ensures { result ≡ F.first_free way spans.now start }
{
    let mut h = start;
    // The document's form: one more pass until one moves nothing.
    loop {
        let p = full_pass(way, spans, h);
        h = p.h;
        if !p.moved {
            return h;
        }
    }
}
