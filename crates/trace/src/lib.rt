// Curves sampled as lines from point to point, for collision tests.
#![tactic(auto)]

ghost use Rattle.std.specs.Prelude.{◌≡◌, Bool, ◌<◌, map};
ghost use Rattle.std.specs.List.{list_any, range_with_len};
ghost use Rattle.shape.specs.Plane.{touches};
ghost use Rattle.trace.specs.Traces as S;
ghost use Rattle.trace.specs.Form.{points_in, trace_in};

use shape::{Curve, NODE_RADIUS, Rect, V};

// Segments of a curve in collision tests, the same as a float, and their points.
const SAMPLES: usize = 16;

const SEGMENTS: f64 = SAMPLES as f64;

pub const POINTS: usize = SAMPLES + 1;

// The square of the distance below which a loop comes too near to a state's centre.
const NEAR25_SQUARED: f64 = (NODE_RADIUS + 3.0) * (NODE_RADIUS + 3.0);

// ---- a curve's points

// The point of the curve after k of its segments.
#[tactic(auto, unfolding(crate::specs::Traces::sample))]
pub fn sample(c: Curve, k: usize) -> V
    requires { k < 17 }
    ensures { result ≡ S.sample c k }
{
    c.at((k as f64) / SEGMENTS)
}

fn samples(c: Curve) -> [V; POINTS]
    ensures { result ≡ map (S.sample c) (range_with_len 0 17) }
{
    std::array::from_fn(|k| sample(c, k))
}

// The ends of a line, or the points of any other curve.
#[derive(Clone, Copy)]
pub enum Points {
    Ends([V; 2]),
    Samples([V; POINTS]),
}

impl Points {
    #[tactic(auto, using(crate::proofs::Laws::curve_samples), unfolding(crate::specs::Traces::samples))]
    pub fn of(c: Curve) -> Points
        ensures { points_in result ≡ S.samples c }
    {
        match c {
            Curve::Line(p, q) => Points::Ends([p, q]),
            Curve::Quad(..) | Curve::Cubic(..) => Points::Samples(samples(c)),
        }
    }

    pub fn as_slice(&self) -> &[V]
        ensures { result.now ≡ points_in self.now }
    {
        match self {
            Points::Ends(p) => p,
            Points::Samples(p) => p,
        }
    }

    // Whether f holds of some point and the next.
    fn any_segment<F: Fn(V, V) -> bool>(&self, f: F) -> bool
        requires { F.IsAlwaysCallable f }
        ensures { (p : V → V → Bool) → ((a b : V) (r : Bool) → F.post f a b r → r ≡ p a b)
            → result ≡ S.any_segment p (points_in self.now) }
    {
        let points = self.as_slice();
        points
            .iter()
            .zip(points.iter().skip(1))
            .any(|(a, b)| f(*a, *b))
    }
}

// The smallest box that contains the points.
#[tactic(auto, unfolding(crate::specs::Traces::bounds_of))]
fn bounds_of(points: &[V]) -> Rect
    ensures { result ≡ S.bounds_of points.now }
{
    points.iter().fold(Rect::empty(), |b, p| b.extended(*p))
}

// Whether some point is near to a state's centre o.
fn any_near(points: &[V], o: V) -> bool
    ensures { result ≡ list_any (S.point_near o) points.now }
{
    points.iter().any(|p| point_near(o, *p))
}

// ---- traces

// The trace of a curve, of the arrow that owns it; that of a start arrow is nobody's.
#[derive(Clone, Copy)]
pub struct Trace {
    pub owner: Option<usize>,
    pub bounds: Rect,
    pub points: Points,
}

impl Trace {
    // What fills room before there is a trace.
    pub const NONE: Trace = Trace {
        owner: None,
        bounds: Rect::NONE,
        points: Points::Ends([V::ORIGIN; 2]),
    };

    #[tactic(auto, unfolding(crate::specs::Traces::trace_of))]
    pub fn of(owner: Option<usize>, curve: Curve) -> Trace
        ensures { trace_in result ≡ S.trace_of owner curve }
    {
        let points = Points::of(curve);
        Trace {
            owner,
            bounds: bounds_of(points.as_slice()),
            points,
        }
    }

    // Whether the arrow does not own the trace.
    #[tactic(auto, unfolding(crate::specs::Traces::foreign))]
    fn foreign(&self, own: usize) -> bool
        ensures { result ≡ S.foreign own (trace_in self.now) }
    {
        self.owner != Some(own)
    }

    // Whether the bounds touch the box. Where they do not the trace does not meet it.
    fn reaches(&self, r: Rect) -> bool
        ensures { result ≡ touches self.now.bounds r }
    {
        self.bounds.reaches(r)
    }

    // Whether the trace is not the arrow's own and meets the box; its bounds are tested first.
    #[tactic(auto, using(crate::proofs::Laws::apart_struck), unfolding(crate::specs::Traces::struck, crate::specs::Traces::hits_rect))]
    pub fn strikes(&self, own: usize, r: Rect) -> bool
        ensures { result ≡ S.struck own r (trace_in self.now) }
    {
        self.reaches(r)
            && self.foreign(own)
            && self
                .points
                .any_segment(|a, b| shape::segment_hits_rect(a, b, r))
    }

    // Whether the segment from a to b crosses one of the trace.
    #[tactic(auto, unfolding(crate::specs::Traces::segment_crosses))]
    fn segment_crosses(&self, a: V, b: V) -> bool
        ensures { result ≡ S.segment_crosses (trace_in self.now) a b }
    {
        let ab = Rect::spanning(a, b);
        ab.touches(self.bounds) && self.points.any_segment(|c, d| pair_cross(ab, a, b, c, d))
    }

    // Whether two traces cross.
    #[tactic(auto, unfolding(crate::specs::Traces::crosses))]
    pub fn crosses(&self, t: &Trace) -> bool
        ensures { result ≡ S.crosses (trace_in self.now) (trace_in t.now) }
    {
        self.bounds.touches(t.bounds) && self.points.any_segment(|a, b| t.segment_crosses(a, b))
    }

    // Whether the trace is not the arrow's own and crosses the loop.
    #[tactic(auto, using(crate::proofs::Laws::apart_crossed), unfolding(crate::specs::Traces::crossed))]
    pub fn crossed(&self, own: usize, looped: &Trace) -> bool
        ensures { result ≡ S.crossed own (trace_in looped.now) (trace_in self.now) }
    {
        self.reaches(looped.bounds) && self.foreign(own) && self.crosses(looped)
    }

    // Whether a point of the trace is near to a state's centre o.
    #[tactic(auto, unfolding(crate::specs::Traces::near25))]
    pub fn near(&self, o: V) -> bool
        ensures { result ≡ S.near25 (trace_in self.now) o }
    {
        any_near(self.points.as_slice(), o)
    }
}

// Whether the segment from a to b, in the box ab, crosses the one from c to d.
#[tactic(auto, unfolding(crate::specs::Traces::pair_cross))]
fn pair_cross(ab: Rect, a: V, b: V, c: V, d: V) -> bool
    ensures { result ≡ S.pair_cross ab a b c d }
{
    ab.touches(Rect::spanning(c, d)) && shape::segments_cross(a, b, c, d)
}

// Whether p is nearer to a state's centre o than its radius and 3, by the squares.
#[tactic(auto, using(crate::specs::Near::point_near_squared))]
fn point_near(o: V, p: V) -> bool
    ensures { result ≡ S.point_near o p }
{
    p.dist_squared(o) < NEAR25_SQUARED
}
