// Points, boxes and curves of f64 by value; clipping and crossing. Each operation rounds once, in the order written.
#![tactic(auto)]

ghost use Rattle.std.specs.Prelude.{◌≡◌};
ghost use Rattle.shape.specs.Plane as S;
ghost use Rattle.shape.specs.Curves as C;
ghost use Rattle.shape.specs.Clipping as L;
ghost use Rattle.shape.specs.Steps as T;

// The radius of a state, and the length of the arrow that points into a start state from the left.
pub const NODE_RADIUS: f64 = 22.0;

pub const START_ARROW_LENGTH: f64 = 28.0;

// Below this length two points count as the same.
pub const EPS: f64 = 1e-9;

// A point or a direction.
#[derive(Clone, Copy)]
pub struct V {
    pub x: f64,
    pub y: f64,
}

impl V {
    // 0, 0.
    pub const ORIGIN: V = V { x: 0.0, y: 0.0 };

    pub fn new(x: f64, y: f64) -> V
        ensures { result ≡ S.vec x y }
    {
        V { x, y }
    }

    // The unit vector at an angle.
    pub fn polar(angle: f64) -> V
        ensures { result ≡ S.polar angle }
    {
        V::new(float::cos(angle), float::sin(angle))
    }

    pub fn dot(self, o: V) -> f64
        ensures { result ≡ S.dot self o }
    {
        self.x * o.x + self.y * o.y
    }

    pub fn len(self) -> f64
        ensures { result ≡ S.len self }
    {
        float::hypot(self.x, self.y)
    }

    pub fn angle(self) -> f64
        ensures { result ≡ S.angle self }
    {
        float::atan2(self.y, self.x)
    }

    // The unit vector in this direction, or `fallback` for a vector of no length.
    #[tactic(auto, unfolding(crate::specs::Plane::unit_or))]
    pub fn unit_or(self, fallback: V) -> V
        ensures { result ≡ S.unit_or self fallback }
    {
        let len = self.len();
        if len > EPS { self / len } else { fallback }
    }

    // 90 degrees to the left on screen, where y points down.
    pub fn left(self) -> V
        ensures { result ≡ S.left self }
    {
        V::new(self.y, -self.x)
    }

    pub fn dist(self, o: V) -> f64
        ensures { result ≡ S.dist self o }
    {
        (self - o).len()
    }

    // The square of the distance; 0 where it is NaN, since the root of NaN is 0.
    #[tactic(auto, using(crate::specs::Squares::squared_none, crate::specs::Squares::squared_some))]
    pub fn dist_squared(self, o: V) -> f64
        ensures { result ≡ S.dist_squared self o }
    {
        let d = self - o;
        let q = d.x * d.x + d.y * d.y;
        if q != q {
            return 0.0;
        }
        q
    }
}

impl std::ops::Add for V {
    type Output = V;

    fn add(self, o: V) -> V
        ensures { result ≡ S.add self o }
    {
        V::new(self.x + o.x, self.y + o.y)
    }
}

impl std::ops::Sub for V {
    type Output = V;

    fn sub(self, o: V) -> V
        ensures { result ≡ S.sub self o }
    {
        V::new(self.x - o.x, self.y - o.y)
    }
}

impl std::ops::Neg for V {
    type Output = V;

    fn neg(self) -> V
        ensures { result ≡ S.neg_v self }
    {
        V::new(-self.x, -self.y)
    }
}

impl std::ops::Mul<f64> for V {
    type Output = V;

    fn mul(self, k: f64) -> V
        ensures { result ≡ S.mul self k }
    {
        V::new(self.x * k, self.y * k)
    }
}

impl std::ops::Div<f64> for V {
    type Output = V;

    fn div(self, k: f64) -> V
        ensures { result ≡ S.div self k }
    {
        V::new(self.x / k, self.y / k)
    }
}

// A box with sides along the axes.
#[derive(Clone, Copy)]
pub struct Rect {
    pub x0: f64,
    pub y0: f64,
    pub x1: f64,
    pub y1: f64,
}

// Four comparisons are told by a sum, since a branch for each would often be guessed wrong.
impl Rect {
    // What fills room before there is a box.
    pub const NONE: Rect = Rect {
        x0: 0.0,
        y0: 0.0,
        x1: 0.0,
        y1: 0.0,
    };

    // Whether the boxes overlap: those that only touch do not.
    #[tactic(auto, using(crate::proofs::Laws::overlaps_is))]
    pub fn overlaps(self, o: Rect) -> bool
        ensures { result ≡ S.overlaps self o }
    {
        let across = usize::from(self.x0 < o.x1) + usize::from(o.x0 < self.x1);
        let along = usize::from(self.y0 < o.y1) + usize::from(o.y0 < self.y1);
        across + along == 4
    }

    // The smallest box that contains both points.
    #[tactic(auto, unfolding(crate::specs::Plane::spanning))]
    pub fn spanning(a: V, b: V) -> Rect
        ensures { result ≡ S.spanning a b }
    {
        Rect {
            x0: float::min(a.x, b.x),
            y0: float::min(a.y, b.y),
            x1: float::max(a.x, b.x),
            y1: float::max(a.y, b.y),
        }
    }

    // With `d` added on every side.
    pub fn grown(self, d: f64) -> Rect
        ensures { result ≡ S.grown self d }
    {
        Rect {
            x0: self.x0 - d,
            y0: self.y0 - d,
            x1: self.x1 + d,
            y1: self.y1 + d,
        }
    }

    // Whether the boxes overlap or touch.
    #[tactic(auto, unfolding(crate::specs::Plane::touches))]
    pub fn touches(self, o: Rect) -> bool
        ensures { result ≡ S.touches self o }
    {
        self.x0 <= o.x1 && (o.x0 <= self.x1 && (self.y0 <= o.y1 && o.y0 <= self.y1))
    }

    // The same by a sum, for boxes of which each side may lie apart: a branch for each would often be guessed wrong.
    #[tactic(auto, using(crate::proofs::Laws::touches_is))]
    pub fn reaches(self, o: Rect) -> bool
        ensures { result ≡ S.touches self o }
    {
        let across = usize::from(self.x0 <= o.x1) + usize::from(o.x0 <= self.x1);
        let along = usize::from(self.y0 <= o.y1) + usize::from(o.y0 <= self.y1);
        across + along == 4
    }

    // The square of the distance from `p` to the box, 0 inside.
    pub fn dist_squared(self, p: V) -> f64
        ensures { result ≡ S.box_dist_squared self p }
    {
        let dx = outside(self.x0, self.x1, p.x);
        let dy = outside(self.y0, self.y1, p.y);
        dx * dx + dy * dy
    }

    // The box of no points.
    pub fn empty() -> Rect
        ensures { result ≡ S.no_bounds }
    {
        let most = float::infinity();
        Rect {
            x0: most,
            y0: most,
            x1: -most,
            y1: -most,
        }
    }

    // With one point more.
    #[tactic(auto, unfolding(crate::specs::Plane::extended))]
    pub fn extended(self, p: V) -> Rect
        ensures { result ≡ S.extended self p }
    {
        Rect {
            x0: float::min(self.x0, p.x),
            y0: float::min(self.y0, p.y),
            x1: float::max(self.x1, p.x),
            y1: float::max(self.y1, p.y),
        }
    }
}

// How far `v` lies outside lo .. hi.
#[tactic(auto, unfolding(crate::specs::Plane::outside))]
fn outside(lo: f64, hi: f64, v: f64) -> f64
    ensures { result ≡ S.outside lo hi v }
{
    float::max(float::max(lo - v, v - hi), 0.0)
}

// The shape of an arrow: a line, or a Bézier curve of second or third degree.
#[derive(Clone, Copy)]
pub enum Curve {
    Line(V, V),
    Quad(V, V, V),
    Cubic(V, V, V, V),
}

impl Curve {
    // The point at parameter `t` in 0 to 1.
    #[tactic(auto, unfolding(crate::specs::Curves::at))]
    pub fn at(self, t: f64) -> V
        ensures { result ≡ C.at self t }
    {
        let rest = 1.0 - t;
        match self {
            Curve::Line(p0, p1) => p0 * rest + p1 * t,
            Curve::Quad(p0, c, p1) => p0 * (rest * rest) + c * (2.0 * rest * t) + p1 * (t * t),
            Curve::Cubic(p0, c1, c2, p1) => p0 * (rest * rest * rest)
                + c1 * (3.0 * rest * rest * t)
                + c2 * (3.0 * rest * t * t)
                + p1 * (t * t * t),
        }
    }

    // The derivative at parameter `t`.
    #[tactic(auto, unfolding(crate::specs::Curves::tangent))]
    pub fn tangent(self, t: f64) -> V
        ensures { result ≡ C.tangent self t }
    {
        let rest = 1.0 - t;
        match self {
            Curve::Line(p0, p1) => p1 - p0,
            Curve::Quad(p0, c, p1) => (c - p0) * (2.0 * rest) + (p1 - c) * (2.0 * t),
            Curve::Cubic(p0, c1, c2, p1) => (c1 - p0) * (3.0 * rest * rest)
                + (c2 - c1) * (6.0 * rest * t)
                + (p1 - c2) * (3.0 * t * t),
        }
    }

    pub fn start(self) -> V
        ensures { result ≡ C.start self }
    {
        match self {
            Curve::Line(a, _) => a,
            Curve::Quad(a, _, _) => a,
            Curve::Cubic(a, _, _, _) => a,
        }
    }

    pub fn end(self) -> V
        ensures { result ≡ C.end self }
    {
        match self {
            Curve::Line(_, b) => b,
            Curve::Quad(_, _, b) => b,
            Curve::Cubic(_, _, _, b) => b,
        }
    }
}

// The part of a segment that is left, from `enter` to `leave`.
#[derive(Clone, Copy)]
pub struct Clip {
    pub enter: f64,
    pub leave: f64,
}

#[tactic(auto, unfolding(crate::specs::Steps::settled))]
fn settled(enter: f64, leave: f64) -> Option<Clip>
    ensures { result ≡ T.settled enter leave }
{
    if enter > leave {
        return None;
    }
    Some(Clip { enter, leave })
}

#[tactic(auto, unfolding(crate::specs::Steps::clip_step, crate::specs::Steps::settled))]
fn clip_step(towards: f64, room: f64, c: Clip) -> Option<Clip>
    ensures { result ≡ T.clip_step towards room c }
{
    if towards == 0.0 {
        return if room < 0.0 { None } else { Some(c) };
    }
    let at = room / towards;
    if towards < 0.0 {
        return settled(float::max(c.enter, at), c.leave);
    }
    settled(c.enter, float::min(c.leave, at))
}

// The part inside the box, cut by its four sides in turn.
#[tactic(auto, unfolding(crate::specs::Steps::clipped, crate::specs::Steps::edge_step))]
fn clipped(from: V, d: V, r: Rect) -> Option<Clip>
    ensures { result ≡ T.clipped from d r }
{
    let whole = Clip {
        enter: 0.0,
        leave: 1.0,
    };
    let left = clip_step(-d.x, from.x - r.x0, whole)?;
    let right = clip_step(d.x, r.x1 - from.x, left)?;
    let top = clip_step(-d.y, from.y - r.y0, right)?;
    clip_step(d.y, r.y1 - from.y, top)
}

// Whether the segment meets the box.
#[tactic(auto, using(crate::specs::Steps::clipped_is), unfolding(crate::specs::Clipping::segment_hits_rect))]
pub fn segment_hits_rect(from: V, to: V, rect: Rect) -> bool
    ensures { result ≡ L.segment_hits_rect from to rect }
{
    Rect::spanning(from, to).touches(rect) && clipped(from, to - from, rect).is_some()
}

// On which side of the line from p to q the point r lies, by its sign.
fn orient(p: V, q: V, r: V) -> f64
    ensures { result ≡ L.orient p q r }
{
    let along = q - p;
    let there = r - p;
    along.x * there.y - along.y * there.x
}

// Whether two segments properly cross.
#[tactic(auto, unfolding(crate::specs::Clipping::segments_cross))]
pub fn segments_cross(a: V, b: V, c: V, d: V) -> bool
    ensures { result ≡ L.segments_cross a b c d }
{
    let ends = orient(c, d, a) * orient(c, d, b);
    ends < 0.0 && orient(a, b, c) * orient(a, b, d) < 0.0
}
