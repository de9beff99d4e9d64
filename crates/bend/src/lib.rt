// The bow of an arrow between two states: none, up or down, so far that it keeps clear of other states; and its curve.
#![tactic(auto)]

ghost use Rattle.std.specs.Prelude.{◌≡◌, ◌-◌, ◌<◌, ◌≤◌, length};
ghost use Rattle.free.specs.Chords as C;
ghost use Rattle.bend.specs.Clear as L;
ghost use Rattle.bend.specs.Choice as K;
ghost use Rattle.bend.specs.Farther as Q;
ghost use Rattle.bend.specs.Bend as B;
ghost use Rattle.bend.specs.Between as W;
ghost use Rattle.bend.specs.Leads as D;
ghost use Rattle.bend.specs.Steps as S;

use free::{CLEARANCE, Chord, Search, Span};
use shape::{Curve, EPS, NODE_RADIUS, V};
use sheet::Ends;
use stack::Stack;

// Which way the label of an arrow may go: beside a line, outside an arc (1 bent to the left, -1 to the right),
// outwards from a loop. The side of an arc is a number, since directions are multiplied by it.
#[derive(Clone, Copy)]
pub enum Shape {
    Line,
    Arc(f64),
    Loop(V),
}

// An arrow whose curve is fixed and whose label is still to be placed.
#[derive(Clone, Copy)]
pub struct Routed {
    pub curve: Curve,
    pub tip_angle: f64,
    pub shape: Shape,
}

// Functions of a chord, whose type is `free`'s.

// The control point of the arc with bow h.
fn control(c: Chord, h: f64) -> V
    ensures { result ≡ L.control c h }
{
    let mid = (c.a + c.b) / 2.0;
    mid + c.along.left() * h
}

// The least room so far, and the square of the distance that it comes from.
#[derive(Clone, Copy)]
pub struct Near {
    pub room: f64,
    pub square: f64,
}

// The room between p and the rim of state k at o, where that is less. A state that is not nearer needs no root.
fn beside(c: Chord, k: usize, o: V, p: V, r: Near) -> Near
    requires { Q.GoodNear r }
    ensures { Q.RoomStep c k o p r result }
{
    if c.is_end(k) {
        return r;
    }
    let q = p.dist_squared(o);
    if r.square <= q {
        return r;
    }
    let room = float::root(q) - NODE_RADIUS;
    if room < r.room {
        return Near { room, square: q };
    }
    r
}

// The least room between p and the other states' rims, where that is less.
fn nearest(nodes: &[V], c: Chord, p: V, start: Near) -> Near
    requires good_near { Q.GoodNear start }
    ensures { Q.NearestRoom (C.other_states c nodes.now) p start result }
{
    let mut r = start;
    // By a loop, here and in `clearance`: a step requires that the room belongs to the square, which a fold does not hand on.
    for (k, o) in nodes.iter().enumerate() {
        r = beside(c, k, *o, p, r);
    }
    r
}

// The clearance that the arc with bow h keeps from the other states.
fn clearance(nodes: &[V], c: Chord, h: f64) -> f64
    ensures { result ≡ L.clearance c nodes.now h }
{
    let a = c.a;
    let b = c.b;
    let arc = Curve::Quad(a, control(c, h), b);
    let most = float::infinity();
    let mut r = Near {
        room: most,
        square: most,
    };
    // k numbers points of the arc, which are no list: nothing is indexed.
    for k in 1..16u32 {
        r = nearest(nodes, c, arc.at(k as f64 / 16.0), r);
    }
    r.room
}

// A bow and the clearance that its arc keeps.
#[derive(Clone, Copy)]
pub struct Best {
    pub clearance: f64,
    pub bow: f64,
}

fn better(b: Best, clearance: f64, bow: f64) -> Best
    ensures { result ≡ K.better b clearance bow }
{
    if clearance > b.clearance {
        return Best { clearance, bow };
    }
    b
}

// The first of the bows whose arc keeps half the clearance from all other states, or the one that keeps most.
fn verified(nodes: &[V], c: Chord, bows: &[f64]) -> f64
    requires bows_nonzero { 0 < length bows.now }
    ensures { result ≡ L.verified (L.clearance c nodes.now) bows.now }
{
    let mut b = Best {
        clearance: -float::infinity(),
        bow: bows[0],
    };
    for h in bows {
        let m = clearance(nodes, c, *h);
        if m >= CLEARANCE * 0.5 {
            return *h;
        }
        b = better(b, m, *h);
    }
    b.bow
}

// The first free bow of a two-way pair: upwards from 0.3 of the distance, from 28 to 64.
pub fn pair_up(c: Chord, spans: &[Span]) -> f64
    ensures { result ≡ B.pair_up c spans.now }
{
    let base = float::clamp(0.3 * c.len, 28.0, 64.0);
    free::first_free(spans, base, Search::Up)
}

// A two-way pair: upwards, and not capped.
fn pair_bow(nodes: &[V], c: Chord, spans: &[Span]) -> f64
    ensures { result ≡ B.pair_bow c nodes.now spans.now }
{
    let up = pair_up(c, spans);
    let bows = [up, up + 24.0, up + 48.0];
    verified(nodes, c, &bows)
}

fn capped(cap: f64, h: f64) -> f64
    ensures { result ≡ B.capped cap h }
{
    if float::abs(h) > cap {
        return float::copysign(cap, h);
    }
    h
}

// A single arrow: the nearer of up and down first, each capped.
fn single_bow(nodes: &[V], c: Chord, spans: &[Span]) -> f64
    ensures { result ≡ B.single_bow c nodes.now spans.now }
{
    let cap = float::max(1.5 * c.len, 160.0);
    let up = free::first_free(spans, 24.0, Search::Up);
    let down = free::first_free(spans, -24.0, Search::Down);
    let high = capped(cap, up);
    let low = capped(cap, down);
    if float::abs(down) + EPS < float::abs(up) {
        let bows = [low, high];
        return verified(nodes, c, &bows);
    }
    let bows = [high, low];
    verified(nodes, c, &bows)
}

// The bow past these intervals.
fn bend_past(nodes: &[V], c: Chord, spans: &[Span], both_ways: bool) -> f64
    ensures { result ≡ B.bend_past c nodes.now spans.now both_ways }
{
    if both_ways {
        return pair_bow(nodes, c, spans);
    }
    if free::inside_some(spans, 0.0) {
        return single_bow(nodes, c, spans);
    }
    0.0
}

// The signed offset of the control point, to the left of the direction of travel, or 0 for a straight arrow.
fn bend(nodes: &[V], c: Chord, both_ways: bool) -> f64
    requires few { length nodes.now ≤ 64 }
    ensures { result ≡ B.bend c nodes.now both_ways }
{
    let mut spans: Stack<Span, 64> = Stack::new(Span::NONE);
    c.blocked(nodes, &mut spans);
    bend_past(nodes, c, spans.as_slice(), both_ways)
}

fn straight(c: Chord) -> Routed
    ensures { result ≡ W.straight c }
{
    let p = c.a + c.along * NODE_RADIUS;
    let q = c.b - c.along * NODE_RADIUS;
    Routed {
        curve: Curve::Line(p, q),
        tip_angle: c.along.angle(),
        shape: Shape::Line,
    }
}

fn bowed(c: Chord, h: f64) -> Routed
    ensures { result ≡ W.bowed c h }
{
    let m = control(c, h);
    let p = c.a + (m - c.a).unit_or(c.along) * NODE_RADIUS;
    let q = c.b + (m - c.b).unit_or(-c.along) * NODE_RADIUS;
    Routed {
        curve: Curve::Quad(p, m, q),
        tip_angle: (c.b - m).angle(),
        shape: Shape::Arc(float::signum(h)),
    }
}

fn with_bow(c: Chord, h: f64) -> Routed
    ensures { result ≡ W.with_bow c h }
{
    if h == 0.0 {
        return straight(c);
    }
    bowed(c, h)
}

// The arrow between two different states; `both_ways` is what the search for a reverse arrow answers.
pub fn between(nodes: &[V], from: usize, to: usize, both_ways: bool) -> Routed
    requires few { length nodes.now ≤ 64 }
    requires from_in_bounds { from < length nodes.now }
    requires to_in_bounds { to < length nodes.now }
    ensures { result ≡ W.between nodes.now from to both_ways }
{
    let c = Chord::of(nodes, from, to);
    let h = bend(nodes, c, both_ways);
    with_bow(c, h)
}

// Whether it leads from a to b.
fn leads_from(e: &Ends, a: usize, b: usize) -> bool
    ensures { result ≡ D.leads_from a b e.now }
{
    e.source == a && e.target == b
}

// Whether some arrow leads from a to b. A step looks at two arrows, which takes fewer instructions an arrow than a chain.
#[tactic(auto, unfolding(crate::specs::Leads::leads))]
pub fn leads(arrows: &[Ends], a: usize, b: usize) -> bool
    ensures { result ≡ D.leads arrows.now a b }
{
    let mut rest = arrows;
    while let [first, second, more @ ..] = rest {
        if leads_from(first, a, b) || leads_from(second, a, b) {
            return true;
        }
        rest = more;
    }
    match rest.first() {
        Some(last) => leads_from(last, a, b),
        None => false,
    }
}
