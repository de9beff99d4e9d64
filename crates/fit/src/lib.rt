// Fitting a drawing: what it covers, the shift to the margin, and its size.
#![tactic(auto)]

ghost use Rattle.std.specs.Prelude.{◌≡◌, map, length};
ghost use mathlib.Core.List.{flat_map};
ghost use Rattle.std.specs.List.{fold};
ghost use Rattle.laws.specs.Flat.{table};
ghost use Rattle.shape.specs.Plane.{add, extended};
ghost use Rattle.trace.specs.Traces.{sample};
ghost use Rattle.shape.specs.Centres as P;
ghost use Rattle.fit.specs.Fit as S;

use label_spots::Geometry;
use shape::{Curve, NODE_RADIUS, Rect, START_ARROW_LENGTH, V};
use trace::POINTS;

// The empty border around a drawing.
pub const MARGIN: f64 = 16.0;

// The width and height of a drawing, margins included.
#[derive(Clone, Copy)]
pub struct Size {
    pub width: f64,
    pub height: f64,
}

// ---- covering

fn cover_state(b: Rect, flag: u8, c: V) -> Rect
    ensures { result ≡ fold extended b (S.state_points flag c) }
{
    let low = b.extended(V::new(c.x - NODE_RADIUS, c.y - NODE_RADIUS));
    let round = low.extended(V::new(c.x + NODE_RADIUS, c.y + NODE_RADIUS));
    if sheet::is_start(flag) {
        return round.extended(V::new(c.x - NODE_RADIUS - START_ARROW_LENGTH, c.y));
    }
    round
}

fn cover_states(from: Rect, flags: &[u8], nodes: &[V]) -> Rect
    ensures { result ≡ fold extended from (S.states_points flags.now nodes.now) }
{
    flags
        .iter()
        .zip(nodes.iter())
        .fold(from, |b, (flag, c)| cover_state(b, *flag, *c))
}

fn cover_curve(from: Rect, curve: Curve) -> Rect
    ensures { result ≡ fold extended from (table (sample curve) 0 17) }
{
    (0..POINTS).fold(from, |b, k| b.extended(trace::sample(curve, k)))
}

// The arrow's curve and its label box.
fn cover_drawn(b: Rect, g: &Geometry) -> Rect
    ensures { result ≡ fold extended b (S.drawn_points g.now) }
{
    let curve = g.curve;
    let along = cover_curve(b, curve);
    let label = g.label_box;
    let first = along.extended(V::new(label.x0, label.y0));
    first.extended(V::new(label.x1, label.y1))
}

fn cover_all(from: Rect, drawn: &[Geometry]) -> Rect
    ensures { result ≡ fold extended from (flat_map S.drawn_points drawn.now) }
{
    drawn.iter().fold(from, |b, g| cover_drawn(b, g))
}

// ---- the shift

fn shift(centres: &mut [V], by: V)
    ensures { centres.new ≡ map (λ c. add c by) centres.old }
{
    for c in centres.iter_mut() {
        *c = *c + by;
    }
}

// Shifts the centres so that the drawing begins at the margin, and measures it.
pub fn fit(flags: &[u8], drawn: &[Geometry], centres: &mut [V]) -> Size
    requires { length centres.old ≡ length flags.now }
    ensures { let nodes = centres.old in
        let xs = map (λ c. c.x) nodes in
        let ys = map (λ c. c.y) nodes in
        (result ≡ S.fit_size flags.now nodes drawn.now)
        × (centres.new ≡ P.centres (S.fit_xs flags.now nodes drawn.now xs) (S.fit_ys flags.now nodes drawn.now ys)) }
{
    let states = cover_states(Rect::empty(), flags, centres);
    let b = cover_all(states, drawn);
    shift(centres, V::new(MARGIN - b.x0, MARGIN - b.y0));
    Size {
        width: b.x1 - b.x0 + 2.0 * MARGIN,
        height: b.y1 - b.y0 + 2.0 * MARGIN,
    }
}
