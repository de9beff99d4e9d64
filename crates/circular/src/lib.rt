// The ring: the states on a circle, in their order, the start state at the left.
#![tactic(auto)]

ghost use Rattle.std.specs.Prelude.{◌≡◌, ◌<◌, ◌≤◌, length};
ghost use Rattle.shape.specs.Centres as P;
ghost use Rattle.circular.specs.Ring as S;

use float::TAU;
use shape::{NODE_RADIUS, V};
use std::f64::consts::PI;

// The smallest distance between neighbours on the ring.
const CIRCLE_GAP: f64 = 150.0;

// The radius of the circle for n states, the widest label `label` wide.
fn radius(n: usize, label: f64) -> f64
    requires { n ≤ 64 }
    ensures { result ≡ S.radius n label }
{
    let chord = float::clamp(
        label + 2.0 * NODE_RADIUS + 24.0,
        CIRCLE_GAP,
        2.0 * CIRCLE_GAP + 20.0,
    );
    chord / (2.0 * float::sin(PI / (n as f64)))
}

// The place of state i, counted from the start state.
fn ring_place(n: usize, start: usize, i: usize) -> usize
    requires { (n ≤ 64) × (start < n) × (i < n) }
    ensures { (result ≡ S.ring_place n start i) × (result < n) }
{
    (i + n - start) % n
}

// The direction of place k.
fn place_angle(n: usize, k: usize) -> f64
    requires { (n ≤ 64) × (k < n) }
    ensures { result ≡ S.place_angle n k }
{
    PI + TAU * (k as f64) / (n as f64)
}

// The states on the circle with radius r.
fn fill(start: usize, r: f64, centres: &mut [V])
    requires { (length centres.old ≤ 64) × (start < length centres.old) }
    ensures { let states = length centres.old in
        centres.new ≡ P.centres (S.around_ring S.cos_at states start r) (S.around_ring S.sin_at states start r) }
{
    let n = centres.len();
    for (i, c) in centres.iter_mut().enumerate() {
        let a = place_angle(n, ring_place(n, start, i));
        *c = V::new(r * float::cos(a), r * float::sin(a));
    }
}

// The centres on the ring; one state at 0, 0.
pub fn circular(start: usize, label: f64, centres: &mut [V])
    requires { (length centres.old ≤ 64) × (start < length centres.old) }
    ensures { let states = length centres.old in
        centres.new ≡ P.centres (S.circular_xs states start label) (S.circular_ys states start label) }
{
    let n = centres.len();
    if n == 1 {
        centres[0] = V::new(0.0, 0.0);
        return;
    }
    fill(start, radius(n, label), centres);
}
