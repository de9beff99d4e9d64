// What `geometry` has before any label: the curve of each arrow between different states and where it meets the rims,
// and the traces of the first scene.
#![tactic(auto)]

ghost use Rattle.std.specs.Prelude.{◌≡◌, cond, [], ◌∷◌, ◌++◌, ◌+◌, ◌*◌, ◌≤◌, ◌<◌, length, get_or, map};
ghost use Rattle.float.specs.Constants.{f0};
ghost use Rattle.trace.specs.Form.{trace_in};
ghost use Rattle.routing.specs.Routing.{start_curve, start_traces, rim};
ghost use Rattle.routing.specs.Sheets.{or_zero};
ghost use Rattle.curves.specs.Lay as S;
ghost use Rattle.curves.specs.Counted as C;

mod frame;
mod laying;

use bend::Routed;
pub use frame::Frame;
pub use laying::Laying;
use shape::{Curve, NODE_RADIUS, START_ARROW_LENGTH, V};
use sheet::Ends;
use stack::Stack;
use std::f64::consts::PI;
use trace::Trace;

// ---- centres

// 0 for what is not finite.
pub fn or_zero(v: f64) -> f64
    ensures { result ≡ or_zero v }
{
    if float::is_finite(v) {
        return v;
    }
    0.0
}

// State k's centre as it counts: 0 for what is missing or not finite.
fn centre_at(centres: &[V], k: usize) -> V
    ensures { result ≡ C.counted_at centres.now k }
{
    let c = centres.get(k).copied().unwrap_or(V::ORIGIN);
    V::new(or_zero(c.x), or_zero(c.y))
}

// The centres as they count, one in each place: "Centres missing or not finite count as 0."
pub fn centred(centres: &[V], nodes: &mut [V])
    ensures { nodes.new ≡ C.counted centres.now (length nodes.old) }
{
    for (k, node) in nodes.iter_mut().enumerate() {
        *node = centre_at(centres, k);
    }
}

// The centres of n states as they count, in the room lent for them.
pub fn counted<'a>(centres: &[V], n: usize, room: &'a mut [V; 64]) -> &'a [V]
    requires { n ≤ 64 }
    ensures all { result.now ≡ C.counted centres.now n }
    ensures many { length result.now ≡ n }
{
    centred(centres, &mut room[..n]);
    &room[..n]
}

// ---- what is routed

// An arrow between different states: its curve, and the angles at which it leaves the first and reaches the second.
#[derive(Clone, Copy)]
pub struct Crossing {
    pub routed: Routed,
    pub leave: f64,
    pub reach: f64,
}

// What is known of an arrow before any label is placed.
#[derive(Clone, Copy)]
pub enum Laid {
    LeftOut,
    Loop,
    Between(Crossing),
}

impl<'a> Frame<'a> {
    // An arrow between different states; the reverse arrow is looked for among all.
    fn crossing(&self, e: Ends) -> Crossing
        requires source { e.source < length self.now.centres.now }
        requires target { e.target < length self.now.centres.now }
        ensures { result ≡ S.crossing_by (S.frame_in self.now) e }
    {
        let both_ways = bend::leads(self.arrows, e.target, e.source);
        let routed = bend::between(self.centres, e.source, e.target, both_ways);
        Crossing {
            routed,
            leave: directions::leave_angle(routed.curve, self.centres[e.source]),
            reach: directions::reach_angle(routed.curve, self.centres[e.target]),
        }
    }

    #[tactic(auto, unfolding(crate::specs::Lay::laid_by))]
    fn laid(&self, e: Ends) -> Laid
        ensures { result ≡ S.laid_by (S.frame_in self.now) e }
    {
        let n = self.flags.len();
        if e.source < n && e.target < n {
            if e.source == e.target {
                return Laid::Loop;
            }
            return Laid::Between(self.crossing(e));
        }
        Laid::LeftOut
    }

    // All arrows, in order.
    fn lay_arrows<const N: usize>(&self, laid: &mut Stack<Laid, N>)
        requires room { length laid.old + length self.now.arrows.now ≤ N }
        ensures { laid.new ≡ laid.old ++ map (S.laid_by (S.frame_in self.now)) self.now.arrows.now }
    {
        for e in self.arrows {
            laid.push(self.laid(*e));
        }
    }
}

// ---- traces

// The trace of arrow i, where it joins different states.
fn push_laid<const N: usize>(i: usize, laid: &Laid, traces: &mut Stack<Trace, N>)
    requires room { length traces.old + S.crosses laid.now ≤ N }
    ensures all { map trace_in traces.new ≡ map trace_in traces.old ++ S.traces_laid i laid.now }
    ensures many { length traces.new ≤ length traces.old + S.crosses laid.now }
{
    if let Laid::Between(c) = laid {
        traces.push(Trace::of(Some(i), c.routed.curve));
    }
}

// The traces of all arrows.
fn push_arrows<const N: usize>(laid: &[Laid], traces: &mut Stack<Trace, N>)
    requires room { length traces.old + S.crossings laid.now ≤ N }
    ensures all { map trace_in traces.new ≡ map trace_in traces.old ++ S.laid_traces 0 laid.now }
    ensures many { length traces.new ≤ length traces.old + S.crossings laid.now }
{
    for (i, l) in laid.iter().enumerate() {
        push_laid(i, l, traces);
    }
}

// The start arrow of a state at c, from the left to the rim.
fn start_curve(c: V) -> Curve
    ensures { result ≡ start_curve c }
{
    let tip = c - V::new(NODE_RADIUS, 0.0);
    let tail = tip - V::new(START_ARROW_LENGTH, 0.0);
    Curve::Line(tail, tip)
}

// The trace of the start arrow, owned by no arrow, of a state with this flag byte at c.
#[tactic(auto, using(crate::proofs::Laws::start_yes, crate::proofs::Laws::start_no))]
fn push_start<const N: usize>(flag: u8, c: V, traces: &mut Stack<Trace, N>)
    requires room { length traces.old < N }
    ensures all { map trace_in traces.new ≡ map trace_in traces.old ++ start_traces (flag ∷ []) (c ∷ []) }
    ensures many { length traces.new ≤ length traces.old + 1 }
{
    if sheet::is_start(flag) {
        traces.push(Trace::of(None, start_curve(c)));
    }
}

// The start arrows of all states.
fn push_starts<const N: usize>(flags: &[u8], centres: &[V], traces: &mut Stack<Trace, N>)
    requires level { length flags.now ≡ length centres.now }
    requires room { length traces.old + length centres.now ≤ N }
    ensures all { map trace_in traces.new ≡ map trace_in traces.old ++ start_traces flags.now centres.now }
    ensures many { length traces.new ≤ length traces.old + length centres.now }
{
    for (k, c) in centres.iter().enumerate() {
        push_start(flags[k], *c, traces);
    }
}

// ---- rims

// The angle at which an arrow meets the rim of state k.
fn push_met(e: Ends, laid: &Laid, k: usize, angles: &mut Stack<f64, 257>)
    requires room { length angles.old < 257 }
    ensures all { angles.new ≡ angles.old ++ S.met_by k e laid.now }
    ensures many { length angles.new ≤ length angles.old + 1 }
{
    if let Laid::Between(c) = laid {
        if e.source == k {
            angles.push(c.leave);
        } else if e.target == k {
            angles.push(c.reach);
        }
    }
}

impl<'a> Frame<'a> {
    // The angles at which arrows between different states meet the rim of state k.
    fn meet(&self, laid: &[Laid], k: usize, angles: &mut Stack<f64, 257>)
        requires one_each { length laid.now ≡ length self.now.arrows.now }
        requires room { length angles.old + length laid.now ≤ 257 }
        ensures all { angles.new ≡ angles.old ++ S.all_met k self.now.arrows.now laid.now }
        ensures many { length angles.new ≤ length angles.old + length laid.now }
    {
        for (i, l) in laid.iter().enumerate() {
            push_met(self.arrows[i], l, k, angles);
        }
    }

    // The angles at which arrows and the start mark meet the rim of state k, before any loop is drawn.
    pub fn rim(&self, laid: &[Laid], k: usize, angles: &mut Stack<f64, 257>)
        requires all { laid.now ≡ S.laid_of (S.frame_in self.now) }
        requires state { k < length self.now.centres.now }
        requires none { angles.old ≡ [] }
        ensures { angles.new ≡ rim (S.frame_in self.now) k }
    {
        self.meet(laid, k, angles);
        if sheet::is_start(self.flags[k]) {
            angles.push(PI);
        }
    }
}

// ---- all

impl<'a> Frame<'a> {
    // What is known of each arrow before any label is placed, and the traces of the first scene.
    pub fn lay<const A: usize, const T: usize>(
        &self,
        laid: &mut Stack<Laid, A>,
        traces: &mut Stack<Trace, T>,
    )
        requires none { (laid.old ≡ []) × (traces.old ≡ []) }
        requires room { (length self.now.arrows.now ≤ A) × (length self.now.arrows.now + length self.now.centres.now ≤ T) }
        ensures laid { laid.new ≡ S.laid_of (S.frame_in self.now) }
        ensures traces { map trace_in traces.new ≡ S.first_traces (S.frame_in self.now) }
        ensures many { length traces.new ≤ S.crossings (S.laid_of (S.frame_in self.now)) + length self.now.centres.now }
    {
        self.lay_arrows(laid);
        push_arrows(laid.as_slice(), traces);
        push_starts(self.flags, self.centres, traces);
    }
}
