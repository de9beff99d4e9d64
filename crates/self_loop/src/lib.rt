// The turn of a self-loop: what each direction costs in the scene, the search for the direction, and the drawing.
#![tactic(auto)]

ghost use Rattle.std.specs.Prelude.{◌≡◌, ◌+◌, ◌*◌, ◌++◌, ◌≤◌, ◌<◌, take, drop, length};
ghost use Rattle.std.specs.List.{count_by};
ghost use Rattle.trace.specs.Traces.{crossed, near25, trace_of, arrow};
ghost use Rattle.trace.specs.Form.{trace_in};
ghost use Rattle.scene.specs.Scene as S;
ghost use Rattle.directions.specs.Directions.{directions};
ghost use Rattle.self_loop.specs.Looped as L;

use bend::{Routed, Shape};
use label_spots::{Geometry, Spot, Turn};
use scene::Scene;
use shape::{Curve, V};
use stack::Stack;
use trace::Trace;

// A direction with less room than this on one side is cramped.
const CRAMPED: f64 = 0.75;

// What the turn of a loop is given: the arrow's number and its state's, the angles at which the rim of the state is taken,
// and the size of the label.
#[derive(Clone, Copy)]
pub struct Loop<'a> {
    pub edge: usize,
    pub node: usize,
    pub taken: &'a [f64],
    pub width: f64,
    pub height: f64,
}

// ---- the drawing

fn loop_routed(c: V, phi: f64) -> Routed
    ensures { result ≡ L.loop_routed c phi }
{
    let curve = directions::loop_curve(c, phi);
    Routed {
        curve,
        tip_angle: curve.tangent(1.0).angle(),
        shape: Shape::Loop(V::polar(phi)),
    }
}

// ---- what a direction adds

// 10 for each state but the node that the loop comes too near to.
fn states_add(states: &[V], node: usize, looped: &Trace) -> usize
    requires { node < length states.now }
    ensures { let others = take node states.now ++ drop (node + 1) states.now in
        (result ≡ 10 * count_by (near25 (trace_in looped.now)) others) × (result ≤ 10 * length states.now) }
{
    let others = states[..node].iter().chain(&states[node + 1..]);
    10 * others.filter(|o| looped.near(**o)).count()
}

// 3 for each foreign trace that the loop crosses.
fn traces_add(traces: &[Trace], edge: usize, looped: &Trace) -> usize
    ensures { (result ≡ 3 * count_by (λ t. crossed edge (trace_in looped.now) (trace_in t)) traces.now)
        × (result ≤ 3 * length traces.now) }
{
    3 * traces.iter().filter(|t| t.crossed(edge, looped)).count()
}

fn cramped(phi: f64, taken: &[f64]) -> usize
    ensures { (result ≡ L.cramped phi taken.now) × (result ≤ 20) }
{
    if directions::room(phi, taken) < CRAMPED {
        return 20;
    }
    0
}

impl<'a> Loop<'a> {
    // The loop in direction phi, with its label.
    fn drawn(&self, c: V, phi: f64) -> Geometry
        ensures { result ≡ L.loop_at self.now.edge c self.now.width self.now.height phi }
    {
        let arrow = loop_routed(c, phi);
        let curve = arrow.curve;
        let t = Turn {
            edge: self.edge,
            arrow,
            width: self.width,
            height: self.height,
        };
        let s = Spot {
            at: curve.at(0.5),
            side: V::polar(phi),
        };
        label_spots::labelled(t, s)
    }

    // What the loop of this curve in direction phi adds to the cost of its label.
    fn adds(&self, scene: &Scene, phi: f64, curve: Curve) -> usize
        requires { self.now.node < length scene.now.states.now }
        ensures adds { let s = S.scene_in scene.now in
            let looped = trace_of (arrow self.now.edge) curve in
            result ≡ L.loop_adds s.centres s.traces self.now.edge self.now.node self.now.taken.now phi looped }
        ensures most { result ≤ 10 * length scene.now.states.now + 3 * length scene.now.traces.now + 20 }
    {
        let looped = Trace::of(Some(self.edge), curve);
        let states = states_add(scene.states, self.node, &looped);
        let crossings = traces_add(scene.traces, self.edge, &looped);
        states + crossings + cramped(phi, self.taken)
    }

    // The full cost of direction phi.
    fn cost(&self, scene: &Scene, phi: f64) -> usize
        requires { self.now.node < length scene.now.states.now }
        ensures { let s = S.scene_in scene.now in result ≡ L.loop_cost s (L.loop_in s self.now) phi }
    {
        let g = self.drawn(scene.states[self.node], phi);
        scene.box_cost(self.edge, g.label_box) + self.adds(scene, phi, g.curve)
    }

    // The number of the direction that the loop takes: of those listed, the first that no other undercuts.
    fn first_direction(&self, scene: &Scene, listed: &[f64]) -> usize
        requires inside { self.now.node < length scene.now.states.now }
        requires all { listed.now ≡ directions self.now.taken.now }
        ensures { let s = S.scene_in scene.now in result ≡ L.loop_taken s (L.loop_in s self.now) }
    {
        scene::first_least(
            listed.len(),
            |_: usize, j: usize| self.cost(scene, listed[j]),
        )
    }

    fn take_direction(&self, scene: &Scene, listed: &[f64]) -> f64
        requires inside { self.now.node < length scene.now.states.now }
        requires all { listed.now ≡ directions self.now.taken.now }
        ensures { let s = S.scene_in scene.now in
            let l = L.loop_in s self.now in
            result ≡ L.direction l (L.loop_taken s l) }
    {
        listed[self.first_direction(scene, listed)]
    }
}

// The self-loop of a state, with its label, in the direction that it takes.
pub fn self_loop(scene: &Scene, turn: &Loop) -> Geometry
    requires inside { turn.now.node < length scene.now.states.now }
    requires few { length turn.now.taken.now ≤ 512 }
    ensures { let s = S.scene_in scene.now in result ≡ L.looped s (L.loop_in s turn.now) }
{
    let mut listed = Stack::new(0.0);
    directions::directions(turn.taken, &mut listed);
    let phi = turn.take_direction(scene, listed.as_slice());
    turn.drawn(scene.states[turn.node], phi)
}
