// How cluttered a drawing is: pairs of arrows that cross, labels that collide with something.
#![tactic(auto)]

ghost use Rattle.std.specs.Prelude.{◌≡◌, [], ◌++◌, map, ◌≤◌, length};
ghost use Rattle.std.specs.List.{count_by, list_any};
ghost use Rattle.trace.specs.Traces.{crosses, struck};
ghost use Rattle.trace.specs.Form.{trace_in};
ghost use Rattle.clutter.specs.Clutter as S;

use label_spots::Geometry;
use shape::{NODE_RADIUS, Rect, V};
use stack::Stack;
use trace::Trace;

// A small drawing has at most so many arrows.
const FEW: usize = 32;

// The square of the distance below which a state is too near to a label that is drawn.
const NEAR24_SQUARED: f64 = (NODE_RADIUS + 2.0) * (NODE_RADIUS + 2.0);

// The traces of the arrows.
fn push_traces<const N: usize>(drawn: &[Geometry], traces: &mut Stack<Trace, N>)
    requires few { length drawn.now ≤ N }
    requires none { traces.old ≡ [] }
    ensures { map trace_in traces.new ≡ map S.record_trace drawn.now }
{
    for g in drawn {
        traces.push(Trace::of(Some(g.edge), g.curve));
    }
}

// ---- pairs of arrows

fn crossed(t: &Trace, others: &[Trace]) -> usize
    ensures { (result ≡ count_by (λ o. crosses (trace_in t.now) (trace_in o)) others.now)
        × (result ≤ length others.now) }
{
    others.iter().filter(|o| t.crosses(*o)).count()
}

// The pairs of traces that cross.
fn crossings(traces: &[Trace]) -> usize
    requires { length traces.now ≤ 256 }
    ensures { (result ≡ S.crossings (map trace_in traces.now)) × (result ≤ 65536) }
{
    let mut sum: usize = 0;
    // By a loop, here and in `collisions`: the definitions go by what lies before and behind an item, which no law ties to a chain of
    // numbered items.
    for (i, t) in traces.iter().enumerate() {
        sum += crossed(t, &traces[i + 1..]);
    }
    sum
}

// ---- labels

// Whether a state with centre c is nearer to the box than its radius and 2, by the squares, as worked out for this distance.
#[tactic(auto, using(crate::specs::Near::near_by_squares))]
fn near24(b: Rect, c: V) -> bool
    ensures { result ≡ S.near24 b c }
{
    b.dist_squared(c) < NEAR24_SQUARED
}

fn any_state(nodes: &[V], b: Rect) -> bool
    ensures { result ≡ list_any (S.near24 b) nodes.now }
{
    nodes.iter().any(|c| near24(b, *c))
}

fn any_label(others: &[Geometry], b: Rect) -> bool
    ensures { result ≡ list_any (S.label_over b) others.now }
{
    others.iter().any(|o| o.label_box.overlaps(b))
}

fn any_trace(traces: &[Trace], own: usize, b: Rect) -> bool
    ensures { result ≡ list_any (λ t. struck own b (trace_in t)) traces.now }
{
    traces.iter().any(|t| t.strikes(own, b))
}

// Whether the label of g, a record between these, collides.
fn collides(
    nodes: &[V],
    traces: &[Trace],
    before: &[Geometry],
    g: &Geometry,
    behind: &[Geometry],
) -> bool
    ensures { result ≡ S.collides nodes.now (map trace_in traces.now) (before.now ++ behind.now) g.now }
{
    let b = g.label_box;
    any_state(nodes, b)
        || (any_label(before, b) || (any_label(behind, b) || any_trace(traces, g.edge, b)))
}

// The labels that collide.
fn collisions(nodes: &[V], traces: &[Trace], drawn: &[Geometry]) -> usize
    ensures { (result ≡ S.collisions nodes.now (map trace_in traces.now) [] drawn.now)
        × (result ≤ length drawn.now) }
{
    let mut sum: usize = 0;
    for (i, g) in drawn.iter().enumerate() {
        if collides(nodes, traces, &drawn[..i], g, &drawn[i + 1..]) {
            sum += 1;
        }
    }
    sum
}

// ---- clutter

// The clutter of a drawing, in space for so many traces.
fn count_in<const N: usize>(nodes: &[V], drawn: &[Geometry]) -> usize
    requires few { length drawn.now ≤ N }
    requires small { N ≤ 256 }
    ensures { result ≡ S.clutter_of nodes.now drawn.now }
{
    let mut traces: Stack<Trace, N> = Stack::new(Trace::NONE);
    push_traces(drawn, &mut traces);
    let pairs = crossings(traces.as_slice());
    let labels = collisions(nodes, traces.as_slice(), drawn);
    pairs + labels
}

// The clutter of a drawing. Setting the space to 0 is a large part of it for a small one, which has less.
pub fn clutter(nodes: &[V], drawn: &[Geometry]) -> usize
    requires { length drawn.now ≤ 256 }
    ensures { result ≡ S.clutter_of nodes.now drawn.now }
{
    if drawn.len() <= FEW {
        return count_in::<32>(nodes, drawn);
    }
    count_in::<256>(nodes, drawn)
}
