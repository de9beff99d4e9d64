// What is drawn so far. A file of its own, since the definitions that the other contracts cite name the drawing.
#![tactic(auto)]

ghost use Rattle.std.specs.Prelude.{◌≤◌};

use label_spots::Geometry;
use shape::Rect;
use stack::Stack;
use trace::Trace;

// The labels' boxes, the traces, and the drawing of each arrow that has one, each in space lent for it: a stack put
// into a struct would be copied there.
#[derive(Drop)]
pub struct Drawing<'a, const ARROWS: usize, const TRACES: usize> {
    pub boxes: &'a mut Stack<Rect, ARROWS>,
    pub traces: &'a mut Stack<Trace, TRACES>,
    pub drawn: &'a mut [Option<Geometry>; ARROWS],
    pub ghost small: { (ARROWS ≤ 65536) × (TRACES ≤ 65536) },
}
