// `geometry`: the drawing of a graph at given centres, from its flags, arrow ends and label sizes.
#![tactic(auto)]

ghost use Rattle.std.specs.Prelude.{◌≡◌, [], ◌+◌, ◌*◌, ◌≤◌, ◌<◌, length};
ghost use Rattle.laws.specs.Put.{put};
ghost use Rattle.routing.specs.Routing.{records};
ghost use Rattle.curves.specs.Lay.{frame_in};
ghost use Rattle.curves.specs.Counted.{frame_from};

use curves::{Frame, Laid, Laying};
use label::Block;
use label_spots::Geometry;
use shape::{Rect, V};
use sheet::Ends;
use stack::Stack;
use trace::Trace;
use turns::Drawing;

// A small sheet has at most so many states and so many arrows.
const FEW: usize = 32;

// The drawing, given space for so many traces, in space for so many arrows, each with a box at most; how many records it has.
#[inline(always)]
fn draw_over<const ARROWS: usize, const TRACES: usize>(
    frame: &Frame,
    sizes: &[Block],
    traces: &mut Stack<Trace, TRACES>,
    out: &mut [Geometry],
) -> usize
    requires sized { length sizes.now ≡ length frame.now.arrows.now }
    requires arrows { length frame.now.arrows.now ≤ ARROWS }
    requires none { traces.old ≡ [] }
    requires traces { length frame.now.arrows.now + length frame.now.centres.now ≤ TRACES }
    requires small { (ARROWS ≤ 256) × (TRACES ≤ 320) }
    requires room { length frame.now.arrows.now ≤ length out.old }
    ensures { let drawn = records (frame_in frame.now) sizes.now in
        (result ≡ length drawn) × (out.new ≡ put out.old 0 drawn) }
{
    let mut laid: Stack<Laid, ARROWS> = Stack::new(Laid::LeftOut);
    let mut boxes: Stack<Rect, ARROWS> = Stack::new(Rect::NONE);
    let mut drawn: [Option<Geometry>; ARROWS] = [None; ARROWS];
    frame.lay(&mut laid, traces);
    let mut drawing = Drawing {
        boxes: &mut boxes,
        traces,
        drawn: &mut drawn,
    };
    let laying = Laying {
        frame: *frame,
        laid: laid.as_slice(),
    };
    drawing.run(&laying, sizes);
    turns::gather(drawing.drawn, out)
}

// The drawing in space for so many arrows and traces; how many records it has. The traces, the largest part, come first:
// what the compiler puts beside them while they are made is free again for the rest.
fn draw<const ARROWS: usize, const TRACES: usize>(
    frame: &Frame,
    sizes: &[Block],
    out: &mut [Geometry],
) -> usize
    requires sized { length sizes.now ≡ length frame.now.arrows.now }
    requires arrows { length frame.now.arrows.now ≤ ARROWS }
    requires traces { length frame.now.arrows.now + length frame.now.centres.now ≤ TRACES }
    requires small { (ARROWS ≤ 256) × (TRACES ≤ 320) }
    requires room { length frame.now.arrows.now ≤ length out.old }
    ensures { let drawn = records (frame_in frame.now) sizes.now in
        (result ≡ length drawn) × (out.new ≡ put out.old 0 drawn) }
{
    let mut traces: Stack<Trace, TRACES> = Stack::new(Trace::NONE);
    draw_over::<ARROWS, TRACES>(frame, sizes, &mut traces, out)
}

// The drawing in space for the sheet. Setting the space to 0 is a large part of drawing a small one, which has less.
fn draw_sized(frame: &Frame, sizes: &[Block], out: &mut [Geometry]) -> usize
    requires sized { length sizes.now ≡ length frame.now.arrows.now }
    requires room { length frame.now.arrows.now ≤ length out.old }
    ensures { let drawn = records (frame_in frame.now) sizes.now in
        (result ≡ length drawn) × (out.new ≡ put out.old 0 drawn) }
{
    if frame.flags.len() <= FEW && frame.arrows.len() <= FEW {
        return draw::<32, 64>(frame, sizes, out);
    }
    draw::<256, 320>(frame, sizes, out)
}

// The drawing of a graph at given centres, 0 for those that are missing or not finite: a record for each arrow that
// has one, in arrow order; how many.
pub fn geometry(
    flags: &[u8],
    centres: &[V],
    arrows: &[Ends],
    sizes: &[Block],
    out: &mut [Geometry],
) -> usize
    requires few { length flags.now ≤ 64 }
    requires many { length arrows.now ≤ 256 }
    requires sized { length sizes.now ≡ length arrows.now }
    requires room { length arrows.now ≤ length out.old }
    ensures { let drawn = records (frame_from flags.now centres.now arrows.now) sizes.now in
        (result ≡ length drawn) × (out.new ≡ put out.old 0 drawn) }
{
    let mut room = [V::ORIGIN; 64];
    let frame = Frame {
        flags,
        centres: curves::counted(centres, flags.len(), &mut room),
        arrows,
    };
    draw_sized(&frame, sizes, out)
}
