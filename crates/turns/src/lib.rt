// The turns of `geometry` in three passes over all arrows: loops, then arcs, then straight arrows, each at the
// cheapest listed place or direction in the scene so far; then the records.
#![tactic(auto)]

ghost use Rattle.std.specs.Prelude.{◌≡◌, ◌+◌, ◌*◌, ◌≤◌, ◌<◌, length, get_or, Option, None, Some};
ghost use Rattle.laws.specs.Put.{put};
ghost use Rattle.scene.specs.Turn.{placed_arrow};
ghost use Rattle.self_loop.specs.Looped.{looped};
ghost use Rattle.routing.specs.Routing.{loop_turn, turn_of, numbered_at};
ghost use Rattle.routing_laws.specs.Passes.{turned, passed, gathered};
ghost use Rattle.curves.specs.Lay.{frame_in};
ghost use Rattle.turns.specs.Steps as S;

mod drawing;

use bend::Shape;
use curves::{Crossing, Frame, Laid, Laying};
pub use drawing::Drawing;
use label::Block;
use label_spots::{Geometry, Turn};
use scene::Scene;
use self_loop::Loop;
use stack::Stack;
use trace::Trace;

// The sorts of arrows, each drawn in a pass of its own.
#[derive(Clone, Copy)]
enum Sort {
    Loop,
    Arc,
    Straight,
}

// Whether an arrow is of this sort: by cases, as the definition goes.
fn is_sort(laid: &Laid, sort: Sort) -> bool
    ensures { result ≡ S.is_sort sort laid.now }
{
    match laid {
        Laid::LeftOut => false,
        Laid::Loop => matches!(sort, Sort::Loop),
        Laid::Between(c) => match c.routed.shape {
            Shape::Arc(_) => matches!(sort, Sort::Arc),
            Shape::Line | Shape::Loop(_) => matches!(sort, Sort::Straight),
        },
    }
}

impl<'a, const ARROWS: usize, const TRACES: usize> Drawing<'a, ARROWS, TRACES> {
    // Loop i in the direction that it takes.
    fn loop_of(&self, laying: &Laying, size: Block, i: usize) -> Geometry
        requires arrow { i < length laying.now.frame.arrows.now }
        requires state { (numbered_at (frame_in laying.now.frame) i).ends.source < length laying.now.frame.centres.now }
        ensures { let f = frame_in laying.now.frame in
            result ≡ looped (S.scene_in f self.now) (loop_turn f (numbered_at f i) size) }
    {
        let node = laying.frame.arrows[i].source;
        let mut taken = Stack::new(0.0);
        laying.frame.rim(laying.laid, node, &mut taken);
        let scene = Scene {
            states: laying.frame.centres,
            boxes: self.boxes.as_slice(),
            traces: self.traces.as_slice(),
        };
        let turn = Loop {
            edge: i,
            node,
            taken: taken.as_slice(),
            width: size.width,
            height: size.height,
        };
        self_loop::self_loop(&scene, &turn)
    }

    // Arrow i with its label at the place that it takes.
    fn label_of(&self, frame: &Frame, c: &Crossing, size: Block, i: usize) -> Geometry
        ensures { let f = frame_in frame.now in
            result ≡ placed_arrow (S.scene_in f self.now) (turn_of i c.now.routed size) }
    {
        let scene = Scene {
            states: frame.centres,
            boxes: self.boxes.as_slice(),
            traces: self.traces.as_slice(),
        };
        scene.take_place(Turn {
            edge: i,
            arrow: c.routed,
            width: size.width,
            height: size.height,
        })
    }

    // Adds the drawing of arrow i: its label's box enters the scene.
    fn add(&mut self, i: usize, g: Geometry)
        requires room { (length self.old.boxes.now < ARROWS) × (i < ARROWS) }
        ensures { S.Added self.old self.new i g }
    {
        self.boxes.push(g.label_box);
        self.drawn[i] = Some(g);
    }

    // The turn of arrow i.
    fn turn(&mut self, laying: &Laying, size: Block, i: usize)
        requires arrow { (i < length laying.now.frame.arrows.now) × (i < ARROWS) }
        requires room { (length self.old.boxes.now < ARROWS)
            × (length self.old.traces.now + S.looped_at laying.now.laid.now i ≤ TRACES) }
        ensures turned { let f = frame_in laying.now.frame in
            S.drawn_in f self.new ≡ S.turned_by f size i (S.drawn_in f self.old) }
        ensures many { S.Grown self.old self.new 1 (S.looped_at laying.now.laid.now i) }
    {
        match laying.laid[i] {
            Laid::LeftOut => {}
            Laid::Loop => {
                let g = self.loop_of(laying, size, i);
                self.traces.push(Trace::of(Some(i), g.curve));
                self.add(i, g);
            }
            Laid::Between(c) => {
                let g = self.label_of(&laying.frame, &c, size, i);
                self.add(i, g);
            }
        }
    }

    // The turn of arrow i in the pass of a sort.
    fn turn_at(&mut self, sort: Sort, laying: &Laying, sizes: &[Block], i: usize)
        requires sized { length sizes.now ≡ length laying.now.frame.arrows.now }
        requires arrow { (i < length laying.now.frame.arrows.now) × (i < ARROWS) }
        requires room { let one = S.one_at sort laying.now.laid.now i in
            (length self.old.boxes.now + one ≤ ARROWS) × (length self.old.traces.now + S.more sort one ≤ TRACES) }
        ensures turned { let f = frame_in laying.now.frame in
            S.drawn_in f self.new ≡ turned f sizes.now (S.pass_of sort) (S.drawn_in f self.old) (numbered_at f i) }
        ensures many { let one = S.one_at sort laying.now.laid.now i in S.Grown self.old self.new one (S.more sort one) }
    {
        if is_sort(&laying.laid[i], sort) {
            self.turn(laying, sizes[i], i);
        }
    }

    // The pass of a sort.
    fn pass(&mut self, sort: Sort, laying: &Laying, sizes: &[Block])
        requires sized { (length sizes.now ≡ length laying.now.frame.arrows.now)
            × (length laying.now.frame.arrows.now ≤ ARROWS) }
        requires room { let many = S.many_of sort laying.now.laid.now in
            (length self.old.boxes.now + many ≤ ARROWS) × (length self.old.traces.now + S.more sort many ≤ TRACES) }
        ensures passed { let f = frame_in laying.now.frame in
            S.drawn_in f self.new ≡ passed f sizes.now (S.pass_of sort) (S.drawn_in f self.old) }
        ensures many { let many = S.many_of sort laying.now.laid.now in S.Grown self.old self.new many (S.more sort many) }
    {
        // By number: a turn reads what is laid and `sizes` at i, and what it draws is arrow i's.
        for i in 0..laying.frame.arrows.len() {
            self.turn_at(sort, laying, sizes, i);
        }
    }

    // The turns of all arrows.
    pub fn run(&mut self, laying: &Laying, sizes: &[Block])
        requires sized { (length sizes.now ≡ length laying.now.frame.arrows.now)
            × (length laying.now.frame.arrows.now ≤ ARROWS) }
        requires room { (length self.old.boxes.now + length laying.now.frame.arrows.now ≤ ARROWS)
            × (length self.old.traces.now + S.loops_of laying.now.laid.now ≤ TRACES) }
        ensures { let f = frame_in laying.now.frame in
            S.drawn_in f self.new ≡ S.all_passed f sizes.now (S.drawn_in f self.old) }
    {
        self.pass(Sort::Loop, laying, sizes);
        self.pass(Sort::Arc, laying, sizes);
        self.pass(Sort::Straight, laying, sizes);
    }
}

// ---- the records

// Puts a drawing as record n, where there is one; the number of records after.
#[tactic(auto, unfolding(laws::specs::Put::put))]
fn put_shown(shown: &Option<Geometry>, records: &mut [Geometry], n: usize) -> usize
    requires { n + length (S.shown shown.now) ≤ length records.old }
    ensures { (result ≡ n + length (S.shown shown.now)) × (records.new ≡ put records.old n (S.shown shown.now)) }
{
    if let Some(g) = shown {
        records[n] = *g;
        return n + 1;
    }
    n
}

// The drawings, in arrow order; how many.
pub fn gather(drawn: &[Option<Geometry>], records: &mut [Geometry]) -> usize
    requires { length (gathered drawn.now) ≤ length records.old }
    ensures { (result ≡ length (gathered drawn.now)) × (records.new ≡ put records.old 0 (gathered drawn.now)) }
{
    let mut n: usize = 0;
    for shown in drawn {
        n = put_shown(shown, records, n);
    }
    n
}
