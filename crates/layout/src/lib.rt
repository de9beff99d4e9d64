// The layout of a graph by kind: layers or ring, the choice between them, and the fit.
#![tactic(auto)]

ghost use Rattle.std.specs.Prelude.{◌≡◌, map, ◌<◌, ◌≤◌, length};
ghost use Rattle.routing.specs.Routing.{records};
ghost use Rattle.curves.specs.Counted.{frame_from};
ghost use Rattle.circular.specs.Ring.{largest};
ghost use Rattle.layout.specs.Layout as S;
ghost use Rattle.layout.specs.Lent as C;

mod plan;

use fit::{MARGIN, Size};
use label::Block;
use label_spots::Geometry;
pub use plan::Plan;
use refusal::Refusal;
use shape::V;
use sheet::Ends;

// The layout kinds of document 01.
#[derive(Clone, Copy, Debug, PartialEq, Eq)]
pub enum Kind {
    Auto,
    Layered,
    Circular,
}

impl TryFrom<u8> for Kind {
    type Error = Refusal;

    ghost try_from_gives = { S.GivesKind };

    fn try_from(number: u8) -> Result<Kind, Refusal> {
        match number {
            0 => Ok(Kind::Auto),
            1 => Ok(Kind::Layered),
            2 => Ok(Kind::Circular),
            _ => Err(Refusal::Kind),
        }
    }
}

// How much more cluttered than the ring the layers may be.
const AUTO_TOLERANCE: usize = 2;

// Where the states go.
#[derive(Clone, Copy, Debug, PartialEq, Eq)]
pub enum Placement {
    Layers,
    Ring,
}

// ---- centres

// The width of the widest label.
fn widest(sizes: &[Block]) -> f64
    ensures { result ≡ largest (map (λ z. z.width) sizes.now) }
{
    sizes.iter().fold(0.0, |most, z| float::max(most, z.width))
}

// The height of the tallest label.
fn tallest(sizes: &[Block]) -> f64
    ensures { result ≡ largest (map (λ z. z.height) sizes.now) }
{
    sizes.iter().fold(0.0, |most, z| float::max(most, z.height))
}

impl<'a> Plan<'a> {
    // The centres in layers.
    #[tactic(auto, unfolding(crate::specs::Layout::layers))]
    pub fn layers(&self, centres: &mut [V])
        requires some { 0 < length self.now.flags.now }
        requires level { length centres.old ≡ length self.now.flags.now }
        ensures { centres.new ≡ S.centres_of (S.layers (C.plan_in self.now)) }
    {
        let start = sheet::start_index(self.flags);
        let width = widest(self.sizes);
        let height = tallest(self.sizes);
        layered::layered(start, self.arrows, width, height, centres);
    }

    // The centres on the ring.
    #[tactic(auto, unfolding(crate::specs::Layout::ring))]
    pub fn ring(&self, centres: &mut [V])
        requires some { 0 < length self.now.flags.now }
        requires level { length centres.old ≡ length self.now.flags.now }
        ensures { centres.new ≡ S.centres_of (S.ring (C.plan_in self.now)) }
    {
        let start = sheet::start_index(self.flags);
        circular::circular(start, widest(self.sizes), centres);
    }

    // The centres of a placement.
    pub fn place(&self, placement: Placement, centres: &mut [V])
        requires some { 0 < length self.now.flags.now }
        requires level { length centres.old ≡ length self.now.flags.now }
        ensures { centres.new ≡ S.centres_of (S.placed placement (C.plan_in self.now)) }
    {
        match placement {
            Placement::Layers => self.layers(centres),
            Placement::Ring => self.ring(centres),
        }
    }
}

// ---- what is measured

impl<'a> Plan<'a> {
    // The drawing at these centres as they count, in the room lent for it.
    #[tactic(auto, using(laws::specs::Filled::front_is, routing_laws::proofs::Decoded::records_most))]
    fn draw<'b>(&self, centres: &[V], room: &'b mut [Geometry]) -> &'b [Geometry]
        requires room { 256 ≤ length room.old }
        ensures { let plan = C.plan_in self.now in
            result.now ≡ records (frame_from plan.flags centres.now plan.arrows) plan.sizes }
    {
        let count = geometry::geometry(self.flags, centres, self.arrows, self.sizes, room);
        &room[..count]
    }

    // The clutter at these centres.
    #[tactic(auto, using(crate::specs::Laws::clutter_counted, routing_laws::proofs::Decoded::records_most))]
    fn clutter(&self, centres: &[V]) -> usize
        ensures { result ≡ S.clutter_at (C.plan_in self.now) (C.placing_of centres.now) }
    {
        let mut room = [Geometry::NONE; 256];
        let drawn = self.draw(centres, &mut room);
        let mut space = [V::ORIGIN; 64];
        let nodes = curves::counted(centres, self.flags.len(), &mut space);
        clutter::clutter(nodes, drawn)
    }

    // The clutter of a placement.
    #[tactic(auto, using(crate::specs::Laws::placed_points))]
    fn placed_clutter(&self, placement: Placement) -> usize
        requires some { 0 < length self.now.flags.now }
        ensures { let plan = C.plan_in self.now in
            result ≡ S.clutter_at plan (S.placed placement plan) }
    {
        let mut space = [V::ORIGIN; 64];
        let centres = &mut space[..self.flags.len()];
        self.place(placement, centres);
        self.clutter(centres)
    }
}

// ---- the choice

impl<'a> Plan<'a> {
    // Whether there are more than 2.5 arrows for each state.
    #[tactic(auto, unfolding(crate::specs::Layout::is_dense))]
    pub fn dense(&self) -> bool
        ensures { result ≡ S.is_dense (C.plan_in self.now) }
    {
        2.5 * (self.flags.len() as f64) < (self.arrows.len() as f64)
    }

    // Whether Auto takes the ring.
    #[tactic(auto, unfolding(crate::specs::Layout::takes_ring, crate::specs::Layout::is_tangled))]
    fn takes_ring(&self) -> bool
        requires some { 0 < length self.now.flags.now }
        ensures { result ≡ S.takes_ring (C.plan_in self.now) }
    {
        if self.dense() {
            return true;
        }
        let layers = self.placed_clutter(Placement::Layers);
        let ring = self.placed_clutter(Placement::Ring);
        ring + AUTO_TOLERANCE < layers
    }

    // The placement by kind.
    #[tactic(auto, unfolding(crate::specs::Layout::chosen))]
    fn choose(&self, kind: Kind) -> Placement
        requires some { 0 < length self.now.flags.now }
        ensures { let plan = C.plan_in self.now in
            S.placed result plan ≡ S.chosen (S.kind_number kind) plan }
    {
        match kind {
            Kind::Layered => Placement::Layers,
            Kind::Circular => Placement::Ring,
            Kind::Auto => {
                if self.takes_ring() {
                    return Placement::Ring;
                }
                Placement::Layers
            }
        }
    }
}

// ---- the fit

impl<'a> Plan<'a> {
    // Fits the drawing at these centres.
    #[tactic(auto, using(crate::specs::Laws::fitted_left))]
    fn fit(&self, centres: &mut [V]) -> Size
        requires level { length centres.old ≡ length self.now.flags.now }
        ensures { C.Left (S.fitted (C.plan_in self.now) (C.placing_of centres.old)) result centres.new }
    {
        let mut room = [Geometry::NONE; 256];
        let drawn = self.draw(centres, &mut room);
        fit::fit(self.flags, drawn, centres)
    }

    // The layout by kind: the centres, and the size of the drawing.
    pub fn layout(&self, kind: Kind, centres: &mut [V]) -> Size
        requires level { length centres.old ≡ length self.now.flags.now }
        ensures { C.Left (S.layout_of (S.kind_number kind) (C.plan_in self.now)) result centres.new }
    {
        if self.flags.is_empty() {
            return Size {
                width: 2.0 * MARGIN,
                height: 2.0 * MARGIN,
            };
        }
        let placement = self.choose(kind);
        self.place(placement, centres);
        self.fit(centres)
    }
}
