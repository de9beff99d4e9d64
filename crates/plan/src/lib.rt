// A sheet checked and laid out by kind.
#![tactic(auto)]

ghost use Rattle.std.specs.Prelude.{◌≡◌, ◌≤◌, ◌<◌, length};
ghost use Rattle.refusal.specs.Refused.{outcome};
ghost use Rattle.sheet.specs.Sheet as G;
ghost use Rattle.layout.specs.Layout as L;
ghost use Rattle.layout.specs.Lent.{plan_in};
ghost use Rattle.plan.specs.Measured as M;
ghost use Rattle.plan.specs.Planned as S;

use fit::Size;
use label::Block;
use layout::{Kind, Placement, Plan};
use refusal::Refusal;
use shape::V;
use sheet::{Ends, Limits};

// ---- 9: "A layout is refused by 9 if any drawing it measures is."

// Whether the drawing of a placement is refused.
fn placed_beyond(plan: &Plan, placement: Placement) -> bool
    requires some { 0 < length plan.now.flags.now }
    ensures { let p = plan_in plan.now in result ≡ M.beyond_at p (L.placed placement p) }
{
    let mut space = [V::ORIGIN; 64];
    let centres = &mut space[..plan.flags.len()];
    plan.place(placement, centres);
    beyond::beyond(plan.flags, centres, plan.arrows)
}

// Auto measures the ring, and the layers too where it has to compare.
#[tactic(auto, unfolding(crate::specs::Measured::any_beyond, crate::specs::Measured::measured, laws::specs::Any::any_of))]
fn auto_beyond(plan: &Plan) -> bool
    requires some { 0 < length plan.now.flags.now }
    ensures { let p = plan_in plan.now in result ≡ M.any_beyond p (M.measured 0 p) }
{
    if plan.dense() {
        return placed_beyond(plan, Placement::Ring);
    }
    placed_beyond(plan, Placement::Layers) || placed_beyond(plan, Placement::Ring)
}

// By kind.
#[tactic(auto, unfolding(crate::specs::Measured::any_beyond, crate::specs::Measured::measured, laws::specs::Any::any_of))]
fn kind_beyond(plan: &Plan, kind: Kind) -> bool
    requires some { 0 < length plan.now.flags.now }
    ensures { let p = plan_in plan.now in result ≡ M.any_beyond p (M.measured (L.kind_number kind) p) }
{
    match kind {
        Kind::Auto => auto_beyond(plan),
        Kind::Layered => placed_beyond(plan, Placement::Layers),
        Kind::Circular => placed_beyond(plan, Placement::Ring),
    }
}

// Whether a drawing that the layout measures is refused; without states nothing is drawn.
#[tactic(auto, unfolding(crate::specs::Measured::layout_beyond))]
fn layout_beyond(plan: &Plan, kind: Kind) -> bool
    ensures { result ≡ M.layout_beyond (L.kind_number kind) (plan_in plan.now) }
{
    !plan.flags.is_empty() && kind_beyond(plan, kind)
}

// ---- the call

// Lays out a sheet; what is read of it, in the slices lent for that.
fn plan_read(
    s: &[u8],
    kind: Kind,
    flags: &mut [u8],
    arrows: &mut [Ends],
    sizes: &mut [Block],
    centres: &mut [V],
) -> Result<(usize, Size), Refusal>
    requires a_state_each { (length flags.old ≡ length (G.states_of s.now)) × (length flags.old ≤ 64) }
    requires an_arrow_each { let many = length (G.arrows_of s.now) in
        (length arrows.old ≡ many)
        × (length sizes.old ≡ many)
        × (many ≤ 256) }
    requires room { 64 ≤ length centres.old }
    ensures { let graph = G.meaning s.now in
        let number = L.kind_number kind in
        let refusals = S.measured_refusals number graph in
        (outcome result ≡ S.plan_answer refusals number graph)
        × (centres.new ≡ S.centres_by refusals number graph centres.old) }
{
    graph::read_graph(s, flags, arrows, sizes);
    let n = flags.len();
    let plan = Plan {
        flags,
        arrows,
        sizes,
    };
    if layout_beyond(&plan, kind) {
        return Err(Refusal::Bow);
    }
    let size = plan.layout(kind, &mut centres[..n]);
    Ok((n, size))
}

// Lays out a sheet of at most 64 states and 256 arrows.
fn plan_accepted(s: &[u8], kind: Kind, centres: &mut [V]) -> Result<(usize, Size), Refusal>
    requires { (length (G.states_of s.now) ≤ 64)
        × (length (G.arrows_of s.now) ≤ 256)
        × (64 ≤ length centres.old) }
    ensures { let graph = G.meaning s.now in
        let number = L.kind_number kind in
        let refusals = S.measured_refusals number graph in
        (outcome result ≡ S.plan_answer refusals number graph)
        × (centres.new ≡ S.centres_by refusals number graph centres.old) }
{
    let n = meaning::state_count(s);
    let m = meaning::arrow_count(s);
    let mut flags = [0u8; 64];
    let mut arrows = [Ends::NONE; 256];
    let mut sizes = [Block::NONE; 256];
    plan_read(
        s,
        kind,
        &mut flags[..n],
        &mut arrows[..m],
        &mut sizes[..m],
        centres,
    )
}

// Checks a sheet under the limits and lays it out by kind, 0 Auto, 1 Layered, 2 Circular: how many states there are, the
// size of the drawing, and the centres from the front of `centres` on, or a refusal. There is room for 64 states and 256
// arrows.
pub fn plan(s: &[u8], m: Limits, kind: u8, centres: &mut [V]) -> Result<(usize, Size), Refusal>
    requires { (m.states ≤ 64) × (m.arrows ≤ 256) × (64 ≤ length centres.old) }
    ensures { (outcome result ≡ S.planned m kind s.now)
        × (centres.new ≡ S.centres_planned m kind s.now centres.old) }
{
    let kind = Kind::try_from(kind)?;
    sheet_check::check_within(s, m)?;
    plan_accepted(s, kind, centres)
}
