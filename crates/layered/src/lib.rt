// The layered layout: x from the column of a state, y from its slot there.
#![tactic(auto)]

ghost use Rattle.std.specs.Prelude.{◌≡◌, map, ◌≤◌, ◌<◌, length};
ghost use Rattle.laws.specs.Zip.{zip_by};
ghost use Rattle.float.specs.Constants.{f0};
ghost use Rattle.float.specs.Ops.{◌⊗◌, of_nat};
ghost use Rattle.shape.specs.Plane.{vec};
ghost use Rattle.shape.specs.Centres as P;
ghost use Rattle.columns.specs.Columns.{state_numbers};
ghost use Rattle.layered.specs.Layered as D;

use columns::{Columns, Net};
use shape::{NODE_RADIUS, V};
use sheet::Ends;

// The smallest distances between columns, and between the rows of a column.
const LAYER_GAP: f64 = 140.0;

const ROW_GAP: f64 = 90.0;

// The distance between columns, from the width of the widest label.
#[tactic(auto, unfolding(crate::specs::Layered::column_gap))]
fn gap_for(width: f64) -> f64
    ensures { result ≡ D.column_gap width }
{
    float::clamp(
        width + 2.0 * NODE_RADIUS + 24.0,
        LAYER_GAP,
        2.0 * LAYER_GAP + 40.0,
    )
}

// The distance between the rows of a column, from the height of the highest label.
#[tactic(auto, unfolding(crate::specs::Layered::row))]
fn row_for(height: f64) -> f64
    ensures { result ≡ D.row height }
{
    float::clamp(
        height + 2.0 * NODE_RADIUS + 16.0,
        ROW_GAP,
        2.0 * ROW_GAP + 20.0,
    )
}

// The number of the column that holds v.
fn column_of(columns: &Columns<64>, v: usize) -> usize
    ensures { (result ≡ D.column_of columns.now v) × (result ≤ 64) }
{
    columns.place_of(v)
}

// The x of each state, with y 0.
fn put_xs(columns: &Columns<64>, gap: f64, centres: &mut [V])
    ensures { let column_of = D.column_of columns.now in
        centres.new ≡ map (λ v. vec (of_nat (column_of v) ⊗ gap) f0) (state_numbers (length centres.old)) }
{
    for (v, c) in centres.iter_mut().enumerate() {
        *c = V::new(column_of(columns, v) as f64 * gap, 0.0);
    }
}

// The y of each state, from its slot.
fn put_ys(slots: &[f64], row: f64, centres: &mut [V])
    requires { length slots.now ≡ length centres.old }
    ensures { centres.new ≡ zip_by (λ c s. vec c.x (s ⊗ row)) centres.old slots.now }
{
    for (v, c) in centres.iter_mut().enumerate() {
        c.y = slots[v] * row;
    }
}

// The centres of the layered layout. `start` is the first start state or 0, `width` and `height` are those of the
// largest label.
pub fn layered(start: usize, arrows: &[Ends], width: f64, height: f64, centres: &mut [V])
    requires { let states = length centres.old in
        (states ≤ 64)
        × (start < states)
        × (length arrows.now ≤ 256) }
    ensures { let states = length centres.old in
        let xs = D.layered_xs states start arrows.now width in
        let ys = D.layered_ys states start arrows.now height in
        centres.new ≡ P.centres xs ys }
{
    let net = Net {
        states: centres.len(),
        arrows,
    };
    let mut columns = Columns::breadth_first(&net, start);
    put_xs(&columns, gap_for(width), centres);
    let mut room = [0.0f64; 64];
    let slots = &mut room[..net.states];
    sweep::sweep(&net, &mut columns, slots);
    put_ys(slots, row_for(height), centres);
}
