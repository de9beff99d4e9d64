// A sheet checked and drawn at given centres.
#![tactic(auto)]

ghost use Rattle.std.specs.Prelude.{◌≡◌, ◌||◌, ◌≤◌, length};
ghost use Rattle.refusal.specs.Refused.{outcome};
ghost use Rattle.float.specs.Constants.{f0};
ghost use Rattle.sheet.specs.Sheet as G;
ghost use Rattle.draw.specs.Drawn as S;
ghost use Rattle.draw.specs.Given.{given, number_given};

use label::Block;
use label_spots::Geometry;
use refusal::Refusal;
use shape::V;
use sheet::{Ends, Limits};

// ---- 8

// 2^20, beyond which 8 refuses a centre.
const FARTHEST: f64 = 1048576.0;

// Whether v is finite and beyond that in size.
fn far(v: f64) -> bool
    ensures { result ≡ S.far v }
{
    float::is_finite(v) && FARTHEST < float::abs(v)
}

// Whether x or y of one of the first n centres is.
fn far_centre(centres: &[V], n: usize) -> bool
    ensures { result ≡ S.far_centre n (S.xs_of centres.now) (S.ys_of centres.now) }
{
    centres.iter().take(n).any(|c| far(c.x) || far(c.y))
}

// ---- the call

// Draws a sheet of n states and m arrows whose centres are not far.
fn draw_near(
    s: &[u8],
    n: usize,
    m: usize,
    centres: &[V],
    out: &mut [Geometry],
) -> Result<usize, Refusal>
    requires states { (n ≡ length (G.states_of s.now)) × (n ≤ 64) }
    requires arrows { (m ≡ length (G.arrows_of s.now)) × (m ≤ 256) }
    requires room { m ≤ length out.old }
    ensures { let graph = G.meaning s.now in
        let xs = S.xs_of centres.now in
        let ys = S.ys_of centres.now in
        let refusals = S.bow_refusals graph xs ys in
        (outcome result ≡ S.draw_answer refusals graph xs ys)
        × (out.new ≡ S.left_by refusals graph xs ys out.old) }
{
    let mut flags = [0u8; 64];
    let mut arrows = [Ends::NONE; 256];
    let mut sizes = [Block::NONE; 256];
    graph::read_graph(s, &mut flags[..n], &mut arrows[..m], &mut sizes[..m]);
    if beyond::beyond(&flags[..n], centres, &arrows[..m]) {
        return Err(Refusal::Bow);
    }
    Ok(geometry::geometry(&flags[..n], centres, &arrows[..m], &sizes[..m], out))
}

// Draws a sheet of at most 64 states and 256 arrows.
fn draw_accepted(s: &[u8], centres: &[V], out: &mut [Geometry]) -> Result<usize, Refusal>
    requires small { (length (G.states_of s.now) ≤ 64) × (length (G.arrows_of s.now) ≤ 256) }
    requires room { 256 ≤ length out.old }
    ensures { let graph = G.meaning s.now in
        let xs = S.xs_of centres.now in
        let ys = S.ys_of centres.now in
        let refusals = S.centre_refusals graph xs ys in
        (outcome result ≡ S.draw_answer refusals graph xs ys)
        × (out.new ≡ S.left_by refusals graph xs ys out.old) }
{
    let n = meaning::state_count(s);
    if far_centre(centres, n) {
        return Err(Refusal::Centre);
    }
    draw_near(s, n, meaning::arrow_count(s), centres, out)
}

// Checks a sheet under the limits and draws it at the given centres: the records, from the front of `out` on, or a
// refusal; how many records. There is room for 64 states and 256 arrows.
pub fn draw_at(s: &[u8], m: Limits, centres: &[V], out: &mut [Geometry]) -> Result<usize, Refusal>
    requires small { (m.states ≤ 64) × (m.arrows ≤ 256) }
    requires room { 256 ≤ length out.old }
    ensures { let xs = S.xs_of centres.now in
        let ys = S.ys_of centres.now in
        (outcome result ≡ S.draw_of m s.now xs ys)
        × (out.new ≡ S.draw_after m s.now xs ys out.old) }
{
    sheet_check::check_within(s, m)?;
    draw_accepted(s, centres, out)
}

// ---- for callers to whom x and y are given apart

// Number k of those given, 0 for one that is missing.
fn number_given(l: &[f64], k: usize) -> f64
    ensures { result ≡ number_given l.now k }
{
    l.get(k).copied().unwrap_or(0.0)
}

// The centres given, 0 for what is missing.
pub fn given(xs: &[f64], ys: &[f64]) -> [V; 64]
    ensures { result ≡ given xs.now ys.now }
{
    std::array::from_fn(|k| V::new(number_given(xs, k), number_given(ys, k)))
}

// Checks a sheet under the limits and draws it at the centres whose x and y are given, in slices of any lengths.
pub fn draw(
    s: &[u8],
    m: Limits,
    xs: &[f64],
    ys: &[f64],
    out: &mut [Geometry],
) -> Result<usize, Refusal>
    requires small { (m.states ≤ 64) × (m.arrows ≤ 256) }
    requires room { 256 ≤ length out.old }
    ensures { (outcome result ≡ S.draw_of m s.now xs.now ys.now)
        × (out.new ≡ S.draw_after m s.now xs.now ys.now out.old) }
{
    let centres = given(xs, ys);
    draw_at(s, m, &centres, out)
}
