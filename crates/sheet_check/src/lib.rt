// The check of a sheet: a walk over all chains that marks each record met, and the refusals in their order.
#![tactic(auto)]

ghost use Rattle.std.specs.Prelude.{◌≡◌, ◌+◌, ◌*◌, ◌<◌};
ghost use mathlib.Core.List.{flat_map};
ghost use Rattle.laws.specs.Loops.{any_up};
ghost use Rattle.reader.specs.Reading.{chain_rest};
ghost use Rattle.refusal.specs.Refused.{outcome};
ghost use Rattle.sheet.specs.Sheet as S;
ghost use Rattle.sheet.specs.Refusals as R;
ghost use Rattle.sheet_check.specs.Walk as W;

use reader::Chain;
use refusal::Refusal;
use sheet::{Limits, RecordKind, first_line_at, first_text_at, kind_at, word_at};

// Meets record i in a chain of the kind: whether it may be met, and its mark.
#[tactic(auto, unfolding(crate::specs::Walk::walk, crate::specs::Walk::fresh))]
fn meet(s: &[u8], kind: RecordKind, i: u16, marks: &mut [bool]) -> bool
    ensures { W.walked result marks.new ≡ W.walk s.now (S.met_alone (S.kind_byte kind) i) marks.old }
{
    let at = usize::from(i);
    if word_at(s, 2) < i {
        return false;
    }
    if kind_at(s, i) != u8::from(kind) {
        return false;
    }
    if marks.len() <= at {
        return false;
    }
    if marks[at] {
        return false;
    }
    marks[at] = true;
    true
}

// Visits the records of a chain until a visit fails.
fn walk<F: Fn(u16, &mut [bool]) -> bool>(chain: Chain, marks: &mut [bool], visit: F) -> bool
    requires { F.IsAlwaysCallable visit }
    ensures { (s : _) (met : _) → W.Visits (F.post visit) s met
        → W.walked result marks.new ≡ W.walk s (flat_map met (chain_rest chain.entry)) marks.old }
{
    for i in chain {
        if !visit(i, marks) {
            return false;
        }
    }
    true
}

// Walks a chain whose records begin no other: states or texts.
fn walk_alone(s: &[u8], kind: RecordKind, first: u16, marks: &mut [bool]) -> bool
    ensures { let met = flat_map (S.met_alone (S.kind_byte kind)) (S.chain s.now first) in
        W.walked result marks.new ≡ W.walk s.now met marks.old }
{
    walk(
        Chain::new(s, first),
        marks,
        |i, marks| meet(s, kind, i, marks),
    )
}

// Meets line record i and its texts.
fn visit_line(s: &[u8], i: u16, marks: &mut [bool]) -> bool
    ensures { W.walked result marks.new ≡ W.walk s.now (S.met_line s.now i) marks.old }
{
    meet(s, RecordKind::Line, i, marks)
        && walk_alone(s, RecordKind::Text, first_text_at(s, i), marks)
}

// Meets arrow record i and its lines.
fn visit_arrow(s: &[u8], i: u16, marks: &mut [bool]) -> bool
    ensures { W.walked result marks.new ≡ W.walk s.now (S.met_arrow s.now i) marks.old }
{
    meet(s, RecordKind::Arrow, i, marks)
        && walk(
            Chain::new(s, first_line_at(s, i)),
            marks,
            |k, marks| visit_line(s, k, marks),
        )
}

// Walks both chains.
fn walk_all(s: &[u8], marks: &mut [bool]) -> bool
    ensures { W.walked result marks.new ≡ W.walk s.now (S.met s.now) marks.old }
{
    walk_alone(s, RecordKind::State, word_at(s, 4), marks)
        && walk(
            Chain::new(s, word_at(s, 6)),
            marks,
            |k, marks| visit_arrow(s, k, marks),
        )
}

// Whether one of the records 1 to n has no mark.
fn some_unmarked(marks: &[bool], n: u16) -> bool
    ensures { result ≡ any_up (W.unmarked marks.now) 1 (n + 1) }
{
    (1..usize::from(n) + 1).any(|k| !marks.get(k).copied().unwrap_or(false))
}

// Whether the chains refuse a sheet of at most 4,095 records.
#[tactic(auto, using(crate::specs::Marks::chains_marked))]
fn wrong_chains(s: &[u8]) -> bool
    requires { S.count s.now < 4096 }
    ensures { result ≡ R.wrong_chains s.now }
{
    let mut marks = [false; 4096];
    if !walk_all(s, &mut marks) {
        return true;
    }
    some_unmarked(&marks, word_at(s, 2))
}

// Whether the length refuses the sheet.
fn wrong_length(s: &[u8]) -> bool
    ensures { result ≡ R.wrong_length s.now }
{
    s.len() < 16 || 65536 < s.len() || s.len() != 16 * (1 + usize::from(word_at(s, 2)))
}

// Whether a sheet is one for a screen with the limits, or why not.
#[tactic(auto, using(sheet::specs::Accepted::few), unfolding(sheet::specs::Refusals::check_of, laws::specs::Refusals::decide))]
pub fn check_within(sheet: &[u8], m: Limits) -> Result<(), Refusal>
    ensures { outcome result ≡ R.check_of m sheet.now }
{
    if wrong_length(sheet) {
        return Err(Refusal::Length);
    }
    if word_at(sheet, 0) != 1 {
        return Err(Refusal::Version);
    }
    if sheet::wrong_bytes(sheet) {
        return Err(Refusal::Bytes);
    }
    if wrong_chains(sheet) {
        return Err(Refusal::Chains);
    }
    if meaning::over_limits(sheet, m) {
        return Err(Refusal::Limits);
    }
    if meaning::ill_formed(sheet) {
        return Err(Refusal::Utf8);
    }
    Ok(())
}
