// The numbers of the listing's last line, counted over a drawing and the arrows of its sheet.
#![tactic(auto)]

ghost use Rattle.std.specs.Prelude.{◌≡◌, ◌+◌, ◌*◌, ◌≤◌, ◌<◌, length};
ghost use Rattle.std.specs.List.{count_by};
ghost use Rattle.laws.specs.Loops.{over};
ghost use Rattle.sheet.specs.Sheet as G;
ghost use Rattle.sheet.specs.Meaning.{ends_below};
ghost use Rattle.totals.specs.Totals as S;
ghost use Rattle.totals.specs.Arrows as W;

use label_spots::Geometry;
use reader::{Chain, record_at};
use shape::Curve;
use sheet::{first_line_at, word_at};

// Straight arrows, arcs, loops, left-out arrows and label lines.
#[derive(Clone, Copy)]
pub struct Totals {
    pub straight: usize,
    pub arcs: usize,
    pub loops: usize,
    pub left_out: usize,
    pub lines: usize,
}

// ---- the records

fn point_count(curve: Curve) -> usize
    ensures { result ≡ S.point_count curve }
{
    match curve {
        Curve::Line(_, _) => 2,
        Curve::Quad(_, _, _) => 3,
        Curve::Cubic(_, _, _, _) => 4,
    }
}

// How many of the arrows drawn have a curve of n points.
fn with_points(drawn: &[Geometry], n: usize) -> usize
    ensures { result ≡ count_by (S.has_points n) drawn.now }
{
    drawn.iter().filter(|g| point_count(g.curve) == n).count()
}

// ---- the arrows of the sheet

// Of some arrows, those that are left out, and the lines of the others.
#[derive(Clone, Copy)]
pub struct ArrowCounts {
    pub left_out: usize,
    pub lines: usize,
}

// The arrows of a sheet, and the number of its states.
#[derive(Clone, Copy)]
struct Arrows<'a> {
    sheet: &'a [u8],
    states: usize,
}

impl<'a> Arrows<'a> {
    // Whether both ends of the arrow of record k are below the number of states.
    #[tactic(auto, unfolding(sheet::specs::Sheet::arrow_of))]
    fn is_kept(&self, k: u16) -> bool
        ensures { let arrow = G.arrow_of self.now.sheet.now k in
            result ≡ ends_below self.now.states arrow.source arrow.target }
    {
        let d = record_at(self.sheet, k);
        usize::from(d.word4) < self.states && usize::from(d.word6) < self.states
    }

    // 1 where the arrow of record k is left out.
    #[tactic(auto, unfolding(crate::specs::Arrows::left_out_add))]
    fn left_out_add(&self, k: u16) -> usize
        ensures { let arrow = G.arrow_of self.now.sheet.now k in
            (result ≡ W.left_out_add self.now.states arrow) × (result ≤ 1) }
    {
        if self.is_kept(k) {
            return 0;
        }
        1
    }

    // The lines of the arrow of record k, none where it is left out.
    #[tactic(auto, using(crate::proofs::Laws::lines_length), unfolding(crate::specs::Arrows::lines_add))]
    fn lines_add(&self, k: u16) -> usize
        ensures { let arrow = G.arrow_of self.now.sheet.now k in
            (result ≡ W.lines_add self.now.states arrow) × (result ≤ 65536) }
    {
        if self.is_kept(k) {
            return meaning::chain_length(self.sheet, first_line_at(self.sheet, k));
        }
        0
    }

    // One arrow more, that of record k.
    fn with_arrow(&self, k: u16, t: ArrowCounts) -> ArrowCounts
        requires { (t.left_out ≤ 65536) × (t.lines ≤ 4294967296) }
        ensures { (result ≡ W.with_arrow self.now.states t (G.arrow_of self.now.sheet.now k))
            × (result.left_out ≤ t.left_out + 1)
            × (result.lines ≤ t.lines + 65536) }
    {
        let out = self.left_out_add(k);
        let lines = self.lines_add(k);
        ArrowCounts {
            left_out: t.left_out + out,
            lines: t.lines + lines,
        }
    }

    // All of them.
    fn count(&self) -> ArrowCounts
        ensures { result ≡ over (W.with_arrow self.now.states) W.none_counted (G.arrows_of self.now.sheet.now) }
    {
        let mut t = ArrowCounts {
            left_out: 0,
            lines: 0,
        };
        for k in Chain::new(self.sheet, word_at(self.sheet, 6)) {
            t = self.with_arrow(k, t);
        }
        t
    }
}

// ---- the totals

// The totals of a sheet and of its drawing.
pub fn totals_of(s: &[u8], drawn: &[Geometry]) -> Totals
    ensures { result ≡ S.totals_of (G.meaning s.now) drawn.now }
{
    let arrows = Arrows {
        sheet: s,
        states: meaning::state_count(s),
    };
    let counts = arrows.count();
    Totals {
        straight: with_points(drawn, 2),
        arcs: with_points(drawn, 3),
        loops: with_points(drawn, 4),
        left_out: counts.left_out,
        lines: counts.lines,
    }
}
