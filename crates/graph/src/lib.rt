// A sheet's graph in slices, one place a state and one an arrow.
#![tactic(auto)]

ghost use Rattle.std.specs.Prelude.{◌≡◌, map, length};
ghost use Rattle.sheet.specs.Sheet as S;
ghost use Rattle.routing.specs.Sheets as G;

use label::Block;
use reader::Chain;
use sheet::Ends;

// The states that arrow record k joins.
#[tactic(auto, unfolding(sheet::specs::Sheet::arrow_of))]
fn ends_at(s: &[u8], k: u16) -> Ends
    ensures { result ≡ G.ends_of (S.arrow_of s.now k) }
{
    let arrow = reader::record_at(s, k);
    Ends {
        source: usize::from(arrow.word4),
        target: usize::from(arrow.word6),
    }
}

// The size of the label of arrow record k.
#[tactic(auto, unfolding(sheet::specs::Sheet::arrow_of))]
fn size_at(s: &[u8], k: u16) -> Block
    ensures { result ≡ G.size_of (S.arrow_of s.now k) }
{
    label::block_at(s, sheet::first_line_at(s, k))
}

// The states' flag bytes, the arrows' ends and the sizes of their labels.
pub fn read_graph(s: &[u8], flags: &mut [u8], arrows: &mut [Ends], sizes: &mut [Block])
    requires a_state_each { length flags.old ≡ length (S.states_of s.now) }
    requires an_arrow_each { let many = length (S.arrows_of s.now) in
        (length arrows.old ≡ many) × (length sizes.old ≡ many) }
    ensures { let graph = S.meaning s.now in
        (flags.new ≡ S.flags_of graph)
        × (arrows.new ≡ map G.ends_of graph.arrows)
        × (sizes.new ≡ G.sizes_of graph) }
{
    let first = sheet::word_at(s, 6);
    meaning::flags_into(s, flags);
    meaning::each_into(Chain::new(s, first), arrows, |k| ends_at(s, k));
    meaning::each_into(Chain::new(s, first), sizes, |k| size_at(s, k));
}
