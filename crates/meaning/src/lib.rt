// What a sheet means, read out of its bytes along its chains.
#![tactic(auto)]

ghost use Rattle.std.specs.Prelude.{◌≡◌, ◌≤◌, length, map};
ghost use Rattle.laws.specs.Any.{any_of};
ghost use Rattle.laws.specs.Put.{put};
ghost use Rattle.text.specs.Automaton.{feed_all};
ghost use Rattle.text.specs.declared.Awaiting.TheVariants.{First};
ghost use Rattle.reader.specs.Reading.{chain_rest};
ghost use Rattle.sheet.specs.Sheet as S;
ghost use Rattle.sheet.specs.Refusals as R;
ghost use Rattle.meaning.specs.Read as M;

use reader::Chain;
use sheet::{LONGEST_LINE, Limits, first_line_at, first_text_at, one_at, place_of, word_at};
use text::Awaiting;

// How many records the chain from record `first` on has.
pub fn chain_length(s: &[u8], first: u16) -> usize
    ensures { (result ≡ length (S.chain s.now first)) × (result ≤ 65536) }
{
    Chain::new(s, first).count()
}

// The bytes of text record k.
pub fn piece_at(s: &[u8], k: u16) -> &[u8]
    ensures { (result.now ≡ S.piece s.now k) × (length result.now ≤ 255) }
{
    let from = place_of(k) + 4;
    let end = from + usize::from(one_at(s, k));
    if end <= s.len() {
        return &s[from..end];
    }
    if from <= s.len() {
        return &s[from..];
    }
    &[]
}

// How many bytes the line of record k has.
pub fn line_length(s: &[u8], k: u16) -> usize
    ensures { result ≡ length (S.line_of s.now k) }
{
    Chain::new(s, first_text_at(s, k))
        .map(|i| piece_at(s, i).len())
        .sum()
}

// Whether a line of the chain from `first` on has more bytes than a line may.
fn some_long(s: &[u8], first: u16) -> bool
    ensures { result ≡ any_of R.long_line (S.lines_from s.now first) }
{
    Chain::new(s, first).any(|k| LONGEST_LINE < line_length(s, k))
}

// Whether arrow record k has more lines than the limit, or one that is too long.
#[tactic(auto, using(crate::proofs::Laws::large_of))]
fn large_arrow(s: &[u8], k: u16, m: Limits) -> bool
    ensures { result ≡ R.large_arrow m (S.arrow_of s.now k) }
{
    let first = first_line_at(s, k);
    m.lines < chain_length(s, first) || some_long(s, first)
}

fn some_large(s: &[u8], m: Limits) -> bool
    ensures { result ≡ any_of (R.large_arrow m) (S.arrows_of s.now) }
{
    Chain::new(s, word_at(s, 6)).any(|k| large_arrow(s, k, m))
}

// Whether the sheet has more of something than the limits, or a line that is too long.
#[tactic(auto, unfolding(sheet::specs::Refusals::over_limits))]
pub fn over_limits(s: &[u8], m: Limits) -> bool
    ensures { result ≡ R.over_limits m (S.meaning s.now) }
{
    m.states < state_count(s) || m.arrows < arrow_count(s) || some_large(s, m)
}

// What is awaited after the line of record k.
fn feed_line(s: &[u8], k: u16) -> Awaiting
    ensures { result ≡ feed_all First (S.line_of s.now k) }
{
    Chain::new(s, first_text_at(s, k)).fold(
        Awaiting::First,
        |w, i| text::feed_part(piece_at(s, i), w),
    )
}

// Whether the line of record k is not well-formed UTF-8.
#[tactic(auto, using(text::specs::Table::well_formed_is))]
fn ill_line(s: &[u8], k: u16) -> bool
    ensures { result ≡ R.ill_line (S.line_of s.now k) }
{
    !feed_line(s, k).is_whole()
}

// Whether a line of arrow record k is not well-formed UTF-8.
fn ill_arrow(s: &[u8], k: u16) -> bool
    ensures { result ≡ R.ill_arrow (S.arrow_of s.now k) }
{
    Chain::new(s, first_line_at(s, k)).any(|i| ill_line(s, i))
}

// Whether a line of the sheet is not well-formed UTF-8.
pub fn ill_formed(s: &[u8]) -> bool
    ensures { result ≡ R.ill_formed (S.meaning s.now) }
{
    Chain::new(s, word_at(s, 6)).any(|k| ill_arrow(s, k))
}

// The number of states.
#[tactic(auto, using(crate::proofs::Laws::length_states))]
pub fn state_count(s: &[u8]) -> usize
    ensures { result ≡ length (S.states_of s.now) }
{
    chain_length(s, word_at(s, 4))
}

// The number of arrows.
#[tactic(auto, using(crate::proofs::Laws::length_arrows))]
pub fn arrow_count(s: &[u8]) -> usize
    ensures { result ≡ length (S.arrows_of s.now) }
{
    chain_length(s, word_at(s, 6))
}

// The value of each record of a chain, into `out` as far as it reaches. By `next`, since `zip` over `iter_mut` is not proved
// here.
pub fn each_into<T: Copy + Drop, F: Fn(u16) -> T>(mut chain: Chain, out: &mut [T], value: F)
    requires { F.IsAlwaysCallable value }
    ensures { (f : _) → M.Computes (F.post value) f
        → out.new ≡ put out.old 0 (map f (chain_rest chain.entry)) }
{
    for place in out.iter_mut() {
        let Some(k) = chain.next() else {
            return;
        };
        *place = value(k);
    }
}

// The flag byte of each state, into `out` as far as it reaches.
pub fn flags_into(s: &[u8], out: &mut [u8])
    ensures { out.new ≡ put out.old 0 (S.flags_of (S.meaning s.now)) }
{
    each_into(Chain::new(s, word_at(s, 4)), out, |k| one_at(s, k));
}

// The state that each arrow leaves, into `out` as far as it reaches.
pub fn sources_into(s: &[u8], out: &mut [usize])
    ensures { out.new ≡ put out.old 0 (M.sources (S.meaning s.now)) }
{
    each_into(
        Chain::new(s, word_at(s, 6)),
        out,
        |k| usize::from(word_at(s, place_of(k) + 4)),
    );
}

// The state that each arrow leads to, into `out` as far as it reaches.
pub fn targets_into(s: &[u8], out: &mut [usize])
    ensures { out.new ≡ put out.old 0 (M.targets (S.meaning s.now)) }
{
    each_into(
        Chain::new(s, word_at(s, 6)),
        out,
        |k| usize::from(word_at(s, place_of(k) + 6)),
    );
}

// The first line record of each arrow, into `out` as far as it reaches.
pub fn heads_into(s: &[u8], out: &mut [u16])
    ensures { out.new ≡ put out.old 0 (M.first_lines s.now) }
{
    each_into(Chain::new(s, word_at(s, 6)), out, |k| first_line_at(s, k));
}
