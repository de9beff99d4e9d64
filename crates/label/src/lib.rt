// The size of a label block: its lines measured character by character.
#![tactic(auto)]

ghost use Rattle.std.specs.Prelude.{◌≡◌, ◌<◌, ◌≤◌, length, take, drop};
ghost use Rattle.float.specs.Constants.{f0};
ghost use Rattle.refusal.specs.Refused.{outcome};
ghost use Rattle.sheet.specs.Sheet.{line_of, lines_from};
ghost use Rattle.label.specs.Label as S;
ghost use Rattle.label.specs.Measuring as M;

use meaning::piece_at;
use reader::Chain;
use refusal::Refusal;
use text::Awaiting;

// The font size of labels; the width of an ASCII character, 0.6 em of a monospace font, and of any other that is no accent; the distance
// between lines.
const LABEL_FONT_SIZE: f64 = 12.0;

pub const LABEL_CHAR_WIDTH: f64 = 0.6 * LABEL_FONT_SIZE;

const LABEL_WIDE_CHAR_WIDTH: f64 = LABEL_FONT_SIZE;

const LABEL_LINE_HEIGHT: f64 = 15.0;

// A line measured so far: what it awaits, the value of the character that has begun, and the width.
#[derive(Clone, Copy)]
pub struct Measure {
    pub awaiting: Awaiting,
    pub value: u32,
    pub width: f64,
}

// The size of a label block.
#[derive(Clone, Copy)]
pub struct Block {
    pub width: f64,
    pub height: f64,
}

impl Block {
    // What fills room before there is a label.
    pub const NONE: Block = Block {
        width: 0.0,
        height: 0.0,
    };
}

// Whether a code point is an accent, one of U+0300 to U+036F.
fn is_accent(c: u32) -> bool
    ensures { result ≡ S.accent c }
{
    0x300 <= c && c <= 0x36f
}

// The width of a code point.
#[tactic(auto, unfolding(crate::specs::Label::char_width))]
fn char_width(c: u32) -> f64
    ensures { result ≡ S.char_width c }
{
    if c < 0x80 {
        return LABEL_CHAR_WIDTH;
    }
    if is_accent(c) {
        return 0.0;
    }
    LABEL_WIDE_CHAR_WIDTH
}

// Before the first byte of a line.
fn measure_start() -> Measure
    ensures { result ≡ M.measure_start }
{
    Measure {
        awaiting: Awaiting::First,
        value: 0,
        width: 0.0,
    }
}

// One byte of a line.
#[tactic(auto, unfolding(crate::specs::Measuring::measure_of))]
fn measure_byte(m: Measure, b: u8) -> Measure
    ensures { result ≡ M.measure_of m b }
{
    let awaiting = text::feed(m.awaiting, b);
    let value = text::gather(m.awaiting, m.value, b);
    let width = if awaiting.is_whole() {
        m.width + char_width(value)
    } else {
        m.width
    };
    Measure {
        awaiting,
        value,
        width,
    }
}

// The bytes of a piece of a line.
fn measure_part(piece: &[u8], m: Measure) -> Measure
    ensures { result ≡ M.measure_all m piece.now }
{
    piece.iter().fold(m, |t, b| measure_byte(t, *b))
}

// The height of so many lines; by the nearest float, since `as f64` takes only numbers that a float has.
fn block_height(lines: usize) -> f64
    ensures { result ≡ S.block_height lines }
{
    std::num::nearest_usize_to_f64(lines) * LABEL_LINE_HEIGHT
}

// The line of record k, measured piece by piece.
fn measure_line(s: &[u8], k: u16) -> Measure
    ensures { result ≡ M.measure_all M.measure_start (line_of s.now k) }
{
    Chain::new(s, sheet::first_text_at(s, k)).fold(
        measure_start(),
        |m, i| measure_part(piece_at(s, i), m),
    )
}

// The width of the widest line of the chain from `first` on.
fn widest(s: &[u8], first: u16) -> f64
    ensures { result ≡ S.block_width (lines_from s.now first) }
{
    Chain::new(s, first).fold(0.0, |w, k| float::max(w, measure_line(s, k).width))
}

// The size of the label block whose lines are the chain from `first` on.
#[tactic(auto, using(crate::proofs::Laws::block_is))]
pub fn block_at(s: &[u8], first: u16) -> Block
    ensures { result ≡ S.block (lines_from s.now first) }
{
    let width = widest(s, first);
    let height = block_height(meaning::chain_length(s, first));
    Block { width, height }
}

// No length is above `most`, and they add up to `bytes`. No `sum`, since the lengths may add up to more than a usize holds.
fn lengths_fit(lengths: &[usize], most: usize, bytes: usize) -> bool
    ensures { result ≡ M.lengths_fit most bytes lengths.now }
{
    let mut left = bytes;
    for n in lengths {
        if most < *n || left < *n {
            return false;
        }
        left -= *n;
    }
    left == 0
}

// The size of the lines, one after the other in the text, or a refusal of the first that is not well-formed: a loop, which
// ends there.
fn lines_size(text: &[u8], lengths: &[usize]) -> Result<(f64, f64), Refusal>
    requires { S.total_length lengths.now ≤ length text.now }
    ensures { let lines = S.cut text.now lengths.now in
        outcome result ≡ M.lines_size (S.block_height (length lengths.now)) f0 lines }
{
    let mut rest = text;
    let mut width = 0.0;
    for n in lengths {
        let (line, behind) = rest.split_at(*n);
        let m = measure_part(line, measure_start());
        if !m.awaiting.is_whole() {
            return Err(Refusal::Utf8);
        }
        width = float::max(width, m.width);
        rest = behind;
    }
    Ok((width, block_height(lengths.len())))
}

// The size of a label block of at most m's lines: a pair, as the call answers it.
pub fn label_size(text: &[u8], lengths: &[usize], m: sheet::Limits) -> Result<(f64, f64), Refusal>
    ensures { outcome result ≡ S.sized m text.now lengths.now }
{
    if m.lines < lengths.len() {
        return Err(Refusal::Limits);
    }
    if !lengths_fit(lengths, sheet::LONGEST_LINE, text.len()) {
        return Err(Refusal::Limits);
    }
    lines_size(text, lengths)
}
