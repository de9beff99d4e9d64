// A method sheet: its fields, and the bytes of its records.
#![tactic(auto)]

ghost use Rattle.std.specs.Prelude.{◌≡◌, ◌+◌, ◌*◌, ◌<◌};
ghost use Rattle.laws.specs.Loops.{any_up};
ghost use Rattle.sheet.specs.Sheet as S;
ghost use Rattle.sheet.specs.Meaning as M;
ghost use Rattle.sheet.specs.Refusals as R;

use refusal::Refusal;

// The most that a screen opens: states, arrows, and lines of an arrow.
#[derive(Clone, Copy)]
pub struct Limits {
    pub states: usize,
    pub arrows: usize,
    pub lines: usize,
}

// The states that an arrow joins, by number.
#[derive(Clone, Copy)]
pub struct Ends {
    pub source: usize,
    pub target: usize,
}

impl Ends {
    // What fills room before there is an arrow.
    pub const NONE: Ends = Ends {
        source: 0,
        target: 0,
    };
}

// The most bytes of a line, on every screen.
pub const LONGEST_LINE: usize = 96;

// The main screen's limits, document 01's capacities.
pub fn main_screen() -> Limits
    ensures { result ≡ R.main_screen }
{
    Limits {
        states: 64,
        arrows: 256,
        lines: 8,
    }
}

// The small panel's limits.
pub fn service_panel() -> Limits
    ensures { result ≡ R.service_panel }
{
    Limits {
        states: 24,
        arrows: 64,
        lines: 4,
    }
}

// The kinds of records.
#[derive(Clone, Copy, Debug, PartialEq, Eq)]
pub enum RecordKind {
    State,
    Arrow,
    Line,
    Text,
}

impl From<RecordKind> for u8 {
    ghost from_gives = { λ kind n. n ≡ S.kind_byte kind };

    fn from(kind: RecordKind) -> u8 {
        match kind {
            RecordKind::State => 1,
            RecordKind::Arrow => 2,
            RecordKind::Line => 3,
            RecordKind::Text => 4,
        }
    }
}

impl TryFrom<u8> for RecordKind {
    type Error = Refusal;

    ghost try_from_gives = { S.GivesRecordKind };

    fn try_from(byte: u8) -> Result<RecordKind, Refusal> {
        match byte {
            1 => Ok(RecordKind::State),
            2 => Ok(RecordKind::Arrow),
            3 => Ok(RecordKind::Line),
            4 => Ok(RecordKind::Text),
            _ => Err(Refusal::Bytes),
        }
    }
}

// The byte at i, 0 past the end.
pub fn byte_at(s: &[u8], i: usize) -> u8
    ensures { result ≡ S.byte_at s.now i }
{
    s.get(i).copied().unwrap_or(0)
}

// The little-endian u16 at i.
pub fn word_at(s: &[u8], i: usize) -> u16
    requires { i < 1048576 }
    ensures { result ≡ S.le16 s.now i }
{
    u16::from_le_bytes([byte_at(s, i), byte_at(s, i + 1)])
}

// Where record k begins.
pub fn place_of(k: u16) -> usize
    ensures { result ≡ 16 * k }
{
    16 * usize::from(k)
}

pub fn kind_at(s: &[u8], k: u16) -> u8
    ensures { result ≡ S.kind_of s.now k }
{
    byte_at(s, place_of(k))
}

pub fn one_at(s: &[u8], k: u16) -> u8
    ensures { result ≡ S.byte_one s.now k }
{
    byte_at(s, place_of(k) + 1)
}

pub fn next_at(s: &[u8], k: u16) -> u16
    ensures { result ≡ S.next s.now k }
{
    word_at(s, place_of(k) + 2)
}

pub fn first_line_at(s: &[u8], k: u16) -> u16
    ensures { result ≡ S.first_line s.now k }
{
    word_at(s, place_of(k) + 8)
}

pub fn first_text_at(s: &[u8], k: u16) -> u16
    ensures { result ≡ S.first_text s.now k }
{
    word_at(s, place_of(k) + 4)
}

// Whether some byte from a to e - 1 is not zero.
#[tactic(auto, using(laws::specs::Chains::any_up_list), unfolding(crate::specs::Refusals::is_set))]
fn some_set(s: &[u8], a: usize, e: usize) -> bool
    ensures { result ≡ R.some_set s.now a e }
{
    (a..e).any(|i| byte_at(s, i) != 0)
}

// Whether record k is wrong by its kind, its byte 1, or a byte that must be zero.
#[tactic(auto, unfolding(crate::specs::Refusals::wrong_record))]
fn wrong_record(s: &[u8], k: u16) -> bool
    ensures { result ≡ R.wrong_record s.now k }
{
    let b = place_of(k);
    let one = one_at(s, k);
    match RecordKind::try_from(kind_at(s, k)) {
        Ok(RecordKind::State) => 3 < one || some_set(s, b + 4, b + 16),
        Ok(RecordKind::Arrow) => 0 < one || some_set(s, b + 10, b + 16),
        Ok(RecordKind::Line) => 0 < one || some_set(s, b + 6, b + 16),
        Ok(RecordKind::Text) => one < 1
            || 12 < one
            || some_set(s, b + 4 + usize::from(one), b + 16),
        Err(_) => true,
    }
}

// Whether one of the n records is wrong.
#[tactic(auto, using(laws::specs::Chains::any_up_list))]
fn some_wrong(s: &[u8], n: u16) -> bool
    ensures { result ≡ any_up (R.wrong_record s.now) 1 (n + 1) }
{
    (1..usize::from(n) + 1).any(|k| wrong_record(s, k as u16))
}

// Whether a byte of the sheet refuses it.
#[tactic(auto, unfolding(crate::specs::Refusals::wrong_bytes))]
pub fn wrong_bytes(s: &[u8]) -> bool
    ensures { result ≡ R.wrong_bytes s.now }
{
    some_set(s, 8, 16) || some_wrong(s, word_at(s, 2))
}

// Whether bit 0 of a state's flags is set.
pub fn is_start(flag: u8) -> bool
    ensures { result ≡ M.is_start flag }
{
    flag % 2 == 1
}

// The first start state, or 0.
pub fn start_index(flags: &[u8]) -> usize
    ensures { result ≡ M.start_index flags.now }
{
    flags.iter().position(|flag| is_start(*flag)).unwrap_or(0)
}
