// Text in bytes: well-formed UTF-8, a byte at a time; bytes and digits written into a lent slice.
#![tactic(auto)]

ghost use Rattle.std.specs.Prelude.{◌≡◌, [], ◌∷◌, ◌+◌, ◌<◌, take, drop, set};
ghost use Rattle.text.specs.Writing.{Adds};
ghost use Rattle.text.specs.Utf8 as U;
ghost use Rattle.text.specs.Automaton.{awaiting_of, is_whole, next_within, lead, feed_of, feed_all, gather_of};
ghost use Rattle.text.specs.Digits.{digits};

// What a text that has been read so far awaits.
#[derive(Clone, Copy, Debug, PartialEq, Eq)]
pub enum Awaiting {
    // a character's first byte
    First,
    // one, two or three bytes that continue a character
    One,
    Two,
    Three,
    // the second byte of a character, in a range of its own
    AfterE0,
    AfterEd,
    AfterF0,
    AfterF4,
    // nothing: the text is ill-formed
    Nothing,
}

impl Awaiting {
    // Whether the text so far is a run of whole characters.
    #[tactic(auto, unfolding(crate::specs::Automaton::is_whole))]
    pub fn is_whole(self) -> bool
        ensures { result ≡ is_whole self }
    {
        self == Awaiting::First
    }
}

// From its number: from 0 in the order of the enum, and from 8 on nothing.
impl From<u8> for Awaiting {
    ghost from_gives = { λ number awaiting. awaiting ≡ awaiting_of number };

    fn from(number: u8) -> Awaiting {
        match number {
            0 => Awaiting::First,
            1 => Awaiting::One,
            2 => Awaiting::Two,
            3 => Awaiting::Three,
            4 => Awaiting::AfterE0,
            5 => Awaiting::AfterEd,
            6 => Awaiting::AfterF0,
            7 => Awaiting::AfterF4,
            _ => Awaiting::Nothing,
        }
    }
}

// What is next awaited where b is in the range, and nothing where it is not.
fn in_range(b: u8, lo: u8, hi: u8, next: Awaiting) -> Awaiting
    ensures { result ≡ next_within b lo hi next }
{
    if lo <= b && b <= hi {
        next
    } else {
        Awaiting::Nothing
    }
}

// What is awaited after a character's first byte.
#[tactic(auto, unfolding(crate::specs::Automaton::lead))]
fn first(b: u8) -> Awaiting
    ensures { result ≡ lead b }
{
    match b {
        0x00..=0x7f => Awaiting::First,
        0xc2..=0xdf => Awaiting::One,
        0xe0 => Awaiting::AfterE0,
        0xe1..=0xec => Awaiting::Two,
        0xed => Awaiting::AfterEd,
        0xee..=0xef => Awaiting::Two,
        0xf0 => Awaiting::AfterF0,
        0xf1..=0xf3 => Awaiting::Three,
        0xf4 => Awaiting::AfterF4,
        _ => Awaiting::Nothing,
    }
}

// What is awaited after the byte b.
#[tactic(auto, unfolding(crate::specs::Automaton::feed_of))]
pub fn feed(awaiting: Awaiting, b: u8) -> Awaiting
    ensures { result ≡ feed_of awaiting b }
{
    match awaiting {
        Awaiting::First => first(b),
        Awaiting::One => in_range(b, 0x80, 0xbf, Awaiting::First),
        Awaiting::Two => in_range(b, 0x80, 0xbf, Awaiting::One),
        Awaiting::Three => in_range(b, 0x80, 0xbf, Awaiting::Two),
        Awaiting::AfterE0 => in_range(b, 0xa0, 0xbf, Awaiting::One),
        Awaiting::AfterEd => in_range(b, 0x80, 0x9f, Awaiting::One),
        Awaiting::AfterF0 => in_range(b, 0x90, 0xbf, Awaiting::Two),
        Awaiting::AfterF4 => in_range(b, 0x80, 0x8f, Awaiting::Two),
        Awaiting::Nothing => Awaiting::Nothing,
    }
}

// What is awaited after the bytes of s.
pub fn feed_part(s: &[u8], awaiting: Awaiting) -> Awaiting
    ensures { result ≡ feed_all awaiting s.now }
{
    s.iter().fold(awaiting, |w, b| feed(w, *b))
}

// The bits of a code point that a character's first byte brings.
#[tactic(auto, unfolding(crate::specs::Utf8::payload))]
fn payload(b: u8) -> u8
    ensures { result ≡ U.payload b }
{
    match b {
        0x00..=0x7f => b,
        0x80..=0xdf => b % 32,
        0xe0..=0xef => b % 16,
        0xf0..=0xff => b % 8,
    }
}

// The value of the character so far, after the byte b: its code point where `feed(awaiting, b)` is whole.
#[tactic(auto, unfolding(crate::specs::Automaton::gather_of))]
pub fn gather(awaiting: Awaiting, v: u32, b: u8) -> u32
    ensures { result ≡ gather_of awaiting v b }
{
    if awaiting.is_whole() {
        return u32::from(payload(b));
    }
    64 * (v % 32768) + u32::from(b % 64)
}

// b at place k, where there is one. By index, since what is written through a slice's `get_mut` is not followed back into it.
fn store(out: &mut [u8], k: usize, b: u8)
    ensures { out.new ≡ set out.old k b }
{
    if k < out.len() {
        out[k] = b;
    }
}

// Where a text goes on in a lent slice. A byte is stored where it fits, and the place always advances: on an empty
// slice a text is measured.
#[derive(Drop)]
pub struct Writer<'a> {
    pub out: &'a mut [u8],
    pub at: usize,
}

impl<'a> Writer<'a> {
    pub fn byte(&mut self, b: u8)
        ensures { Adds self.old self.new (b ∷ []) }
    {
        store(&mut *self.out, self.at, b);
        self.at = self.at.saturating_add(1);
    }

    pub fn bytes(&mut self, s: &[u8])
        ensures { Adds self.old self.new s.now }
    {
        for b in s {
            self.byte(*b);
        }
    }

    // The decimal digits of n.
    pub fn number(&mut self, n: u64)
        ensures { Adds self.old self.new (digits n) }
    {
        if n < 10 {
            self.byte(digit(n));
            return;
        }
        self.number(n / 10);
        self.byte(digit(n % 10));
    }
}

fn digit(n: u64) -> u8
    requires { n < 10 }
    ensures { result ≡ 48 + n }
{
    b'0' + (n as u8)
}
