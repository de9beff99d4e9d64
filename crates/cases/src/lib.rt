// Reading the cases that the program `vectors` compares: their kinds, and what is in them. A case's payload is a slice of bytes; a
// read past its end gives 0, so a payload that is too short is found by its length, not here.
#![tactic(auto)]

ghost use Rattle.std.specs.Prelude.{◌≡◌, ℕ, ◌<◌, length, from_bits};
ghost use Rattle.std.specs.Float.{binary64};
ghost use Rattle.cases.specs.Payload as S;

mod kind;

pub use kind::{Call, Kind, StandIn, UnknownKind};
use root::{INFINITY_BITS, SIGN};

// The place n bytes on.
fn after(at: usize, n: usize) -> usize
    ensures { result ≡ S.after at n }
{
    at.wrapping_add(n)
}

// The byte at a place.
pub fn byte(p: &[u8], at: usize) -> u8
    ensures { result ≡ S.payload_byte p.now at }
{
    p.get(at).copied().unwrap_or(0)
}

// The number in the two bytes from a place on, the least first.
#[tactic(auto, unfolding(crate::specs::Payload::word_at))]
fn word(p: &[u8], at: usize) -> u16
    ensures { result ≡ S.word_at p.now at }
{
    u16::from_le_bytes(std::array::from_fn(|i| byte(p, after(at, i))))
}

// The number in the four bytes from a place on.
#[tactic(auto, unfolding(crate::specs::Payload::word_at, crate::specs::Payload::long_at))]
pub fn long(p: &[u8], at: usize) -> u32
    ensures { result ≡ S.long_at p.now at }
{
    u32::from_le_bytes(std::array::from_fn(|i| byte(p, after(at, i))))
}

// The number in the eight bytes from a place on.
#[tactic(auto, unfolding(crate::specs::Payload::word_at, crate::specs::Payload::long_at, crate::specs::Payload::bits_at))]
pub fn bits(p: &[u8], at: usize) -> u64
    ensures { result ≡ S.bits_at p.now at }
{
    u64::from_le_bytes(std::array::from_fn(|i| byte(p, after(at, i))))
}

// The number in the two bytes from a place on, for a place in a slice.
pub fn index(p: &[u8], at: usize) -> usize
    ensures { (result ≡ S.word_at p.now at) × (result < 65536) }
{
    usize::from(word(p, at))
}

// The number in the eight bytes from a place on, for a length or a limit.
pub fn size(p: &[u8], at: usize) -> usize
    ensures { result ≡ S.bits_at p.now at }
{
    bits(p, at) as usize
}

// The float that a pattern stands for; every pattern of a NaN is the one NaN.
fn of_bits(b: u64) -> f64
    ensures { result ≡ from_bits binary64 b }
{
    if b % SIGN > INFINITY_BITS {
        return 0.0 / 0.0;
    }
    f64::from_bits(b)
}

// The float in the eight bytes from a place on.
#[tactic(auto, unfolding(crate::specs::Payload::float_at))]
pub fn float(p: &[u8], at: usize) -> f64
    ensures { result ≡ S.float_at p.now at }
{
    of_bits(bits(p, at))
}

// What `read` has at places eight bytes apart, from one on, as many as `out` holds.
pub fn fill<T: Copy, F: Fn(usize) -> T>(at: usize, out: &mut [T], read: F)
    requires { F.IsAlwaysCallable read }
    ensures { (r : ℕ → T) → ((place x : _) → F.post read place x → x ≡ r place) → out.new ≡ S.each 8 r at (length out.old) }
{
    let mut from = at;
    for value in out.iter_mut() {
        *value = read(from);
        from = after(from, 8);
    }
}

// Bit for bit, but zeros of either sign are equal; NaN is the one NaN. `==` of floats says neither, and no order of theirs does.
pub fn same(a: f64, b: f64) -> bool
    ensures { result ≡ S.alike a b }
{
    if a == 0.0 {
        return b == 0.0;
    }
    if a != a {
        return b != b;
    }
    if b != b {
        return false;
    }
    f64::to_bits(a) == f64::to_bits(b)
}

// Whether the float at a place is that one.
#[tactic(auto, unfolding(crate::specs::Payload::same_float))]
pub fn same_float(p: &[u8], at: usize, v: f64) -> bool
    ensures { result ≡ S.same_float p.now at v }
{
    same(float(p, at), v)
}

// Whether the payload ends with that float, which stands at a place.
#[tactic(auto, unfolding(crate::specs::Payload::answer_stands))]
pub fn answered(p: &[u8], at: usize, v: f64) -> bool
    requires { at < 70000 }
    ensures { result ≡ S.answer_stands p.now at v }
{
    p.len() == at + 8 && same_float(p, at, v)
}
