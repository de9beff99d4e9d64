// A written number: at most two decimals, no trailing zeros, never `-0`; not finite gives `0`.
#![tactic(auto)]

ghost use Rattle.std.specs.Prelude.{◌≡◌, ◌<◌, not, ◌&&◌, [], length, ◌==◌};
ghost use Rattle.laws.specs.Writers.{as_usize};
ghost use Rattle.text.specs.Writing.{Adds};
ghost use Rattle.float.specs.Standins.{negative};
ghost use Rattle.number.specs.Number as S;
ghost use Rattle.refusal.specs.Refused.{outcome};

use refusal::Refusal;
use text::Writer;

// Whether a number may be written: not finite, or of size below 10^13.
pub fn writable(v: f64) -> bool
    ensures { result ≡ S.writable v }
{
    !float::is_finite(v) || !(1e13 <= float::abs(v))
}

// The whole number of hundredths; 0 where v is not finite or refusal 10 stops it.
fn size_of(v: f64) -> u64
    ensures { result ≡ S.rounded_size v }
{
    if float::abs(v) < 1e13 {
        return std::num::truncating_f64_to_u64(float::abs(float::round(v * 100.0)));
    }
    0
}

// Whether n hundredths with the sign of v are written with a minus.
fn has_minus(v: f64, n: u64) -> bool
    ensures { result ≡ (negative v && not (n == 0)) }
{
    float::negative(v) && n != 0
}

#[tactic(auto, unfolding(crate::specs::Number::minus_text))]
fn sign(minus: bool) -> &'static [u8]
    ensures { result.now ≡ S.minus_text minus }
{
    if minus { b"-" } else { b"" }
}

// The point and the digits after it, of n hundredths.
fn put_fraction(w: &mut Writer, n: u64)
    requires { n < 100 }
    ensures { Adds w.old w.new (S.fraction n) }
{
    // Said where nothing is written: the place is one.
    prove!(w.at <= usize::MAX);
    if n == 0 {
        return;
    }
    w.byte(b'.');
    w.number(n / 10);
    if n % 10 != 0 {
        w.number(n % 10);
    }
}

// The text of v; `0` where v is not finite. A number that refusal 10 stops has the text `0` here too: callers
// refuse it first, by `writable`.
pub fn put_num(w: &mut Writer, v: f64)
    ensures { Adds w.old w.new (S.num_text v) }
{
    let n = size_of(v);
    w.bytes(sign(has_minus(v, n)));
    w.number(n / 100);
    put_fraction(w, n % 100);
}

// A writer over no bytes: what is put is measured.
pub fn measuring<'a>() -> Writer<'a>
    ensures { (result.out.now ≡ []) × (result.at ≡ 0) }
{
    Writer {
        out: &mut [],
        at: 0,
    }
}

// How many bytes the text of v has.
fn num_length(v: f64) -> usize
    ensures { result ≡ as_usize (length (S.num_text v)) }
{
    let mut w = measuring();
    put_num(&mut w, v);
    w.at
}

// The text of v at the start of `out`, and its length; refused, and nothing changed, where v is finite and 10^13 or
// more in size, or the text does not fit.
pub fn write_num(v: f64, out: &mut [u8]) -> Result<usize, Refusal>
    ensures { (outcome result ≡ S.written v (length out.old))
        × (out.new ≡ S.written_after v out.old) }
{
    if !writable(v) {
        return Err(Refusal::Number);
    }
    if out.len() < num_length(v) {
        return Err(Refusal::Room);
    }
    let mut w = Writer { out, at: 0 };
    put_num(&mut w, v);
    Ok(w.at)
}
