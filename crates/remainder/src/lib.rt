// The remainder of an f64 by TAU, exact, as Rust's `%` and C's fmod have it, by whole numbers of 64 bits.
#![tactic(auto)]

ghost use Rattle.std.specs.Prelude.{◌≡◌, ◌*◌, ◌%◌, ◌^◌, ◌≤◌, ◌<◌};
ghost use Rattle.std.specs.Float.Ieee.{rem, of_bits};
ghost use Rattle.std.specs.Float.{binary64};
ghost use Rattle.remainder.specs.Tau.{τ, significand, tau_bits, infinity_bits};

use root::{FRACTION, INFINITY_BITS, LEADING, SIGN};

// The circle's whole turn: SIGNIFICAND / 2^50.
pub const TAU: f64 = 6.283185307179586;

// The bits of TAU; of 2 * TAU, whose exponent is one higher; and TAU's significand.
const TAU_BITS: u64 = 4618760256179416344;

const TWICE_BITS: u64 = TAU_BITS + LEADING;

const SIGNIFICAND: u64 = LEADING + (TAU_BITS & FRACTION);

// 2^50.
const UNITS: f64 = 1125899906842624.0;

// All bits but the sign.
const SIZE: u64 = SIGN - 1;

// An exponent e in a float's bits stands for significand * 2^(e - 1075), which is significand * 2^(e - 1025) / 2^50.
const UNIT_EXPONENT: u64 = 1025;

// m * 2^k modulo TAU's significand, eleven places at a time. With a `for` over k / 11 turns, and k % 11 places left, `rem_tau` takes a
// fifth longer.
fn reduce(m: u64, k: u64) -> u64
    requires { m < 2 ^ 53 }
    ensures { result ≡ m * 2 ^ k % significand }
{
    let mut r = m;
    let mut left = k;
    while 11 < left {
        r = r * 2048 % SIGNIFICAND;
        left -= 11;
    }
    (r << left) % SIGNIFICAND
}

// The remainder of a number by its bits, from TAU on and finite: below 2 * TAU by one exact subtraction.
fn from_tau(size: u64) -> f64
    requires { (tau_bits ≤ size) × (size < infinity_bits) }
    ensures { result ≡ rem binary64 (of_bits binary64 size) τ }
{
    if size < TWICE_BITS {
        return f64::from_bits(size) - TAU;
    }
    let r = reduce(LEADING + (size & FRACTION), (size >> 52) - UNIT_EXPONENT);
    r as f64 / UNITS
}

// a % TAU.
pub fn rem_tau(a: f64) -> f64
    ensures { result ≡ rem binary64 a τ }
{
    if a != a {
        return a;
    }
    let b = f64::to_bits(a);
    let size = b & SIZE;
    if size < TAU_BITS {
        return a;
    }
    if INFINITY_BITS <= size {
        return a - a;
    }
    let v = from_tau(size);
    if b == size { v } else { -v }
}
