// The stand-ins for the library's float functions, as document 01 has them: of NaN, of zeros and of the last place the
// library's own say something else, or nothing. Each operation rounds once.
#![tactic(auto)]

ghost use Rattle.std.specs.Prelude.{◌≡◌, ℕ, ◌*◌, ◌^◌, ◌<◌, ◌≤◌};
ghost use Rattle.std.specs.Float.Ieee.Scale.{finite};
ghost use Rattle.root.specs.Rounded.{magnitude};
ghost use Rattle.float.specs.Constants.{infinity};
ghost use Rattle.float.specs.Standins as S;

use root::{FRACTION, INFINITY_BITS, LEADING, SIGN};
use std::cmp::Ordering;
pub use std::f64::consts::PI;

// The circle's whole turn.
pub const TAU: f64 = remainder::TAU;

// The bits of 2^52, from which on every f64 is whole.
const WHOLE_BITS: u64 = 0x4330_0000_0000_0000;

pub fn infinity() -> f64
    ensures { result ≡ infinity }
{
    f64::from_bits(INFINITY_BITS)
}

// Whether the sign bit is set; false for NaN.
pub fn negative(v: f64) -> bool
    ensures { result ≡ S.negative v }
{
    if v != v {
        return false;
    }
    SIGN <= f64::to_bits(v)
}

pub fn abs(v: f64) -> f64
    ensures { result ≡ S.abs v }
{
    if negative(v) { -v } else { v }
}

pub fn is_finite(v: f64) -> bool
    ensures { result ≡ finite v }
{
    abs(v) < infinity()
}

pub fn copysign(v: f64, s: f64) -> f64
    ensures { result ≡ S.copysign v s }
{
    if negative(s) { -abs(v) } else { abs(v) }
}

pub fn signum(v: f64) -> f64
    ensures { result ≡ S.signum v }
{
    if v != v {
        return v;
    }
    copysign(1.0, v)
}

pub fn min(a: f64, b: f64) -> f64
    ensures { result ≡ S.min a b }
{
    if a != a {
        return b;
    }
    if b < a { b } else { a }
}

pub fn max(a: f64, b: f64) -> f64
    ensures { result ≡ S.max a b }
{
    if a != a {
        return b;
    }
    if a < b { b } else { a }
}

pub fn clamp(v: f64, low: f64, high: f64) -> f64
    ensures { result ≡ S.clamp v low high }
{
    if v < low {
        return low;
    }
    if high < v { high } else { v }
}

// The f64 nearest the exact square root; 0 for a negative number and for NaN.
pub fn root(v: f64) -> f64
    ensures { result ≡ S.root v }
{
    if v != v {
        return 0.0;
    }
    let b = f64::to_bits(v);
    if b == 0 {
        return v;
    }
    if b == SIGN {
        return v;
    }
    if SIGN <= b {
        return 0.0;
    }
    if INFINITY_BITS <= b {
        return v;
    }
    f64::from_bits(root::root_bits(b))
}

pub fn hypot(a: f64, b: f64) -> f64
    ensures { result ≡ S.hypot a b }
{
    root(a * a + b * b)
}

pub fn midpoint(a: f64, b: f64) -> f64
    ensures { result ≡ S.midpoint a b }
{
    (a + b) / 2.0
}

// The whole number nearest the size that b stands for, a half upwards.
fn half_up(b: u64) -> u64
    requires { b < 1075 * 2 ^ 52 }
    ensures { (result ≡ S.half_up (magnitude b) (2 ^ 1074)) × (result ≤ 2 ^ 53) }
{
    let field = b >> 52;
    if field < 1022 {
        return 0;
    }
    let s = LEADING + (b & FRACTION);
    let k = 1074 - field;
    ((s >> k) + 1) / 2
}

// The whole number nearest v, a half away from zero.
pub fn round(v: f64) -> f64
    ensures { result ≡ S.round v }
{
    if v != v {
        return v;
    }
    let b = f64::to_bits(abs(v));
    if WHOLE_BITS <= b {
        return v;
    }
    let size = half_up(b) as f64;
    if negative(v) { -size } else { size }
}

// a % TAU, brought to 0 or above.
pub fn rem_euclid(a: f64) -> f64
    ensures { result ≡ S.rem_euclid a }
{
    let r = remainder::rem_tau(a);
    if r < 0.0 { r + TAU } else { r }
}

// An angle brought to -PI .. PI.
fn reduced(a: f64) -> f64
    ensures { result ≡ S.reduced a }
{
    let r = remainder::rem_tau(a);
    if r > PI {
        return r - TAU;
    }
    if r < -PI { r + TAU } else { r }
}

// The divisor of step k for sine.
fn sine_divisor(k: u32) -> u32
    requires { k ≤ 14 }
    ensures { result ≡ S.sine_divisor k }
{
    2 * k * (2 * k + 1)
}

// The divisor of step k for cosine.
fn cosine_divisor(k: u32) -> u32
    requires { (0 < k) × (k ≤ 14) }
    ensures { result ≡ S.cosine_divisor k }
{
    (2 * k - 1) * (2 * k)
}

fn series<F: Fn(u32) -> u32>(divisor: F, z: f64) -> f64
    requires { (k : _) → 0 < k → k ≤ 14 → F.pre divisor k }
    ensures { (d : ℕ → ℕ) → ((k n : _) → F.post divisor k n → n ≡ d k) → result ≡ S.series d z }
{
    let mut t = 1.0;
    // From the last term to the first. Terms have numbers and are no list: nothing is indexed.
    for k in (1..15).rev() {
        t = 1.0 - z / divisor(k) as f64 * t;
    }
    t
}

pub fn sin(a: f64) -> f64
    ensures { result ≡ S.sin a }
{
    let r = reduced(a);
    r * series(sine_divisor, r * r)
}

pub fn cos(a: f64) -> f64
    ensures { result ≡ S.cos a }
{
    let r = reduced(a);
    series(cosine_divisor, r * r)
}

fn halved(u: f64) -> f64
    ensures { result ≡ S.halved u }
{
    u / (1.0 + root(1.0 + u * u))
}

fn arc_series(z: f64) -> f64
    ensures { result ≡ S.arc_series z }
{
    let mut t = 1.0 / 25.0;
    // From the last term but one to the first, by number as above.
    for k in (0..12u32).rev() {
        t = 1.0 / (2 * k + 1) as f64 - z * t;
    }
    t
}

// The arctangent of w, from 0 to 1.
fn arctangent_of(w: f64) -> f64
    ensures { result ≡ S.arctangent_of w }
{
    let u = halved(halved(w));
    4.0 * (u * arc_series(u * u))
}

fn share(b: f64, a: f64) -> f64
    ensures { result ≡ S.share b a }
{
    if a == 0.0 { 0.0 } else { b / a }
}

// The angle of the upper right quarter.
fn quarter(y: f64, x: f64) -> f64
    ensures { result ≡ S.quarter y x }
{
    let angle = arctangent_of(share(min(x, y), max(x, y)));
    if x < y {
        return PI / 2.0 - angle;
    }
    angle
}

pub fn atan2(y: f64, x: f64) -> f64
    ensures { result ≡ S.atan2 y x }
{
    let first = quarter(abs(y), abs(x));
    let half = turned_back(negative(x), first);
    if negative(y) { -half } else { half }
}

fn turned_back(back: bool, angle: f64) -> f64
    ensures { result ≡ S.turned_back back angle }
{
    if back { PI - angle } else { angle }
}

// Of equals, -0 stands before 0: whether only the first has its sign bit set.
fn minus_first(first: bool, second: bool) -> bool
    ensures { result ≡ S.minus_first first second }
{
    first && !second
}

// Whether a stands before b.
pub fn precedes(a: f64, b: f64) -> bool
    ensures { result ≡ S.precedes a b }
{
    if a < b {
        return true;
    }
    if a == b {
        return minus_first(negative(a), negative(b));
    }
    a == a && b != b
}

pub fn total_cmp(a: f64, b: f64) -> Ordering
    ensures { result ≡ S.total_cmp a b }
{
    if precedes(a, b) {
        return Ordering::Less;
    }
    if precedes(b, a) {
        return Ordering::Greater;
    }
    Ordering::Equal
}
