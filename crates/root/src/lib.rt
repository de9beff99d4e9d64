// The bits of the square root of a finite f64 above zero, nearest to the exact one. Whole numbers of 64 bits decide; floats only guess.
#![tactic(auto)]

ghost use Rattle.std.specs.Prelude.{◌≡◌, true, ◌+◌, ◌*◌, ◌^◌, ◌≤◌, ◌<◌};
ghost use Rattle.root.specs.Root.{whole_root, nearest_root, scale, scaled, evened, root_bits};
ghost use Rattle.root.specs.Digits.{digit_step};

// An f64 by its bits: the sign, eleven places of the exponent, and 52 of the fraction. A normal number has a leading 1
// above them that is not stored.
pub const SIGN: u64 = 0x8000_0000_0000_0000;

pub const LEADING: u64 = 0x0010_0000_0000_0000;

pub const FRACTION: u64 = LEADING - 1;

pub const ONE_BITS: u64 = 0x3ff0_0000_0000_0000;

pub const INFINITY_BITS: u64 = 0x7ff0_0000_0000_0000;

// A digit is the upper two of 64 places: 2^62 divides them off.
const DIGIT: u64 = 0x4000_0000_0000_0000;

// 2^26 parts a significand of 53 places into halves; LOW keeps the lower.
const HALF: u64 = 0x0400_0000;

const LOW: u64 = HALF - 1;

// 2^37: no right guess leaves as much, and what is below it fits 64 bits when it is shifted by 26 places.
const FAR: u64 = 0x0020_0000_0000;

// INVERSE less half the bits of x are about the bits of 1 / root(x): the exponent is halved and negated, and the fraction is a first guess.
const INVERSE: u64 = 0x5fe6_eb50_c7b5_37a9;

// 2^27 + 1: with t = g * SPLITTER, t - (t - g) is the upper half of g's 53 places.
const SPLITTER: f64 = 134217729.0;

// The root of the digits taken so far, the remainder, and the digits to come.
#[derive(Clone, Copy)]
pub struct Digits {
    pub q: u64,
    pub r: u64,
    pub x: u64,
}

// A significand and its exponent.
#[derive(Clone, Copy)]
pub struct Scaled {
    pub s: u64,
    pub e: u64,
}

// Takes one digit.
fn digit(d: Digits) -> Digits
    requires { (d.q < 2 ^ 53) × (d.r ≤ 2 * d.q) }
    ensures { result ≡ digit_step d }
{
    let down = 4 * d.r + d.x / DIGIT;
    let t = 4 * d.q + 1;
    let rest = 4 * (d.x % DIGIT);
    if t <= down {
        return Digits {
            q: 2 * d.q + 1,
            r: down - t,
            x: rest,
        };
    }
    Digits {
        q: 2 * d.q,
        r: down,
        x: rest,
    }
}

// The whole root of a * 2^52, and its remainder: a's 54 places stand in the upper of 64, and two go into each of 53
// digits, zeros after the last.
fn whole_root(a: u64) -> Digits
    requires { a < 2 ^ 54 }
    ensures { (result.q ≡ whole_root (a * 2 ^ 52)) × (result.q * result.q + result.r ≡ a * 2 ^ 52) }
{
    let mut d = Digits {
        q: 0,
        r: 0,
        x: a * 1024,
    };
    // Digits are counted: nothing is indexed.
    for _ in 0..53u64 {
        d = digit(d);
    }
    d
}

// The significand shifted up to 2^52 or more, 52 places at the most. Exponents count from 64 more than the field has, so
// that they stay above zero.
fn scale_up(s0: u64, e0: u64) -> Scaled
    requires { (s0 < 2 ^ 53) × (e0 ≡ 65) }
    ensures { (result ≡ scale 52 s0 e0) × (result.s < 2 ^ 53) × (result.e ≤ 65) }
{
    let mut s = s0;
    let mut e = e0;
    // Shifts are counted: nothing is indexed.
    for _ in 0..52u64 {
        if LEADING <= s {
            return Scaled { s, e };
        }
        s *= 2;
        e -= 1;
    }
    Scaled { s, e }
}

// The exponent and the significand of a number that is finite and above zero, split by shifts and masks.
fn split(b: u64) -> Scaled
    requires { b < 2047 * 2 ^ 52 }
    ensures { (result ≡ scaled b) × (result.s < 2 ^ 53) × (result.e < 2111) }
{
    let field = b >> 52;
    let low = b & FRACTION;
    if field == 0 {
        return scale_up(low, 65);
    }
    Scaled {
        s: LEADING + low,
        e: field + 64,
    }
}

fn even(c: Scaled) -> u64
    requires { c.s < 2 ^ 53 }
    ensures { (result ≡ evened c) × (result < 2 ^ 54) }
{
    if c.e % 2 == 1 { c.s } else { 2 * c.s }
}

// The whole number nearest to the root of a * 2^52, digit by digit.
fn by_digits(a: u64) -> u64
    requires { a < 2 ^ 54 }
    ensures { (result ≡ nearest_root (a * 2 ^ 52)) × (result ≤ 2 ^ 53) }
{
    let d = whole_root(a);
    if d.q < d.r { d.q + 1 } else { d.q }
}

// Near to the root of x, from y near to 1 / root(x): g goes to the root and h to 1 / (2 root(x)),
// then the exact rest of x over g * g, with g in two halves, corrects g once more. Nothing is claimed of the result.
fn near_root(x: f64, y: f64) -> f64 {
    let g0 = x * y;
    let h0 = 0.5 * y;
    let c0 = 1.5 - g0 * h0;
    let g1 = g0 * c0;
    let h1 = h0 * c0;
    let c1 = 1.5 - g1 * h1;
    let g2 = g1 * c1;
    let h2 = h1 * c1;
    let c2 = 1.5 - g2 * h2;
    let g = g2 * c2;
    let h = h2 * c2;
    let t = g * SPLITTER;
    let top = t - (t - g);
    let low = g - top;
    let rest = ((x - top * top) - 2.0 * top * low) - low * low;
    g + rest * h
}

// A guess at the significand of the root of x, from the bits b of x. Nothing is claimed of it but its size.
fn guess(b: u64) -> u64
    requires { b < 2047 * 2 ^ 52 }
    ensures { result < 2 ^ 53 }
{
    let x = f64::from_bits(b);
    let y = f64::from_bits(INVERSE - (b >> 1));
    let g = near_root(x, y);
    if g != g {
        return 0;
    }
    (f64::to_bits(g) & FRACTION) + LEADING
}

// Whether p is seen to be the whole number nearest to the root of a * 2^52. With a * 2^52 for n, n + p - p * p is then from 1 to 2 * p;
// it is worked out from the halves h and l of p, and y is what it has above l - l * l, in units of 2^26.
fn is_nearest(a: u64, p: u64) -> bool
    requires { (a < 2 ^ 54) × (p < 2 ^ 53) }
    ensures { result ≡ true → p ≡ nearest_root (a * 2 ^ 52) }
{
    let h = p >> 26;
    let l = p & LOW;
    let hh = h * h;
    if a < hh {
        return false;
    }
    let d = a - hh;
    if FAR <= d {
        return false;
    }
    let m = d * HALF + h;
    let hl = 2 * h * l;
    if m < hl {
        return false;
    }
    let y = m - hl;
    if FAR <= y {
        return false;
    }
    let z = y * HALF + l;
    let ll = l * l;
    if z <= ll {
        return false;
    }
    z <= ll + 2 * p
}

// The bits of c's significand as an f64 x from 1 to 4, with the exponent even.
fn unit_bits(c: Scaled) -> u64
    requires { c.s < 2 ^ 53 }
    ensures { result < 2047 * 2 ^ 52 }
{
    c.s + ONE_BITS - c.e % 2 * LEADING
}

// The significand of the root: a guess where it is seen to be right, else digit by digit.
fn nearest(c: Scaled) -> u64
    requires { c.s < 2 ^ 53 }
    ensures { (result ≡ nearest_root (evened c * 2 ^ 52)) × (result ≤ 2 ^ 53) }
{
    let a = even(c);
    let p = guess(unit_bits(c));
    if is_nearest(a, p) {
        return p;
    }
    by_digits(a)
}

// The bits of the f64 nearest to the exact square root of the one with the bits b, which is finite and above zero.
// Half the exponent and the bias 1023, less the 64 that exponents count from, make 959; the leading 1 of p adds one
// to the field.
pub fn root_bits(b: u64) -> u64
    requires { (0 < b) × (b < 2047 * 2 ^ 52) }
    ensures { (result ≡ root_bits b) × (result < 2047 * 2 ^ 52) }
{
    let c = split(b);
    let p = nearest(c);
    ((c.e + 959) / 2 - 1) * LEADING + p
}
