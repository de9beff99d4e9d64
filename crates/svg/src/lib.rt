// Path text of curves and arrowheads, and whether their coordinates may be written.
#![tactic(auto)]

ghost use Rattle.std.specs.Prelude.{◌≡◌, ◌&&◌, [], ◌∷◌, ◌++◌};
ghost use Rattle.text.specs.Ascii.{ascii};
ghost use Rattle.text.specs.Writing.{Adds};
ghost use Rattle.svg.specs.Paths as S;

use shape::{Curve, V};
use text::Writer;

// The length of an arrowhead from its base to its tip, and half the width of its base.
const ARROW_LENGTH: f64 = 9.0;

const ARROW_HALF_WIDTH: f64 = 3.5;

// The corners of an arrowhead.
#[derive(Clone, Copy)]
pub struct Head {
    pub tip: V,
    pub left: V,
    pub right: V,
}

// The arrowhead with its tip at `tip`, pointing in direction `angle`.
fn arrowhead(tip: V, angle: f64) -> Head
    ensures { result ≡ S.head_of tip angle }
{
    let ahead = V::polar(angle);
    let base = tip - ahead * ARROW_LENGTH;
    let side = V::new(-ahead.y, ahead.x) * ARROW_HALF_WIDTH;
    let left = base + side;
    let right = base - side;
    Head { tip, left, right }
}

// Whether both coordinates of a point may be written.
pub fn point_writable(p: V) -> bool
    ensures { result ≡ S.point_writable p }
{
    number::writable(p.x) && number::writable(p.y)
}

fn both_writable(a: V, b: V) -> bool
    ensures { result ≡ (S.point_writable a && S.point_writable b) }
{
    point_writable(a) && point_writable(b)
}

// Whether every coordinate of a curve may be written.
#[tactic(auto, using(crate::proofs::Laws::line_writable, crate::proofs::Laws::quad_writable, crate::proofs::Laws::cubic_writable))]
pub fn curve_writable(k: Curve) -> bool
    ensures { result ≡ S.path_writable (S.curve_path k) }
{
    match k {
        Curve::Line(a, b) => both_writable(a, b),
        Curve::Quad(a, c, b) => both_writable(a, c) && point_writable(b),
        Curve::Cubic(a, c, d, b) => both_writable(a, c) && both_writable(d, b),
    }
}

// Whether every coordinate of an arrowhead may be written.
#[tactic(auto, using(crate::proofs::Laws::head_writable))]
pub fn head_writable(tip: V, angle: f64) -> bool
    ensures { result ≡ S.path_writable (S.head_path (S.head_of tip angle)) }
{
    let h = arrowhead(tip, angle);
    both_writable(h.tip, h.left) && point_writable(h.right)
}

// A blank and x, a blank and y.
pub fn put_point(w: &mut Writer, p: V)
    ensures { Adds w.old w.new (S.point_text p) }
{
    w.byte(b' ');
    number::put_num(w, p.x);
    w.byte(b' ');
    number::put_num(w, p.y);
}

// A blank and a command's letter.
fn put_letter(w: &mut Writer, letter: u8)
    ensures { Adds w.old w.new (ascii " " ++ (letter ∷ [])) }
{
    w.byte(b' ');
    w.byte(letter);
}

// `M` and a point, then another command and its first point.
fn put_from(w: &mut Writer, a: V, letter: u8, b: V)
    ensures { let text = ascii "M" ++ S.point_text a ++ (ascii " " ++ (letter ∷ S.point_text b)) in
        Adds w.old w.new text }
{
    w.byte(b'M');
    put_point(w, a);
    put_letter(w, letter);
    put_point(w, b);
}

// The path text of a curve.
pub fn put_path(w: &mut Writer, k: Curve)
    ensures { Adds w.old w.new (S.curve_text k) }
{
    match k {
        Curve::Line(a, b) => put_from(w, a, b'L', b),
        Curve::Quad(a, c, b) => {
            put_from(w, a, b'Q', c);
            put_point(w, b);
        }
        Curve::Cubic(a, c, d, b) => {
            put_from(w, a, b'C', c);
            put_point(w, d);
            put_point(w, b);
        }
    }
}

// The path text of an arrowhead.
pub fn put_arrowhead(w: &mut Writer, tip: V, angle: f64)
    ensures { Adds w.old w.new (S.head_text tip angle) }
{
    let h = arrowhead(tip, angle);
    put_from(w, h.tip, b'L', h.left);
    put_letter(w, b'L');
    put_point(w, h.right);
    put_letter(w, b'Z');
}
