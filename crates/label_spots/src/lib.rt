// Where the label of an arrow may go, and the drawing of the arrow with its label there.
#![tactic(auto)]

ghost use Rattle.std.specs.Prelude.{◌≡◌, ◌<◌, get_or};
ghost use Rattle.label_spots.specs.Spots as S;
ghost use Rattle.label_spots.specs.Labels as L;

use bend::{Routed, Shape};
use shape::{Curve, EPS, Rect, V};

// The free space between an arrow and its label.
const LABEL_GAP: f64 = 4.0;

// Up to here a side counts as nearly upright, or nearly level.
const NEARLY: f64 = 0.2;

// A point on the curve, and the side to put the label on.
#[derive(Clone, Copy)]
pub struct Spot {
    pub at: V,
    pub side: V,
}

// How a label block is aligned at its anchor: it starts there, is centred on it, or ends there.
#[derive(Clone, Copy)]
pub enum Anchor {
    Start,
    Middle,
    End,
}

// As a record has it.
impl From<Anchor> for f64 {
    ghost from_gives = { λ anchor number. number ≡ L.anchor_number anchor };

    fn from(anchor: Anchor) -> f64 {
        match anchor {
            Anchor::Start => 0.0,
            Anchor::Middle => 1.0,
            Anchor::End => 2.0,
        }
    }
}

#[derive(Clone, Copy)]
pub struct Placed {
    pub label: V,
    pub anchor: Anchor,
}

// What the turn of an arrow is given: its number, its curve, and the size of the label that is to be placed.
#[derive(Clone, Copy)]
pub struct Turn {
    pub edge: usize,
    pub arrow: Routed,
    pub width: f64,
    pub height: f64,
}

// The drawing of one arrow.
#[derive(Clone, Copy)]
pub struct Geometry {
    pub edge: usize,
    pub curve: Curve,
    pub tip: V,
    pub tip_angle: f64,
    pub label: V,
    pub anchor: Anchor,
    pub label_box: Rect,
}

impl Geometry {
    // What fills room before there is a record.
    pub const NONE: Geometry = Geometry {
        edge: 0,
        curve: Curve::Line(V::ORIGIN, V::ORIGIN),
        tip: V::ORIGIN,
        tip_angle: 0.0,
        label: V::ORIGIN,
        anchor: Anchor::Start,
        label_box: Rect::NONE,
    };
}

// Positions and sides in tables of their own, as document 01 lists them: along a straight arrow, and whether above it; best first.
const LINE_AT: [f64; 10] = [0.5, 0.5, 0.36, 0.64, 0.36, 0.64, 0.24, 0.76, 0.24, 0.76];

const LINE_UP: [bool; 10] = [
    true, false, true, true, false, false, true, true, false, false,
];

// Along an arc, and whether outside the bend; best first.
const ARC_AT: [f64; 6] = [0.5, 0.38, 0.62, 0.28, 0.72, 0.5];

const ARC_OUT: [bool; 6] = [true, true, true, true, true, false];

// 90 degrees to the left of the curve's direction.
fn normal(curve: Curve, t: f64) -> V
    ensures { result ≡ S.normal curve t }
{
    curve.tangent(t).unit_or(V::new(1.0, 0.0)).left()
}

// Whether a side is above a horizontal arrow, or right of a vertical one.
#[tactic(auto, unfolding(crate::specs::Spots::is_up))]
fn is_up(v: V) -> bool
    ensures { result ≡ S.is_up v }
{
    v.y < -EPS || (float::abs(v.y) <= EPS && v.x > 0.0)
}

// The side of a straight arrow that is tried first.
pub fn upper(curve: Curve) -> V
    ensures { result ≡ S.upper curve }
{
    let left = normal(curve, 0.5);
    if is_up(left) {
        return left;
    }
    -left
}

fn line_spot(curve: Curve, up: V, j: usize) -> Spot
    requires { j < 10 }
    ensures { result ≡ S.line_spot curve up (get_or S.line_listed j S.unlisted) }
{
    let at = curve.at(LINE_AT[j]);
    if LINE_UP[j] {
        return Spot { at, side: up };
    }
    Spot { at, side: -up }
}

fn arc_spot(curve: Curve, outer: f64, j: usize) -> Spot
    requires { j < 6 }
    ensures { result ≡ S.arc_spot curve outer (get_or S.arc_listed j S.unlisted) }
{
    let t = ARC_AT[j];
    let at = curve.at(t);
    let left = normal(curve, t);
    if ARC_OUT[j] {
        return Spot {
            at,
            side: left * outer,
        };
    }
    Spot {
        at,
        side: left * -outer,
    }
}

// How many spots an arrow has.
pub fn spot_count(shape: Shape) -> usize
    ensures { result ≡ S.spot_count shape }
{
    match shape {
        Shape::Line => 10,
        Shape::Arc(_) => 6,
        Shape::Loop(_) => 1,
    }
}

// Spot j of an arrow, with the upper side of its curve.
pub fn spot_at(curve: Curve, shape: Shape, up: V, j: usize) -> Spot
    requires { (up ≡ S.upper curve) × (j < S.spot_count shape) }
    ensures { result ≡ S.spot_at curve shape j }
{
    match shape {
        Shape::Line => line_spot(curve, up, j),
        Shape::Arc(outer) => arc_spot(curve, outer, j),
        Shape::Loop(out) => Spot {
            at: curve.at(0.5),
            side: out,
        },
    }
}

fn side_of(dir: V) -> Anchor
    ensures { result ≡ L.side_of dir }
{
    if dir.x > 0.0 {
        Anchor::Start
    } else {
        Anchor::End
    }
}

// The anchor and alignment of a block that lies beyond `apex` in direction `dir`, at least LABEL_GAP away from the line through `apex`
// normal to `dir`.
fn place_label(apex: V, dir: V, width: f64, height: f64) -> Placed
    ensures { result ≡ L.place_label apex dir width height }
{
    let across = float::abs(dir.x);
    let along = float::abs(dir.y);
    if across <= NEARLY {
        let reach = LABEL_GAP + width / 2.0 * across + height / 2.0 * along;
        let centre = apex + dir * reach;
        return Placed {
            label: V::new(centre.x, centre.y - height / 2.0),
            anchor: Anchor::Middle,
        };
    }
    let anchor = side_of(dir);
    if along <= NEARLY {
        let x = apex.x + (LABEL_GAP * dir.x * dir.x + along * height / 2.0) / dir.x;
        let middle = apex.y + dir.y * LABEL_GAP;
        return Placed {
            label: V::new(x, middle - height / 2.0),
            anchor,
        };
    }
    let corner = apex + dir * LABEL_GAP;
    if dir.y < 0.0 {
        return Placed {
            label: V::new(corner.x, corner.y - height),
            anchor,
        };
    }
    Placed {
        label: V::new(corner.x, corner.y),
        anchor,
    }
}

// The left edge of a block of width `w` anchored at `x`.
fn left_of(anchor: Anchor, x: f64, w: f64) -> f64
    ensures { result ≡ L.left_of anchor x w }
{
    match anchor {
        Anchor::Start => x,
        Anchor::Middle => x - w / 2.0,
        Anchor::End => x - w,
    }
}

// The drawing of an arrow with its label beside a spot.
pub fn labelled(t: Turn, spot: Spot) -> Geometry
    ensures { result ≡ L.labelled t spot }
{
    let Placed { label, anchor } = place_label(spot.at, spot.side, t.width, t.height);
    let x0 = left_of(anchor, label.x, t.width);
    Geometry {
        edge: t.edge,
        curve: t.arrow.curve,
        tip: t.arrow.curve.end(),
        tip_angle: t.arrow.tip_angle,
        label,
        anchor,
        label_box: Rect {
            x0,
            y0: label.y,
            x1: x0 + t.width,
            y1: label.y + t.height,
        },
    }
}
