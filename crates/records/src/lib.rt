// A record of the drawing: the twenty numbers of an arrow, as a caller is given it.
#![tactic(auto)]

ghost use Rattle.std.specs.Prelude.{◌≡◌};
ghost use Rattle.records.specs.Records as S;

use label_spots::Geometry;
use shape::{Curve, V};

// The numbers of a record.
pub const RECORD_NUMBERS: usize = 20;

// The points of a curve: how many, and four of them, unused ones at 0, 0.
#[derive(Clone, Copy)]
pub struct Corners {
    pub n: f64,
    pub a: V,
    pub b: V,
    pub c: V,
    pub d: V,
}

impl From<Curve> for Corners {
    ghost from_gives = { λ curve corners. corners ≡ S.corners_of curve };

    fn from(curve: Curve) -> Corners {
        let none = V::ORIGIN;
        match curve {
            Curve::Line(a, b) => Corners {
                n: 2.0,
                a,
                b,
                c: none,
                d: none,
            },
            Curve::Quad(a, b, c) => Corners {
                n: 3.0,
                a,
                b,
                c,
                d: none,
            },
            Curve::Cubic(a, b, c, d) => Corners { n: 4.0, a, b, c, d },
        }
    }
}

// The twenty numbers of a record.
pub fn fields(g: &Geometry) -> [f64; RECORD_NUMBERS]
    ensures { result ≡ S.fields g.now }
{
    let p = Corners::from(g.curve);
    [
        std::num::nearest_u64_to_f64(g.edge as u64),
        p.n,
        p.a.x,
        p.a.y,
        p.b.x,
        p.b.y,
        p.c.x,
        p.c.y,
        p.d.x,
        p.d.y,
        g.tip.x,
        g.tip.y,
        g.tip_angle,
        g.label.x,
        g.label.y,
        f64::from(g.anchor),
        g.label_box.x0,
        g.label_box.y0,
        g.label_box.x1,
        g.label_box.y1,
    ]
}
