// Cases of the stand-ins for the library's float functions: arguments and answer, eight bytes each.
#![tactic(auto)]

ghost use Rattle.std.specs.Prelude.{◌≡◌};
ghost use Rattle.standin_cases.specs.Cases as S;

use cases::{StandIn, answered, byte, float as at};
use std::cmp::Ordering;

fn number(o: Ordering) -> u8
    ensures { result ≡ S.number o }
{
    match o {
        Ordering::Less => 0,
        Ordering::Equal => 1,
        Ordering::Greater => 2,
    }
}

// The answer is one byte: 0 before, 1 equal, 2 after.
#[tactic(auto, unfolding(crate::specs::Cases::ordered))]
fn ordered(p: &[u8], o: Ordering) -> bool
    ensures { result ≡ S.ordered p.now o }
{
    p.len() == 17 && byte(p, 16) == number(o)
}

// Whether the answer that a case has behind the arguments is the stand-in's.
#[tactic(auto, unfolding(crate::specs::Cases::right))]
fn right(stand_in: StandIn, p: &[u8]) -> bool
    ensures { result ≡ S.right stand_in p.now }
{
    match stand_in {
        StandIn::Root => answered(p, 8, float::root(at(p, 0))),
        StandIn::Hypot => answered(p, 16, float::hypot(at(p, 0), at(p, 8))),
        StandIn::Midpoint => answered(p, 16, float::midpoint(at(p, 0), at(p, 8))),
        StandIn::RemEuclid => answered(p, 8, float::rem_euclid(at(p, 0))),
        StandIn::Sin => answered(p, 8, float::sin(at(p, 0))),
        StandIn::Cos => answered(p, 8, float::cos(at(p, 0))),
        StandIn::Atan2 => answered(p, 16, float::atan2(at(p, 0), at(p, 8))),
        StandIn::Min => answered(p, 16, float::min(at(p, 0), at(p, 8))),
        StandIn::Max => answered(p, 16, float::max(at(p, 0), at(p, 8))),
        StandIn::Round => answered(p, 8, float::round(at(p, 0))),
        StandIn::Abs => answered(p, 8, float::abs(at(p, 0))),
        StandIn::Clamp => answered(p, 24, float::clamp(at(p, 0), at(p, 8), at(p, 16))),
        StandIn::Signum => answered(p, 8, float::signum(at(p, 0))),
        StandIn::Copysign => answered(p, 16, float::copysign(at(p, 0), at(p, 8))),
        StandIn::TotalCmp => ordered(p, float::total_cmp(at(p, 0), at(p, 8))),
        StandIn::RemTau => answered(p, 8, remainder::rem_tau(at(p, 0))),
    }
}

// A case by the number of its stand-in; one of any other number is never right.
#[tactic(auto, using(crate::specs::Laws::agrees_stand_in, crate::specs::Laws::no_kind))]
pub fn agrees(number: u8, p: &[u8]) -> bool
    ensures { result ≡ S.standin_agrees number p.now }
{
    match StandIn::try_from(number) {
        Ok(stand_in) => right(stand_in, p),
        Err(_) => false,
    }
}
