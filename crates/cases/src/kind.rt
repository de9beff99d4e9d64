// What a case tries, by the first byte that it has in the oracle's stream.
ghost use Rattle.cases.specs.Kinds as S;

use std::fmt;

// A stand-in for a float function of the library.
#[derive(Clone, Copy, Debug, PartialEq, Eq)]
pub enum StandIn {
    Root,
    Hypot,
    Midpoint,
    RemEuclid,
    Sin,
    Cos,
    Atan2,
    Min,
    Max,
    Round,
    Abs,
    Clamp,
    Signum,
    Copysign,
    TotalCmp,
    RemTau,
}

// One of the eight calls.
#[derive(Clone, Copy, Debug, PartialEq, Eq)]
pub enum Call {
    Route,
    Layout,
    Clutter,
    List,
    Check,
    LabelSize,
    WriteNum,
    WriteSheet,
}

#[derive(Clone, Copy, Debug, PartialEq, Eq)]
pub enum Kind {
    StandIn(StandIn),
    // A call under the main screen's limits.
    Call(Call),
    // A call under limits that the case has in front, and with them the call's own byte.
    UnderLimits,
}

// The byte is no kind's.
#[derive(Clone, Copy, Debug, PartialEq, Eq)]
pub struct UnknownKind;

impl TryFrom<u8> for StandIn {
    type Error = UnknownKind;

    ghost try_from_gives = { S.Decodes S.stand_in_number };

    fn try_from(number: u8) -> Result<StandIn, UnknownKind> {
        Ok(match number {
            1 => StandIn::Root,
            2 => StandIn::Hypot,
            3 => StandIn::Midpoint,
            4 => StandIn::RemEuclid,
            5 => StandIn::Sin,
            6 => StandIn::Cos,
            7 => StandIn::Atan2,
            8 => StandIn::Min,
            9 => StandIn::Max,
            10 => StandIn::Round,
            11 => StandIn::Abs,
            12 => StandIn::Clamp,
            13 => StandIn::Signum,
            14 => StandIn::Copysign,
            15 => StandIn::TotalCmp,
            16 => StandIn::RemTau,
            _ => return Err(UnknownKind),
        })
    }
}

impl TryFrom<u8> for Call {
    type Error = UnknownKind;

    ghost try_from_gives = { S.Decodes S.call_number };

    fn try_from(number: u8) -> Result<Call, UnknownKind> {
        Ok(match number {
            60 => Call::Route,
            61 => Call::Layout,
            62 => Call::Clutter,
            63 => Call::List,
            64 => Call::Check,
            65 => Call::LabelSize,
            66 => Call::WriteNum,
            67 => Call::WriteSheet,
            _ => return Err(UnknownKind),
        })
    }
}

impl TryFrom<u8> for Kind {
    type Error = UnknownKind;

    ghost try_from_gives = { S.Decodes S.kind_number };

    fn try_from(number: u8) -> Result<Kind, UnknownKind> {
        if let Ok(stand_in) = StandIn::try_from(number) {
            return Ok(Kind::StandIn(stand_in));
        }
        if let Ok(call) = Call::try_from(number) {
            return Ok(Kind::Call(call));
        }
        if number == 68 {
            Ok(Kind::UnderLimits)
        } else {
            Err(UnknownKind)
        }
    }
}

// ---- the names of document 01 and of the Rust

impl fmt::Display for StandIn {
    fn fmt<W: fmt::Write>(&self, f: &mut fmt::Formatter<W>) -> fmt::Result {
        f.pad(match self {
            StandIn::Root => "root",
            StandIn::Hypot => "hypot",
            StandIn::Midpoint => "midpoint",
            StandIn::RemEuclid => "rem_euclid",
            StandIn::Sin => "sin",
            StandIn::Cos => "cos",
            StandIn::Atan2 => "atan2",
            StandIn::Min => "min",
            StandIn::Max => "max",
            StandIn::Round => "round",
            StandIn::Abs => "abs",
            StandIn::Clamp => "clamp",
            StandIn::Signum => "signum",
            StandIn::Copysign => "copysign",
            StandIn::TotalCmp => "total_cmp",
            StandIn::RemTau => "rem_tau",
        })
    }
}

impl fmt::Display for Call {
    fn fmt<W: fmt::Write>(&self, f: &mut fmt::Formatter<W>) -> fmt::Result {
        f.pad(match self {
            Call::Route => "route",
            Call::Layout => "layout",
            Call::Clutter => "clutter",
            Call::List => "list",
            Call::Check => "check",
            Call::LabelSize => "label_size",
            Call::WriteNum => "write_num",
            Call::WriteSheet => "write_sheet",
        })
    }
}

impl fmt::Display for Kind {
    fn fmt<W: fmt::Write>(&self, f: &mut fmt::Formatter<W>) -> fmt::Result {
        match self {
            Kind::StandIn(stand_in) => stand_in.fmt(f),
            Kind::Call(call) => call.fmt(f),
            Kind::UnderLimits => f.pad("under_limits"),
        }
    }
}
