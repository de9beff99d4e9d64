// Which drawings 9 refuses: "a two-way pair whose first free bow exceeds 10^9".
#![tactic(auto)]

ghost use Rattle.std.specs.Prelude.{◌≡◌, ◌≤◌, ◌<◌, length};
ghost use Rattle.std.specs.List.{list_any};
ghost use Rattle.curves.specs.Lay.{frame_in};
ghost use Rattle.curves.specs.Counted.{frame_from};
ghost use Rattle.beyond.specs.Beyond as S;

use curves::Frame;
use free::{Chord, Span};
use shape::V;
use sheet::Ends;
use stack::Stack;

// Whether the first free bow of a two-way pair along c exceeds 10^9.
fn pair_beyond(nodes: &[V], c: Chord) -> bool
    requires { length nodes.now ≤ 64 }
    ensures { result ≡ S.pair_beyond c nodes.now }
{
    let mut spans: Stack<Span, 64> = Stack::new(Span::NONE);
    c.blocked(nodes, &mut spans);
    let up = bend::pair_up(c, spans.as_slice());
    up > 1e9
}

// The same of an arrow, where it joins different states and a reverse arrow exists.
fn arrow_beyond(frame: &Frame, e: Ends) -> bool
    ensures { result ≡ S.ends_refused (frame_in frame.now) e }
{
    directions::is_between(frame.flags.len(), e.source, e.target)
        && bend::leads(frame.arrows, e.target, e.source)
        && pair_beyond(frame.centres, Chord::of(frame.centres, e.source, e.target))
}

// Some arrow's.
fn some_beyond(frame: &Frame, arrows: &[Ends]) -> bool
    ensures { result ≡ list_any (S.ends_refused (frame_in frame.now)) arrows.now }
{
    arrows.iter().any(|e| arrow_beyond(frame, *e))
}

// Whether the drawing of a graph at these centres is refused by 9; those that are missing or not finite count as 0.
#[tactic(auto, using(crate::specs::Laws::beyond_counted))]
pub fn beyond(flags: &[u8], centres: &[V], arrows: &[Ends]) -> bool
    requires few { length flags.now ≤ 64 }
    requires many { length arrows.now ≤ 256 }
    ensures { result ≡ S.beyond (frame_from flags.now centres.now arrows.now) }
{
    let mut room = [V::ORIGIN; 64];
    let frame = Frame {
        flags,
        centres: curves::counted(centres, flags.len(), &mut room),
        arrows,
    };
    some_beyond(&frame, frame.arrows)
}
