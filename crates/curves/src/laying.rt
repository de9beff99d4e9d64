// A frame before any label is placed. A file of its own, since its fact is said with definitions that name the types of
// the crate's other files.
#![tactic(auto)]

ghost use Rattle.std.specs.Prelude.{◌≡◌};
ghost use Rattle.curves.specs.Lay.{frame_in, laid_of};

use crate::{Frame, Laid};

// What is routed, and what is known of each arrow of it.
#[derive(Clone, Copy)]
pub struct Laying<'a> {
    pub frame: Frame<'a>,
    pub laid: &'a [Laid],
    pub ghost all: { laid.now ≡ laid_of (frame_in frame) },
}
