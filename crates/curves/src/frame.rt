// What is routed. A file of its own, since the definitions that the other contracts cite name the frame.
#![tactic(auto)]

ghost use Rattle.std.specs.Prelude.{◌≡◌, ◌≤◌, length};

use shape::V;
use sheet::Ends;

// The states' flag bytes and centres, one each, and the arrows' ends: at most 64 states and 256 arrows.
#[derive(Clone, Copy)]
pub struct Frame<'a> {
    pub flags: &'a [u8],
    pub centres: &'a [V],
    pub arrows: &'a [Ends],
    pub ghost level: { length flags.now ≡ length centres.now },
    pub ghost few: { length centres.now ≤ 64 },
    pub ghost many: { length arrows.now ≤ 256 },
}
