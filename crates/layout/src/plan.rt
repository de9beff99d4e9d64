// What is laid out. A file of its own, since the definitions that the other contracts cite name the plan.
#![tactic(auto)]

ghost use Rattle.std.specs.Prelude.{◌≡◌, ◌≤◌, length};

use label::Block;
use sheet::Ends;

// The states' flag bytes, the arrows' ends, and the size of each arrow's label: at most 64 states and 256 arrows.
#[derive(Clone, Copy)]
pub struct Plan<'a> {
    pub flags: &'a [u8],
    pub arrows: &'a [Ends],
    pub sizes: &'a [Block],
    pub ghost few: { length flags.now ≤ 64 },
    pub ghost many: { length arrows.now ≤ 256 },
    pub ghost sized: { length sizes.now ≡ length arrows.now },
}
