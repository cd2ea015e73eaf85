// Pairs: a left and a right screen with a name for each slot, and the codes of pairs.
#![tactic(auto)]

ghost use Rattle.std.specs.Prelude.{◌<◌, ◌++◌, map};
ghost use Rattle.lists.specs.Held.{held};
ghost use Rattle.naming.specs.Names.{number};
ghost use Rattle.pairs.specs.Order.{InOrder};

use lists::BoundedVec;
use pages::Name;

pub mod coding;
pub mod forming;
pub mod screens;

// A pair of screens with the names of the slots of each. The names of the left and then the right are in order of first
// occurrence, so that equal patterns of values have equal pairs.
#[derive(Clone, Copy)]
pub struct Pair {
    left: u8,
    right: u8,
    lefts: BoundedVec<Name, 4>,
    rights: BoundedVec<Name, 4>,
    ghost left_small: { left < 32 },
    ghost right_small: { right < 32 },
    ghost in_order: { InOrder (map number (held lefts) ++ map number (held rights)) },
}
