// The screens of a pair.
ghost use Rattle.std.specs.Prelude.{◌≡◌};
ghost use Rattle.pairs.specs.Stored.{pair_model};

use crate::Pair;

impl Pair {
    pub fn left(&self) -> u8
        ensures { result ≡ (pair_model self.now).left }
    {
        self.left
    }

    pub fn right(&self) -> u8
        ensures { result ≡ (pair_model self.now).right }
    {
        self.right
    }
}
