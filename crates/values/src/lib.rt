// Kinds of value: what a value means, when two mean the same, and the search for an equal one.
#![tactic(auto)]

ghost use Rattle.std.specs.Prelude.{◌≡◌, Bool, Decides};

pub mod kinds;
pub mod search;
pub mod telling;

// A kind says what each value means. By its law, its equality says yes exactly when two values mean the same.
pub trait Kind: Copy {
    ghost sense: { Type 0 };

    ghost means: { Self → sense };

    ghost same: { Self → Self → Bool };

    fn equals(&self, other: &Self) -> bool
        ensures { result ≡ same self.now other.now };

    ghost exact: { (v w : Self) → Decides (same v w) (means v ≡ means w) };
}
