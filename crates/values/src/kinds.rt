// The kinds that are made: a reading, a fix and a time of day. Codes and bytes are searched as kinds too.
ghost use Rattle.std.specs.Prelude.{◌≡◌, ℕ, ◌%◌, ℤ, Decides, nat_eq};
ghost use Rattle.std.proofs.Common.{ap, rules};
ghost use Rattle.values.specs.Kinds.{reading_means, fix_means, time_means, same_reading, same_fix, same_time};
ghost use Rattle.std.proofs.lemmas.Bool.Decides.{Decides-and, Decides-like};
ghost use Rattle.values.specs.Signed.{decides_signed};

use crate::Kind;

// A reading of 32 bits, such as a heart rate.
#[derive(Clone, Copy, Debug, PartialEq, Eq)]
pub struct Reading(pub u32);

impl Kind for Reading {
    ghost sense = { ℕ };

    ghost means = { reading_means };

    ghost same = { same_reading };

    ghost exact = { Prim.search rules };

    // The numbers themselves: reading them shows that they have 32 bits, so that each is its own remainder.
    fn equals(&self, other: &Reading) -> bool {
        self.0 == other.0
    }
}

impl Reading {
    // Two readings mean the same when they are the same number. Each kind has a same_as, which says so in its own words.
    pub fn same_as(self, other: Reading) -> bool
        ensures { Decides result (self.0 ≡ other.0) }
    {
        self.equals(&other)
    }
}

// A position: latitude and longitude in ten-millionths of a degree, height in decimetres.
#[derive(Clone, Copy, Debug, PartialEq, Eq)]
pub struct Fix {
    pub latitude: i32,
    pub longitude: i32,
    pub height: i32,
}

impl Kind for Fix {
    ghost sense = { ℤ × ℤ × ℤ };

    ghost means = { fix_means };

    ghost same = { same_fix };

    ghost exact = { λ v w. Decides-like _
        (λ p i. (p.0.0 i, p.0.1 i, p.1 i))
        (λ e. ((ap (λ t. t.0) e, ap (λ t. t.1) e), ap (λ t. t.2) e))
        (Decides-and _ _ (Decides-and _ _ (decides_signed v.latitude w.latitude) (decides_signed v.longitude w.longitude)) (decides_signed v.height w.height)) };

    fn equals(&self, other: &Fix) -> bool {
        self == other
    }
}

impl Fix {
    // Two fixes mean the same when all three numbers are the same.
    pub fn same_as(self, other: Fix) -> bool
        ensures { Decides result ((self.latitude ≡ other.latitude) × (self.longitude ≡ other.longitude) × (self.height ≡ other.height)) }
    {
        self.equals(&other)
    }
}

// A time of day in seconds. Times that differ by whole days of 86,400 seconds mean the same.
#[derive(Clone, Copy)]
pub struct TimeOfDay(pub u32);

impl Kind for TimeOfDay {
    ghost sense = { ℕ };

    ghost means = { time_means };

    ghost same = { same_time };

    ghost exact = { Prim.search rules };

    fn equals(&self, other: &TimeOfDay) -> bool {
        self.0 % 86_400 == other.0 % 86_400
    }
}

impl TimeOfDay {
    // Two times mean the same when they leave the same remainder by 86,400.
    pub fn same_as(self, other: TimeOfDay) -> bool
        ensures { Decides result (self.0 % 86400 ≡ other.0 % 86400) }
    {
        self.equals(&other)
    }
}

// The code of a place in a match. Codes and bytes are two impls, since one for all numbers would overlap the kinds above.
impl Kind for u64 {
    ghost sense = { ℕ };

    ghost means = { λ c. c };

    ghost same = { nat_eq };

    ghost exact = { Prim.search rules };

    fn equals(&self, other: &u64) -> bool {
        *self == *other
    }
}

// A byte of a text.
impl Kind for u8 {
    ghost sense = { ℕ };

    ghost means = { λ b. b };

    ghost same = { nat_eq };

    ghost exact = { Prim.search rules };

    fn equals(&self, other: &u8) -> bool {
        *self == *other
    }
}
