// Kinds that can be told: a value as bytes, the highest first.
ghost use Rattle.std.specs.Prelude.{◌≡◌, ℕ, ◌%◌, ◌^◌, ◌≤◌, length, Decides, nat_le, if◌then◌else◌, Ok, Err};
ghost use Rattle.std.proofs.Common.{rules, arith};
ghost use Rattle.values.specs.Kinds.{reading_means, time_means};
ghost use Rattle.values.specs.Bytes.{bytes, told_into};
ghost use Rattle.values.specs.Put.{bytes_tell};

use crate::Kind;
use crate::kinds::{Reading, TimeOfDay};

// The value's bytes do not fit.
#[derive(Clone, Copy, Debug, PartialEq, Eq)]
pub struct NoRoom;

// A kind that can be told has a width of 1 to 8 bytes and a number for each value. By its law, two values have the
// same bytes exactly when they mean the same.
pub trait Told: Kind {
    ghost width: { ℕ };

    ghost number: { Self → ℕ };

    fn width() -> usize
        ensures { result ≡ width };

    fn number(&self) -> u64
        ensures { result ≡ number self.now };

    // Writes the value's bytes into the front of out; nothing is altered where they do not fit.
    fn tell(&self, out: &mut [u8]) -> Result<(), NoRoom>
        ensures said { result ≡ (if nat_le width (length out.old) then Ok tt else Err record {}) }
        ensures bytes { out.new ≡ told_into width (number self.now) out.old }
    {
        let width = Self::width();
        if width > out.len() {
            return Err(NoRoom);
        }
        out[..width].copy_from_slice(&self.number().to_be_bytes()[8 - width..]);
        Ok(())
    }

    ghost wide: { (1 ≤ width) × (width ≤ 8) };

    ghost told: { (v w : Self) → Decides (Self.Kind.same v w) (bytes width (number v) ≡ bytes width (number w)) };
}

const READING_WIDTH: usize = 4;

// Readings are told in 4 bytes.
impl Told for Reading {
    ghost width = { 4 };

    ghost number = { reading_means };

    ghost wide = { Prim.search rules };

    ghost told = { λ v w. bytes_tell 4 (v.0 % 2 ^ 32) (w.0 % 2 ^ 32) (omega arith) (omega arith) };

    fn width() -> usize {
        READING_WIDTH
    }

    fn number(&self) -> u64 {
        u64::from(self.0)
    }
}

const TIME_WIDTH: usize = 4;

// Times are told in 4 bytes, as seconds of the day.
impl Told for TimeOfDay {
    ghost width = { 4 };

    ghost number = { time_means };

    ghost wide = { Prim.search rules };

    ghost told = { λ v w. bytes_tell 4 (v.0 % 86400) (w.0 % 86400) (omega arith) (omega arith) };

    fn width() -> usize {
        TIME_WIDTH
    }

    fn number(&self) -> u64 {
        u64::from(self.0 % 86_400)
    }
}
