// Fields and their bytes: one byte each, but a line's kind, which two bytes say.
ghost use Rattle.std.specs.Prelude.{◌≡◌, ℕ, ◌++◌, map, take};
ghost use Rattle.lists.specs.Held.{held};
ghost use Rattle.frames.specs.Fields.{source_of, source_byte, name_of, name_byte, kind_of, kind_byte, third_byte};

use lists::BoundedVec;
use pages::{LineKind, Name, Slot, Source};

// What a byte in range says, and the byte again. A trait of this crate and not From: a crate may not write From<u8>
// for the types of another, and the crate of pages knows nothing of bytes.
pub trait Field: Copy {
    ghost of: { ℕ → Self };

    ghost byte: { Self → ℕ };

    fn of_byte(b: u8) -> Self
        ensures { result ≡ of b };

    fn to_byte(self) -> u8
        ensures { result ≡ byte self };
}

impl Field for Source {
    ghost of = { source_of };

    ghost byte = { source_byte };

    fn of_byte(b: u8) -> Source {
        match b {
            0x10 => Source::Taken,
            _ => Source::Kept(Slot(b)),
        }
    }

    fn to_byte(self) -> u8 {
        match self {
            Source::Kept(slot) => slot.0,
            Source::Taken => 0x10,
        }
    }
}

impl Field for Name {
    ghost of = { name_of };

    ghost byte = { name_byte };

    fn of_byte(b: u8) -> Name {
        Name(b)
    }

    fn to_byte(self) -> u8 {
        self.0
    }
}

// The kind of a line by its kind byte and its third byte: bytes, as no range has been asked yet.
pub(crate) fn line_kind(kind: u8, third: u8) -> LineKind
    ensures { result ≡ kind_of kind third }
{
    match kind {
        0 => LineKind::Take,
        _ => LineKind::Show(Slot(third)),
    }
}

// The kind byte and the third byte of a line.
pub(crate) fn kind_bytes(kind: LineKind) -> (u8, u8)
    ensures { result ≡ (kind_byte kind, third_byte kind) }
{
    match kind {
        LineKind::Take => (0, 0x10),
        LineKind::Show(slot) => (1, slot.0),
    }
}

// The fields of the first four bytes.
pub(crate) fn fields<F: Field>(bytes: &[u8]) -> BoundedVec<F, 4>
    ensures { held result ≡ take 4 (map F.Field.of bytes.now) }
{
    let mut out = BoundedVec::new(F::of_byte(0));
    for b in bytes {
        let _ = out.push(F::of_byte(*b));
    }
    out
}

// Adds the byte of each field, as many as there is room for.
pub(crate) fn put_fields<F: Field>(bytes: &mut BoundedVec<u8, 16>, fields: &[F])
    ensures { held bytes.new ≡ take 16 (held bytes.old ++ map F.Field.byte fields.now) }
{
    for f in fields {
        let _ = bytes.push(f.to_byte());
    }
}
