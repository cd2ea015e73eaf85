// Is each field of a frame in range?
ghost use Rattle.std.specs.Prelude.{◌≡◌, slice_index};
ghost use Rattle.frames.specs.Ranges.{field_ok, in_range};

// Whether a byte may stand at this place of a frame of this kind, where a line frame has this line kind. Both kinds are
// bytes of the frame, not enums: the line kind is asked here too, at place 2.
fn field_in_range(frame: u8, kind: u8, place: usize, byte: u8) -> bool
    ensures { result ≡ field_ok frame kind place byte }
{
    match (frame, place, byte) {
        (1, 1, 0x01..=0x20) => true,
        (1, 2, 0x00..=0x80) => true,
        (1, 3, _) => true,
        (1, 4..=7, 0x00..=0x07) => true,
        (2, 1, 0x00..=0x04) => true,
        (3, 1 | 5, _) => true,
        (3, 2, 0x00..=0x01) => true,
        (3, 3, 0x00..=0x1F) => true,
        (3, 4, 0x10) if kind == 0 => true,
        (3, 4, 0x00..=0x03) if kind == 1 => true,
        (3, 6..=9, 0x00..=0x03 | 0x10) => true,
        _ => false,
    }
}

// The byte at a place, 0 where the frame ends before it.
fn byte_at(bytes: &[u8], place: usize) -> u8
    ensures { result ≡ slice_index bytes.now place }
{
    bytes.get(place).copied().unwrap_or(0)
}

pub(crate) fn fields_in_range(bytes: &[u8]) -> bool
    ensures { result ≡ in_range bytes.now }
{
    let frame = byte_at(bytes, 0);
    let kind = byte_at(bytes, 2);
    bytes
        .iter()
        .enumerate()
        .skip(1)
        .all(|(place, b)| field_in_range(frame, kind, place, *b))
}
