// The bytes of a frame.
ghost use Rattle.std.specs.Prelude.{◌≡◌};
ghost use Rattle.lists.specs.Held.{held};
ghost use Rattle.frames.specs.Model.{frame_model};
ghost use Rattle.frames.specs.Bytes.{frame_bytes};

use crate::Frame;
use crate::fields::{kind_bytes, put_fields};
use lists::BoundedVec;

// The bytes by which a dump says a frame.
pub fn frame_bytes(frame: &Frame) -> BoundedVec<u8, 16>
    ensures { held result ≡ frame_bytes (frame_model frame.now) }
{
    let mut bytes = BoundedVec::new(0);
    match frame {
        Frame::Header(header) => {
            bytes.extend(&[1, header.screens, header.lines, header.start]);
            put_fields(&mut bytes, header.numbers.as_slice());
        }
        Frame::Screen(screen) => bytes.extend(&[2, screen.slots]),
        Frame::Line(line) => {
            let (kind, third) = kind_bytes(line.kind);
            bytes.extend(&[3, line.from, kind, line.port.0, third, line.next]);
            put_fields(&mut bytes, line.sources.as_slice());
        }
    }
    bytes
}
