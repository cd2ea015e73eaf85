// Writing: a page's dump in memory that the caller lends.
ghost use Rattle.std.specs.Prelude.{◌≡◌, ◌++◌, length, take, Ok};
ghost use Rattle.lists.specs.Held.{held};
ghost use Rattle.texts.specs.Outputs.{fitted, laid};
ghost use Rattle.pages.specs.Stored.{page_model};
ghost use Rattle.frames.specs.Model.{frame_model};
ghost use Rattle.dump.specs.Reading.{read_answer};
ghost use Rattle.dump.specs.Written.{frame_text, written};

use frames::bytes::frame_bytes;
use frames::{Frame, Header};
use lists::BoundedVec;
use pages::Name;
use pages::page::Page;
use std::iter::once;
use texts::hex::put_line;
use texts::output::{OutputFault, lay};

// Room for any page's dump.
type Text = BoundedVec<u8, 4096>;

fn put_frame(text: &mut Text, frame: &Frame)
    ensures { held text.new ≡ take 4096 (held text.old ++ frame_text (frame_model frame.now)) }
{
    put_line(text, frame_bytes(frame).as_slice());
}

fn page_text(page: &Page) -> Text
    ensures { held result ≡ written (page_model page.now) }
{
    let mut numbers = BoundedVec::new(Name(0));
    numbers.extend(page.numbers());
    let header = Header {
        screens: page.screens().len() as u8,
        lines: page.lines().len() as u8,
        start: page.start(),
        numbers,
    };
    let screens = page.screens().iter().map(|s| Frame::Screen(*s));
    let lines = page.lines().iter().map(|l| Frame::Line(*l));
    let mut text = BoundedVec::new(0);
    for frame in once(Frame::Header(header)).chain(screens).chain(lines) {
        put_frame(&mut text, &frame);
    }
    text
}

// Writes a page's dump into the front of out and answers its length. Bytes beyond it stay; where it does not fit, all stay.
pub fn write(page: &Page, out: &mut [u8]) -> Result<usize, OutputFault>
    ensures said { result ≡ fitted (length (written (page_model page.now))) (length out.old) }
    ensures left { out.new ≡ laid (written (page_model page.now)) out.old }
    ensures reads_back { read_answer (written (page_model page.now)) ≡ Ok (page_model page.now) }
{
    lay(&page_text(page), out)
}
