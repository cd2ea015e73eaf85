// Reading: the page that a dump says, or the first question that it fails.
ghost use Rattle.std.specs.Prelude.{◌≡◌};
ghost use Rattle.texts.specs.Answers.{mapped};
ghost use Rattle.pages.specs.Stored.{page_model};
ghost use Rattle.dump.specs.Reading.{read_answer};
ghost use Rattle.dump.specs.Law.{Exact, OneDump};

use crate::faults::PageFault;
use crate::reader::Reader;
use frames::parsing::{check_text, take_frame};
use pages::page::Page;

fn read_page(text: &[u8]) -> Result<Page, PageFault>
    ensures { mapped page_model result ≡ read_answer text.now }
{
    check_text(text)?;
    let mut reader = Reader::new();
    let mut rest = text;
    let mut at = 1;
    // A walk and no `for`: each frame says where the next line begins, and the number after the last line is asked too.
    while !rest.is_empty() {
        let (frame, taken) = take_frame(rest, at)?;
        reader.take(frame, at)?;
        rest = &rest[taken..];
        at += 1;
    }
    reader.finish(at)
}

// The page whose dump the text is, or why it is none.
pub fn read(text: &[u8]) -> Result<Page, PageFault>
    ensures outcome { mapped page_model result ≡ read_answer text.now }
    ensures exact { Exact text.now (mapped page_model result) }
    ensures one { OneDump }
{
    read_page(text)
}
