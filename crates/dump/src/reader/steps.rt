// How the reader takes a frame, and how it ends.
ghost use Rattle.std.specs.Prelude.{◌≡◌, ◌<◌, true, Ok};
ghost use Rattle.texts.specs.Answers.{mapped};
ghost use Rattle.pages.specs.Formed.{well_formed};
ghost use Rattle.pages.specs.Stored.{page_model};
ghost use Rattle.frames.specs.Model.{frame_model};
ghost use Rattle.frames.specs.Bytes.{sound};
ghost use Rattle.dump.specs.Due.{after_screens, after_lines};
ghost use Rattle.dump.specs.Steps.{reader_model, first_reader, step, finish};

use super::{Due, Reader};
use crate::faults::{PageFault, PageQuestion};
use frames::Frame;
use lists::BoundedVec;
use pages::forming::stands;
use pages::page::Page;
use pages::{Line, LineKind, Name, Parts, Port, Screen, Source};

// What is awaited when so many lines are still to come.
fn lines_next(more: u8) -> Due
    ensures { result ≡ after_lines more }
{
    if more == 0 {
        Due::Nothing
    } else {
        Due::Lines { more }
    }
}

// What is awaited when so many screens are still to come, and so many lines after them.
fn screens_next(more: u8, lines: u8) -> Due
    ensures { result ≡ after_screens more lines }
{
    if more == 0 {
        lines_next(lines)
    } else {
        Due::Screens { more, lines }
    }
}

impl Reader {
    pub(crate) fn new() -> Reader
        ensures { reader_model result ≡ first_reader }
    {
        let line = Line {
            from: 0,
            kind: LineKind::Take,
            port: Port(0),
            next: 0,
            sources: BoundedVec::new(Source::Taken),
        };
        Reader {
            due: Due::Header,
            parts: Parts {
                screens: BoundedVec::new(Screen { slots: 0 }),
                lines: BoundedVec::new(line),
                start: 0,
                numbers: BoundedVec::new(Name(0)),
            },
        }
    }

    // Takes the frame that is awaited, where it fits what has come before it.
    pub(crate) fn take(&mut self, frame: Frame, at: usize) -> Result<(), PageFault>
        requires { sound (frame_model frame) ≡ true }
        ensures { mapped (λ _. reader_model self.new) result ≡ step at (reader_model self.old) (frame_model frame) }
    {
        match (self.due, frame) {
            (Due::Header, Frame::Header(header)) => {
                if header.start >= header.screens {
                    return Err(PageQuestion::Start.at(at));
                }
                self.parts.start = header.start;
                self.parts.numbers = header.numbers;
                self.due = Due::Screens {
                    more: header.screens,
                    lines: header.lines,
                };
                Ok(())
            }
            (Due::Screens { more, lines }, Frame::Screen(screen)) => {
                let _ = self.parts.screens.push(screen);
                self.due = screens_next(more - 1, lines);
                Ok(())
            }
            (Due::Lines { more }, Frame::Line(line)) => {
                if !stands(&line, self.parts.screens.as_slice()) {
                    return Err(PageQuestion::Line.at(at));
                }
                let _ = self.parts.lines.push(line);
                self.due = lines_next(more - 1);
                Ok(())
            }
            _ => Err(PageQuestion::Awaited.at(at)),
        }
    }

    // The page, once all awaited frames have come. Of what makes a page well formed, only the count of start numbers
    // has not been asked yet.
    pub(crate) fn finish(&self, at: usize) -> Result<Page, PageFault>
        requires { finish at (reader_model self.now) ≡ Ok (reader_model self.now).page → well_formed (reader_model self.now).page ≡ true }
        ensures { mapped page_model result ≡ finish at (reader_model self.now) }
    {
        if !matches!(self.due, Due::Nothing) {
            return Err(PageQuestion::Complete.at(at));
        }
        Page::new(self.parts).ok_or(PageQuestion::Numbers.at(1))
    }
}
