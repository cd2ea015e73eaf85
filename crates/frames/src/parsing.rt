// The frame of a line's bytes.
ghost use Rattle.std.specs.Prelude.{◌≡◌, ℕ, ◌<◌, ◌≤◌, true, length, drop, IfOk};
ghost use Rattle.texts.specs.Answers.{mapped, lifted};
ghost use Rattle.texts.specs.Lines.{lines_of};
ghost use Rattle.texts.specs.Reading.{short_enough};
ghost use Rattle.frames.specs.Model.{frame_model};
ghost use Rattle.frames.specs.Parsing.{frame_fault, frame_answer, first_frame};
ghost use Rattle.frames.specs.Bytes.{sound};
ghost use Rattle.frames.specs.declared.faults.FrameFault.TheVariants.{Text};

use crate::faults::{FrameFault, FrameQuestion};
use crate::fields::{fields, line_kind};
use crate::ranges::fields_in_range;
use crate::{Frame, Header};
use pages::{Line, Port, Screen};
use texts::lines::{check_length, take_bytes};

// The frame, or the first question that gets a no.
fn parse(bytes: &[u8]) -> Result<Frame, FrameQuestion>
    ensures { (at : ℕ) → mapped frame_model (lifted (λ q. frame_fault q at) result) ≡ frame_answer at bytes.now }
{
    let frame = match bytes {
        [1, screens, lines, start, numbers @ ..] if numbers.len() <= 4 => Frame::Header(Header {
            screens: *screens,
            lines: *lines,
            start: *start,
            numbers: fields(numbers),
        }),
        [2, slots] => Frame::Screen(Screen { slots: *slots }),
        [3, from, kind, port, third, next, sources @ ..] if sources.len() <= 4 => Frame::Line(
            Line {
                from: *from,
                kind: line_kind(*kind, *third),
                port: Port(*port),
                next: *next,
                sources: fields(sources),
            },
        ),
        [1..=3, ..] => return Err(FrameQuestion::Size),
        _ => return Err(FrameQuestion::Kind),
    };
    fields_in_range(bytes)
        .then_some(frame)
        .ok_or(FrameQuestion::Range)
}

// Is the text short enough to be a dump?
pub fn check_text(text: &[u8]) -> Result<(), FrameFault>
    ensures { result ≡ lifted Text (short_enough text.now) }
{
    check_length(text)?;
    Ok(())
}

// The frame that the first line of a text says, and how long the line is with its 0A.
pub fn take_frame(text: &[u8], at: usize) -> Result<(Frame, usize), FrameFault>
    ensures is { mapped (λ p. (frame_model p.0, lines_of (drop p.1 text.now))) result ≡ first_frame at (lines_of text.now) }
    ensures within { IfOk result (λ p. (0 < p.1) × (p.1 ≤ length text.now)) }
    ensures sound { IfOk result (λ p. sound (frame_model p.0) ≡ true) }
{
    let (bytes, taken) = take_bytes(text, at)?;
    let frame = parse(bytes.as_slice()).map_err(|question| FrameFault::Frame {
        question,
        line: at,
    })?;
    Ok((frame, taken))
}
