// Why a text is refused, in words.
use dump::faults::{Layer, PageFault, PageQuestion};
use frames::faults::{FrameFault, FrameQuestion};
use std::fmt;
use texts::faults::TextQuestion;
use texts::lines::line;

// The words are this program's own, and the enums are other crates': so they are told by functions, not by Display.

fn text_question(question: TextQuestion) -> &'static str {
    match question {
        TextQuestion::Side => "Is the side 0 or 1?",
        TextQuestion::Length => "Has the text at most 4096 bytes?",
        TextQuestion::Ended => "Is the text line ended by the byte 0A?",
        TextQuestion::Digits => "Is every byte before the 0A one of the digits 0 to 9 and A to F?",
        TextQuestion::Count => "Has the text line 2 to 32 digits, and an even number of them?",
    }
}

fn frame_question(question: FrameQuestion) -> &'static str {
    match question {
        FrameQuestion::Kind =>
            "Is the first byte 01 for a header, 02 for a screen or 03 for a line?",
        FrameQuestion::Size => "Has a header 4 to 8 bytes, a screen 2, a line 6 to 10?",
        FrameQuestion::Range =>
            "Is each byte in range: screens 01 to 20, lines 00 to 80, start numbers 00 to 07; slots 00 to 04; kind 00 or 01, port 00 to 1F, third byte 10 in a line that takes and 00 to 03 in one that shows, sources 00 to 03 or 10?",
    }
}

fn page_question(question: PageQuestion) -> &'static str {
    match question {
        PageQuestion::Awaited =>
            "Is this what is awaited: first the header, then the screens, then the lines, then nothing?",
        PageQuestion::Start => "Is the number of the start screen below the number of screens?",
        PageQuestion::Line =>
            "Do both screens of the line exist, do the slot that it shows and the slots that it keeps exist in the screen that it leaves, is the taken value a source in a line that takes only, and is there one source for each slot of the next screen?",
        PageQuestion::Complete =>
            "Have the header and all the screens and lines that it counts come?",
        PageQuestion::Numbers =>
            "Has the header one start number for each slot of the start screen?",
    }
}

// What was asked, and got a no.
fn question(fault: &PageFault) -> &'static str {
    match fault {
        PageFault::Frame(FrameFault::Text(fault)) => text_question(fault.question),
        PageFault::Frame(FrameFault::Frame { question, .. }) => frame_question(*question),
        PageFault::Page { question, .. } => page_question(*question),
    }
}

fn layer_name(layer: Layer) -> &'static str {
    match layer {
        Layer::Text => "text",
        Layer::Frame => "frame",
        Layer::Page => "page",
    }
}

// Line 0 is the text as a whole; a line after the last has no text.
fn write_place<W: fmt::Write>(
    text: &[u8],
    number: usize,
    f: &mut fmt::Formatter<W>,
) -> fmt::Result {
    if number == 0 {
        return writeln!(f, "It is refused as a whole.");
    }
    match line(text, &[], 0, number) {
        Ok([]) => writeln!(f, "It is refused at text line {number}, which is empty."),
        Ok(bytes) => writeln!(
            f,
            "It is refused at text line {number}, which is: {}",
            bytes.escape_ascii()
        ),
        Err(_) => writeln!(
            f,
            "It is refused at text line {number}, which did not come."
        ),
    }
}

#[derive(Clone, Copy)]
pub struct Refusal<'a> {
    pub fault: PageFault,
    pub text: &'a [u8],
}

impl fmt::Display for Refusal<'_> {
    fn fmt<W: fmt::Write>(&self, f: &mut fmt::Formatter<W>) -> fmt::Result {
        let fault = self.fault;
        writeln!(
            f,
            "The text is no dump: refusal {}, of the {} layer.",
            fault.number(),
            layer_name(fault.layer())
        )?;
        write_place(self.text, fault.line(), f)?;
        writeln!(f, "The answer is no to: {}", question(&fault))
    }
}

#[cfg(test)]
mod tests {
    use super::*;
    use dump::reading::read;
    use std::alloc::Global;
    use std::process::Abort;
    use std::test::Fail;

    fn says(rt: &impl Abort, heap: Global, text: &[u8], words: &str) -> Result<(), Fail> {
        let Err(fault) = read(text) else {
            return Err(Fail::new("accepted"));
        };
        assert_eq!(rt;
            format!(in heap; "{}", Refusal { fault, text })?.as_str(),
            words
        );
        Ok(())
    }

    #[test]
    fn refusals_in_words(rt: HostRuntime) -> Result<(), Fail> {
        let heap = rt.alloc();
        says(
            &rt,
            heap,
            &[b'0'; 4097],
            "The text is no dump: refusal 11, of the text layer.\nIt is refused as a whole.\nThe answer is no to: Has the text at most 4096 bytes?\n",
        )?;
        says(
            &rt,
            heap,
            b"01010000\r\n",
            "The text is no dump: refusal 13, of the text layer.\nIt is refused at text line 1, which is: 01010000\\r\nThe answer is no to: Is every byte before the 0A one of the digits 0 to 9 and A to F?\n",
        )?;
        says(
            &rt,
            heap,
            b"\n",
            "The text is no dump: refusal 14, of the text layer.\nIt is refused at text line 1, which is empty.\nThe answer is no to: Has the text line 2 to 32 digits, and an even number of them?\n",
        )?;
        says(
            &rt,
            heap,
            b"0101\n",
            "The text is no dump: refusal 22, of the frame layer.\nIt is refused at text line 1, which is: 0101\nThe answer is no to: Has a header 4 to 8 bytes, a screen 2, a line 6 to 10?\n",
        )?;
        says(
            &rt,
            heap,
            b"01010000\n",
            "The text is no dump: refusal 34, of the page layer.\nIt is refused at text line 2, which did not come.\nThe answer is no to: Have the header and all the screens and lines that it counts come?\n",
        )
    }
}
