// What the text layer refuses.
ghost use Rattle.std.specs.Prelude.{◌≡◌};
ghost use Rattle.texts.specs.Numbers.{text_number, line_number};
ghost use Rattle.texts.specs.Reading.{text_fault};
ghost use Rattle.texts.specs.declared.faults.LineFault.TheVariants.{Text};

// The questions of the text layer. The number of one is what is answered where it gets a no.
#[derive(Clone, Copy)]
pub enum TextQuestion {
    Side = 10,
    Length = 11,
    Ended = 12,
    Digits = 13,
    Count = 14,
}

impl TextQuestion {
    // A no to this question at a text line.
    pub(crate) fn at(self, line: usize) -> TextFault
        ensures { result ≡ text_fault self line }
    {
        TextFault {
            question: self,
            line,
        }
    }
}

// A question that got a no, and the text line, counted from 1; line 0 is the call as a whole.
#[derive(Clone, Copy)]
pub struct TextFault {
    pub question: TextQuestion,
    pub line: usize,
}

impl TextFault {
    pub fn number(&self) -> u8
        ensures { result ≡ text_number self.now.question }
    {
        self.question as u8
    }
}

// Why a text line is not handed out: there is no such side, or no such line. Not an Option of a fault: both refuse.
#[derive(Clone, Copy)]
pub enum LineFault {
    Text(TextFault),
    Missing,
}

impl LineFault {
    pub fn number(&self) -> u8
        ensures { result ≡ line_number self.now }
    {
        match self {
            LineFault::Text(fault) => fault.number(),
            LineFault::Missing => 74,
        }
    }
}

impl From<TextFault> for LineFault {
    ghost from_gives = { λ t f. f ≡ Text t };

    fn from(fault: TextFault) -> LineFault {
        LineFault::Text(fault)
    }
}
