// What the frame layer refuses, with the text layer's faults whole inside.
ghost use Rattle.std.specs.Prelude.{◌≡◌};
ghost use Rattle.frames.specs.Numbers.{fault_number, fault_line};
ghost use Rattle.frames.specs.declared.faults.FrameFault.TheVariants.{Text};

use texts::faults::TextFault;

// The questions of the frame layer, by their numbers.
#[derive(Clone, Copy)]
pub enum FrameQuestion {
    Kind = 21,
    Size = 22,
    Range = 23,
}

// An enum of this layer's own: one for this layer and the next higher could not name the layers in its cases.
#[derive(Clone, Copy)]
pub enum FrameFault {
    Text(TextFault),
    Frame {
        question: FrameQuestion,
        line: usize,
    },
}

impl FrameFault {
    pub fn number(&self) -> u8
        ensures { result ≡ fault_number self.now }
    {
        match self {
            FrameFault::Text(fault) => fault.number(),
            FrameFault::Frame { question, .. } => *question as u8,
        }
    }

    pub fn line(&self) -> usize
        ensures { result ≡ fault_line self.now }
    {
        match self {
            FrameFault::Text(fault) => fault.line,
            FrameFault::Frame { line, .. } => *line,
        }
    }
}

impl From<TextFault> for FrameFault {
    ghost from_gives = { λ t f. f ≡ Text t };

    fn from(fault: TextFault) -> FrameFault {
        FrameFault::Text(fault)
    }
}
