// What the page layer refuses, with the lower layers' faults whole inside.
ghost use Rattle.std.specs.Prelude.{◌≡◌};
ghost use Rattle.dump.specs.Numbers.{fault_number, fault_line, fault_layer};
ghost use Rattle.dump.specs.Steps.{page_fault};
ghost use Rattle.dump.specs.declared.faults.PageFault.TheVariants.{Frame};

use frames::faults::FrameFault;

// The questions of the page layer, by their numbers.
#[derive(Clone, Copy)]
pub enum PageQuestion {
    Awaited = 31,
    Start = 32,
    Line = 33,
    Complete = 34,
    Numbers = 35,
}

impl PageQuestion {
    // A no to this question at a text line.
    pub(crate) fn at(self, line: usize) -> PageFault
        ensures { result ≡ page_fault self line }
    {
        PageFault::Page {
            question: self,
            line,
        }
    }
}

// Its cases name the layers, which those of one enum for every layer could not.
#[derive(Clone, Copy)]
pub enum PageFault {
    Frame(FrameFault),
    Page { question: PageQuestion, line: usize },
}

// The layer whose question got a no.
#[derive(Clone, Copy, Debug, PartialEq, Eq)]
pub enum Layer {
    Text,
    Frame,
    Page,
}

impl PageFault {
    pub fn number(&self) -> u8
        ensures { result ≡ fault_number self.now }
    {
        match self {
            PageFault::Frame(fault) => fault.number(),
            PageFault::Page { question, .. } => *question as u8,
        }
    }

    // The text line, counted from 1; 0 where the text as a whole is refused.
    pub fn line(&self) -> usize
        ensures { result ≡ fault_line self.now }
    {
        match self {
            PageFault::Frame(fault) => fault.line(),
            PageFault::Page { line, .. } => *line,
        }
    }

    pub fn layer(&self) -> Layer
        ensures { result ≡ fault_layer self.now }
    {
        match self {
            PageFault::Frame(FrameFault::Text(_)) => Layer::Text,
            PageFault::Frame(FrameFault::Frame { .. }) => Layer::Frame,
            PageFault::Page { .. } => Layer::Page,
        }
    }
}

impl From<FrameFault> for PageFault {
    ghost from_gives = { λ f p. p ≡ Frame f };

    fn from(fault: FrameFault) -> PageFault {
        PageFault::Frame(fault)
    }
}
