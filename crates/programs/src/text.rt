// A page written as a program, a clause for each screen: Screen1(x0) <= p3!x0.Screen0 + p1?y.Screen1(y).
ghost use Rattle.std.specs.Iterator.{IsFinite};

use pages::page::Page;
use pages::{Line, LineKind, Slot, Source};
use std::fmt;

// A parameter, x0, x1, .., or the value taken, y.
#[derive(Clone, Copy)]
struct Variable(Source);

impl fmt::Display for Variable {
    fn fmt<W: fmt::Write>(&self, f: &mut fmt::Formatter<W>) -> fmt::Result {
        match self.0 {
            Source::Kept(slot) => write!(f, "x{}", slot.0),
            Source::Taken => write!(f, "y"),
        }
    }
}

// Parameters or arguments in brackets; nothing where there are none.
fn write_bracket<W: fmt::Write, I: Iterator<Item = Source>>(
    mut sources: I,
    f: &mut fmt::Formatter<W>,
) -> fmt::Result
    requires { I.Iterator.can_next sources × IsFinite (I.Iterator.remaining sources) }
{
    let Some(first) = sources.next() else {
        return Ok(());
    };
    write!(f, "({}", Variable(first))?;
    for source in sources {
        write!(f, ", {}", Variable(source))?;
    }
    write!(f, ")")
}

// A screen with its slots as parameters.
#[derive(Clone, Copy)]
struct Head {
    screen: usize,
    slots: u8,
}

impl fmt::Display for Head {
    fn fmt<W: fmt::Write>(&self, f: &mut fmt::Formatter<W>) -> fmt::Result {
        write!(f, "Screen{}", self.screen)?;
        write_bracket((0..self.slots).map(|slot| Source::Kept(Slot(slot))), f)
    }
}

// A line as a summand.
#[derive(Clone, Copy)]
struct Summand<'a>(&'a Line);

impl fmt::Display for Summand<'_> {
    fn fmt<W: fmt::Write>(&self, f: &mut fmt::Formatter<W>) -> fmt::Result {
        let line = self.0;
        match line.kind {
            LineKind::Take => write!(f, "p{}?y.Screen{}", line.port.0, line.next)?,
            LineKind::Show(slot) => write!(f, "p{}!x{}.Screen{}", line.port.0, slot.0, line.next)?,
        }
        write_bracket(line.sources.as_slice().iter().copied(), f)
    }
}

// The sum of the lines that leave a screen; 0 is the empty sum.
fn write_sum<W: fmt::Write>(
    lines: &[Line],
    screen: usize,
    f: &mut fmt::Formatter<W>,
) -> fmt::Result {
    let mut leaving = lines.iter().filter(|line| usize::from(line.from) == screen);
    let Some(first) = leaving.next() else {
        return writeln!(f, " <= 0");
    };
    write!(f, " <= {}", Summand(first))?;
    for line in leaving {
        write!(f, " + {}", Summand(line))?;
    }
    writeln!(f)
}

#[derive(Clone, Copy)]
pub struct AsProgram<'a>(pub &'a Page);

impl fmt::Display for AsProgram<'_> {
    fn fmt<W: fmt::Write>(&self, f: &mut fmt::Formatter<W>) -> fmt::Result {
        let page = self.0;
        for (screen, s) in page.screens().iter().enumerate() {
            let head = Head {
                screen,
                slots: s.slots,
            };
            write!(f, "{head}")?;
            write_sum(page.lines(), screen, f)?;
        }
        Ok(())
    }
}
