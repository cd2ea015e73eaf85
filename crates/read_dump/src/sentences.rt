// A page in words.
use crate::counted::Counted;
use pages::page::Page;
use pages::{Line, LineKind, Name, Port, Screen, Source};
use std::fmt;

// What a line does at its port.
#[derive(Clone, Copy)]
struct Deed {
    kind: LineKind,
    port: Port,
}

impl fmt::Display for Deed {
    fn fmt<W: fmt::Write>(&self, f: &mut fmt::Formatter<W>) -> fmt::Result {
        let port = self.port.0;
        match self.kind {
            LineKind::Take => write!(f, "takes a value at port {port}"),
            LineKind::Show(slot) => write!(f, "shows slot {} at port {port}", slot.0),
        }
    }
}

// What a slot of the next screen gets.
#[derive(Clone, Copy)]
struct Given(Source);

impl fmt::Display for Given {
    fn fmt<W: fmt::Write>(&self, f: &mut fmt::Formatter<W>) -> fmt::Result {
        match self.0 {
            Source::Kept(slot) => write!(f, "what slot {} held", slot.0),
            Source::Taken => write!(f, "the taken value"),
        }
    }
}

#[derive(Clone, Copy)]
struct Sentence<'a>(&'a Line);

impl fmt::Display for Sentence<'_> {
    fn fmt<W: fmt::Write>(&self, f: &mut fmt::Formatter<W>) -> fmt::Result {
        let line = self.0;
        let deed = Deed {
            kind: line.kind,
            port: line.port,
        };
        write!(
            f,
            "from screen {}, {deed} and goes to screen {}",
            line.from, line.next
        )?;
        let sources = line.sources.as_slice();
        for (slot, source) in sources.iter().enumerate() {
            let joint = match slot {
                0 => ", whose",
                _ if slot + 1 < sources.len() => ",",
                _ => " and",
            };
            write!(f, "{joint} slot {slot} gets {}", Given(*source))?;
        }
        Ok(())
    }
}

// Screens and lines are written alike. One function for both, given the words of one of them as a closure, has no proof:
// what it gives borrows from its item.
fn write_screens<W: fmt::Write>(screens: &[Screen], f: &mut fmt::Formatter<W>) -> fmt::Result {
    writeln!(f, "It has {}.", Counted(screens.len(), "screen"))?;
    for (number, screen) in screens.iter().enumerate() {
        writeln!(
            f,
            "  screen {number}: {}",
            Counted(usize::from(screen.slots), "slot")
        )?;
    }
    Ok(())
}

fn write_lines<W: fmt::Write>(lines: &[Line], f: &mut fmt::Formatter<W>) -> fmt::Result {
    writeln!(f, "It has {}.", Counted(lines.len(), "line"))?;
    for (number, line) in lines.iter().enumerate() {
        writeln!(f, "  line {number}: {}", Sentence(line))?;
    }
    Ok(())
}

fn write_start<W: fmt::Write>(
    screen: u8,
    numbers: &[Name],
    f: &mut fmt::Formatter<W>,
) -> fmt::Result {
    writeln!(
        f,
        "It starts on screen {screen}, with {}.",
        Counted(numbers.len(), "start number")
    )?;
    for (slot, number) in numbers.iter().enumerate() {
        writeln!(f, "  slot {slot} holds start number {}", number.0)?;
    }
    Ok(())
}

#[derive(Clone, Copy)]
pub struct InWords<'a>(pub &'a Page);

impl fmt::Display for InWords<'_> {
    fn fmt<W: fmt::Write>(&self, f: &mut fmt::Formatter<W>) -> fmt::Result {
        let page = self.0;
        write_screens(page.screens(), f)?;
        write_lines(page.lines(), f)?;
        write_start(page.start(), page.numbers(), f)
    }
}
