// Whether the parts of a page fit together.
ghost use Rattle.std.specs.Prelude.{◌≡◌, map};
ghost use Rattle.lists.specs.Held.{held};
ghost use Rattle.lists.specs.Every.{every};
ghost use Rattle.pages.specs.Model.{line_model, parts_model};
ghost use Rattle.pages.specs.Formed.{slots_at, source_stands, shown_stands, line_stands, line_formed, screens_formed, lines_formed, start_formed, well_formed};

use crate::{Line, LineKind, Parts, Screen, Source};

// How many slots a screen has; 0 where the page has no such screen.
fn slots_of(screens: &[Screen], screen: u8) -> u8
    ensures { result ≡ slots_at screens.now screen }
{
    screens.get(usize::from(screen)).map_or(0, |s| s.slots)
}

// Of a line out of a screen with so many slots. Its kind and that number go together through three questions; a struct
// of both would be made only to be taken apart in each.
fn shown_stands(kind: LineKind, slots: u8) -> bool
    ensures { result ≡ shown_stands kind slots }
{
    match kind {
        LineKind::Take => true,
        LineKind::Show(slot) => slot.0 < slots,
    }
}

// Whether a line of this kind may have the source, out of a screen with so many slots.
fn source_stands(kind: LineKind, slots: u8, source: Source) -> bool
    ensures { result ≡ source_stands kind slots source }
{
    match source {
        Source::Kept(slot) => slot.0 < slots,
        Source::Taken => kind == LineKind::Take,
    }
}

fn sources_stand(kind: LineKind, slots: u8, sources: &[Source]) -> bool
    ensures { result ≡ every (source_stands kind slots) sources.now }
{
    sources.iter().all(|s| source_stands(kind, slots, *s))
}

// Do both screens exist, do the shown slot and the slot sources exist in the screen left, is the taken value a source
// of a TAKE only, and is there one source for each slot of the next screen?
pub fn stands(line: &Line, screens: &[Screen]) -> bool
    ensures { result ≡ line_stands screens.now (line_model line.now) }
{
    let slots = slots_of(screens, line.from);
    let sources = line.sources.as_slice();
    usize::from(line.from) < screens.len()
        && usize::from(line.next) < screens.len()
        && shown_stands(line.kind, slots)
        && sources_stand(line.kind, slots, sources)
        && sources.len() == usize::from(slots_of(screens, line.next))
}

fn line_formed(screens: &[Screen], line: &Line) -> bool
    ensures { result ≡ line_formed screens.now (line_model line.now) }
{
    line.port.0 <= 31 && stands(line, screens)
}

impl Parts {
    fn lines_formed(&self) -> bool
        ensures { result ≡ lines_formed (held self.now.screens) (map line_model (held self.now.lines)) }
    {
        let screens = self.screens.as_slice();
        let lines = self.lines.as_slice();
        lines.len() <= 128 && lines.iter().all(|l| line_formed(screens, l))
    }

    fn screens_formed(&self) -> bool
        ensures { result ≡ screens_formed (held self.now.screens) }
    {
        let screens = self.screens.as_slice();
        (1..=32).contains(&screens.len()) && screens.iter().all(|s| s.slots <= 4)
    }

    fn start_formed(&self) -> bool
        ensures { result ≡ start_formed (held self.now.screens) self.now.start (held self.now.numbers) }
    {
        let screens = self.screens.as_slice();
        let numbers = self.numbers.as_slice();
        usize::from(self.start) < screens.len()
            && numbers.len() == usize::from(slots_of(screens, self.start))
            && numbers.iter().all(|n| n.0 <= 7)
    }

    // Whether these parts make a well-formed page.
    pub(crate) fn is_formed(&self) -> bool
        ensures { result ≡ well_formed (parts_model self.now) }
    {
        self.screens_formed() && self.lines_formed() && self.start_formed()
    }
}
