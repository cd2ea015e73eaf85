// Settings pages: screens with slots, lines that lead from screen to screen, and a start.
#![tactic(auto)]

pub mod forming;
pub mod page;

use lists::BoundedVec;

// A slot of a screen, numbered from 0: it holds one value.
#[derive(Clone, Copy, Debug, PartialEq, Eq)]
pub struct Slot(pub u8);

// A port, 0 to 31: where values are taken and shown.
#[derive(Clone, Copy, Debug, PartialEq, Eq)]
pub struct Port(pub u8);

// The name of a value, which stands for the value and says nothing of it but which others it equals.
// The start numbers of a page, 0 to 7, are names.
#[derive(Clone, Copy, Debug, PartialEq, Eq)]
pub struct Name(pub u8);

// A screen, by its number of slots, 0 to 4.
#[derive(Clone, Copy, Debug, PartialEq, Eq)]
pub struct Screen {
    pub slots: u8,
}

// What a line does: it takes a value at its port, or shows the value of a slot of the screen that it leaves. Not an
// Option of a slot: to take is no lack of one.
#[derive(Clone, Copy, Debug, PartialEq, Eq)]
pub enum LineKind {
    Take,
    Show(Slot),
}

// Where a slot of the next screen has its value from: a slot of the screen that is left, or the value taken. Not an
// Option of a slot, for the same reason.
#[derive(Clone, Copy, Debug, PartialEq, Eq)]
pub enum Source {
    Kept(Slot),
    Taken,
}

// A line leaves a screen and leads to the next, which has a source for each of its slots.
#[derive(Clone, Copy)]
pub struct Line {
    pub from: u8,
    pub kind: LineKind,
    pub port: Port,
    pub next: u8,
    pub sources: BoundedVec<Source, 4>,
}

// What a page is made of, be it well formed or not. Screens and lines are numbered from 0; the start is a screen with a
// start number for each of its slots.
#[derive(Clone, Copy)]
pub struct Parts {
    pub screens: BoundedVec<Screen, 32>,
    pub lines: BoundedVec<Line, 128>,
    pub start: u8,
    pub numbers: BoundedVec<Name, 4>,
}
