// The frame layer of dumps: what the bytes of a line say, and the bytes again.
#![tactic(auto)]

pub mod bytes;
pub mod faults;
mod fields;
pub mod parsing;
mod ranges;

use lists::BoundedVec;
use pages::{Line, Name, Screen};

// The first frame of a dump: how many screens and lines follow, the start screen and its start numbers.
#[derive(Clone, Copy)]
pub struct Header {
    pub screens: u8,
    pub lines: u8,
    pub start: u8,
    pub numbers: BoundedVec<Name, 4>,
}

// What one line of a dump says.
#[derive(Clone, Copy)]
pub enum Frame {
    Header(Header),
    Screen(Screen),
    Line(Line),
}
