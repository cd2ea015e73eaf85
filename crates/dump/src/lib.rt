// Dumps: a page read from its dump, and a dump written of a page.
#![tactic(auto)]

pub mod faults;
mod reader;
pub mod reading;
pub mod writing;
