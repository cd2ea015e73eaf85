// The text layer of dumps: lines ended by 0A, each of hexadecimal digits, read and written.
#![tactic(auto)]

pub mod faults;
pub mod hex;
pub mod lines;
pub mod output;
