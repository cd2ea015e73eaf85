// A number of things, in words.
use std::fmt;

#[derive(Clone, Copy)]
pub struct Counted<'a>(pub usize, pub &'a str);

impl fmt::Display for Counted<'_> {
    fn fmt<W: fmt::Write>(&self, f: &mut fmt::Formatter<W>) -> fmt::Result {
        let Counted(count, thing) = *self;
        match count {
            0 => write!(f, "no {thing}s"),
            1 => write!(f, "1 {thing}"),
            _ => write!(f, "{count} {thing}s"),
        }
    }
}
