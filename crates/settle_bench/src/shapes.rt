// Matches of 1,024 codes in which START needs every round.
ghost use Rattle.std.specs.Prelude.{◌≤◌};

use anyhow::anyhow;
use games::drawn::Row;
use std::alloc::{AllocError, Global};
use std::fmt;
use std::str::FromStr;

#[derive(Clone, Copy)]
pub enum Shape {
    Chain,
    Wide,
}

#[derive(Drop)]
pub struct Table {
    pub rows: Vec<Row>,
    pub replies: Vec<u32>,
}

const LAST: u32 = 1_023;

impl FromStr for Shape {
    type Err = anyhow::Error;

    fn from_str(name: &str) -> anyhow::Result<Shape> {
        match name {
            "chain" => Ok(Shape::Chain),
            "wide" => Ok(Shape::Wide),
            _ => Err(anyhow!("name a shape: chain or wide")),
        }
    }
}

impl Shape {
    // How many replies there are at each code but the last.
    fn width(self) -> u32
        ensures { result ≤ 32 }
    {
        match self {
            Shape::Chain => 1,
            Shape::Wide => 32,
        }
    }

    // Each code leads to the next ones, the furthest first; the last code's challenge has no reply.
    pub(crate) fn table(self, heap: Global) -> Result<Table, AllocError> {
        let width = self.width();
        let mut rows = Vec::new(heap);
        let mut replies = Vec::new(heap);
        for code in 0..LAST {
            rows.push(Row {
                code,
                side: 0,
                first: code * 32 + (32 - width),
                number: width,
            })?;
            for ahead in (1..=32).rev() {
                replies.push(LAST.min(code + ahead))?;
            }
        }
        rows.push(Row {
            code: LAST,
            side: 0,
            first: 0,
            number: 0,
        })?;
        Ok(Table { rows, replies })
    }
}

impl fmt::Display for Shape {
    fn fmt<W: fmt::Write>(&self, f: &mut fmt::Formatter<W>) -> fmt::Result {
        match *self {
            Shape::Chain => write!(f, "each code leads to the next"),
            Shape::Wide => write!(f, "each code leads to the next 32"),
        }
    }
}
