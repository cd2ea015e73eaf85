// A match drawn as rows.
ghost use Rattle.std.specs.Prelude.{◌≡◌, ◌^◌};
ghost use Rattle.std.specs.List.{slice_get};
ghost use Rattle.games.specs.Drawn.{drawn, rows_at, of_code, side_of, row_replies};
ghost use Rattle.games.specs.Bounds.{drawn_below};

use crate::{Match, Side};

// One challenge: at a code, by a side (0 left, else right), answered by that many replies from a first position on.
// A side is a byte and a part two numbers, since every number stands for one: an enum or a slice would ask more of callers.
#[derive(Clone, Copy)]
pub struct Row {
    pub code: u32,
    pub side: u8,
    pub first: u32,
    pub number: u32,
}

impl Row {
    fn is_at(&self, code: u64) -> bool
        ensures { result ≡ of_code code self.now }
    {
        u64::from(self.code) == code
    }

    // Whose challenge it is.
    pub fn side(&self) -> Side
        ensures { result ≡ side_of self.now.side }
    {
        match self.side {
            0 => Side::Left,
            _ => Side::Right,
        }
    }

    // The row's part of all replies, cut at their end.
    fn replies<'a>(&self, all: &'a [u32]) -> &'a [u32]
        ensures { result.now ≡ row_replies all.now self.now }
    {
        let rest = &all[all.len().min(self.first as usize)..];
        &rest[..rest.len().min(self.number as usize)]
    }
}

// The challenges at a code are its rows in order; their replies are parts of one list, cut at its end.
#[derive(Clone, Copy)]
pub struct Drawn<'a> {
    pub start: u32,
    pub rows: &'a [Row],
    pub replies: &'a [u32],
}

impl Drawn<'_> {
    // The n-th row of a code.
    fn row(&self, code: u64, n: usize) -> Option<Row>
        ensures { result ≡ slice_get (rows_at self.now.rows.now code) n }
    {
        self.rows.iter().filter(|r| r.is_at(code)).nth(n).copied()
    }
}

impl Match for Drawn<'_> {
    ghost meaning = { λ d. drawn d.start d.rows.now d.replies.now };

    ghost below = { λ d. drawn_below d.start d.rows.now d.replies.now };

    fn start(&self) -> u64 {
        u64::from(self.start)
    }

    fn top(&self) -> u64 {
        1 << 32
    }

    // A sum, and not `filter` and `count`, which branch at each row and settle a long chain a quarter slower.
    fn count(&self, code: u64) -> usize {
        self.rows.iter().map(|r| usize::from(r.is_at(code))).sum()
    }

    fn side(&self, code: u64, n: usize) -> Option<Side> {
        self.row(code, n).map(|r| r.side())
    }

    fn replies(&self, code: u64, n: usize) -> Option<usize> {
        self.row(code, n).map(|r| r.replies(self.replies).len())
    }

    fn next(&self, code: u64, n: usize, k: usize) -> Option<u64> {
        let row = self.row(code, n)?;
        row.replies(self.replies).get(k).map(|y| u64::from(*y))
    }
}
