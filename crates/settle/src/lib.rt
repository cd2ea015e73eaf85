// SETTLE: every code that a match leads to, the count of each, and whether the match holds.
#![tactic(auto)]

ghost use Rattle.std.specs.Prelude.{◌≡◌, ℕ};
ghost use Rattle.games.specs.Drawn.{drawn};
ghost use Rattle.games.specs.LeftOnly.{left_only};
ghost use Rattle.settle.specs.Outcome.{settle_number, verdict_of, Outcome, Refutes};

mod asking;
mod listing;
mod rounds;

use crate::listing::list_codes;
use crate::rounds::all_rounds;
use games::Match;
use games::drawn::Drawn;
use games::left_only::LeftOnly;

// HOLDS, FAILS with the count of START, or FULL: the lists are too short for all codes.
#[derive(Clone, Copy, Debug, PartialEq, Eq)]
pub enum Verdict {
    Holds,
    Fails(u16),
    Full,
}

// How many codes were listed, 0 at FULL, and the verdict.
#[derive(Clone, Copy, Debug, PartialEq, Eq)]
pub struct Settled {
    pub codes: usize,
    pub verdict: Verdict,
}

// Why settling is refused: the lists are not equally long, or not of 1 to 1,024 entries.
#[derive(Clone, Copy, Debug, PartialEq, Eq)]
pub enum SettleFault {
    Lists = 44,
}

impl SettleFault {
    pub fn number(&self) -> u8
        ensures { result ≡ settle_number self.now }
    {
        *self as u8
    }
}

// What the counts say of the first code.
fn verdict_of(count: u16) -> Verdict
    ensures { result ≡ verdict_of count }
{
    match count {
        0 => Verdict::Holds,
        count => Verdict::Fails(count),
    }
}

// SETTLE, in two lists of the caller's, for codes and for counts. They are two, as the caller is asked whether they are
// equally long.
pub fn settle<M: Match>(
    game: &M,
    codes: &mut [u64],
    counts: &mut [u16],
) -> Result<Settled, SettleFault>
    ensures { Outcome (M.Match.meaning game.now) codes.old counts.old codes.new counts.new result }
{
    if codes.len() != counts.len() || !(1..=1_024).contains(&codes.len()) {
        return Err(SettleFault::Lists);
    }
    codes.fill(0);
    counts.fill(0);
    let Some(n) = list_codes(game, codes) else {
        codes.fill(0);
        return Ok(Settled {
            codes: 0,
            verdict: Verdict::Full,
        });
    };
    all_rounds(game, &codes[..n], &mut counts[..n]);
    Ok(Settled {
        codes: n,
        verdict: verdict_of(counts[0]),
    })
}

// A set of codes of any sort, told or not.
pub trait CodeSet {
    ghost has: { ℕ → Type 0 };
}

// SETTLE, and at FAILS the set S is not held with START in it, whatever set it is.
pub fn settle_against<M: Match, S: CodeSet>(
    game: &M,
    codes: &mut [u64],
    counts: &mut [u16],
) -> Result<Settled, SettleFault>
    ensures outcome { Outcome (M.Match.meaning game.now) codes.old counts.old codes.new counts.new result }
    ensures refutes { Refutes (M.Match.meaning game.now) S.CodeSet.has result }
{
    settle(game, codes, counts)
}

// SETTLE of a drawn match, with what the match means written out.
pub fn settle_drawn(
    game: &Drawn,
    codes: &mut [u64],
    counts: &mut [u16],
) -> Result<Settled, SettleFault>
    ensures { Outcome (drawn game.now.start game.now.rows.now game.now.replies.now) codes.old counts.old codes.new counts.new result }
{
    settle::<Drawn>(game, codes, counts)
}

// The same under left-only.
pub fn settle_drawn_left(
    game: &Drawn,
    codes: &mut [u64],
    counts: &mut [u16],
) -> Result<Settled, SettleFault>
    ensures { Outcome (left_only (drawn game.now.start game.now.rows.now game.now.replies.now)) codes.old counts.old codes.new counts.new result }
{
    settle(&LeftOnly { game: *game }, codes, counts)
}
