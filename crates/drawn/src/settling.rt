// The ways in which a drawn match is settled here, and the lists that they are given.
ghost use Rattle.std.specs.Prelude.{◌≤◌};
ghost use Rattle.games.specs.Drawn.{drawn};
ghost use Rattle.games.specs.LeftOnly.{left_only};
ghost use Rattle.settle.specs.Outcome.{Outcome, Refutes};
ghost use Rattle.drawn.specs.Seen.{seen_by, Even};

use games::drawn::Drawn;
use games::left_only::LeftOnly;
use settle::{
    CodeSet, SettleFault, Settled, settle, settle_against, settle_drawn, settle_drawn_left,
};

#[derive(Clone, Copy, PartialEq, Eq)]
pub enum Way {
    Plain,
    LeftOnly,
    LeftOnlyTwice,
    AgainstEvens,
}

// The longest lists; those of an example are parts of them.
pub const MOST: usize = 6;

#[derive(Clone, Copy)]
pub enum Lists {
    Long,
    Short,
    Unequal,
}

impl Lists {
    // How many codes and how many counts there is room for.
    pub(crate) fn lengths(self) -> (usize, usize)
        ensures { (result.0 ≤ 6) × (result.1 ≤ 6) }
    {
        match self {
            Lists::Long => (MOST, MOST),
            Lists::Short => (3, 3),
            Lists::Unequal => (MOST, MOST - 1),
        }
    }
}

// The even codes, as a set that might hold.
struct Evens;

impl CodeSet for Evens {
    ghost has = { Even };
}

// A match and two lists, as `settle` takes them: the lists may differ in length, which it asks.

// At FAILS the even codes are not held with START among them.
fn settle_against_evens(
    game: &Drawn,
    codes: &mut [u64],
    counts: &mut [u16],
) -> Result<Settled, SettleFault>
    ensures outcome { Outcome (drawn game.now.start game.now.rows.now game.now.replies.now) codes.old counts.old codes.new counts.new result }
    ensures refutes { Refutes (drawn game.now.start game.now.rows.now game.now.replies.now) Even result }
{
    settle_against::<Drawn, Evens>(game, codes, counts)
}

fn settle_left_twice(
    game: &Drawn,
    codes: &mut [u64],
    counts: &mut [u16],
) -> Result<Settled, SettleFault>
    ensures { Outcome (left_only (left_only (drawn game.now.start game.now.rows.now game.now.replies.now))) codes.old counts.old codes.new counts.new result }
{
    settle(
        &LeftOnly {
            game: LeftOnly { game: *game },
        },
        codes,
        counts,
    )
}

// A way is a value and no closure: what is said of a match and of its answer goes by it too.
pub(crate) fn settle_by(
    way: Way,
    game: &Drawn,
    codes: &mut [u64],
    counts: &mut [u16],
) -> Result<Settled, SettleFault>
    ensures { Outcome (seen_by way (drawn game.now.start game.now.rows.now game.now.replies.now)) codes.old counts.old codes.new counts.new result }
{
    match way {
        Way::Plain => settle_drawn(game, codes, counts),
        Way::LeftOnly => settle_drawn_left(game, codes, counts),
        Way::LeftOnlyTwice => settle_left_twice(game, codes, counts),
        Way::AgainstEvens => settle_against_evens(game, codes, counts),
    }
}
