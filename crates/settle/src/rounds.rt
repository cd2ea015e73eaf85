// Counts, round by round.
ghost use Rattle.std.specs.Prelude.{◌≡◌};
ghost use Rattle.std.specs.List.{slice_get};
ghost use Rattle.lists.specs.Every.{every};
ghost use Rattle.games.specs.Meaning.{replies_of};
ghost use Rattle.games.specs.Counts.{forces};
ghost use Rattle.settle.specs.Rounds.{count_beside, marked, RoundReady, RoundDone, AllClear, CountsAre};

use crate::asking::replies_or;
use games::Match;
use values::search::position;

// What a round reads: a match, its listed codes, the counts so far beside them, and the count that it gives.
#[derive_where(Clone, Copy)]
struct Board<'a, M> {
    game: &'a M,
    codes: &'a [u64],
    counts: &'a [u16],
    n: u16,
}

impl<M: Match> Board<'_, M> {
    // The count beside a code, 0 where it has none.
    fn count_of(&self, y: u64) -> u16
        ensures { result ≡ count_beside self.now.codes.now self.now.counts.now y }
    {
        position(self.codes, &y)
            .and_then(|i| self.counts.get(i))
            .copied()
            .unwrap_or(0)
    }

    // Whether a code has a count below n.
    fn is_marked(&self, y: u64) -> bool
        ensures { result ≡ marked self.now.codes.now self.now.counts.now self.now.n y }
    {
        let c = self.count_of(y);
        0 < c && c < self.n
    }

    // Whether every reply to one challenge has a count below n.
    fn all_marked(&self, code: u64, at: usize) -> bool
        ensures { result ≡ every (marked self.now.codes.now self.now.counts.now self.now.n) (replies_of (slice_get ((M.Match.meaning self.now.game.now).at code) at)) }
    {
        let replies = replies_or(self.game, code, at);
        (0..replies).all(|k| self.is_marked(self.game.next(code, at, k).unwrap_or(0)))
    }

    // Whether some challenge at a code has only replies with counts below n.
    fn forced(&self, code: u64) -> bool
        ensures { result ≡ forces (M.Match.meaning self.now.game.now).at (marked self.now.codes.now self.now.counts.now self.now.n) code }
    {
        (0..self.game.count(code)).any(|at| self.all_marked(code, at))
    }
}

// One round: count n for each code that has it. Answers whether one has.
fn round<M: Match>(game: &M, codes: &[u64], counts: &mut [u16], n: u16) -> bool
    requires { RoundReady (M.Match.meaning game.now) codes.now counts.old n }
    ensures { RoundDone (M.Match.meaning game.now) codes.now counts.new n result }
{
    let mut given = false;
    // The counts go by index: one is written while all are read.
    for (i, code) in codes.iter().enumerate() {
        let board = Board {
            game,
            codes,
            counts,
            n,
        };
        if counts[i] == 0 && board.forced(*code) {
            counts[i] = n;
            given = true;
        }
    }
    given
}

// Round after round, until one gives none.
pub(crate) fn all_rounds<M: Match>(game: &M, codes: &[u64], counts: &mut [u16])
    requires { AllClear (M.Match.meaning game.now) codes.now counts.old }
    ensures { CountsAre (M.Match.meaning game.now) codes.now counts.new }
{
    // No `for`: how many rounds there are is only known from the last.
    let mut n = 1;
    while round(game, codes, counts, n) {
        n += 1;
    }
}
