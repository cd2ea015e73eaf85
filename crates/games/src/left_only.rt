// The layer over any match that keeps only the left's challenges. It knows nothing of the match below but its meaning.
ghost use Rattle.std.specs.Prelude.{◌≡◌};
ghost use Rattle.std.specs.List.{slice_get};
ghost use Rattle.games.specs.Meaning.{side_at};
ghost use Rattle.games.specs.Ways.{chosen};
ghost use Rattle.games.specs.LeftOnly.{left_only, lefts, some_left};
ghost use Rattle.games.specs.Bounds.{left_only_below};

use crate::{Match, Side};

// START and TOP are those of the match below.
#[derive(Drop)]
pub struct LeftOnly<M> {
    pub game: M,
}

impl<M: Match> LeftOnly<M> {
    // Whether the i-th of all challenges is the left's.
    fn is_left(&self, code: u64, i: usize) -> bool
        ensures { result ≡ some_left (side_at (M.Match.meaning self.now.game) code i) }
    {
        self.game.side(code, i) == Some(Side::Left)
    }

    // Where the n-th challenge of the left stands among all.
    fn place(&self, code: u64, n: usize) -> Option<usize>
        ensures { chosen ((M.Match.meaning self.now.game).at code) result ≡ slice_get (lefts ((M.Match.meaning self.now.game).at code)) n }
    {
        (0..self.game.count(code))
            .filter(|i| self.is_left(code, *i))
            .nth(n)
    }
}

impl<M: Match> Match for LeftOnly<M> {
    ghost meaning = { λ s. left_only (M.Match.meaning s.game) };

    ghost below = { λ s. left_only_below (M.Match.meaning s.game) (M.Match.below s.game) };

    fn start(&self) -> u64 {
        self.game.start()
    }

    fn top(&self) -> u64 {
        self.game.top()
    }

    // The chain of `place` once more: no function can hand one out.
    fn count(&self, code: u64) -> usize {
        (0..self.game.count(code))
            .filter(|i| self.is_left(code, *i))
            .count()
    }

    fn side(&self, code: u64, n: usize) -> Option<Side> {
        let k = self.place(code, n)?;
        self.game.side(code, k)
    }

    fn replies(&self, code: u64, n: usize) -> Option<usize> {
        let k = self.place(code, n)?;
        self.game.replies(code, k)
    }

    fn next(&self, code: u64, n: usize, j: usize) -> Option<u64> {
        let k = self.place(code, n)?;
        self.game.next(code, k, j)
    }
}
