// A question to a match whose answer is 0 where there is none.
ghost use Rattle.std.specs.Prelude.{◌≡◌, length};
ghost use Rattle.std.specs.List.{slice_get};
ghost use Rattle.games.specs.Meaning.{replies_of};

use games::Match;

// The number of replies to a challenge, 0 where there is none: listing and rounds ask alike.
pub(crate) fn replies_or<M: Match>(game: &M, code: u64, n: usize) -> usize
    ensures { result ≡ length (replies_of (slice_get ((M.Match.meaning game.now).at code) n)) }
{
    game.replies(code, n).unwrap_or(0)
}
