// The codes that a match leads to, in lent memory.
ghost use Rattle.std.specs.Prelude.{◌≡◌, ◌<◌, ◌≤◌, [], ◌∷◌, length, take};
ghost use Rattle.games.specs.Listing.{with_new, listing};
ghost use Rattle.settle.specs.Grown.{Grows};

use crate::asking::replies_or;
use games::Match;
use values::search::position;

// One code more, unless it is listed; none where there is no room. The list is the first len entries of lent memory: a
// struct of the two would have to promise, besides, that it still holds that memory.
fn add(codes: &mut [u64], len: usize, y: u64) -> Option<usize>
    requires { len ≤ length codes.old }
    ensures { Grows codes.old codes.new (with_new (take len codes.old) (y ∷ [])) result }
{
    if position(&codes[..len], &y).is_some() {
        return Some(len);
    }
    if len == codes.len() {
        return None;
    }
    codes[len] = y;
    Some(len + 1)
}

// All codes that the match leads to, in order; none where they do not fit.
pub(crate) fn list_codes<M: Match>(game: &M, codes: &mut [u64]) -> Option<usize>
    requires { 0 < length codes.old }
    ensures { Grows codes.old codes.new (listing (M.Match.meaning game.now) (length codes.old)) result }
{
    codes[0] = game.start();
    let mut len = 1;
    let mut i = 0;
    // The list grows while it is walked, so no iterator can hold it. A match is asked by positions, n and k.
    while i < len {
        let code = codes[i];
        for n in 0..game.count(code) {
            for k in 0..replies_or(game, code, n) {
                let y = game.next(code, n, k).unwrap_or(0);
                len = add(codes, len, y)?;
            }
        }
        i += 1;
    }
    Some(len)
}
