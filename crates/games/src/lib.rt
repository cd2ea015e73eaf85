// Matches: what one means, and the questions that are put to it.
#![tactic(auto)]

ghost use Rattle.std.specs.Prelude.{◌≡◌, ℕ, length};
ghost use Rattle.games.specs.Meaning.{Meaning, Below, side_at, replies_to, next_at};

pub mod drawn;
pub mod left_only;

// The side that makes a challenge; the other side replies.
#[derive(Clone, Copy, Debug, PartialEq, Eq)]
pub enum Side {
    Left,
    Right,
}

// A match means, for each code, a list of challenges; each has a side and a list of replies, which are codes.
// No question alters a match.
pub trait Match {
    ghost meaning: { Self → Meaning };

    // START and every reply lie below TOP, TOP is at most 2^62, and codes from TOP on have no challenges.
    ghost below: { (x : Self) → Below (meaning x) };

    // START: the first code.
    fn start(&self) -> u64
        ensures { result ≡ (meaning self.now).start };

    // TOP: a bound above all codes.
    fn top(&self) -> u64
        ensures { result ≡ (meaning self.now).top };

    // COUNT: how many challenges there are at a code.
    fn count(&self, code: u64) -> usize
        ensures { result ≡ length ((meaning self.now).at code) };

    // SIDE: whose challenge the n-th is.
    fn side(&self, code: u64, n: usize) -> Option<Side>
        ensures { result ≡ side_at (meaning self.now) code n };

    // REPLIES: how many replies the n-th challenge has.
    fn replies(&self, code: u64, n: usize) -> Option<usize>
        ensures { result ≡ replies_to (meaning self.now) code n };

    // NEXT: the code that the k-th reply to the n-th challenge leads to.
    fn next(&self, code: u64, n: usize, k: usize) -> Option<u64>
        ensures { result ≡ next_at (meaning self.now) code n k };
}
