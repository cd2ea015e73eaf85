ghost use Rattle.std.specs.Prelude.{◌≡◌, ℕ, ◌≤◌, ltb, List, [], ◌∷◌, ◌++◌, length, take, if◌then◌else◌, nat_lt, Ok, Err};
ghost use Rattle.lists.specs.Held.{held};

use super::{BoundedVec, Full};

impl<T: Copy, const N: usize> BoundedVec<T, N> {
    // An empty vector; the fill is never seen.
    pub fn new(fill: T) -> Self
        ensures { held result ≡ [] }
    {
        BoundedVec {
            items: [fill; N],
            len: 0,
        }
    }

    pub fn len(&self) -> usize
        ensures is { result ≡ length (held self.now) }
        ensures within { result ≤ N }
    {
        self.len
    }

    pub fn as_slice(&self) -> &[T]
        ensures { result.now ≡ held self.now }
    {
        &self.items[..self.len]
    }

    // Adds an item at the end; nothing is changed where N are held.
    pub fn push(&mut self, item: T) -> Result<(), Full>
        ensures said { result ≡ (if nat_lt (length (held self.old)) N then Ok tt else Err record {}) }
        ensures held { held self.new ≡ (if ltb (length (held self.old)) N then held self.old ++ item ∷ [] else held self.old) }
    {
        if self.len >= N {
            return Err(Full);
        }
        self.items[self.len] = item;
        self.len += 1;
        Ok(())
    }

    // Adds items at the end, as many as there is room for.
    pub fn extend(&mut self, more: &[T])
        ensures { held self.new ≡ take N (held self.old ++ more.now) }
    {
        for x in more {
            let _ = self.push(*x);
        }
    }
}
