// A test of one item, and which items of a slice pass it.
ghost use Rattle.std.specs.Prelude.{◌≡◌, ◌≤◌, Bool, length, filter};
ghost use Rattle.std.specs.List.{slice_get as nth_item};
ghost use Rattle.lists.specs.Every.{every};

pub trait Predicate<T> {
    ghost passes: { Self → T → Bool };

    fn test(&self, item: &T) -> bool
        ensures { result ≡ passes self.now item.now };
}

pub fn all<T: Copy, P: Predicate<T>>(predicate: &P, items: &[T]) -> bool
    ensures { result ≡ every (P.Predicate.passes predicate.now) items.now }
{
    items.iter().all(|x| predicate.test(x))
}

// How many items pass.
pub fn count<T: Copy, P: Predicate<T>>(predicate: &P, items: &[T]) -> usize
    ensures is { result ≡ length (filter (P.Predicate.passes predicate.now) items.now) }
    ensures within { result ≤ length items.now }
{
    items.iter().filter(|x| predicate.test(x)).count()
}

// The n-th item that passes, from 0.
pub fn nth<T: Copy, P: Predicate<T>>(predicate: &P, items: &[T], n: usize) -> Option<T>
    ensures { result ≡ nth_item (filter (P.Predicate.passes predicate.now) items.now) n }
{
    items.iter().filter(|x| predicate.test(x)).nth(n).copied()
}
