// Lists without a heap, and one question put to each item of a list.
#![tactic(auto)]

ghost use Rattle.std.specs.Prelude.{◌≡◌, ◌≤◌, ⊤, length};

use std::alloc::AllocError;

pub mod ops;
pub mod predicate;

// A vector that holds as many items as it can takes no more.
#[derive(Clone, Copy, Debug, PartialEq, Eq)]
pub struct Full;

// A vector of at most N items. Only the first len of the array are items.
// It is an array with a length beside it, since a library here does not allocate.
// It has no model, since that of a Copy type gives all fields back from the view, and the places behind len are not in it.
pub struct BoundedVec<T, const N: usize> {
    items: [T; N],
    len: usize,
    ghost whole: { length items ≡ N },
    ghost within: { len ≤ N },
}

// By hand: beside ghost fields and a type parameter Clone is not derived.
impl<T: Copy, const N: usize> Clone for BoundedVec<T, N> {
    ghost is_clone = { λ x y. y ≡ x };

    ghost is_infallible = { λ _. ⊤ };

    fn clone(&self) -> Result<Self, AllocError> {
        Ok(*self)
    }
}

impl<T: Copy, const N: usize> Copy for BoundedVec<T, N> {}
