// The search for an equal element, one text for every kind.
ghost use Rattle.std.specs.Prelude.{◌≡◌};
ghost use Rattle.values.specs.Places.{first_place};

use crate::Kind;

// The first place whose element means the same as what is wanted, or none.
pub fn position<K: Kind>(items: &[K], wanted: &K) -> Option<usize>
    ensures { result ≡ first_place (K.Kind.same wanted.now) items.now }
{
    items.iter().position(|x| wanted.equals(x))
}
