// Pairs are formed from values of any kind.
ghost use Rattle.std.specs.Prelude.{◌≡◌, ◌≤◌, map, length};
ghost use Rattle.std.specs.Option.{option_map};
ghost use Rattle.lists.specs.Held.{held};
ghost use Rattle.naming.specs.Names.{number};
ghost use Rattle.pairs.specs.Order.{pair_of_values};
ghost use Rattle.pairs.specs.Stored.{pair_model};

use crate::Pair;
use lists::BoundedVec;
use naming::names as name_all;
use pages::Name;
use values::Kind;

// The names of one side.
fn side(names: &[Name]) -> BoundedVec<Name, 4>
    requires { length names.now ≤ 4 }
    ensures { held result ≡ names.now }
{
    let mut side = BoundedVec::new(Name(0));
    side.extend(names);
    side
}

impl Pair {
    // The pair of two screens whose slots hold these values; none for a screen above 31 or more than four slots.
    pub fn of<K: Kind>(left: u8, right: u8, lefts: &[K], rights: &[K]) -> Option<Pair>
        ensures { option_map pair_model result ≡ pair_of_values K.Kind.same left right lefts.now rights.now }
    {
        if left >= 32 || right >= 32 {
            return None;
        }
        let names = name_all(lefts, rights)?;
        let (lefts, rights) = names.as_slice().split_at(lefts.len());
        Some(Pair {
            left,
            right,
            lefts: side(lefts),
            rights: side(rights),
        })
    }

    // The names of the left slots.
    pub fn lefts(&self) -> &[Name]
        ensures is { map number result.now ≡ (pair_model self.now).lefts }
        ensures few { length result.now ≤ 4 }
    {
        self.lefts.as_slice()
    }

    // The names of the right slots.
    pub fn rights(&self) -> &[Name]
        ensures is { map number result.now ≡ (pair_model self.now).rights }
        ensures few { length result.now ≤ 4 }
    {
        self.rights.as_slice()
    }
}
