// The names of values of any kind, in order of first occurrence.
#![tactic(auto)]

ghost use Rattle.std.specs.Prelude.{◌≡◌, ◌+◌, ◌<◌, ◌≤◌, [], ◌∷◌, ◌++◌, map, length, MatchOption};
ghost use Rattle.std.specs.Option.{option_map};
ghost use Rattle.lists.specs.Held.{held};
ghost use Rattle.twins.specs.Naming.{firsts};
ghost use Rattle.values.specs.Places.{first_place};
ghost use Rattle.naming.specs.Names.{number, names, named, next_name, next_after};

use lists::BoundedVec;
use pages::Name;
use values::Kind;
use values::search::position;

// The first place of an equal value in the front and then the back: two slices, since nothing joins them without a heap.
fn met<K: Kind>(front: &[K], back: &[K], wanted: &K) -> Option<usize>
    requires { (length front.now ≤ 4) × (length back.now ≤ 4) }
    ensures { result ≡ first_place (K.Kind.same wanted.now) (front.now ++ back.now) }
{
    position(front, wanted).or_else(|| Some(front.len() + position(back, wanted)?))
}

// The names given so far, and the number of the next.
#[derive(Drop)]
struct Given {
    names: BoundedVec<Name, 8>,
    next: u8,
}

impl Given {
    // One name more: that of the value met at this place, or the next.
    fn add(&mut self, met: Option<usize>)
        requires { (length (held self.old.names) < 8) × (MatchOption met (self.old.next < 255) (λ j. j < length (held self.old.names))) }
        ensures named { map number (held self.new.names) ≡ map number (held self.old.names) ++ next_name (map number (held self.old.names)) self.old.next met ∷ [] }
        ensures next { self.new.next ≡ next_after self.old.next met }
    {
        let name = met.map_or(Name(self.next), |j| self.names.as_slice()[j]);
        let _ = self.names.push(name);
        if met.is_none() {
            self.next += 1;
        }
    }

    // A name for each of these values, where those before have theirs.
    fn add_all<K: Kind>(&mut self, before: &[K], values: &[K])
        requires few { (length before.now ≤ 4) × (length values.now ≤ 4) }
        requires named { map number (held self.old.names) ≡ names K.Kind.same before.now }
        requires next { self.old.next ≡ length (firsts K.Kind.same before.now) }
        ensures named { map number (held self.new.names) ≡ names K.Kind.same (before.now ++ values.now) }
        ensures next { self.new.next ≡ length (firsts K.Kind.same (before.now ++ values.now)) }
    {
        for (i, value) in values.iter().enumerate() {
            self.add(met(before, &values[..i], value));
        }
    }
}

// A name for each slot of two screens, the left slots first: each value not met before gets the next number, from 0.
// None where a side has more than four.
pub fn names<K: Kind>(lefts: &[K], rights: &[K]) -> Option<BoundedVec<Name, 8>>
    ensures { option_map (λ v. map number (held v)) result ≡ named K.Kind.same lefts.now rights.now }
{
    if lefts.len() > 4 || rights.len() > 4 {
        return None;
    }
    let mut given = Given {
        names: BoundedVec::new(Name(0)),
        next: 0,
    };
    given.add_all(&[], lefts);
    given.add_all(lefts, rights);
    Some(given.names)
}
