// Pairs as numbers: left screen, right screen, then a digit in base 16 for each of four slots a side, 15 where there is none.
ghost use Rattle.std.specs.Prelude.{◌≡◌, ◌^◌, ◌<◌, map, take, IfSome, Some, filter, slice_index_or};
ghost use Rattle.std.specs.Option.{option_map};
ghost use Rattle.lists.specs.Held.{held};
ghost use Rattle.naming.specs.Names.{number};
ghost use Rattle.twins.specs.Codes.{code as code_of, four as four_of, names_of};
ghost use Rattle.pairs.specs.Decoding.{used_digit, decoded};
ghost use Rattle.pairs.specs.Stored.{pair_model};

use crate::Pair;
use lists::BoundedVec;
use pages::Name;

// The digit of one slot.
fn digit(names: &[Name], k: usize) -> u64
    ensures is { result ≡ slice_index_or (map number names.now) k 15 }
    ensures small { result < 256 }
{
    names.get(k).map_or(15, |n| u64::from(n.0))
}

// The digits of one side, written out: the sum in a fold would have no bound.
fn four(names: &[Name]) -> u64
    ensures is { result ≡ four_of (map number names.now) }
    ensures small { result < 2 ^ 21 }
{
    ((digit(names, 0) * 16 + digit(names, 1)) * 16 + digit(names, 2)) * 16 + digit(names, 3)
}

// The digits that are names.
fn used(digits: &[u8]) -> BoundedVec<u8, 4>
    ensures { held result ≡ take 4 (filter used_digit digits.now) }
{
    let mut out = BoundedVec::new(0u8);
    for d in digits.iter().filter(|d| **d != 15) {
        let _ = out.push(*d);
    }
    out
}

// The names of one side, from its digits.
fn side_names(digits: u64) -> BoundedVec<u8, 4>
    requires { digits < 2 ^ 16 }
    ensures { held result ≡ names_of digits }
{
    used(&[
        (digits / 4096) as u8,
        (digits / 256 % 16) as u8,
        (digits / 16 % 16) as u8,
        (digits % 16) as u8,
    ])
}

impl Pair {
    // The code of a pair, from which it is decoded again.
    pub fn code(&self) -> u64
        ensures is { result ≡ code_of (pair_model self.now) }
        ensures below { result < 2 ^ 42 }
        ensures back { decoded result ≡ Some (pair_model self.now) }
    {
        u64::from(self.left) * 0x20_0000_0000
            + u64::from(self.right) * 0x1_0000_0000
            + four(self.lefts()) * 0x1_0000
            + four(self.rights())
    }

    // The pair with this code; none for a number that is no pair's code.
    pub fn from_code(code: u64) -> Option<Pair>
        ensures is { option_map pair_model result ≡ decoded code }
        ensures exact { IfSome result (λ p. code_of (pair_model p) ≡ code) }
    {
        let left = u8::try_from(code / 0x20_0000_0000).ok()?;
        let right = code / 0x1_0000_0000 % 32;
        let lefts = side_names(code / 0x1_0000 % 0x1_0000);
        let rights = side_names(code % 0x1_0000);
        let pair = Pair::of(left, right as u8, lefts.as_slice(), rights.as_slice())?;
        (pair.code() == code).then_some(pair)
    }
}
