// Tests of kinds, of drawn matches with and without the layer, and of settling, as tables.
#![tactic(auto)]

ghost use Rattle.std.specs.Prelude.{◌≡◌};

#[cfg(test)]
mod asked;
#[cfg(test)]
mod settled;
#[cfg(test)]
mod valued;

use games::drawn::Row;

// A row in one line of a table. A public one of the library would promise no more than its fields say.
pub(crate) fn row(code: u32, side: u8, first: u32, number: u32) -> Row
    ensures { (result.code ≡ code) × ((result.side ≡ side) × ((result.first ≡ first) × (result.number ≡ number))) }
{
    Row {
        code,
        side,
        first,
        number,
    }
}
