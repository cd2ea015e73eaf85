// A page. One that exists is well formed.
ghost use Rattle.std.specs.Prelude.{◌≡◌, true};
ghost use Rattle.pages.specs.Model.{parts_model};
ghost use Rattle.pages.specs.Formed.{well_formed};

pub mod parts;

use crate::Parts;

// Parts that fit together.
#[derive(Clone, Copy)]
pub struct Page {
    parts: Parts,
    ghost formed: { well_formed (parts_model parts) ≡ true },
}
