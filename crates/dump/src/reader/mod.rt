// The reader of frames: what it awaits, and the parts of a page that have come.
ghost use Rattle.std.specs.Prelude.{◌≡◌, ◌+◌, ◌≤◌, true, length};
ghost use Rattle.lists.specs.Held.{held};
ghost use Rattle.dump.specs.Due.{screens_due, lines_due, some_due};

pub(crate) mod steps;

use pages::Parts;

// What is awaited: the header, then the screens, then the lines, each with how many more are to come.
#[derive(Clone, Copy)]
pub(crate) enum Due {
    Header,
    Screens { more: u8, lines: u8 },
    Lines { more: u8 },
    Nothing,
}

// There is room for all that is due.
#[derive(Drop)]
pub(crate) struct Reader {
    due: Due,
    parts: Parts,
    ghost some: { some_due due ≡ true },
    ghost wide: { length (held parts.screens) + screens_due due ≤ 32 },
    ghost long: { length (held parts.lines) + lines_due due ≤ 128 },
}
