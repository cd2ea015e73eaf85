// Pages as programs: how a page moves with values of any type, and the program that it tables.
#![tactic(auto)]

ghost use Rattle.std.specs.Prelude.{◌≡◌};
ghost use Rattle.std.specs.List.{slice_get};
ghost use Rattle.std.specs.Option.{option_map};
ghost use Rattle.pages.specs.Model.{line_model};
ghost use Rattle.pages.specs.Stored.{page_model};
ghost use Rattle.programs.specs.Places.{moved_by, value_of};
ghost use Rattle.programs.specs.Tables.{MovesExactly};

pub mod text;

use pages::page::Page;
use pages::{Line, LineKind, Slot, Source};

// The slots and the value that a line moves with are two parameters: a struct of both would be made at each call only to
// be taken apart in it.

// The value of a slot; the other value where there is no such slot.
fn slot_or<V: Copy>(slots: &[V], slot: Slot, other: V) -> V
    ensures { result ≡ value_of slots.now other (Source.Kept slot) }
{
    slots.get(usize::from(slot.0)).copied().unwrap_or(other)
}

// What a slot of the next screen gets by its source, where the line moves with this value.
pub fn source_value<V: Copy>(slots: &[V], value: V, source: Source) -> V
    ensures { result ≡ value_of slots.now value source }
{
    match source {
        Source::Kept(slot) => slot_or(slots, slot, value),
        Source::Taken => value,
    }
}

// The value with which a line moves: the one shown or, in a TAKE, the value given.
pub fn moved<V: Copy>(line: &Line, slots: &[V], value: V) -> V
    ensures { result ≡ moved_by line.now.kind slots.now value }
{
    match line.kind {
        LineKind::Take => value,
        LineKind::Show(slot) => slot_or(slots, slot, value),
    }
}

// The value with which a numbered line moves, none beyond the last. The page's moves with values of this type are
// exactly the transitions of its program.
pub fn moved_by<V: Copy>(page: &Page, number: usize, slots: &[V], value: V) -> Option<V>
    ensures is { result ≡ option_map (λ l. moved_by l.kind slots.now value) (slice_get (page_model page.now).lines number) }
    ensures exactly { MovesExactly V (page_model page.now) }
{
    page.lines()
        .get(number)
        .map(|line| moved(line, slots, value))
}
