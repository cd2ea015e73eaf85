// A page from its parts, and its parts again.
ghost use Rattle.std.specs.Prelude.{◌≡◌, map};
ghost use Rattle.std.specs.Option.{option_map};
ghost use Rattle.pages.specs.Model.{line_model, parts_model};
ghost use Rattle.pages.specs.Formed.{formed_page};
ghost use Rattle.pages.specs.Stored.{page_model};

use super::Page;
use crate::{Line, Name, Parts, Screen};

impl Page {
    // The page with these parts, if they make a well-formed one.
    pub fn new(parts: Parts) -> Option<Page>
        ensures { option_map page_model result ≡ formed_page (parts_model parts) }
    {
        // Not `then`: its closure would have to require again what the field `formed` says.
        if parts.is_formed() {
            Some(Page { parts })
        } else {
            None
        }
    }

    pub fn screens(&self) -> &[Screen]
        ensures { result.now ≡ (page_model self.now).screens }
    {
        self.parts.screens.as_slice()
    }

    pub fn lines(&self) -> &[Line]
        ensures { map line_model result.now ≡ (page_model self.now).lines }
    {
        self.parts.lines.as_slice()
    }

    // The screen that it starts on.
    pub fn start(&self) -> u8
        ensures { result ≡ (page_model self.now).start }
    {
        self.parts.start
    }

    // The start numbers, one for each slot of the start screen.
    pub fn numbers(&self) -> &[Name]
        ensures { result.now ≡ (page_model self.now).numbers }
    {
        self.parts.numbers.as_slice()
    }
}
