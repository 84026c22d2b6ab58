//! Rows in a text: lines of escaped fields, separated by one space. The first field says what the row is.
ghost use Rattle.std.specs.Prelude.{◌≡◌, ◌++◌, OnOk};
ghost use Rattle.scl_description.specs.Rows.{entry_text, lone, row_entry, yes_entry};

use crate::taker::{tell_word, tell_yes};
use scl_text::Mem;

/// Appends a row with this name and this word (docs/RULES.md, Descriptions).
pub fn push_word(text: &mut Vec<u8>, name: &str, word: &[u8]) -> Mem<()>
    ensures { OnOk result (text.new.items ≡ text.old.items ++ entry_text (row_entry name.now (lone word.now))) }
{
    tell_word(text, name, word)
}

/// Appends a row with only the name, if it holds.
pub fn push_yes(text: &mut Vec<u8>, name: &str, holds: bool) -> Mem<()>
    ensures { OnOk result (text.new.items ≡ text.old.items ++ entry_text (yes_entry name.now holds)) }
{
    tell_yes(text, name, holds)
}
