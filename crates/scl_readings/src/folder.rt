//! The folders that a compiler says it searches.
ghost use Rattle.std.specs.Prelude.{◌≡◌, IfOk, map};
ghost use Rattle.std.specs.Option.{option_copied, option_map};
ghost use Rattle.scl_readings.specs.Folders.{between, folders};

use crate::cut::first_place;
use crate::lines::lines_after;
use scl_values::Mem;
use std::alloc::Global;

/// What stands after the first place of `begin`, up to the next of `end`.
pub fn between<'a>(begin: &[u8], end: &[u8], text: &'a [u8]) -> Option<&'a [u8]>
    ensures { option_copied result ≡ between begin.now end.now text.now }
{
    let at = first_place(begin, text)?;
    let rest = &text[at + begin.len()..];
    let count = first_place(end, rest)?;
    Some(&rest[..count])
}

/// The folders that the compiler searches for includes, as `-v` names them; none if it names no list.
pub fn folders<'a>(alloc: Global, said: &'a [u8]) -> Mem<Option<Vec<&'a [u8]>>>
    ensures { IfOk result (λ found. option_map (λ lines. map (λ line. line.now) lines.items) found ≡ folders said.now) }
{
    match between(b"search starts here:", b"End of search list.", said) {
        Some(list) => Ok(Some(lines_after(alloc, b' ', list)?)),
        None => Ok(None),
    }
}
