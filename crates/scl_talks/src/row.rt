//! The fields of a row.
ghost use Rattle.std.specs.Prelude.{◌≡◌, IfOk};
ghost use Rattle.std.specs.Option.{option_map};
ghost use Rattle.scl_values.specs.Words.{words_of};
ghost use Rattle.scl_description.specs.Rows.{row_of};

use scl_description::{cut_at, read_field};
use scl_values::Mem;
use std::alloc::Global;

/// The fields of a row, with a space between them, if each of them is one.
pub(crate) fn read_row(alloc: Global, text: &[u8]) -> Mem<Option<Vec<Vec<u8>>>>
    ensures { IfOk result (λ fields. option_map (λ them. words_of them.items) fields ≡ row_of text.now) }
{
    let mut fields = Vec::new(alloc);
    let mut left = text;
    while let Some((part, rest)) = cut_at(b' ', left) {
        let Some(field) = read_field(alloc, part)? else {
            return Ok(None);
        };
        fields.push(field)?;
        left = rest;
    }
    let Some(field) = read_field(alloc, left)? else {
        return Ok(None);
    };
    fields.push(field)?;
    Ok(Some(fields))
}
