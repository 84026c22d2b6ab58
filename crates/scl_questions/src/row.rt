//! Rows, and the text that is hashed of them.
ghost use Rattle.std.specs.Prelude.{◌≡◌, ◌++◌, ◌∷◌, map, IfOk, OnOk, length};
ghost use Rattle.std.specs.Fmt.{decimal};
ghost use Rattle.scl_lookup.specs.Framing.{framed, framed_one};
ghost use Rattle.scl_lookup.specs.Keys.{field_text, row_text, text_of};
ghost use Rattle.scl_questions.specs.Views.{field_of, row_of, rows_of};

use scl_values::Mem;
use std::alloc::Global;

/// A field of what is hashed.
#[derive(Debug, PartialEq, Eq, Drop)]
pub enum Field {
    /// A text.
    Said(Vec<u8>),
    /// A sum of bytes.
    Summed(Vec<u8>),
}

/// Appends a piece after its length, so that none runs into the next.
fn push_framed(alloc: Global, text: &mut Vec<u8>, piece: &[u8]) -> Mem<()>
    ensures { OnOk result (text.new.items ≡ text.old.items ++ framed_one piece.now) }
{
    let length = piece.len();
    text.extend_from_slice(format!(in alloc; "{length}:")?.as_bytes())?;
    text.extend_from_slice(piece)
}

fn field_text(alloc: Global, field: &Field) -> Mem<Vec<u8>>
    ensures { IfOk result (λ text. text.items ≡ field_text (field_of field.now)) }
{
    let (mark, written) = match field {
        Field::Said(text) => (b':', text),
        Field::Summed(sum) => (b'=', sum),
    };
    let mut text = Vec::new(alloc);
    text.push(mark)?;
    text.extend_from_slice(written)?;
    Ok(text)
}

fn row_text(alloc: Global, row: &[Field]) -> Mem<Vec<u8>>
    ensures { IfOk result (λ text. text.items ≡ row_text (row_of row.now)) }
{
    let mut text = Vec::new(alloc);
    for field in row {
        push_framed(alloc, &mut text, &field_text(alloc, field)?)?;
    }
    Ok(text)
}

/// Appends the text of rows, which is hashed: each row after its length, with each field after its own.
pub fn push_text(alloc: Global, text: &mut Vec<u8>, rows: &[Vec<Field>]) -> Mem<()>
    ensures { OnOk result (text.new.items ≡ text.old.items ++ text_of (rows_of rows.now)) }
{
    for row in rows {
        push_framed(alloc, text, &row_text(alloc, row)?)?;
    }
    Ok(())
}
