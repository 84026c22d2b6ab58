//! The name of what is kept.
ghost use Rattle.std.specs.Prelude.{◌≡◌, ◌++◌, ◌∷◌, ◌<◌, [], codes, IfOk, OnOk};
ghost use Rattle.scl_lookup.specs.Keys.{said};
ghost use Rattle.scl_questions.specs.Views.{field_of, row_of, rows_of};
ghost use Rattle.scl_values.specs.Escaped.{digit_of};
ghost use Rattle.scl_talks.specs.Names.{answering, digits_of, first_name, hex, name_of, release, sccache_rules};

use scl_questions::{Field, push_text};
use scl_values::Mem;
use sha2::{Digest, Sha256};
use std::alloc::Global;

/// Which release answers.
pub const RELEASE: &str = "1.0.0";

/// By the rules of which sccache.
pub const RULES: &str = "0.19.0";

fn said(alloc: Global, text: &str) -> Mem<Field>
    ensures { IfOk result (λ field. field_of field ≡ said text.now) }
{
    Ok(Field::Said(Vec::from_slice(alloc, text.as_bytes())?))
}

/// The row of which release answers.
fn made_by(alloc: Global) -> Mem<Vec<Field>>
    ensures { IfOk result (λ row. row_of row.items ≡ answering release sccache_rules) }
{
    let mut row = Vec::new(alloc);
    row.push(said(alloc, "made-by")?)?;
    row.push(said(alloc, RELEASE)?)?;
    row.push(said(alloc, RULES)?)?;
    Ok(row)
}

/// The hexadecimal digit of a number below 16.
fn digit_of(number: u8) -> u8
    requires { number < 16 }
    ensures { result ≡ digit_of number }
{
    if number < 10 {
        b'0' + number
    } else {
        b'a' - 10 + number
    }
}

/// Appends the hexadecimal digits of a byte.
fn push_digits(text: &mut Vec<u8>, byte: u8) -> Mem<()>
    ensures { OnOk result (text.new.items ≡ text.old.items ++ digits_of byte) }
{
    text.extend_from_slice(&[digit_of(byte / 16), digit_of(byte % 16)])
}

/// Bytes in hexadecimal digits.
fn hex(alloc: Global, bytes: &[u8]) -> Mem<Vec<u8>>
    ensures { IfOk result (λ text. text.items ≡ hex bytes.now) }
{
    let mut text = Vec::new(alloc);
    for byte in bytes {
        push_digits(&mut text, *byte)?;
    }
    Ok(text)
}

/// The name under which what has these rows is kept: the sum of their text, and of which release answers.
pub(crate) fn name_of(alloc: Global, rows: &[Vec<Field>]) -> Mem<Vec<u8>>
    ensures { IfOk result (λ name. name.items ≡ name_of (rows_of rows.now)) }
{
    let mut front = Vec::new(alloc);
    front.push(made_by(alloc)?)?;
    let mut text = Vec::new(alloc);
    push_text(alloc, &mut text, &front)?;
    push_text(alloc, &mut text, rows)?;
    hex(alloc, &Sha256::digest(&text))
}

/// The row of what is asked for at a directory.
fn asked_for(alloc: Global, place: &[u8], described: &[u8]) -> Mem<Vec<Field>>
    ensures { IfOk result (λ row. row_of row.items ≡ said (codes "first") ∷ said place.now ∷ said described.now ∷ []) }
{
    let mut row = Vec::new(alloc);
    row.push(said(alloc, "first")?)?;
    row.push(Field::Said(Vec::from_slice(alloc, place)?))?;
    row.push(Field::Said(Vec::from_slice(alloc, described)?))?;
    Ok(row)
}

/// The name under which lists of answers stand to what is asked for at a directory.
pub(crate) fn first_name(alloc: Global, place: &[u8], described: &[u8]) -> Mem<Vec<u8>>
    ensures { IfOk result (λ name. name.items ≡ first_name place.now described.now) }
{
    let mut rows = Vec::new(alloc);
    rows.push(asked_for(alloc, place, described)?)?;
    name_of(alloc, &rows)
}
