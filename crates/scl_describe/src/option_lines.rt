//! The rows of a description that say what became of each option of a command line.
ghost use Rattle.std.specs.Prelude.{◌≡◌, IfOk, OnOk};
ghost use Rattle.std.specs.Option.{option_copied};
ghost use Rattle.scl_description.specs.Rows.{entry_rows};
ghost use Rattle.scl_description.specs.Takers.{Adds};
ghost use Rattle.scl_rows.specs.Rows.{told};
ghost use Rattle.scl_values.specs.Words.{words_of};
ghost use Rattle.scl_describe.specs.OptionLines.{bytes_field, fields_given, flag_fields, index_entry, number_field, options_given, place_fields};

use scl_description::{TakesRows, tell_row_of, tell_word};
use scl_rows::Row;
use scl_text::Mem;
use scl_text::command::{append_words, push_words};
use std::alloc::Global;

/// The field of a number that there may be.
fn number_field(alloc: Global, number: Option<usize>) -> Mem<Vec<u8>>
    ensures { IfOk result (λ field. field.items ≡ number_field number) }
{
    match number {
        Some(number) => Ok(number.to_string(alloc)?.into_bytes()),
        None => Vec::from_slice(alloc, b"-"),
    }
}

/// The field of bytes that there may be, which may be any: they follow an equals sign.
fn bytes_field(alloc: Global, bytes: Option<&[u8]>) -> Mem<Vec<u8>>
    ensures { IfOk result (λ field. field.items ≡ bytes_field (option_copied bytes.entry)) }
{
    match bytes {
        Some(bytes) => {
            let mut field = Vec::from_slice(alloc, b"=")?;
            field.extend_from_slice(bytes)?;
            Ok(field)
        }
        None => Vec::from_slice(alloc, b"-"),
    }
}

/// Where the option comes from and goes, the given word that brought it, and its kind.
fn place_fields(alloc: Global, row: &Row) -> Mem<Vec<Vec<u8>>>
    ensures { IfOk result (λ fields. words_of fields.items ≡ place_fields (told row.now)) }
{
    let origin = Vec::from_slice(alloc, row.origin.name().as_bytes())?;
    let destination = Vec::from_slice(alloc, row.destination.name().as_bytes())?;
    let at = number_field(alloc, row.at)?;
    let kind = Vec::from_slice(alloc, row.kind.as_bytes())?;
    Ok(vec![in alloc; origin, destination, at, kind]?)
}

/// Its flag, its value, and how many words were given.
fn flag_fields(alloc: Global, row: &Row) -> Mem<Vec<Vec<u8>>>
    ensures { IfOk result (λ fields. words_of fields.items ≡ flag_fields (told row.now)) }
{
    let flag = bytes_field(alloc, row.flag.map(str::as_bytes))?;
    let value = bytes_field(alloc, row.value.as_deref())?;
    let given = number_field(alloc, Some(row.given.len()))?;
    Ok(vec![in alloc; flag, value, given]?)
}

/// What stands in the row of an option.
fn option_fields(alloc: Global, row: &Row) -> Mem<Vec<Vec<u8>>>
    ensures { IfOk result (λ fields. words_of fields.items ≡ fields_given row.now) }
{
    let mut fields = place_fields(alloc, row)?;
    append_words(&mut fields, flag_fields(alloc, row)?)?;
    push_words(alloc, &mut fields, &row.given)?;
    push_words(alloc, &mut fields, &row.printed)?;
    Ok(fields)
}

/// Tells a row for each option.
pub(crate) fn tell_options<R: TakesRows>(alloc: Global, rows: &mut R, options: &[Row]) -> Mem<()>
    ensures { OnOk result (Adds R.has rows.old rows.new (entry_rows (options_given options.now))) }
{
    for option in options {
        tell_row_of(rows, "option", &option_fields(alloc, option)?)?;
    }
    Ok(())
}

/// Tells the row of an index, if there is one.
pub(crate) fn tell_index<R: TakesRows>(
    alloc: Global,
    rows: &mut R,
    name: &str,
    index: Option<usize>,
) -> Mem<()>
    ensures { OnOk result (Adds R.has rows.old rows.new (entry_rows (index_entry name.now index))) }
{
    match index {
        Some(index) => tell_word(rows, name, index.to_string(alloc)?.as_bytes()),
        None => Ok(()),
    }
}
