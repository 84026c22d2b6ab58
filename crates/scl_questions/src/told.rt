//! What an answer adds to a row of what is hashed.
ghost use Rattle.std.specs.Prelude.{◌≡◌, ◌++◌, ◌∷◌, [], IfOk};
ghost use Rattle.std.specs.Option.{option_copied, option_map};
ghost use Rattle.scl_values.specs.Words.{words_of};
ghost use Rattle.scl_lookup.specs.Keys.{said as said_field, summed as summed_field};
ghost use Rattle.scl_questions.specs.Told.{base_name, called, file_told, maybe_told, program_told, regular_told, unset_told, value_told};
ghost use Rattle.scl_questions.specs.Views.{program_of, row_of, standing_at};

use crate::answer::{Program, Standing};
use crate::row::Field;
use scl_values::Mem;
use std::alloc::Global;

fn said(alloc: Global, mark: &[u8], text: &[u8]) -> Mem<Vec<Field>>
    ensures { IfOk result (λ row. row_of row.items ≡ said_field (mark.now ++ text.now) ∷ []) }
{
    let mut field = Vec::from_slice(alloc, mark)?;
    field.extend_from_slice(text)?;
    let mut row = Vec::new(alloc);
    row.push(Field::Said(field))?;
    Ok(row)
}

fn summed(alloc: Global, sum: &[u8]) -> Mem<Vec<Field>>
    ensures { IfOk result (λ row. row_of row.items ≡ summed_field sum.now ∷ []) }
{
    let mut row = Vec::new(alloc);
    row.push(Field::Summed(Vec::from_slice(alloc, sum)?))?;
    Ok(row)
}

/// The value of a variable, or that it is not set.
pub fn value_told(alloc: Global, value: Option<&[u8]>) -> Mem<Vec<Field>>
    ensures { IfOk result (λ row. row_of row.items ≡ value_told (option_copied value.entry)) }
{
    match value {
        Some(value) => said(alloc, b"=", value),
        None => said(alloc, b"-", b""),
    }
}

/// That a variable is not set; nothing may be kept if it is.
pub fn unset_told(alloc: Global, value: Option<&[u8]>) -> Option<Vec<Field>>
    ensures { option_map (λ row. row_of row.items) result ≡ unset_told (option_copied value.entry) }
{
    match value {
        Some(_) => None,
        None => Some(Vec::new(alloc)),
    }
}

/// The bytes of a file; nothing may be kept if there is none.
pub fn file_told(alloc: Global, standing: Option<&Standing>) -> Mem<Option<Vec<Field>>>
    ensures { IfOk result (λ row. option_map (λ row. row_of row.items) row ≡ file_told (standing_at standing.entry)) }
{
    match standing {
        Some(Standing::Regular(sum)) => Ok(Some(summed(alloc, sum)?)),
        Some(Standing::Folder | Standing::Special | Standing::Missing) | None => Ok(None),
    }
}

/// The bytes of a file, or that there is a folder or nothing; nothing may be kept if there is what is no file.
pub fn maybe_told(alloc: Global, standing: Option<&Standing>) -> Mem<Option<Vec<Field>>>
    ensures { IfOk result (λ row. option_map (λ row. row_of row.items) row ≡ maybe_told (standing_at standing.entry)) }
{
    match standing {
        Some(Standing::Regular(sum)) => Ok(Some(summed(alloc, sum)?)),
        Some(Standing::Folder) => Ok(Some(said(alloc, b"/", b"")?)),
        Some(Standing::Missing) | None => Ok(Some(said(alloc, b"-", b"")?)),
        Some(Standing::Special) => Ok(None),
    }
}

/// That there is nothing but a file, if anything; nothing may be kept if there is anything else.
pub fn regular_told(alloc: Global, standing: Option<&Standing>) -> Option<Vec<Field>>
    ensures { option_map (λ row. row_of row.items) result ≡ regular_told (standing_at standing.entry) }
{
    match standing {
        Some(Standing::Regular(_) | Standing::Missing) | None => Some(Vec::new(alloc)),
        Some(Standing::Folder | Standing::Special) => None,
    }
}

fn base_name(path: &[u8]) -> &[u8]
    ensures { result.now ≡ base_name path.now }
{
    let mut last = path;
    for (at, byte) in path.iter().enumerate() {
        if *byte == b'/' {
            last = &path[at + 1..];
        }
    }
    last
}

fn called(links: &[Vec<u8>]) -> &[u8]
    ensures { result.now ≡ called (words_of links.now) }
{
    match links {
        [] => &[],
        [name, ..] => base_name(name),
    }
}

/// The name by which a program is called, and the sum; nothing may be kept if there is no program.
pub fn program_told(alloc: Global, program: Option<&Program>) -> Mem<Option<Vec<Field>>>
    ensures { IfOk result (λ row. option_map (λ row. row_of row.items) row ≡ program_told (option_map (λ it. program_of it.now) program.entry)) }
{
    match program {
        None => Ok(None),
        Some(program) => {
            let mut row = said(alloc, b"", called(&program.links))?;
            row.push(Field::Summed(Vec::from_slice(alloc, &program.sum)?))?;
            Ok(Some(row))
        }
    }
}
