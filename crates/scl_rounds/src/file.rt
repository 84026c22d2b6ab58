//! What a machine says of the files that texts name.
ghost use Rattle.std.specs.Prelude.{◌≡◌, ◌∷◌, [], IfOk};
ghost use Rattle.std.specs.Option.{option_map};
ghost use Rattle.scl_values.specs.Words.{words_of};
ghost use Rattle.scl_lookup.specs.Keys.{said};
ghost use Rattle.scl_lookup.specs.Questions.{file, times};
ghost use Rattle.scl_questions.specs.Views.{row_of};
ghost use Rattle.scl_rounds.specs.Files.{any_flawed, file_row, files_told, has_flaw, is_regular, times_row, times_told};
ghost use Rattle.scl_rounds.specs.Views.{machine_of};

use crate::answer::{Told, stands};
use scl_questions::{Answer, Field, Question, Standing, answer_to, maybe_told};
use scl_values::Mem;
use std::alloc::Global;

/// Why bytes that a run read may not be read again.
#[derive(Clone, Copy)]
pub(crate) enum Flaw {
    /// A pipe or a device can be read once only.
    Special,
    /// There is nothing any more.
    Gone,
}

/// A name, and the bytes of its file, or that there is a folder or nothing; none: there is what is no file.
fn file_row(told: &Told<'_>, name: &[u8]) -> Mem<Option<Vec<Field>>>
    ensures { IfOk result (λ row. option_map (λ row. row_of row.items) row ≡ file_row (machine_of told.now) name.now) }
{
    let standing = stands(told, name)?;
    let Some(mut answer) = maybe_told(told.alloc, standing)? else {
        return Ok(None);
    };
    let mut row = Vec::new(told.alloc);
    row.push(Field::Said(Vec::from_slice(told.alloc, name)?))?;
    row.append(&mut answer)?;
    Ok(Some(row))
}

/// Names, and the bytes of each; none: there is what is no file.
#[tactic(auto, using(crate::proofs::FileLemmas::file_there))]
pub(crate) fn files_told(told: &Told<'_>, names: &[Vec<u8>]) -> Mem<Option<Vec<Field>>>
    ensures { IfOk result (λ answer. option_map (λ answer. row_of answer.items) answer ≡ files_told (machine_of told.now) (words_of names.now)) }
{
    let mut answer = Vec::new(told.alloc);
    for name in names {
        match file_row(told, name)? {
            Some(mut row) => answer.append(&mut row)?,
            None => return Ok(None),
        }
    }
    Ok(Some(answer))
}

/// Whether a file stands at a path.
pub(crate) fn is_regular(told: &Told<'_>, path: &[u8]) -> Mem<bool>
    ensures { IfOk result (λ it. it ≡ is_regular (machine_of told.now (file path.now))) }
{
    match stands(told, path)? {
        Some(Standing::Regular(_)) => Ok(true),
        Some(Standing::Folder | Standing::Special | Standing::Missing) | None => Ok(false),
    }
}

/// Size and time of a file, as they were answered; empty, if they were not.
fn stamp<'a>(told: &Told<'a>, path: &[u8]) -> Mem<&'a [u8]>
    ensures { IfOk result (λ it. it.now ≡ machine_of told.now (times path.now)) }
{
    let question = Question::Times(Vec::from_slice(told.alloc, path)?);
    if let Some(Answer::Times(stamp)) = answer_to(&question, told.asked, told.answers) {
        return Ok(stamp.as_slice());
    }
    Ok(&[])
}

/// A name, and size and time of its file.
fn stamped(told: &Told<'_>, name: &[u8]) -> Mem<Vec<Field>>
    ensures { IfOk result (λ row. row_of row.items ≡ said name.now ∷ said (machine_of told.now (times name.now)) ∷ []) }
{
    let stamp = stamp(told, name)?;
    let mut row = Vec::new(told.alloc);
    row.push(Field::Said(Vec::from_slice(told.alloc, name)?))?;
    row.push(Field::Said(Vec::from_slice(told.alloc, stamp)?))?;
    Ok(row)
}

/// A name, and size and time of its file; nothing of a folder, or where there is nothing; none: there is what is no file.
fn times_row(told: &Told<'_>, name: &[u8]) -> Mem<Option<Vec<Field>>>
    ensures { IfOk result (λ row. option_map (λ row. row_of row.items) row ≡ times_row (machine_of told.now) name.now) }
{
    match stands(told, name)? {
        Some(Standing::Regular(_)) => Ok(Some(stamped(told, name)?)),
        Some(Standing::Folder | Standing::Missing) | None => Ok(Some(Vec::new(told.alloc))),
        Some(Standing::Special) => Ok(None),
    }
}

/// Names of files, with the size and time of each; none: there is what is no file.
pub(crate) fn times_told(told: &Told<'_>, names: &[Vec<u8>]) -> Mem<Option<Vec<Field>>>
    ensures { IfOk result (λ answer. option_map (λ answer. row_of answer.items) answer ≡ times_told (machine_of told.now) (words_of names.now)) }
{
    let mut answer = Vec::new(told.alloc);
    for name in names {
        match times_row(told, name)? {
            Some(mut row) => answer.append(&mut row)?,
            None => return Ok(None),
        }
    }
    Ok(Some(answer))
}

fn has_flaw(told: &Told<'_>, flaw: Flaw, path: &[u8]) -> Mem<bool>
    ensures { IfOk result (λ it. it ≡ has_flaw flaw (machine_of told.now (file path.now))) }
{
    let standing = stands(told, path)?;
    match flaw {
        Flaw::Special => match standing {
            Some(Standing::Special) => Ok(true),
            Some(Standing::Regular(_) | Standing::Folder | Standing::Missing) | None => Ok(false),
        },
        Flaw::Gone => match standing {
            Some(Standing::Missing) | None => Ok(true),
            Some(Standing::Regular(_) | Standing::Folder | Standing::Special) => Ok(false),
        },
    }
}

/// Whether one of these files has the flaw.
pub(crate) fn any_flawed(told: &Told<'_>, flaw: Flaw, names: &[Vec<u8>]) -> Mem<bool>
    ensures { IfOk result (λ it. it ≡ any_flawed flaw (machine_of told.now) (words_of names.now)) }
{
    for name in names {
        if has_flaw(told, flaw, name)? {
            return Ok(true);
        }
    }
    Ok(false)
}
