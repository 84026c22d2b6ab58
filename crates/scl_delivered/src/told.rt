//! Parts of a key, told by base directories.
ghost use Rattle.std.specs.Prelude.{◌≡◌, map, IfOk};
ghost use Rattle.scl_text.specs.Records.{artifact};
ghost use Rattle.scl_values.specs.Words.{words_of};
ghost use Rattle.scl_key.specs.Views.{output_of, part_of, parts_of};
ghost use Rattle.scl_shared_key.specs.Fields.{told_field, told_row};
ghost use Rattle.scl_delivered.specs.Delivered.{told_part};

use scl_key::{Output, Part};
use scl_shared_key::told_field;
use scl_text::Mem;
use std::alloc::Global;

/// Words, told.
pub(crate) fn told_words(alloc: Global, dirs: &[Vec<u8>], words: &[Vec<u8>]) -> Mem<Vec<Vec<u8>>>
    ensures { IfOk result (λ told. words_of told.items ≡ told_row (words_of dirs.now) (words_of words.now)) }
{
    let mut told = Vec::with_capacity(alloc, words.len())?;
    for word in words {
        told.push(told_field(alloc, dirs, word)?)?;
    }
    Ok(told)
}

/// An output, told.
fn told_output(alloc: Global, dirs: &[Vec<u8>], output: &Output) -> Mem<Output>
    ensures { IfOk result (λ told. output_of told ≡ artifact (told_field (words_of dirs.now) output.now.name.items) (told_field (words_of dirs.now) output.now.path.items) output.now.optional) }
{
    Ok(Output {
        name: told_field(alloc, dirs, &output.name)?,
        path: told_field(alloc, dirs, &output.path)?,
        optional: output.optional,
    })
}

/// A part, told.
fn told_part(alloc: Global, dirs: &[Vec<u8>], part: &Part) -> Mem<Part>
    ensures { IfOk result (λ told. part_of told ≡ told_part (words_of dirs.now) (part_of part.now)) }
{
    match part {
        Part::Is(row) => Ok(Part::Is(told_words(alloc, dirs, row)?)),
        Part::Output(output) => Ok(Part::Output(told_output(alloc, dirs, output)?)),
        Part::Directory => Ok(Part::Directory),
        Part::Compiler => Ok(Part::Compiler),
        Part::Plan(words) => Ok(Part::Plan(told_words(alloc, dirs, words)?)),
        Part::Asked(ask, name) => Ok(Part::Asked(*ask, told_field(alloc, dirs, name)?)),
        Part::Run(words) => Ok(Part::Run(told_words(alloc, dirs, words)?)),
        Part::RunElse(words) => Ok(Part::RunElse(told_words(alloc, dirs, words)?)),
        Part::Pch(searched) => Ok(Part::Pch(told_words(alloc, dirs, searched)?)),
        Part::Sources => Ok(Part::Sources),
        Part::Times => Ok(Part::Times),
    }
}

/// Parts, told.
pub(crate) fn told_parts(alloc: Global, dirs: &[Vec<u8>], parts: &[Part]) -> Mem<Vec<Part>>
    ensures { IfOk result (λ told. parts_of told.items ≡ map (told_part (words_of dirs.now)) (parts_of parts.now)) }
{
    let mut told = Vec::with_capacity(alloc, parts.len())?;
    for part in parts {
        told.push(told_part(alloc, dirs, part)?)?;
    }
    Ok(told)
}
