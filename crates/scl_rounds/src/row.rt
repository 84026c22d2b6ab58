//! The rows of a key on a machine.
ghost use Rattle.std.specs.Prelude.{◌≡◌, ◌++◌, ◌∷◌, [], map, IfOk, OnOk};
ghost use Rattle.std.specs.Option.{option_map};
ghost use Rattle.scl_values.specs.Words.{words_of};
ghost use Rattle.scl_key.specs.Parts.{asked, hashed, is, output};
ghost use Rattle.scl_key.specs.Views.{output_of, part_of};
ghost use Rattle.scl_lookup.specs.Keys.{said};
ghost use Rattle.scl_questions.specs.Views.{row_of, rows_of};
ghost use Rattle.scl_rounds.specs.Answers.{row_on, rows_on};
ghost use Rattle.scl_rounds.specs.Views.{key_in, machine_of};

use crate::answer::{Told, answer};
use scl_key::{Ask, Output, Part};
use scl_questions::Field;
use scl_values::Mem;
use std::alloc::Global;

/// Appends a text.
pub(crate) fn push_said(alloc: Global, row: &mut Vec<Field>, text: &[u8]) -> Mem<()>
    ensures { OnOk result (row_of row.new.items ≡ row_of row.old.items ++ said text.now ∷ []) }
{
    row.push(Field::Said(Vec::from_slice(alloc, text)?))?;
    Ok(())
}

/// Appends texts.
pub(crate) fn push_all_said(alloc: Global, row: &mut Vec<Field>, texts: &[Vec<u8>]) -> Mem<()>
    ensures { OnOk result (row_of row.new.items ≡ row_of row.old.items ++ map said (words_of texts.now)) }
{
    for text in texts {
        push_said(alloc, row, text)?;
    }
    Ok(())
}

/// Appends what is hashed of a fact.
fn push_fact(alloc: Global, row: &mut Vec<Field>, fact: &[Vec<u8>]) -> Mem<()>
    ensures { OnOk result (row_of row.new.items ≡ row_of row.old.items ++ map said (hashed (is (words_of fact.now)))) }
{
    push_said(alloc, row, b"is")?;
    push_all_said(alloc, row, fact)
}

/// Appends what is hashed of an output.
fn push_output(alloc: Global, row: &mut Vec<Field>, made: &Output) -> Mem<()>
    ensures { OnOk result (row_of row.new.items ≡ row_of row.old.items ++ map said (hashed (output (output_of made.now)))) }
{
    push_said(alloc, row, b"output")?;
    push_said(alloc, row, &made.name)?;
    push_said(alloc, row, &made.path)?;
    if made.optional {
        push_said(alloc, row, b"optional")?;
    }
    Ok(())
}

/// Appends what is hashed of what is asked of a name.
fn push_asked(alloc: Global, row: &mut Vec<Field>, ask: Ask, name: &[u8]) -> Mem<()>
    ensures { OnOk result (row_of row.new.items ≡ row_of row.old.items ++ map said (hashed (asked ask name.now))) }
{
    push_said(alloc, row, ask.name().as_bytes())?;
    push_said(alloc, row, name)
}

/// Appends what is hashed of a part itself.
fn push_hashed(alloc: Global, row: &mut Vec<Field>, part: &Part) -> Mem<()>
    ensures { OnOk result (row_of row.new.items ≡ row_of row.old.items ++ map said (hashed (part_of part.now))) }
{
    match part {
        Part::Is(fact) => push_fact(alloc, row, fact),
        Part::Output(made) => push_output(alloc, row, made),
        Part::Directory => push_said(alloc, row, b"directory"),
        Part::Compiler => push_said(alloc, row, b"compiler"),
        Part::Plan(_) => push_said(alloc, row, b"plan"),
        Part::Asked(ask, name) => push_asked(alloc, row, *ask, name),
        Part::Run(_) => push_said(alloc, row, b"run"),
        Part::RunElse(_) => push_said(alloc, row, b"run-else"),
        Part::Pch(_) => push_said(alloc, row, b"pch"),
        Part::Sources => push_said(alloc, row, b"sources"),
        Part::Times => push_said(alloc, row, b"times"),
    }
}

/// The row of a part, if there is one.
fn row(told: &Told<'_>, part: &Part) -> Mem<Option<Vec<Field>>>
    ensures { IfOk result (λ row. option_map (λ row. row_of row.items) row ≡ row_on (key_in told.now) (machine_of told.now) (part_of part.now)) }
{
    let Some(mut answer) = answer(told, part)? else {
        return Ok(None);
    };
    let mut row = Vec::new(told.alloc);
    push_hashed(told.alloc, &mut row, part)?;
    row.append(&mut answer)?;
    Ok(Some(row))
}

/// The rows of the parts, if each has one.
#[tactic(auto, using(crate::proofs::CodeLemmas::row_there))]
pub(crate) fn rows(told: &Told<'_>) -> Mem<Option<Vec<Vec<Field>>>>
    ensures { IfOk result (λ rows. option_map (λ rows. rows_of rows.items) rows ≡ rows_on (key_in told.now) (machine_of told.now)) }
{
    let mut rows = Vec::new(told.alloc);
    for part in told.key.parts {
        match row(told, part)? {
            Some(row) => rows.push(row)?,
            None => return Ok(None),
        }
    }
    Ok(Some(rows))
}
