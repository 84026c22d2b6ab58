//! What a caller is told to do next.
ghost use Rattle.std.specs.Prelude.{◌≡◌, codes, IfOk, OnOk, []};
ghost use Rattle.std.specs.List.{list_any};
ghost use Rattle.scl_delivered.specs.Views.{delivered_of};
ghost use Rattle.scl_describe.specs.DescriptionsGiven.{kept_told};
ghost use Rattle.scl_description.specs.Rows.{entry_rows, row_entry, rows_of};
ghost use Rattle.scl_description.specs.Takers.{Adds};
ghost use Rattle.scl_key.specs.Views.{part_of, parts_of};
ghost use Rattle.scl_questions.specs.Views.{language_of, question_of, questions_of, replies_of, rows_of as rows_in};
ghost use Rattle.scl_questions.specs.Talks.{said};
ghost use Rattle.scl_rounds.specs.Answers.{outcome_on};
ghost use Rattle.scl_rounds.specs.Rounds.{rounds};
ghost use Rattle.scl_rounds.specs.Views.{next_of};
ghost use Rattle.scl_talks.specs.Next.{asked_entry, fields_of, found_entries, is_plan, kept_entries, key_at, next_entries, planned_entries, refused_entry};

use crate::name::name_of;
use scl_delivered::Delivered;
use scl_describe::Kept;
use scl_description::{TakesRows, tell_row, tell_word};
use scl_key::Part;
use scl_questions::{Answer, Field, Language, Question};
use scl_rounds::{Key, Next, look_up};
use scl_values::Mem;
use std::alloc::Global;

fn language_name(language: Language) -> &'static [u8]
    ensures { result.now ≡ language_of language }
{
    match language {
        Language::C => b"C",
        Language::Own => b"",
    }
}

/// Tells the row of a question.
fn tell_question<R: TakesRows>(rows: &mut R, question: &Question) -> Mem<()>
    ensures { OnOk result (Adds R.has rows.old rows.new (entry_rows (row_entry (codes "ask") (fields_of (question_of question.now))))) }
{
    match question {
        Question::Env(name) => tell_row(rows, "ask", &[b"env", name]),
        Question::Program(name) => tell_row(rows, "ask", &[b"program", name]),
        Question::File(path) => tell_row(rows, "ask", &[b"file", path]),
        Question::Bytes(path) => tell_row(rows, "ask", &[b"bytes", path]),
        Question::Names(path) => tell_row(rows, "ask", &[b"names", path]),
        Question::Real(path) => tell_row(rows, "ask", &[b"real", path]),
        Question::Times(path) => tell_row(rows, "ask", &[b"times", path]),
        Question::Run(language, words) => {
            rows.take("ask", &[b"run", language_name(*language)], words)
        }
    }
}

/// Tells a row for each question.
fn tell_questions<R: TakesRows>(rows: &mut R, questions: &[Question]) -> Mem<()>
    ensures { OnOk result (Adds R.has rows.old rows.new (entry_rows (asked_entry (questions_of questions.now)))) }
{
    for question in questions {
        tell_question(rows, question)?;
    }
    Ok(())
}

/// Tells that the answer of this number is refused.
fn tell_refused<R: TakesRows>(alloc: Global, rows: &mut R, number: usize) -> Mem<()>
    ensures { OnOk result (Adds R.has rows.old rows.new (entry_rows (refused_entry number))) }
{
    tell_word(rows, "refused", number.to_string(alloc)?.as_bytes())
}

/// Tells the name of what is kept, and whether the answers may stand for the runs.
fn tell_found<R: TakesRows>(
    alloc: Global,
    rows: &mut R,
    found: &[Vec<Field>],
    is_listed: bool,
) -> Mem<()>
    ensures { OnOk result (Adds R.has rows.old rows.new (rows_of (found_entries (record { rows = rows_in found.now; is_listed = is_listed })))) }
{
    tell_word(rows, "name", &name_of(alloc, found)?)?;
    if is_listed {
        tell_row(rows, "listed", &[])?;
    }
    Ok(())
}

/// Tells what to look up next, or the end.
fn tell_next<R: TakesRows>(alloc: Global, rows: &mut R, next: &Next) -> Mem<()>
    ensures { OnOk result (Adds R.has rows.old rows.new (rows_of (next_entries (next_of next.now)))) }
{
    match next {
        Next::LookUp(questions) => tell_questions(rows, questions),
        Next::Found(found, is_listed) => tell_found(alloc, rows, found, *is_listed),
        Next::Nothing => tell_word(rows, "given", b"forbidden"),
        Next::Refused(number) => tell_refused(alloc, rows, *number),
    }
}

/// What to do after these answers of a lookup of a key at a directory.
fn next_of_key(alloc: Global, place: &[u8], answers: &[Answer], key: &Delivered) -> Mem<Next>
    ensures { IfOk result (λ next. next_of next ≡ said (outcome_on (key_at place.now (delivered_of key.now))) (rounds (key_at place.now (delivered_of key.now))) [] (replies_of answers.now)) }
{
    let key = Key {
        place,
        parts: &key.parts,
        direct: &key.direct,
    };
    look_up(alloc, &key, answers)
}

fn is_plan(part: &Part) -> bool
    ensures { result ≡ is_plan (part_of part.now) }
{
    match part {
        Part::Plan(_) => true,
        Part::Is(_)
        | Part::Output(_)
        | Part::Directory
        | Part::Compiler
        | Part::Asked(_, _)
        | Part::Run(_)
        | Part::RunElse(_)
        | Part::Pch(_)
        | Part::Sources
        | Part::Times => false,
    }
}

/// Whether the compiler tells a plan: if it does not, it may read what no part names.
fn has_plan(parts: &[Part]) -> bool
    ensures { result ≡ list_any is_plan (parts_of parts.now) }
{
    for part in parts {
        if is_plan(part) {
            return true;
        }
    }
    false
}

/// Tells what to do after these answers of a lookup of a key at a directory.
fn tell_key<R: TakesRows>(
    alloc: Global,
    rows: &mut R,
    place: &[u8],
    answers: &[Answer],
    key: &Delivered,
) -> Mem<()>
    ensures { OnOk result (Adds R.has rows.old rows.new (rows_of (planned_entries place.now (replies_of answers.now) (delivered_of key.now)))) }
{
    if !has_plan(&key.parts) {
        return tell_word(rows, "given", b"no-plan");
    }
    let next = next_of_key(alloc, place, answers, key)?;
    tell_next(alloc, rows, &next)
}

/// Tells what to do after these answers, by what is said of keeping the outcome of a command line at a directory.
pub(crate) fn tell_kept<R: TakesRows>(
    alloc: Global,
    rows: &mut R,
    place: &[u8],
    answers: &[Answer],
    kept: &Kept,
) -> Mem<()>
    ensures { OnOk result (Adds R.has rows.old rows.new (rows_of (kept_entries place.now (replies_of answers.now) (kept_told kept.now)))) }
{
    match kept {
        Kept::Under(key) => tell_key(alloc, rows, place, answers, key),
        Kept::Nothing | Kept::Unknown(_) | Kept::Not(_) => Ok(()),
    }
}
