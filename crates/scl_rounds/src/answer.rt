//! What a machine answers to the parts of a key.
ghost use Rattle.std.specs.Prelude.{◌≡◌, ◌∷◌, [], cond, false, Some, IfOk};
ghost use Rattle.std.specs.Option.{option_and_then, option_copied, option_map};
ghost use Rattle.std.specs.Str.{bytes_eq};
ghost use Rattle.scl_values.specs.Words.{words_of};
ghost use Rattle.scl_key.specs.declared.part.Ask.TheVariants as asks;
ghost use Rattle.scl_key.specs.Views.{part_of};
ghost use Rattle.scl_lookup.specs.Keys.{ran_on, said};
ghost use Rattle.scl_lookup.specs.Questions.{env, file, program, real};
ghost use Rattle.scl_questions.specs.Told.{file_told, maybe_told, program_told, regular_told, unset_told, value_told};
ghost use Rattle.scl_questions.specs.Views.{row_of, standing_at};
ghost use Rattle.scl_rounds.specs.Answers.{answer_asked, answer_on, directory_on, said_directory};
ghost use Rattle.scl_rounds.specs.Headers.{headers_told, places};
ghost use Rattle.scl_rounds.specs.Plans.{plan_told, planned_on};
ghost use Rattle.scl_rounds.specs.Runs.{has_failed, may_fail, no_text, run_told};
ghost use Rattle.scl_rounds.specs.Views.{key_in, machine_of};

use crate::file::{files_told, times_told};
use crate::header::{headers_told, places};
use crate::key::{Key, is_made};
use crate::plan::{plan_told, planned};
use crate::run::{has_failed, may_fail, no_text, ran, run_told};
use crate::shown::{all_sources, marked, searched, shown};
use scl_key::{Ask, Part};
use scl_patterns::{is_refused, is_shown};
use scl_questions::{
    Answer, Field, Question, Standing, file_told, maybe_told, program, program_told, real,
    regular_told, standing, unset_told, value, value_told,
};
use scl_values::Mem;
use std::alloc::Global;

/// A key, what was asked for it, and what was answered.
#[derive(Clone, Copy)]
pub(crate) struct Told<'a> {
    pub(crate) alloc: Global,
    pub(crate) key: &'a Key<'a>,
    pub(crate) asked: &'a [Question],
    pub(crate) answers: &'a [Answer],
}

/// What stands at a path, as it was answered; nothing, if it was not.
pub(crate) fn stands<'a>(told: &Told<'a>, path: &[u8]) -> Mem<Option<&'a Standing>>
    ensures { IfOk result (λ it. standing_at it ≡ machine_of told.now (file path.now)) }
{
    standing(told.alloc, path, told.asked, told.answers)
}

/// The value of a variable, as it was answered.
pub(crate) fn value_of<'a>(told: &Told<'a>, name: &[u8]) -> Mem<Option<&'a [u8]>>
    ensures { IfOk result (λ value. option_copied value ≡ machine_of told.now (env name.now)) }
{
    value(told.alloc, name, told.asked, told.answers)
}

/// The name of the directory that is said.
pub(crate) fn said_directory<'a>(told: &Told<'a>) -> Mem<Option<&'a [u8]>>
    ensures { IfOk result (λ name. option_copied name ≡ machine_of told.now said_directory) }
{
    value_of(told, b"PWD")
}

/// Whether two paths are one without links.
fn is_one(told: &Told<'_>, path: &[u8], other: &[u8]) -> Mem<bool>
    ensures { IfOk result (λ it. it ≡ bytes_eq (machine_of told.now (real path.now)) (machine_of told.now (real other.now))) }
{
    let path = real(told.alloc, path, told.asked, told.answers)?;
    let other = real(told.alloc, other, told.asked, told.answers)?;
    Ok(path == other)
}

/// The name of the directory.
fn directory<'a>(told: &Told<'a>, place: &'a [u8]) -> Mem<&'a [u8]>
    ensures { IfOk result (λ name. name.now ≡ directory_on place.now (machine_of told.now)) }
{
    if let Some(name) = said_directory(told)? {
        if name.starts_with(b"/") && is_one(told, name, place)? {
            return Ok(name);
        }
    }
    Ok(place)
}

fn directory_answer(told: &Told<'_>, place: &[u8]) -> Mem<Vec<Field>>
    ensures { IfOk result (λ answer. row_of answer.items ≡ said (directory_on place.now (machine_of told.now)) ∷ []) }
{
    let name = directory(told, place)?;
    let mut answer = Vec::new(told.alloc);
    answer.push(Field::Said(Vec::from_slice(told.alloc, name)?))?;
    Ok(answer)
}

fn compiler_answer(told: &Told<'_>) -> Mem<Option<Vec<Field>>>
    ensures { IfOk result (λ answer. option_map (λ answer. row_of answer.items) answer ≡ program_told (machine_of told.now (program []))) }
{
    program_told(
        told.alloc,
        program(told.alloc, b"", told.asked, told.answers)?,
    )
}

fn env_answer(told: &Told<'_>, name: &[u8]) -> Mem<Vec<Field>>
    ensures { IfOk result (λ answer. row_of answer.items ≡ value_told (machine_of told.now (env name.now))) }
{
    value_told(told.alloc, value_of(told, name)?)
}

fn unset_answer(told: &Told<'_>, name: &[u8]) -> Mem<Option<Vec<Field>>>
    ensures { IfOk result (λ answer. option_map (λ answer. row_of answer.items) answer ≡ unset_told (machine_of told.now (env name.now))) }
{
    Ok(unset_told(told.alloc, value_of(told, name)?))
}

fn file_answer(told: &Told<'_>, path: &[u8]) -> Mem<Option<Vec<Field>>>
    ensures { IfOk result (λ answer. option_map (λ answer. row_of answer.items) answer ≡ file_told (machine_of told.now (file path.now))) }
{
    file_told(told.alloc, stands(told, path)?)
}

fn maybe_answer(told: &Told<'_>, path: &[u8]) -> Mem<Option<Vec<Field>>>
    ensures { IfOk result (λ answer. option_map (λ answer. row_of answer.items) answer ≡ maybe_told (machine_of told.now (file path.now))) }
{
    maybe_told(told.alloc, stands(told, path)?)
}

fn regular_answer(told: &Told<'_>, path: &[u8]) -> Mem<Option<Vec<Field>>>
    ensures { IfOk result (λ answer. option_map (λ answer. row_of answer.items) answer ≡ regular_told (machine_of told.now (file path.now))) }
{
    Ok(regular_told(told.alloc, stands(told, path)?))
}

fn plan_answer(told: &Told<'_>, words: &[Vec<u8>]) -> Mem<Option<Vec<Field>>>
    ensures { IfOk result (λ answer. option_map (λ answer. row_of answer.items) answer ≡ option_and_then (λ it. plan_told (key_in told.now) (machine_of told.now) it.messages) (planned_on (machine_of told.now) (words_of words.now))) }
{
    match planned(told, words)? {
        Some(written) => plan_told(told, &written.messages),
        None => Ok(None),
    }
}

/// The sources, if a text has the pattern; nothing may be kept if it is not known.
fn sources_if_shown(told: &Told<'_>, pattern: &[u8]) -> Mem<Option<Vec<Field>>>
    ensures { IfOk result (λ answer. option_map (λ answer. row_of answer.items) answer ≡ answer_asked (key_in told.now) (machine_of told.now) asks.SourcesIfShown pattern.now) }
{
    match is_shown(told.alloc, pattern, &shown(told)?)? {
        Some(true) => files_told(told, &all_sources(told)?),
        Some(false) => Ok(Some(no_text(told.alloc)?)),
        None => Ok(None),
    }
}

/// That no text has a pattern; nothing may be kept if one has it, or if it is not known.
fn refuse_if_shown(told: &Told<'_>, pattern: &[u8]) -> Mem<Option<Vec<Field>>>
    ensures { IfOk result (λ answer. option_map (λ answer. row_of answer.items) answer ≡ answer_asked (key_in told.now) (machine_of told.now) asks.RefuseIfShown pattern.now) }
{
    match is_refused(told.alloc, pattern, &searched(told)?)? {
        Some(false) => Ok(Some(Vec::new(told.alloc))),
        Some(true) | None => Ok(None),
    }
}

/// The answer to what is asked of a name.
fn asked_answer(told: &Told<'_>, ask: Ask, name: &[u8]) -> Mem<Option<Vec<Field>>>
    ensures { IfOk result (λ answer. option_map (λ answer. row_of answer.items) answer ≡ answer_asked (key_in told.now) (machine_of told.now) ask name.now) }
{
    match ask {
        Ask::Env => Ok(Some(env_answer(told, name)?)),
        Ask::Unset => unset_answer(told, name),
        Ask::File => file_answer(told, name),
        Ask::Maybe => {
            if is_made(told.alloc, told.key, name)? {
                return Ok(Some(Vec::new(told.alloc)));
            }
            maybe_answer(told, name)
        }
        Ask::Regular => regular_answer(told, name),
        Ask::SourcesIfShown => sources_if_shown(told, name),
        Ask::RefuseIfShown => refuse_if_shown(told, name),
    }
}

fn run_answer(told: &Told<'_>, words: &[Vec<u8>]) -> Mem<Option<Vec<Field>>>
    ensures { IfOk result (λ answer. option_map (λ answer. row_of answer.items) answer ≡ run_told (machine_of told.now) (may_fail (key_in told.now)) (ran_on (machine_of told.now) (words_of words.now))) }
{
    run_told(told, ran(told, words)?, may_fail(told.key))
}

fn run_else_answer(told: &Told<'_>, words: &[Vec<u8>]) -> Mem<Option<Vec<Field>>>
    ensures { IfOk result (λ answer. option_map (λ answer. row_of answer.items) answer ≡ cond (has_failed (key_in told.now) (machine_of told.now)) (run_told (machine_of told.now) false (ran_on (machine_of told.now) (words_of words.now))) (Some no_text)) }
{
    if has_failed(told)? {
        run_told(told, ran(told, words)?, false)
    } else {
        Ok(Some(no_text(told.alloc)?))
    }
}

fn pch_answer(told: &Told<'_>, searched: &[Vec<u8>]) -> Mem<Option<Vec<Field>>>
    ensures { IfOk result (λ answer. option_map (λ answer. row_of answer.items) answer ≡ headers_told (key_in told.now) (machine_of told.now) (places (key_in told.now) (machine_of told.now) (words_of searched.now))) }
{
    headers_told(told, &places(told, searched)?)
}

/// What a machine answers to a part; none: nothing may be kept.
pub(crate) fn answer(told: &Told<'_>, part: &Part) -> Mem<Option<Vec<Field>>>
    ensures { IfOk result (λ answer. option_map (λ answer. row_of answer.items) answer ≡ answer_on (key_in told.now) (machine_of told.now) (part_of part.now)) }
{
    match part {
        Part::Is(_) | Part::Output(_) => Ok(Some(Vec::new(told.alloc))),
        Part::Directory => Ok(Some(directory_answer(told, told.key.place)?)),
        Part::Compiler => compiler_answer(told),
        Part::Asked(ask, name) => asked_answer(told, *ask, name),
        Part::Run(words) => run_answer(told, words),
        Part::RunElse(words) => run_else_answer(told, words),
        Part::Sources => files_told(told, &all_sources(told)?),
        Part::Times => times_told(told, &marked(told)?),
        Part::Plan(words) => plan_answer(told, words),
        Part::Pch(searched) => pch_answer(told, searched),
    }
}
