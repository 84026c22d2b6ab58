//! Answers by their question.
ghost use Rattle.std.specs.Prelude.{◌≡◌, IfOk};
ghost use Rattle.std.specs.Option.{option_copied, option_map};
ghost use Rattle.scl_lookup.specs.Questions.{env, file, program, real};
ghost use Rattle.scl_questions.specs.Answers.{told};
ghost use Rattle.scl_questions.specs.Views.{program_of, questions_of, replies_of, standing_at};

use crate::answer::{Answer, Program, Standing};
use crate::question::Question;
use crate::round::answer_to;
use scl_values::Mem;
use std::alloc::Global;

/// The value of a variable, as it was answered.
pub fn value<'a>(
    alloc: Global,
    name: &[u8],
    asked: &[Question],
    answers: &'a [Answer],
) -> Mem<Option<&'a [u8]>>
    ensures { IfOk result (λ value. option_copied value ≡ told (questions_of asked.now) (replies_of answers.now) (env name.now)) }
{
    let question = Question::Env(Vec::from_slice(alloc, name)?);
    if let Some(Answer::Value(Some(value))) = answer_to(&question, asked, answers) {
        return Ok(Some(value.as_slice()));
    }
    Ok(None)
}

/// A program, as it was answered.
pub fn program<'a>(
    alloc: Global,
    name: &[u8],
    asked: &[Question],
    answers: &'a [Answer],
) -> Mem<Option<&'a Program>>
    ensures { IfOk result (λ it. option_map (λ program. program_of program.now) it ≡ told (questions_of asked.now) (replies_of answers.now) (program name.now)) }
{
    let question = Question::Program(Vec::from_slice(alloc, name)?);
    if let Some(Answer::Program(Some(program))) = answer_to(&question, asked, answers) {
        return Ok(Some(program));
    }
    Ok(None)
}

/// What stands at a path, as it was answered; nothing, if it was not.
pub fn standing<'a>(
    alloc: Global,
    path: &[u8],
    asked: &[Question],
    answers: &'a [Answer],
) -> Mem<Option<&'a Standing>>
    ensures { IfOk result (λ it. standing_at it ≡ told (questions_of asked.now) (replies_of answers.now) (file path.now)) }
{
    let question = Question::File(Vec::from_slice(alloc, path)?);
    if let Some(Answer::Standing(standing)) = answer_to(&question, asked, answers) {
        return Ok(Some(standing));
    }
    Ok(None)
}

/// A path without links, as it was answered; empty, if it was not.
pub fn real<'a>(
    alloc: Global,
    path: &[u8],
    asked: &[Question],
    answers: &'a [Answer],
) -> Mem<&'a [u8]>
    ensures { IfOk result (λ it. it.now ≡ told (questions_of asked.now) (replies_of answers.now) (real path.now)) }
{
    let question = Question::Real(Vec::from_slice(alloc, path)?);
    if let Some(Answer::Real(path)) = answer_to(&question, asked, answers) {
        return Ok(path.as_slice());
    }
    Ok(&[])
}
