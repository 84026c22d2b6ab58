//! What is said to a caller after its answers so far.
ghost use Rattle.std.specs.Prelude.{◌≡◌, ◌∷◌, IfOk, OnOk, [], List};
ghost use Rattle.scl_questions.specs.Rounds.{joined};
ghost use Rattle.scl_questions.specs.Talks.{Stage, said};
ghost use Rattle.scl_questions.specs.Views.{questions_of, replies_of};
ghost use Rattle.scl_rounds.specs.Answers.{outcome_on};
ghost use Rattle.scl_rounds.specs.Rounds.{rounds, stage};
ghost use Rattle.scl_rounds.specs.Views.{key_in, key_of, next_of, said_or};

use crate::answer::Told;
use crate::key::Key;
use crate::listing::is_listed;
use crate::question::{Phase, questions};
use crate::row::rows;
use scl_questions::{Answer, Field, Question, Round, ask, round_so_far};
use scl_values::Mem;
use std::alloc::Global;

/// What a caller does next.
#[derive(Debug, Drop)]
pub enum Next {
    /// It answers these too, in order.
    LookUp(Vec<Question>),
    /// It has the rows of what is hashed. The flag says whether the answers to all but what runs write in the language of the
    /// environment tell whether they would write the same.
    Found(Vec<Vec<Field>>, bool),
    /// It keeps nothing.
    Nothing,
    /// It gave an answer, of this number, that is missing, of another kind than its question, or to no question.
    Refused(usize),
}

/// Adds questions, each once.
#[tactic(auto, using(crate::proofs::CodeLemmas::one_more))]
fn ask_all(asked: &mut Vec<Question>, questions: Vec<Question>) -> Mem<()>
    ensures { OnOk result (questions_of asked.new.items ≡ joined (questions_of asked.old.items) (questions_of questions.items)) }
{
    for question in questions {
        ask(asked, question)?;
    }
    Ok(())
}

/// Asks a round. If it is not over, this is what is said in it.
#[tactic(auto, using(crate::proofs::CodeLemmas::asked_grows, crate::proofs::CodeLemmas::as_many, crate::proofs::CodeLemmas::dropped))]
fn ask_round(
    alloc: Global,
    key: &Key<'_>,
    phase: Phase,
    asked: &mut Vec<Question>,
    answers: &[Answer],
) -> Mem<Option<Next>>
    ensures { IfOk result (λ next. (later : List Stage) → said_or (said (outcome_on (key_of key.now)) later (questions_of asked.new.items) (replies_of answers.now)) next ≡ said (outcome_on (key_of key.now)) (stage (key_of key.now) phase ∷ later) (questions_of asked.old.items) (replies_of answers.now)) }
{
    let before = asked.len();
    let told = Told {
        alloc,
        key,
        asked: asked.as_slice(),
        answers,
    };
    let Some(questions) = questions(&told, phase)? else {
        return Ok(Some(Next::Nothing));
    };
    ask_all(asked, questions)?;
    match round_so_far(before, asked, answers) {
        Round::Over => Ok(None),
        Round::Asks => Ok(Some(Next::LookUp(asked.split_off(before)?))),
        Round::Refused(number) => Ok(Some(Next::Refused(number))),
    }
}

/// The end, when all rounds are over.
fn end(told: &Told<'_>) -> Mem<Next>
    ensures { IfOk result (λ next. next_of next ≡ said (outcome_on (key_in told.now)) [] (questions_of told.now.asked.now) (replies_of told.now.answers.now)) }
{
    if told.answers.len() > told.asked.len() {
        return Ok(Next::Refused(told.asked.len()));
    }
    match rows(told)? {
        Some(rows) => Ok(Next::Found(rows, is_listed(told)?)),
        None => Ok(Next::Nothing),
    }
}

/// What is said to a caller after these answers, the first of all questions first: what to look up, or the end.
pub fn look_up(alloc: Global, key: &Key<'_>, answers: &[Answer]) -> Mem<Next>
    ensures { IfOk result (λ next. next_of next ≡ said (outcome_on (key_of key.now)) (rounds (key_of key.now)) [] (replies_of answers.now)) }
{
    let mut asked = Vec::new(alloc);
    for phase in [
        Phase::First,
        Phase::Runs,
        Phase::RunsElse,
        Phase::Files,
        Phase::Details,
        Phase::Inside,
    ] {
        if let Some(next) = ask_round(alloc, key, phase, &mut asked, answers)? {
            return Ok(next);
        }
    }
    let told = Told {
        alloc,
        key,
        asked: &asked,
        answers,
    };
    end(&told)
}
