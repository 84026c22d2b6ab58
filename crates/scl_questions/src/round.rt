//! Rounds of questions: what was asked, and what was answered.
ghost use Rattle.std.specs.Prelude.{◌≡◌, OnOk, length};
ghost use Rattle.std.specs.Option.{option_map};
ghost use Rattle.scl_questions.specs.Answers.{reply_to};
ghost use Rattle.scl_questions.specs.Rounds.{misfit, round, was_asked, with_one};
ghost use Rattle.scl_questions.specs.Views.{question_of, questions_of, reply_of, replies_of, round_of};

use crate::answer::Answer;
use crate::question::Question;
use scl_values::Mem;

/// How a round of questions stands.
#[derive(Debug, Clone, Copy, PartialEq, Eq)]
pub enum Round {
    /// All is answered.
    Over,
    /// Nothing of it is answered: it is asked.
    Asks,
    /// The answer of this number is missing, or of another kind than its question.
    Refused(usize),
}

/// The answer to a question, if it was asked and answered.
pub fn answer_to<'a>(
    question: &Question,
    asked: &[Question],
    answers: &'a [Answer],
) -> Option<&'a Answer>
    ensures { option_map (λ answer. reply_of answer.now) result ≡ reply_to (question_of question.now) (questions_of asked.now) (replies_of answers.now) }
{
    let mut rest = answers;
    for other in asked {
        match rest {
            [] => return None,
            [answer, behind @ ..] => {
                if other.is(question) {
                    return Some(answer);
                }
                rest = behind;
            }
        }
    }
    None
}

fn was_asked(question: &Question, asked: &[Question]) -> bool
    ensures { result ≡ was_asked (question_of question.now) (questions_of asked.now) }
{
    for other in asked {
        if other.is(question) {
            return true;
        }
    }
    false
}

/// Asks a question, unless it was asked.
pub fn ask(asked: &mut Vec<Question>, question: Question) -> Mem<()>
    ensures { OnOk result (questions_of asked.new.items ≡ with_one (questions_of asked.old.items) (question_of question)) }
{
    if !was_asked(&question, asked) {
        asked.push(question)?;
    }
    Ok(())
}

/// The number of the first answer that is missing, or of another kind than its question.
fn misfit(asked: &[Question], answers: &[Answer]) -> Option<usize>
    ensures { result ≡ misfit 0 (questions_of asked.now) (replies_of answers.now) }
{
    let mut rest = answers;
    for (at, question) in asked.iter().enumerate() {
        match rest {
            [] => return Some(at),
            [answer, behind @ ..] => {
                if !answer.fits(question) {
                    return Some(at);
                }
                rest = behind;
            }
        }
    }
    None
}

/// How the round stands that begins after so many questions.
pub fn round_so_far(before: usize, asked: &[Question], answers: &[Answer]) -> Round
    ensures { round_of result ≡ round before (questions_of asked.now) (replies_of answers.now) }
{
    match misfit(asked, answers) {
        None => Round::Over,
        Some(number) => {
            if answers.len() <= before {
                Round::Asks
            } else {
                Round::Refused(number)
            }
        }
    }
}
