//! Why a command line is refused.
ghost use Rattle.std.specs.Prelude.{◌≡◌, Err, IfOk};
ghost use Rattle.scl_text.specs.Reasons.{argument_parse};
ghost use Rattle.scl_text.specs.Records.{because, outcome_of};
ghost use Rattle.scl_text.specs.Refusals.{verdict_of, without_text, answer_of, the_input};
ghost use Rattle.scl_text.specs.Stops.{Gives};
ghost use Rattle.scl_values.specs.Words.{words_of};

use crate::command::copy_text;
use crate::reasons::{ARGUMENT_PARSE, MULTIPLE_INPUT_FILES, NO_INPUT_FILE, UNEXPECTED_END};
use crate::records::{CompilerArguments, ParsedArguments};
use crate::stop::Stop;
use scl_args::{Mem, quote_list};
use std::alloc::Global;

/// Why a command line is refused (docs/RULES.md, Readings): its result can't be cached, with the reason and perhaps a text
/// beside it; or it is no compilation.
#[derive(Debug, PartialEq, Eq, Drop)]
pub enum Refusal {
    /// The result can't be cached: the reason, and perhaps a text with details.
    CannotCache(&'static str, Option<String>),
    /// The line compiles nothing.
    NotCompilation,
}

impl Refusal {
    /// The refusal as an answer, with its text beside the reason.
    pub fn into_answer(self) -> CompilerArguments<ParsedArguments>
        ensures outcome { outcome_of result ≡ Err (verdict_of self) }
        ensures answer { result ≡ answer_of self }
    {
        match self {
            Refusal::CannotCache(reason, text) => CompilerArguments::CannotCache(reason, text),
            Refusal::NotCompilation => CompilerArguments::NotCompilation,
        }
    }

    /// A copy of it.
    pub fn copy(&self, alloc: Global) -> Mem<Refusal>
        ensures { IfOk result (λ copy. verdict_of copy ≡ verdict_of self.now) }
    {
        match self {
            Refusal::CannotCache(reason, text) => {
                Ok(Refusal::CannotCache(*reason, copy_text(alloc, text)?))
            }
            Refusal::NotCompilation => Ok(Refusal::NotCompilation),
        }
    }

    /// The refusal, without a text beside its reason.
    pub fn without_text(self) -> Refusal
        ensures { verdict_of result ≡ without_text (verdict_of self) }
    {
        match self {
            Refusal::CannotCache(reason, text) => {
                drop(text);
                Refusal::CannotCache(reason, None)
            }
            Refusal::NotCompilation => Refusal::NotCompilation,
        }
    }
}

/// The refusal for this reason, without a text beside it.
pub fn cannot_cache(reason: &'static str) -> Refusal
    ensures { verdict_of result ≡ because reason.now }
{
    Refusal::CannotCache(reason, None)
}

/// The refusal of words whose last flag has no value, with that error's text beside the reason (docs/RULES.md, Readings).
pub fn argument_parse(alloc: Global) -> Mem<Refusal>
    ensures { IfOk result (λ refusal. verdict_of refusal ≡ argument_parse) }
{
    let text = String::from_str(alloc, UNEXPECTED_END)?;
    Ok(Refusal::CannotCache(ARGUMENT_PARSE, Some(text)))
}

/// The only input. It is refused if there is none, and if there are several, with the later ones beside the reason
/// (docs/RULES.md, Readings). The only other error is a refused allocation.
pub fn one_input(alloc: Global, inputs: Vec<Vec<u8>>) -> Result<Vec<u8>, Stop>
    ensures { Gives (λ input. input.items) result (the_input (words_of inputs.items)) }
{
    let mut inputs = inputs;
    if let [_, _, ..] = inputs.as_slice() {
        let text = quote_list(alloc, &inputs[1..])?;
        return Err(Stop::Refused(Refusal::CannotCache(MULTIPLE_INPUT_FILES, Some(text))));
    }
    Ok(inputs.pop().ok_or(cannot_cache(NO_INPUT_FILE))?)
}
