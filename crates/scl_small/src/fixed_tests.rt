//! The fixed tests.
ghost use Rattle.scl_values.specs.Words.{words_of};
ghost use Rattle.scl_text.specs.Records.{parsed_of};
ghost use Rattle.scl_text.specs.Stops.{Gives};
ghost use Rattle.scl_small.specs.Readings.{tested_by, the_only_input};

use crate::judge::Rules;
use crate::place::Place;
use crate::record::{record_beside, record_of};
use scl_args::Options;
use scl_text::Stop;
use scl_text::language::Language;
use scl_text::reasons::UNKNOWN_SOURCE_LANGUAGE;
use scl_text::records::ParsedArguments;
use scl_text::refusal::{Refusal, cannot_cache, one_input};
use std::alloc::Global;

/// The only input; several are refused without a text beside the reason.
fn input_of(alloc: Global, inputs: Vec<Vec<u8>>) -> Result<Vec<u8>, Stop>
    ensures { Gives (λ input. input.items) result (the_only_input (words_of inputs.items)) }
{
    match one_input(alloc, inputs) {
        Ok(input) => Ok(input),
        Err(Stop::Refused(refusal)) => Err(Stop::Refused(refusal.without_text())),
        Err(Stop::Memory) => Err(Stop::Memory),
    }
}

/// The record of options that are not refused: the fixed tests in order, and the record of what they find.
pub(crate) fn read_options<T: Rules>(
    alloc: Global,
    options: Options<T>,
) -> Result<ParsedArguments, Stop>
    ensures { Gives parsed_of result (tested_by T.place T.compile_flag_for options) }
{
    let flag = options
        .last_flag(&Place::CompileFlag)
        .ok_or(Refusal::NotCompilation)?;
    let input = input_of(alloc, options.texts(alloc, &Place::Input)?)?;
    let language = Language::from_file_name(&input);
    let language = language.ok_or(cannot_cache(UNKNOWN_SOURCE_LANGUAGE))?;
    Ok(record_of(alloc, options, T::compile_flag(flag), input, language)?)
}

/// The same, with copies of the options' words.
pub(crate) fn read_beside<T: Rules>(
    alloc: Global,
    options: &Options<T>,
) -> Result<ParsedArguments, Stop>
    ensures { Gives parsed_of result (tested_by T.place T.compile_flag_for options.now) }
{
    let flag = options
        .last_flag(&Place::CompileFlag)
        .ok_or(Refusal::NotCompilation)?;
    let input = input_of(alloc, options.texts(alloc, &Place::Input)?)?;
    let language = Language::from_file_name(&input);
    let language = language.ok_or(cannot_cache(UNKNOWN_SOURCE_LANGUAGE))?;
    Ok(record_beside(alloc, options, T::compile_flag(flag), input, language)?)
}
