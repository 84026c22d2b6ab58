//! The inputs of a command line, and their languages by flags.
ghost use Rattle.std.specs.Prelude.{◌≡◌};
ghost use Rattle.scl_values.specs.Seen.{seen};
ghost use Rattle.scl_msvc_reading.specs.Data.{kind_of, word_of};
ghost use Rattle.scl_msvc_reading.specs.Kinds.{any, explicit_language, language_inputs, language_of_kind, language_said};

use super::data::{ArgData, Kind};
use scl_args::{Argument, OfKinds, Options, ReadArg, Test, is_dashes};
use scl_text::language::Language;

/// The kinds of options that give an input with its language.
const LANGUAGE_INPUTS: [Kind; 2] = [Kind::CInput, Kind::CxxInput];

/// The words that are no options, except `--`, and the values of flags that give an input.
pub(crate) struct Inputs;

impl Test<ArgData> for Inputs {
    ghost use Rattle.scl_msvc_reading.specs.Kinds.{is_input};

    ghost passes = { λ _. is_input };

    fn passes(&self, option: &Argument<ArgData>) -> bool {
        match option {
            Argument::Raw(_) => !is_dashes(option),
            Argument::UnknownFlag(_) => false,
            Argument::Flag(_, _) | Argument::WithValue(_, _, _) => {
                OfKinds(&LANGUAGE_INPUTS).passes(option)
            }
        }
    }
}

fn language_of_kind(kind: Kind) -> Option<Language>
    ensures { result ≡ language_of_kind kind }
{
    match kind {
        Kind::CInput => Some(Language::C),
        Kind::CxxInput => Some(Language::Cxx),
        _ => None,
    }
}

fn language_said(option: &Argument<ArgData>) -> Option<Language>
    ensures { result ≡ language_said (seen kind_of word_of option.now) }
{
    match option {
        Argument::Raw(_) | Argument::UnknownFlag(_) => None,
        Argument::Flag(_, value) | Argument::WithValue(_, value, _) => {
            language_of_kind(value.kind())
        }
    }
}

/// Whether a flag gives the language of an input.
pub(crate) fn has_explicit_language(options: &Options<ArgData>) -> bool
    ensures { result ≡ any language_inputs options.now }
{
    options.any(&OfKinds(&LANGUAGE_INPUTS))
}

/// The language of the input that a flag gives.
pub(crate) fn explicit_language(options: &Options<ArgData>) -> Option<Language>
    ensures { result ≡ explicit_language options.now }
{
    language_said(options.last_by(&OfKinds(&LANGUAGE_INPUTS))?)
}
