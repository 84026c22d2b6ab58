//! Which options prevent caching.
ghost use Rattle.std.specs.Prelude.{◌≡◌};
ghost use Rattle.std.specs.Option.{option_map};
ghost use Rattle.std.specs.Bool.{then_some};
ghost use Rattle.scl_text.specs.Records.{because};
ghost use Rattle.scl_text.specs.Refusals.{verdict_of};
ghost use Rattle.scl_msvc_reading.specs.Data.{kind_of, word_of};
ghost use Rattle.scl_msvc_reading.specs.Verdicts.{flag_verdict, known_verdict, value_verdict};

use super::data::ArgData;
use super::place::{Place, place_of_kind};
use scl_args::{Argument, Mem, ReadArg};
use scl_text::Judge;
use scl_text::reasons::NO_INPUT_FILE;
use scl_text::refusal::{Refusal, cannot_cache};
use std::alloc::Global;

/// The refusal for this reason, if it is refused.
pub(crate) fn refuse_if(is_refused: bool, reason: &'static str) -> Option<Refusal>
    ensures { option_map verdict_of result ≡ then_some is_refused (because reason.now) }
{
    if is_refused {
        Some(cannot_cache(reason))
    } else {
        None
    }
}

/// The refusal of an option by its flag, if its kind is refused.
pub(crate) fn judge_flag(place: Place, flag: &'static str) -> Option<Refusal>
    ensures { option_map verdict_of result ≡ flag_verdict place flag.now }
{
    match place {
        Place::Refused => Some(cannot_cache(flag)),
        Place::Common
        | Place::Unhashed
        | Place::Preprocessor
        | Place::Dependency
        | Place::Nowhere => None,
    }
}

fn judge_value(is_clang: bool, flag: &'static str, value: &ArgData) -> Option<Refusal>
    ensures { option_map verdict_of result ≡ value_verdict is_clang flag.now (kind_of value.now) (word_of value.now) }
{
    match value {
        ArgData::SuppressCompilation => Some(Refusal::NotCompilation),
        ArgData::Output(path) => {
            refuse_if(path.0.as_slice() == b"nul".as_slice(), "output to nul")
        }
        ArgData::CInput(path) | ArgData::CxxInput(path) => {
            refuse_if(path.0.is_empty(), NO_INPUT_FILE)
        }
        ArgData::ClangModuleFile(text) => refuse_if(!is_clang || text.is_empty(), flag),
        ArgData::ClangModuleOutput(text) => refuse_if(text.is_empty(), flag),
        ArgData::ClangLanguage(text) => {
            refuse_if(
                !is_clang || text.as_slice() != b"c++-module".as_slice(),
                flag,
            )
        }
        _ => None,
    }
}

fn judge_known(is_clang: bool, flag: &'static str, value: &ArgData) -> Option<Refusal>
    ensures { option_map verdict_of result ≡ known_verdict is_clang flag.now (kind_of value.now) (word_of value.now) }
{
    match judge_flag(place_of_kind(value.kind()), flag) {
        Some(refusal) => Some(refusal),
        None => judge_value(is_clang, flag, value),
    }
}

/// The judge of the options of cl, or of clang-cl.
#[derive(Clone, Copy)]
pub struct ByVerdict {
    /// Whether it is clang-cl.
    pub is_clang: bool,
}

impl Judge<ArgData> for ByVerdict {
    ghost use Rattle.scl_msvc_reading.specs.Verdicts.{verdict};

    ghost verdict = { λ judge. verdict judge.is_clang };

    fn judge(
        &self,
        _alloc: Global,
        _before: &[Argument<ArgData>],
        option: &Argument<ArgData>,
    ) -> Mem<Option<Refusal>> {
        match option {
            Argument::Raw(_) | Argument::UnknownFlag(_) => Ok(None),
            Argument::Flag(flag, value) | Argument::WithValue(flag, value, _) => {
                Ok(judge_known(self.is_clang, flag, value))
            }
        }
    }
}
