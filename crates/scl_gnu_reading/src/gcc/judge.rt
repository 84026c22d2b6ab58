//! Which options prevent caching.
ghost use Rattle.std.specs.Prelude.{◌≡◌, ◌∷◌, [], IfOk, map};
ghost use Rattle.std.specs.Option.{option_map, option_copied};
ghost use Rattle.scl_values.specs.Seen.{seen};
ghost use Rattle.scl_text.specs.Languages.{language_of_gcc_text};
ghost use Rattle.scl_text.specs.Refusals.{verdict_of};
ghost use Rattle.scl_gnu_reading.specs.Data.{kind_of, word_of};
ghost use Rattle.scl_gnu_reading.specs.Verdicts.{flag_verdict, module_output_verdict, unread_language, arch_verdict, value_verdict, known_verdict};
ghost use Rattle.scl_args.specs.Options.{last_text};
ghost use Rattle.scl_gnu_reading.specs.Kinds.{of};

use super::data::{ArgData, Kind};
use super::place::{Place, place_of_kind};
use scl_args::{Argument, Escaped, Mem, OfKinds, ReadArg, last_text, names_file};
use scl_text::Judge;
use scl_text::language::Language;
use scl_text::reasons::UNEXPANDED_FILE;
use scl_text::refusal::{Refusal, cannot_cache};
use std::alloc::Global;

/// The refusal of an option by its flag, if its kind is refused.
pub(crate) fn judge_flag(place: Place, flag: &'static str) -> Option<Refusal>
    ensures { option_map verdict_of result ≡ flag_verdict place flag.now }
{
    match place {
        Place::Refused => Some(cannot_cache(flag)),
        Place::Common
        | Place::Unhashed
        | Place::Arch
        | Place::Preprocessor
        | Place::Dependency
        | Place::Nowhere => None,
    }
}

fn judge_module_output(alloc: Global, value: &[u8]) -> Mem<Option<Refusal>>
    ensures { IfOk result (λ refusal. option_map verdict_of refusal ≡ module_output_verdict value.now) }
{
    match value.first() {
        None | Some(b'=') => Ok(None),
        Some(_) => {
            let text = format!(in alloc; "{}", Escaped(value))?;
            Ok(Some(Refusal::CannotCache("unknown module output format", Some(text))))
        }
    }
}

fn judge_language(text: &[u8]) -> Option<Refusal>
    ensures { option_map verdict_of result ≡ unread_language (language_of_gcc_text text.now) }
{
    match Language::from_gcc_arg(text) {
        Some(_) => None,
        None => Some(cannot_cache("-x")),
    }
}

fn judge_arch(multiarch: bool, before: Option<&[u8]>, arch: &[u8]) -> Option<Refusal>
    ensures { option_map verdict_of result ≡ arch_verdict multiarch (option_copied before.entry) arch.now }
{
    let before = before?;
    if multiarch || before == arch {
        return None;
    }
    Some(Refusal::CannotCache(
        "multiple different -arch, and SCCACHE_CACHE_MULTIARCH not set",
        None,
    ))
}

fn judge_value(
    alloc: Global,
    multiarch: bool,
    before: &[Argument<ArgData>],
    value: &ArgData,
) -> Mem<Option<Refusal>>
    ensures { IfOk result (λ refusal. option_map verdict_of refusal ≡ value_verdict multiarch (last_text (of (Kind.Arch ∷ [])) (map (seen kind_of word_of) before.now)) (kind_of value.now) (word_of value.now)) }
{
    match value {
        ArgData::ClangModuleOutput(text) => judge_module_output(alloc, text),
        ArgData::Language(text) => Ok(judge_language(text)),
        ArgData::Arch(name) => {
            let arch = last_text(before, &OfKinds(&[Kind::Arch]));
            Ok(judge_arch(multiarch, arch, name))
        }
        _ => Ok(None),
    }
}

fn judge_known(
    alloc: Global,
    multiarch: bool,
    before: &[Argument<ArgData>],
    flag: &'static str,
    value: &ArgData,
) -> Mem<Option<Refusal>>
    ensures { IfOk result (λ refusal. option_map verdict_of refusal
        ≡ known_verdict multiarch (last_text (of (Kind.Arch ∷ [])) (map (seen kind_of word_of) before.now)) flag.now (kind_of value.now) (word_of value.now)) }
{
    match judge_flag(place_of_kind(value.kind()), flag) {
        Some(refusal) => Ok(Some(refusal)),
        None => judge_value(alloc, multiarch, before, value),
    }
}

/// The judge of options.
#[derive(Clone, Copy)]
pub struct ByVerdict {
    /// Whether a line may name several architectures.
    pub multiarch: bool,
}

impl Judge<ArgData> for ByVerdict {
    ghost use Rattle.scl_gnu_reading.specs.Verdicts.{verdict};

    ghost verdict = { λ judge. verdict judge.multiarch };

    fn judge(
        &self,
        alloc: Global,
        before: &[Argument<ArgData>],
        option: &Argument<ArgData>,
    ) -> Mem<Option<Refusal>> {
        if names_file(option) {
            return Ok(Some(cannot_cache(UNEXPANDED_FILE)));
        }
        match option {
            Argument::Raw(_) | Argument::UnknownFlag(_) => Ok(None),
            Argument::Flag(flag, value) | Argument::WithValue(flag, value, _) => {
                judge_known(alloc, self.multiarch, before, flag, value)
            }
        }
    }
}
