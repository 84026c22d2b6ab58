//! What compile commands and runs of the preprocessor share: the lists in order, and the input.
ghost use Rattle.std.specs.Prelude.{◌≡◌, ◌++◌, IfOk, OnOk};
ghost use Rattle.std.specs.Option.{option_copied};
ghost use Rattle.scl_values.specs.Words.{words_of};
ghost use Rattle.scl_text.specs.Records.{parsed_of};
ghost use Rattle.scl_msvc.specs.Building.{language_flag, input_word, input_words};
ghost use Rattle.scl_msvc.specs.ListsOf.{lists_of};

use scl_args::Mem;
use scl_text::command::{append_words, push_dashes};
use scl_text::language::Language;
use scl_text::records::ParsedArguments;
use std::alloc::Global;

/// The lists of a command, or of a run of the preprocessor.
#[derive(Drop)]
pub(super) struct Lists {
    pub preprocessor: Vec<Vec<u8>>,
    pub dependency: Vec<Vec<u8>>,
    pub unhashed: Vec<Vec<u8>>,
    pub common: Vec<Vec<u8>>,
}

/// Appends the lists in order.
pub(super) fn append_lists(words: &mut Vec<Vec<u8>>, lists: Lists) -> Mem<()>
    ensures { OnOk result (words_of words.new.items ≡ words_of words.old.items ++ lists_of lists) }
{
    append_words(words, lists.preprocessor)?;
    append_words(words, lists.dependency)?;
    append_words(words, lists.unhashed)?;
    append_words(words, lists.common)
}

/// The flag that gives an input this language: there is one for C and one for C++.
fn language_flag(language: Language) -> Option<&'static [u8]>
    ensures { option_copied result ≡ language_flag language }
{
    match language {
        Language::C => Some(b"-Tc"),
        Language::Cxx => Some(b"-Tp"),
        Language::Assembler
        | Language::AssemblerToPreprocess
        | Language::CHeader
        | Language::GenericHeader
        | Language::CxxHeader
        | Language::CxxModule
        | Language::ObjectiveC
        | Language::ObjectiveCHeader
        | Language::ObjectiveCxx
        | Language::ObjectiveCxxHeader
        | Language::Cuda
        | Language::Rust
        | Language::Hip => None,
    }
}

fn input_word(alloc: Global, parsed: &ParsedArguments) -> Mem<Vec<u8>>
    ensures { IfOk result (λ word. word.items ≡ input_word (parsed_of parsed.now)) }
{
    let mut word = Vec::new(alloc);
    if parsed.msvc_explicit_language
        && let Some(flag) = language_flag(parsed.language)
    {
        word.extend_from_slice(flag)?;
    }
    word.extend_from_slice(&parsed.input)?;
    Ok(word)
}

/// Appends the input, with `--` before it if the line has it there.
pub(super) fn push_input(
    alloc: Global,
    words: &mut Vec<Vec<u8>>,
    parsed: &ParsedArguments,
) -> Mem<()>
    ensures { OnOk result (words_of words.new.items ≡ words_of words.old.items ++ input_words (parsed_of parsed.now)) }
{
    push_dashes(alloc, words, parsed.double_dash_input)?;
    words.push(input_word(alloc, parsed)?)?;
    Ok(())
}
