//! The words of the runs of Clang's preprocessor.
ghost use Rattle.std.specs.Prelude.{◌≡◌, IfOk};
ghost use Rattle.std.specs.Option.{option_map};
ghost use Rattle.std.specs.String.{string_bytes};
ghost use Rattle.scl_values.specs.Words.{words_of};
ghost use Rattle.scl_text.specs.Records.{parsed_of};
ghost use Rattle.scl_text.specs.Runs.{runs_of};
ghost use Rattle.scl_gnu.specs.Preprocess.{clang_flags, clang_runs};

use super::compiler::{Clang, language_to_clang_arg};
use crate::gcc;
use scl_args::Mem;
use scl_text::command::push_word;
use scl_text::language::Language;
use scl_text::records::{CCompilerKind, ParsedArguments};
use std::alloc::Global;

/// The flags that leave out ignorable output: line markers; and white space, if clang is new enough and the language is not
/// assembler for the preprocessor.
fn ignorable_flags(
    alloc: Global,
    clang: &Clang,
    language: Language,
    cache_mode: bool,
) -> Mem<Vec<Vec<u8>>>
    ensures { IfOk result (λ made. words_of made.items ≡ clang_flags clang.now.is_appleclang (option_map string_bytes clang.now.version) language cache_mode) }
{
    let mut flags = gcc::linemarker_flags(alloc, cache_mode)?;
    if clang.is_minversion(alloc, 14)? && language != Language::AssemblerToPreprocess {
        push_word(alloc, &mut flags, b"-fminimize-whitespace")?;
    }
    Ok(flags)
}

/// The words of the runs, in order.
pub(super) fn clang_runs(
    alloc: Global,
    clang: &Clang,
    parsed: &ParsedArguments,
    may_dist: bool,
    rewrite_includes_only: bool,
    cache_mode: bool,
) -> Mem<Vec<Vec<Vec<u8>>>>
    ensures { IfOk result (λ runs. runs_of runs.items ≡ clang_runs clang.now.is_appleclang (option_map string_bytes clang.now.version) may_dist rewrite_includes_only cache_mode (parsed_of parsed.now)) }
{
    let ignorable = ignorable_flags(alloc, clang, parsed.language, cache_mode)?;
    gcc::preprocess_passes(
        alloc,
        parsed,
        may_dist,
        CCompilerKind::Clang,
        rewrite_includes_only,
        &ignorable,
        language_to_clang_arg,
    )
}
