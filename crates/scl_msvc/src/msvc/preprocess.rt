//! The words of the only run of Msvc's preprocessor.
ghost use Rattle.std.specs.Prelude.{◌≡◌, ◌++◌, IfOk, OnOk};
ghost use Rattle.scl_values.specs.Words.{words_of};
ghost use Rattle.scl_text.specs.Records.{parsed_of};
ghost use Rattle.scl_text.specs.Runs.{runs_of};
ghost use Rattle.scl_msvc.specs.Preprocess.{first_word, shown_includes, written_includes, run_lists, include_words, rewriting, preprocess_words, runs};
ghost use Rattle.scl_msvc.specs.ListsOf.{lists_of};

use super::words::{Lists, append_lists, push_input};
use scl_args::Mem;
use scl_text::command::{copy_words, push_word};
use scl_text::records::ParsedArguments;
use std::alloc::Global;

fn first_word(parsed: &ParsedArguments, may_dist: bool) -> &'static [u8]
    ensures { result.now ≡ first_word may_dist (parsed_of parsed.now) }
{
    if may_dist || parsed.profile_generate {
        b"-E"
    } else {
        b"-EP"
    }
}

/// Appends the flag with which clang prints the names of included files, if a dependency file is wanted and the line does not
/// print them anyway.
fn push_shown(alloc: Global, words: &mut Vec<Vec<u8>>, parsed: &ParsedArguments) -> Mem<()>
    ensures { OnOk result (words_of words.new.items ≡ words_of words.old.items ++ shown_includes (parsed_of parsed.now).depfile parsed.now.msvc_show_includes) }
{
    if parsed.depfile.is_some() && !parsed.msvc_show_includes {
        push_word(alloc, words, b"-showIncludes")?;
    }
    Ok(())
}

/// Appends the words with which cl writes its own file of dependencies, if one is wanted.
fn push_written(alloc: Global, words: &mut Vec<Vec<u8>>, parsed: &ParsedArguments) -> Mem<()>
    ensures { OnOk result (words_of words.new.items ≡ words_of words.old.items ++ written_includes (parsed_of parsed.now).depfile) }
{
    if let Some(depfile) = &parsed.depfile {
        push_word(alloc, words, b"/sourceDependencies")?;
        push_word(alloc, words, depfile)?;
    }
    Ok(())
}

/// Appends the words that request the names of included files.
fn push_includes(
    alloc: Global,
    words: &mut Vec<Vec<u8>>,
    parsed: &ParsedArguments,
    is_clang: bool,
) -> Mem<()>
    ensures { OnOk result (words_of words.new.items ≡ words_of words.old.items ++ include_words is_clang (parsed_of parsed.now)) }
{
    if is_clang {
        push_shown(alloc, words, parsed)
    } else {
        push_written(alloc, words, parsed)?;
        push_word(alloc, words, b"/WX-")
    }
}

/// Appends the flag that leaves macros in place, if it is requested of clang.
fn push_rewriting(
    alloc: Global,
    words: &mut Vec<Vec<u8>>,
    is_clang: bool,
    is_asked: bool,
) -> Mem<()>
    ensures { OnOk result (words_of words.new.items ≡ words_of words.old.items ++ rewriting is_clang is_asked) }
{
    if is_asked && is_clang {
        push_word(alloc, words, b"-clang:-frewrite-includes")?;
    }
    Ok(())
}

/// Copies of a record's lists for a run, without the words that do not change the result.
fn lists_of_run(alloc: Global, parsed: &ParsedArguments) -> Mem<Lists>
    ensures { IfOk result (λ lists. lists_of lists ≡ run_lists (parsed_of parsed.now)) }
{
    Ok(Lists {
        preprocessor: copy_words(alloc, &parsed.preprocessor_args)?,
        dependency: copy_words(alloc, &parsed.dependency_args)?,
        unhashed: Vec::new(alloc),
        common: copy_words(alloc, &parsed.common_args)?,
    })
}

fn preprocess_words(
    alloc: Global,
    parsed: &ParsedArguments,
    is_clang: bool,
    may_dist: bool,
    rewrite_includes_only: bool,
) -> Mem<Vec<Vec<u8>>>
    ensures { IfOk result (λ made. words_of made.items ≡ preprocess_words is_clang may_dist rewrite_includes_only (parsed_of parsed.now)) }
{
    let mut words = Vec::new(alloc);
    push_word(alloc, &mut words, first_word(parsed, may_dist))?;
    push_word(alloc, &mut words, b"-nologo")?;
    append_lists(&mut words, lists_of_run(alloc, parsed)?)?;
    push_includes(alloc, &mut words, parsed, is_clang)?;
    push_rewriting(alloc, &mut words, is_clang, rewrite_includes_only)?;
    push_input(alloc, &mut words, parsed)?;
    Ok(words)
}

/// The words of the only run.
pub(super) fn runs(
    alloc: Global,
    parsed: &ParsedArguments,
    is_clang: bool,
    may_dist: bool,
    rewrite_includes_only: bool,
) -> Mem<Vec<Vec<Vec<u8>>>>
    ensures { IfOk result (λ made. runs_of made.items ≡ runs is_clang may_dist rewrite_includes_only (parsed_of parsed.now)) }
{
    let words = preprocess_words(alloc, parsed, is_clang, may_dist, rewrite_includes_only)?;
    let mut runs = Vec::new(alloc);
    runs.push(words)?;
    Ok(runs)
}
