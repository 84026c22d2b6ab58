//! The words of the runs of the preprocessor.
ghost use Rattle.std.specs.Prelude.{◌≡◌, ◌++◌, IfOk, OnOk};
ghost use Rattle.std.specs.Option.{option_copied, option_map};
ghost use Rattle.scl_values.specs.Words.{words_of};
ghost use Rattle.scl_text.specs.Records.{parsed_of};
ghost use Rattle.scl_text.specs.Runs.{runs_of};
ghost use Rattle.scl_gnu.specs.ListsOf.{lists_of};
ghost use Rattle.scl_gnu.specs.Preprocess.{ignoring, rewriting, settings, words_with, run_words, with_archs, without_files, arch_words, arch_run, arch_runs, preprocess_passes, linemarker_flags, gcc_runs};

use super::command::language_to_gcc_arg;
use super::output_files::without_output_files;
use super::words::{Lists, push_input, push_language, push_lists};
use scl_args::Mem;
use scl_gnu_reading::gcc::ARCH_FLAG;
use scl_text::command::{push_word, push_words};
use scl_text::language::Language;
use scl_text::records::{CCompilerKind, ParsedArguments};
use std::alloc::Global;
use std::borrow::CowSlice;
use std::convert::AsStr;

/// Appends the flags that leave out ignorable output, unless the run must keep line markers.
fn push_ignoring(
    alloc: Global,
    words: &mut Vec<Vec<u8>>,
    parsed: &ParsedArguments,
    may_dist: bool,
    ignorable: &[Vec<u8>],
) -> Mem<()>
    ensures { OnOk result (words_of words.new.items ≡ words_of words.old.items ++ ignoring may_dist (parsed_of parsed.now) (words_of ignorable.now)) }
{
    if !may_dist && !parsed.profile_generate {
        push_words(alloc, words, ignorable)?;
    }
    Ok(())
}

/// Appends the flag that leaves macros in place, if it is requested and allowed.
fn push_rewriting(
    alloc: Global,
    words: &mut Vec<Vec<u8>>,
    kind: CCompilerKind,
    rewrites: bool,
    parsed: &ParsedArguments,
) -> Mem<()>
    ensures { OnOk result (words_of words.new.items ≡ words_of words.old.items ++ rewriting kind rewrites (parsed_of parsed.now)) }
{
    if !rewrites || parsed.suppress_rewrite_includes_only {
        return Ok(());
    }
    match kind {
        CCompilerKind::Clang => push_word(alloc, words, b"-frewrite-includes"),
        CCompilerKind::Gcc => push_word(alloc, words, b"-fdirectives-only"),
        CCompilerKind::Diab | CCompilerKind::Msvc | CCompilerKind::TaskingVX => Ok(()),
    }
}

fn settings(
    alloc: Global,
    kind: CCompilerKind,
    rewrites: bool,
    ignorable: &[Vec<u8>],
    may_dist: bool,
    parsed: &ParsedArguments,
) -> Mem<Vec<Vec<u8>>>
    ensures { IfOk result (λ made. words_of made.items ≡ settings kind rewrites (words_of ignorable.now) may_dist (parsed_of parsed.now)) }
{
    let mut made = Vec::new(alloc);
    push_ignoring(alloc, &mut made, parsed, may_dist, ignorable)?;
    push_rewriting(alloc, &mut made, kind, rewrites, parsed)?;
    Ok(made)
}

/// The words of a run with these lists.
fn words_with(
    alloc: Global,
    text: Option<&str>,
    settings: &[Vec<u8>],
    lists: Lists,
    parsed: &ParsedArguments,
) -> Mem<Vec<Vec<u8>>>
    ensures { IfOk result (λ made. words_of made.items ≡ words_with (option_copied text.entry) (words_of settings.now) (lists_of lists.entry) (parsed_of parsed.now)) }
{
    let mut words = Vec::new(alloc);
    push_language(alloc, &mut words, text)?;
    push_word(alloc, &mut words, b"-E")?;
    push_words(alloc, &mut words, settings)?;
    push_lists(alloc, &mut words, lists)?;
    push_input(alloc, &mut words, parsed)?;
    Ok(words)
}

/// The words of a run with the record's lists, without the unhashed words, and with these words for architectures.
fn run_words<'a>(
    alloc: Global,
    text: Option<&str>,
    settings: &[Vec<u8>],
    parsed: &'a ParsedArguments,
    arch: &'a [Vec<u8>],
) -> Mem<Vec<Vec<u8>>>
    ensures { IfOk result (λ made. words_of made.items ≡ run_words (option_copied text.entry) (words_of settings.now) (with_archs (words_of arch.now) (parsed_of parsed.now))) }
{
    let lists = Lists {
        preprocessor: CowSlice::Borrowed(&parsed.preprocessor_args),
        dependency: CowSlice::Borrowed(&parsed.dependency_args),
        unhashed: CowSlice::Borrowed(&[]),
        common: CowSlice::Borrowed(&parsed.common_args),
        arch: CowSlice::Borrowed(arch),
    };
    words_with(alloc, text, settings, lists, parsed)
}

/// The words of such a run, without those that make the preprocessor write a file.
fn quiet_words<'a>(
    alloc: Global,
    text: Option<&str>,
    settings: &[Vec<u8>],
    parsed: &'a ParsedArguments,
    arch: &'a [Vec<u8>],
) -> Mem<Vec<Vec<u8>>>
    ensures { IfOk result (λ made. words_of made.items ≡ run_words (option_copied text.entry) (words_of settings.now) (with_archs (words_of arch.now) (without_files (parsed_of parsed.now)))) }
{
    let preprocessor = without_output_files(alloc, &parsed.preprocessor_args)?;
    let common = without_output_files(alloc, &parsed.common_args)?;
    let lists = Lists {
        preprocessor: CowSlice::Owned(preprocessor),
        dependency: CowSlice::Borrowed(&[]),
        unhashed: CowSlice::Borrowed(&[]),
        common: CowSlice::Owned(common),
        arch: CowSlice::Borrowed(arch),
    };
    words_with(alloc, text, settings, lists, parsed)
}

/// The words that name one architecture.
fn arch_words(alloc: Global, arch: &[u8]) -> Mem<Vec<Vec<u8>>>
    ensures { IfOk result (λ made. words_of made.items ≡ arch_words arch.now) }
{
    let mut words = Vec::new(alloc);
    push_word(alloc, &mut words, ARCH_FLAG.as_bytes())?;
    push_word(alloc, &mut words, arch)?;
    Ok(words)
}

/// A run for one architecture; only the last one writes files.
fn arch_run(
    alloc: Global,
    text: Option<&str>,
    settings: &[Vec<u8>],
    parsed: &ParsedArguments,
    arch: &[u8],
    is_last: bool,
) -> Mem<Vec<Vec<u8>>>
    ensures { IfOk result (λ made. words_of made.items ≡ arch_run (option_copied text.entry) (words_of settings.now) (parsed_of parsed.now) arch.now is_last) }
{
    let words = arch_words(alloc, arch)?;
    if is_last {
        run_words(alloc, text, settings, parsed, &words)
    } else {
        quiet_words(alloc, text, settings, parsed, &words)
    }
}

/// A run for each architecture.
fn arch_runs(
    alloc: Global,
    text: Option<&str>,
    settings: &[Vec<u8>],
    parsed: &ParsedArguments,
    archs: &[Vec<u8>],
) -> Mem<Vec<Vec<Vec<u8>>>>
    ensures { IfOk result (λ made. runs_of made.items ≡ arch_runs (option_copied text.entry) (words_of settings.now) (parsed_of parsed.now) (words_of archs.now)) }
{
    let mut runs = Vec::new(alloc);
    for (index, arch) in archs.iter().enumerate() {
        let is_last = index + 1 == archs.len();
        runs.push(arch_run(alloc, text, settings, parsed, arch, is_last)?)?;
    }
    Ok(runs)
}

/// The runs, with this text for the language.
fn runs_with(
    alloc: Global,
    text: Option<&str>,
    kind: CCompilerKind,
    rewrites: bool,
    ignorable: &[Vec<u8>],
    may_dist: bool,
    parsed: &ParsedArguments,
) -> Mem<Vec<Vec<Vec<u8>>>>
    ensures { IfOk result (λ made. runs_of made.items ≡ preprocess_passes (option_copied text.entry) kind rewrites (words_of ignorable.now) may_dist (parsed_of parsed.now)) }
{
    let archs = parsed.archs(alloc)?;
    if archs.len() >= 2 {
        let settings = settings(alloc, kind, rewrites, ignorable, false, parsed)?;
        return arch_runs(alloc, text, &settings, parsed, &archs);
    }
    let settings = settings(alloc, kind, rewrites, ignorable, may_dist, parsed)?;
    let mut runs = Vec::new(alloc);
    runs.push(run_words(alloc, text, &settings, parsed, &parsed.arch_args)?)?;
    Ok(runs)
}

/// The words of the preprocessor's runs for a record, in order, with the closure's text for the language (docs/RULES.md,
/// Preprocessing):
///
/// - One run; or, of several architectures, one for each, of which only the last writes files.
/// - A run has the words of all lists except the unhashed ones.
/// - Flags that leave out ignorable output are in it, unless it is for a distant compiler or for a program that writes a
///   profile. A run for one of several architectures is never for a distant compiler, whatever `may_dist` is.
/// - Only the runs of Gcc and Clang can have a flag that leaves macros in place.
pub fn preprocess_passes<T: AsStr + Drop, F: Fn(Language) -> Option<T>>(
    alloc: Global,
    parsed: &ParsedArguments,
    may_dist: bool,
    kind: CCompilerKind,
    rewrite_includes_only: bool,
    ignorable: &[Vec<u8>],
    language_to_arg: F,
) -> Mem<Vec<Vec<Vec<u8>>>>
    requires { F.IsAlwaysCallable language_to_arg }
    ensures { IfOk result (λ made. (text : _) × F.post language_to_arg parsed.now.language text
        × (runs_of made.items ≡ preprocess_passes (option_map T.text text) kind rewrite_includes_only (words_of ignorable.now) may_dist (parsed_of parsed.now))) }
{
    let text = language_to_arg(parsed.language);
    runs_with(
        alloc,
        text.as_ref().map(|text| text.as_str()),
        kind,
        rewrite_includes_only,
        ignorable,
        may_dist,
        parsed,
    )
}

/// The flags, the same for each Gcc and Clang, that leave out ignorable output.
pub(crate) fn linemarker_flags(alloc: Global, cache_mode: bool) -> Mem<Vec<Vec<u8>>>
    ensures { IfOk result (λ made. words_of made.items ≡ linemarker_flags cache_mode) }
{
    let mut words = Vec::new(alloc);
    if !cache_mode {
        push_word(alloc, &mut words, b"-P")?;
    }
    Ok(words)
}

/// The words of the runs of Gcc's preprocessor, in order.
pub(super) fn gcc_runs(
    alloc: Global,
    parsed: &ParsedArguments,
    may_dist: bool,
    rewrite_includes_only: bool,
    cache_mode: bool,
) -> Mem<Vec<Vec<Vec<u8>>>>
    ensures { IfOk result (λ runs. runs_of runs.items ≡ gcc_runs may_dist rewrite_includes_only cache_mode (parsed_of parsed.now)) }
{
    let ignorable = linemarker_flags(alloc, cache_mode)?;
    preprocess_passes(
        alloc,
        parsed,
        may_dist,
        CCompilerKind::Gcc,
        rewrite_includes_only,
        &ignorable,
        language_to_gcc_arg,
    )
}
