//! The runs whose texts go into a key, and the plan of the driver.
ghost use Rattle.std.specs.Prelude.{◌≡◌, ◌++◌, [], map, false, is_some, IfOk, OnOk};
ghost use Rattle.std.specs.List.{flat_map, list_any};
ghost use Rattle.std.specs.Option.{option_map, option_to_list};
ghost use Rattle.std.specs.Str.{bytes_eq};
ghost use Rattle.scl_values.specs.Words.{words_of};
ghost use Rattle.scl_text.specs.Commands.{command_by as command_with};
ghost use Rattle.scl_text.specs.Records.{parsed_of, without_word};
ghost use Rattle.scl_text.specs.Runs.{runs_of};
ghost use Rattle.scl_key.specs.Made.{joined_file};
ghost use Rattle.scl_key.specs.Parts.{plan, run, run_else};
ghost use Rattle.scl_key.specs.Runs.{is_assembler, is_header, key_runs, macro_words, marked_runs, noted, noted_common, noted_handed, noted_words, noting_record, plan_record, plans, run_parts, runs_else, shown_record, silent_record};
ghost use Rattle.scl_key.specs.Views.{parts_of};

use crate::family::is_gnu;
use crate::made::{handed_file, joined_file};
use crate::part::Part;
use scl_gnu::clang::Clang;
use scl_gnu::gcc::{Gcc, without_output_files};
use scl_msvc::msvc::Msvc;
use scl_reader::{Compiler, RunOptions};
use scl_text::command::{append_words, push_word};
use scl_text::language::Language;
use scl_text::records::{CommandError, ParsedArguments};
use scl_text::{CCompilerImpl, Mem, View};
use std::alloc::{AllocError, Global};

/// The word in whose place a cache puts the name of a file of its own: no word of a process can be it.
const OWN_FILE: &[u8] = b"\x00";

/// The flag of the file of dependencies.
const DEPENDENCY_FILE: &[u8] = b"-MF";

/// The flag by which a precompiled header is named in place of its text.
pub(crate) const HIDES_HEADER: &[u8] = b"-fpch-preprocess";

/// Whether it is a header or a module, whose macros are kept for others.
pub(crate) fn is_header(language: Language) -> bool
    ensures { result ≡ is_header language }
{
    match language {
        Language::CHeader
        | Language::GenericHeader
        | Language::CxxHeader
        | Language::CxxModule
        | Language::ObjectiveCHeader
        | Language::ObjectiveCxxHeader => true,
        Language::C
        | Language::Cxx
        | Language::ObjectiveC
        | Language::ObjectiveCxx
        | Language::Assembler
        | Language::AssemblerToPreprocess
        | Language::Cuda
        | Language::Rust
        | Language::Hip => false,
    }
}

pub(crate) fn is_assembler(language: Language) -> bool
    ensures { result ≡ is_assembler language }
{
    match language {
        Language::Assembler | Language::AssemblerToPreprocess => true,
        Language::C
        | Language::Cxx
        | Language::ObjectiveC
        | Language::ObjectiveCxx
        | Language::CHeader
        | Language::GenericHeader
        | Language::CxxHeader
        | Language::CxxModule
        | Language::ObjectiveCHeader
        | Language::ObjectiveCxxHeader
        | Language::Cuda
        | Language::Rust
        | Language::Hip => false,
    }
}

// ---- the plan

/// The record less what says nothing of what the driver does.
fn plan_record(alloc: Global, parsed: &ParsedArguments) -> Mem<ParsedArguments>
    ensures { IfOk result (λ planned. parsed_of planned ≡ plan_record (parsed_of parsed.now)) }
{
    let mut planned = parsed.copy(alloc)?;
    if !is_assembler(parsed.language) {
        planned.preprocessor_args = Vec::new(alloc);
    }
    planned.dependency_args = Vec::new(alloc);
    planned.unhashed_args = Vec::new(alloc);
    Ok(planned)
}

/// The words of a compiler's command for a record, if it has an output `obj`.
fn words_by<C: CCompilerImpl>(
    alloc: Global,
    compiler: &C,
    parsed: ParsedArguments,
) -> Mem<Option<Vec<Vec<u8>>>>
    ensures { IfOk result (λ words. option_map (λ words. words_of words.items) words ≡ command_with (C.command compiler.now) (parsed_of parsed)) }
{
    let view = View::new(alloc);
    match compiler.generate_compile_commands_owned(alloc, b"", parsed, b"", &[], &view) {
        Ok((command, _)) => Ok(Some(command.arguments)),
        Err(CommandError::MissingObj) => Ok(None),
        Err(CommandError::Memory) => Err(AllocError),
    }
}

/// Appends the plan for words, if there are any.
fn push_plan(parts: &mut Vec<Part>, words: Option<Vec<Vec<u8>>>) -> Mem<()>
    ensures { OnOk result (parts_of parts.new.items ≡ parts_of parts.old.items ++ map plan (option_to_list (option_map (λ words. words_of words.items) words))) }
{
    if let Some(words) = words {
        parts.push(Part::Plan(words))?;
    }
    Ok(())
}

/// The words of the plan of a compiler's driver, if it prints one.
fn plan_words(
    alloc: Global,
    compiler: Compiler,
    parsed: &ParsedArguments,
) -> Mem<Option<Vec<Vec<u8>>>>
    ensures { IfOk result (λ words. map plan (option_to_list (option_map (λ words. words_of words.items) words)) ≡ plans compiler (parsed_of parsed.now)) }
{
    let planned = plan_record(alloc, parsed)?;
    match compiler {
        Compiler::Gcc => words_by(alloc, &Gcc::new(false), planned),
        Compiler::Gxx => words_by(alloc, &Gcc::new(true), planned),
        Compiler::Clang => words_by(alloc, &Clang::new(false), planned),
        Compiler::Clangxx => words_by(alloc, &Clang::new(true), planned),
        Compiler::ClangCl => words_by(alloc, &Msvc::new(true, String::new(alloc)), planned),
        Compiler::Cl | Compiler::Diab | Compiler::Tasking => Ok(None),
    }
}

/// Appends the plan of a compiler's driver, if it prints one.
pub(crate) fn push_plans(
    alloc: Global,
    parts: &mut Vec<Part>,
    compiler: Compiler,
    parsed: &ParsedArguments,
) -> Mem<()>
    ensures { OnOk result (parts_of parts.new.items ≡ parts_of parts.old.items ++ plans compiler (parsed_of parsed.now)) }
{
    let words = plan_words(alloc, compiler, parsed)?;
    push_plan(parts, words)
}

// ---- the file of dependencies

/// Appends the words about dependencies, the cache's own file in the place of each that they name.
fn push_noted(alloc: Global, list: &mut Vec<Vec<u8>>, words: &[Vec<u8>]) -> Mem<()>
    ensures { OnOk result (words_of list.new.items ≡ words_of list.old.items ++ noted false (words_of words.now)) }
{
    let mut is_behind = false;
    for word in words {
        if is_behind {
            push_word(alloc, list, OWN_FILE)?;
            is_behind = false;
        } else {
            push_word(alloc, list, word)?;
            is_behind = word.as_slice() == DEPENDENCY_FILE;
        }
    }
    Ok(())
}

pub(crate) fn is_among(word: &[u8], words: &[Vec<u8>]) -> bool
    ensures { result ≡ list_any (λ other. bytes_eq other word.now) (words_of words.now) }
{
    for other in words {
        if other.as_slice() == word {
            return true;
        }
    }
    false
}

/// Appends the words about dependencies, if they name a file.
fn push_noted_words(alloc: Global, noted: &mut Vec<Vec<u8>>, words: &[Vec<u8>]) -> Mem<()>
    ensures { OnOk result (words_of noted.new.items ≡ words_of noted.old.items ++ noted_words (words_of words.now)) }
{
    if is_among(DEPENDENCY_FILE, words) {
        push_noted(alloc, noted, words)
    } else {
        Ok(())
    }
}

/// Appends a word that passes a file of dependencies to the preprocessor, as words about dependencies.
fn push_noted_handed(alloc: Global, noted: &mut Vec<Vec<u8>>, word: &[u8]) -> Mem<()>
    ensures { OnOk result (words_of noted.new.items ≡ words_of noted.old.items ++ noted_handed word.now) }
{
    if handed_file(word).is_none() {
        return Ok(());
    }
    if word.starts_with(b"-Wp,-MD,") {
        push_word(alloc, noted, b"-MD")?;
    } else {
        push_word(alloc, noted, b"-MMD")?;
    }
    push_word(alloc, noted, DEPENDENCY_FILE)?;
    push_word(alloc, noted, OWN_FILE)
}

/// Appends all words that pass a file of dependencies to the preprocessor.
fn push_all_handed(alloc: Global, noted: &mut Vec<Vec<u8>>, words: &[Vec<u8>]) -> Mem<()>
    ensures { OnOk result (words_of noted.new.items ≡ words_of noted.old.items ++ flat_map noted_handed (words_of words.now)) }
{
    for word in words {
        push_noted_handed(alloc, noted, word)?;
    }
    Ok(())
}

/// The words about dependencies of the runs.
fn dependency_words(alloc: Global, parsed: &ParsedArguments) -> Mem<Vec<Vec<u8>>>
    ensures { IfOk result (λ words. words_of words.items ≡ (noting_record [] (parsed_of parsed.now)).dependency_args) }
{
    let mut noted = Vec::new(alloc);
    push_noted_words(alloc, &mut noted, &parsed.dependency_args)?;
    push_all_handed(alloc, &mut noted, &parsed.preprocessor_args)?;
    push_all_handed(alloc, &mut noted, &parsed.common_args)?;
    Ok(noted)
}

/// Whether one of these words names a file of dependencies that is joined to its flag.
fn names_joined(words: &[Vec<u8>]) -> bool
    ensures { result ≡ list_any (λ word. is_some (joined_file word)) (words_of words.now) }
{
    for word in words {
        if joined_file(word).is_some() {
            return true;
        }
    }
    false
}

/// Appends the cache's own file, if one of these words names another.
fn push_noted_common(alloc: Global, noted: &mut Vec<Vec<u8>>, words: &[Vec<u8>]) -> Mem<()>
    ensures { OnOk result (words_of noted.new.items ≡ words_of noted.old.items ++ noted_common (words_of words.now)) }
{
    if !names_joined(words) {
        return Ok(());
    }
    push_word(alloc, noted, DEPENDENCY_FILE)?;
    push_word(alloc, noted, OWN_FILE)
}

/// The common words of the runs: none but the last file that is named is written.
fn common_words(alloc: Global, parsed: &ParsedArguments) -> Mem<Vec<Vec<u8>>>
    ensures { IfOk result (λ words. words_of words.items ≡ (noting_record [] (parsed_of parsed.now)).common_args) }
{
    let mut words = without_output_files(alloc, &parsed.common_args)?;
    push_noted_common(alloc, &mut words, &parsed.common_args)?;
    Ok(words)
}

// ---- the runs

/// The words by which runs print macros, if these count.
fn macro_words(alloc: Global, macros: bool, parsed: &ParsedArguments) -> Mem<Vec<Vec<u8>>>
    ensures { IfOk result (λ words. words_of words.items ≡ macro_words macros (parsed_of parsed.now)) }
{
    let mut words = Vec::new(alloc);
    if is_header(parsed.language) || macros {
        push_word(alloc, &mut words, b"-dD")?;
    }
    Ok(words)
}

/// The record of the runs of Gcc and Clang, with these words in front of those of the preprocessor.
fn noting_record(
    alloc: Global,
    macros: Vec<Vec<u8>>,
    parsed: &ParsedArguments,
) -> Mem<ParsedArguments>
    ensures { IfOk result (λ noting. parsed_of noting ≡ noting_record (words_of macros.items) (parsed_of parsed.now)) }
{
    let mut preprocessor = macros;
    let others = without_output_files(alloc, &parsed.preprocessor_args)?;
    append_words(&mut preprocessor, others)?;
    let mut noting = parsed.copy(alloc)?;
    noting.dependency_args = dependency_words(alloc, parsed)?;
    noting.preprocessor_args = preprocessor;
    noting.common_args = common_words(alloc, parsed)?;
    Ok(noting)
}

/// The words except those equal to one.
fn without_word(alloc: Global, word: &[u8], words: &[Vec<u8>]) -> Mem<Vec<Vec<u8>>>
    ensures { IfOk result (λ others. words_of others.items ≡ without_word word.now (words_of words.now)) }
{
    let mut others = Vec::new(alloc);
    for other in words {
        if other.as_slice() != word {
            push_word(alloc, &mut others, other)?;
        }
    }
    Ok(others)
}

/// The words of the runs for a record, which keep their line markers.
pub(crate) fn marked_runs(
    alloc: Global,
    compiler: Compiler,
    parsed: &ParsedArguments,
) -> Mem<Vec<Vec<Vec<u8>>>>
    ensures { IfOk result (λ runs. runs_of runs.items ≡ marked_runs compiler (parsed_of parsed.now)) }
{
    let options = RunOptions {
        may_dist: true,
        rewrite_includes_only: false,
        cache_mode: true,
    };
    compiler.preprocess_runs(alloc, parsed, options)
}

/// The record of the runs of Gcc and Clang that show the text of each header.
fn shown_record(alloc: Global, macros: bool, parsed: &ParsedArguments) -> Mem<ParsedArguments>
    ensures { IfOk result (λ shown. parsed_of shown ≡ shown_record (noting_record (macro_words macros (parsed_of parsed.now)) (parsed_of parsed.now))) }
{
    let words = macro_words(alloc, macros, parsed)?;
    let mut shown = noting_record(alloc, words, parsed)?;
    shown.common_args = without_word(alloc, HIDES_HEADER, &shown.common_args)?;
    Ok(shown)
}

/// The record of the runs of other compilers, which write no file.
fn silent_record(alloc: Global, parsed: &ParsedArguments) -> Mem<ParsedArguments>
    ensures { IfOk result (λ silent. parsed_of silent ≡ silent_record (parsed_of parsed.now)) }
{
    let mut silent = parsed.copy(alloc)?;
    silent.dependency_args = Vec::new(alloc);
    silent.depfile = None;
    Ok(silent)
}

fn key_runs(
    alloc: Global,
    compiler: Compiler,
    macros: bool,
    parsed: &ParsedArguments,
) -> Mem<Vec<Vec<Vec<u8>>>>
    ensures { IfOk result (λ runs. runs_of runs.items ≡ key_runs macros compiler (parsed_of parsed.now)) }
{
    let changed = if is_gnu(compiler) {
        shown_record(alloc, macros, parsed)?
    } else {
        silent_record(alloc, parsed)?
    };
    marked_runs(alloc, compiler, &changed)
}

/// The runs that may name a header in place of its text.
fn naming_runs(
    alloc: Global,
    compiler: Compiler,
    parsed: &ParsedArguments,
) -> Mem<Vec<Vec<Vec<u8>>>>
    ensures { IfOk result (λ runs. runs_of runs.items ≡ marked_runs compiler (noting_record [] (parsed_of parsed.now))) }
{
    let noting = noting_record(alloc, Vec::new(alloc), parsed)?;
    marked_runs(alloc, compiler, &noting)
}

/// The runs for a header that is named without its text in its place.
fn runs_else(alloc: Global, compiler: Compiler, parsed: &ParsedArguments) -> Mem<Vec<Vec<Vec<u8>>>>
    ensures { IfOk result (λ runs. runs_of runs.items ≡ runs_else compiler (parsed_of parsed.now)) }
{
    if is_gnu(compiler) && is_among(HIDES_HEADER, &parsed.common_args) {
        naming_runs(alloc, compiler, parsed)
    } else {
        Ok(Vec::new(alloc))
    }
}

/// Appends runs.
fn push_each_run(parts: &mut Vec<Part>, runs: Vec<Vec<Vec<u8>>>) -> Mem<()>
    ensures { OnOk result (parts_of parts.new.items ≡ parts_of parts.old.items ++ map run (runs_of runs.items)) }
{
    for one in runs {
        parts.push(Part::Run(one))?;
    }
    Ok(())
}

/// Appends runs for the case that others failed.
fn push_each_else(parts: &mut Vec<Part>, runs: Vec<Vec<Vec<u8>>>) -> Mem<()>
    ensures { OnOk result (parts_of parts.new.items ≡ parts_of parts.old.items ++ map run_else (runs_of runs.items)) }
{
    for one in runs {
        parts.push(Part::RunElse(one))?;
    }
    Ok(())
}

/// Appends the runs.
pub(crate) fn push_runs(
    alloc: Global,
    parts: &mut Vec<Part>,
    compiler: Compiler,
    macros: bool,
    parsed: &ParsedArguments,
) -> Mem<()>
    ensures { OnOk result (parts_of parts.new.items ≡ parts_of parts.old.items ++ run_parts macros compiler (parsed_of parsed.now)) }
{
    let runs = key_runs(alloc, compiler, macros, parsed)?;
    push_each_run(parts, runs)?;
    let runs = runs_else(alloc, compiler, parsed)?;
    push_each_else(parts, runs)
}
