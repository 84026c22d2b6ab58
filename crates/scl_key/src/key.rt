//! The key of a command line, or why there is none.
ghost use Rattle.std.specs.Prelude.{◌≡◌, ◌++◌, ◌∷◌, [], map, if◌then◌else◌, IfOk, OnOk};
ghost use Rattle.std.specs.List.{list_all};
ghost use Rattle.scl_values.specs.Words.{words_of};
ghost use Rattle.scl_text.specs.Commands.{pairs_of};
ghost use Rattle.scl_text.specs.Records.{parsed_of};
ghost use Rattle.scl_catalogue.specs.Views.{lexicon_of};
ghost use Rattle.scl_key.specs.Effects.{is_plain};
ghost use Rattle.scl_key.specs.Keys.{asked_each, asked_parts, assembler_reading, file_parts, keeping_by, keeping_of, key_by, named_each, no_keys, precompiled_parts, reading, refusals, response_files, searched, stamps_times, telling_of, text_is_enough, text_parts, under, whole_key_by};
ghost use Rattle.scl_key.specs.Known.{headers};
ghost use Rattle.scl_key.specs.KnownViews.{all_judged, known_of};
ghost use Rattle.scl_key.specs.Parts.{asked, output, sources, times};
ghost use Rattle.scl_key.specs.Runs.{is_assembler};
ghost use Rattle.scl_key.specs.Views.{outputs_of, parts_of, run_words_of};
ghost use Rattle.scl_key.specs.Views.{keeping_of as keeping_told};
ghost use Rattle.scl_key.specs.declared.part.Ask.TheVariants as Ask;

use crate::direct::{Direct, directs};
use crate::effect::{Judged, is_plain};
use crate::family::{folder_variables, is_clang, is_gcc, unset_variables, variables};
use crate::given::values_among;
use crate::known::{Known, has_macros, known_in, shows};
use crate::no_key::{NoKey, no_keys};
use crate::part::{Ask, Output, Part};
use crate::reads::files_perhaps;
use crate::runs::{is_among, is_assembler, is_header, push_plans, push_runs};
use crate::told::{Line, RunWords, told};
use scl_catalogue::Brings;
use scl_reader::Compiler;
use scl_text::Mem;
use scl_text::command::push_word;
use scl_text::language::Language;
use scl_text::records::ParsedArguments;
use std::alloc::Global;

/// A key, with what direct mode needs, if it may be used.
#[derive(Debug, PartialEq, Eq, Drop)]
pub struct Key {
    /// Whether each run shows all that the words of the preprocessor bring in.
    pub is_shown: bool,
    /// What is hashed, and what is asked and hashed.
    pub parts: Vec<Part>,
    /// What direct mode needs; nothing if it may not be used.
    pub direct: Vec<Direct>,
}

/// What is said of keeping what a command line makes (docs/RULES.md, Keys).
#[derive(Debug, PartialEq, Eq, Drop)]
pub enum Keeping {
    /// It may be kept, under this key.
    Under(Key),
    /// No key can be right, for these reasons.
    Not(Vec<NoKey>),
}

/// What in a text says that a source has more than the text: its columns, names, lines, or whether a message is an error.
const TELLING: &str =
    "__builtin_(COLUMN|LINE|FILE|source_location)|diagnostic[ \t]+error|__has_embed|#[ \t]*embed";

/// The same for Clang, which names what has no name by its column, and expands macros in pragmas that its runs write as they stand.
const CLANG_TELLING: &str =
    "__builtin_(COLUMN|LINE|FILE|source_location|dump_struct)|__PRETTY_FUNCTION__|diagnostic[ \t]+error|__has_embed|#[ \t]*embed|#[ \t]*pragma[ \t]+([^GSpc \t]|p[^uo]|c[^l]|clang[ \t]+[^d \t]|GCC[ \t]+[^vdspew \t])";

/// What in a text reads a file that nobody names, or may: an assembler's directives, and its macros that make such.
const READING: &str =
    "(^|[^])A-Za-z0-9_.$]|\\\\[nt])\\.[Ii][Nn][Cc]([Bb][Ii][Nn]|[Ll][Uu][Dd][Ee])([^A-Za-z0-9_]|$)|^[ \t]*#[ \t]*embed|\\.[A-Za-z0-9_]*\\\\\\\\[A-Za-z0-9_(@]";

/// The same in assembler.
const ASSEMBLER_READING: &str =
    "(^|[^])A-Za-z0-9_.$]|\\\\[nt])\\.[Ii][Nn][Cc]([Bb][Ii][Nn]|[Ll][Uu][Dd][Ee])([^A-Za-z0-9_]|$)|\\.[A-Za-z0-9_]*\\\\[A-Za-z0-9_(@]";

/// The word by which clang's precompiled header stores no times.
const NO_TIMES: &[u8] = b"-fno-pch-timestamp";

/// Appends what is asked of a name.
fn push_asked(alloc: Global, parts: &mut Vec<Part>, ask: Ask, name: &[u8]) -> Mem<()>
    ensures { OnOk result (parts_of parts.new.items ≡ parts_of parts.old.items ++ asked ask name.now ∷ []) }
{
    let name = Vec::from_slice(alloc, name)?;
    parts.push(Part::Asked(ask, name))?;
    Ok(())
}

/// Appends what is asked of each name.
fn push_asked_each(alloc: Global, parts: &mut Vec<Part>, ask: Ask, names: &[Vec<u8>]) -> Mem<()>
    ensures { OnOk result (parts_of parts.new.items ≡ parts_of parts.old.items ++ asked_each ask (words_of names.now)) }
{
    for name in names {
        push_asked(alloc, parts, ask, name)?;
    }
    Ok(())
}

/// Appends what is asked of each of these.
fn push_asked_values(alloc: Global, parts: &mut Vec<Part>, ask: Ask, values: &[&[u8]]) -> Mem<()>
    ensures { OnOk result (parts_of parts.new.items ≡ parts_of parts.old.items ++ asked_each ask (map (λ value. value.now) values.now)) }
{
    for value in values {
        push_asked(alloc, parts, ask, value)?;
    }
    Ok(())
}

/// The response files that the given words name, if those are run.
fn response_files<'a>(words: RunWords<'a>) -> &'a [Vec<u8>]
    ensures { words_of result.now ≡ response_files (run_words_of words.entry) }
{
    match words {
        RunWords::Given(_, files) => files,
        RunWords::Built | RunWords::Hazardous(_) => &[],
    }
}

/// Appends names, each after what it is.
fn push_named_each(alloc: Global, words: &mut Vec<Vec<u8>>, what: &str, names: &[&[u8]]) -> Mem<()>
    ensures { OnOk result (words_of words.new.items ≡ words_of words.old.items ++ named_each what.now (map (λ name. name.now) names.now)) }
{
    for name in names {
        push_word(alloc, words, what.as_bytes())?;
        push_word(alloc, words, name)?;
    }
    Ok(())
}

/// Where Gcc searches what it may read in the place of the first header.
fn searched(alloc: Global, known: &Known<'_>, parsed: &ParsedArguments) -> Mem<Vec<Vec<u8>>>
    ensures { IfOk result (λ words. words_of words.items ≡ searched (known_of known.now) (parsed_of parsed.now)) }
{
    let mut words = Vec::new(alloc);
    let headers = values_among(alloc, Brings::Header, &known.given)?;
    let folders = values_among(alloc, Brings::Folder, &known.given)?;
    push_named_each(alloc, &mut words, "header", &headers)?;
    push_named_each(alloc, &mut words, "beside", &[parsed.input.as_slice()])?;
    push_named_each(alloc, &mut words, "folder", &folders)?;
    push_named_each(alloc, &mut words, "variable", folder_variables())?;
    Ok(words)
}

/// Appends what Gcc may read in the place of the first header.
fn push_precompiled(
    alloc: Global,
    parts: &mut Vec<Part>,
    compiler: Compiler,
    known: &Known<'_>,
    parsed: &ParsedArguments,
) -> Mem<()>
    ensures { OnOk result (parts_of parts.new.items ≡ parts_of parts.old.items ++ precompiled_parts (known_of known.now) compiler (parsed_of parsed.now)) }
{
    if is_gcc(compiler) {
        parts.push(Part::Pch(searched(alloc, known, parsed)?))?;
    }
    Ok(())
}

fn are_plain(words: &[Judged<'_>]) -> bool
    ensures { result ≡ list_all (λ j. is_plain j.doing) (all_judged words.now) }
{
    for one in words {
        if !is_plain(one.doing) {
            return false;
        }
    }
    true
}

fn telling_of(compiler: Compiler) -> &'static str
    ensures { result.now ≡ telling_of compiler }
{
    if is_clang(compiler) {
        CLANG_TELLING
    } else {
        TELLING
    }
}

/// Appends the sources.
fn push_sources(
    alloc: Global,
    parts: &mut Vec<Part>,
    compiler: Compiler,
    text_is_enough: bool,
) -> Mem<()>
    ensures { OnOk result (parts_of parts.new.items ≡ parts_of parts.old.items ++ (if text_is_enough then asked Ask.SourcesIfShown (telling_of compiler) ∷ [] else sources ∷ [])) }
{
    if text_is_enough {
        push_asked(
            alloc,
            parts,
            Ask::SourcesIfShown,
            telling_of(compiler).as_bytes(),
        )
    } else {
        parts.push(Part::Sources)?;
        Ok(())
    }
}

fn stamps_times(compiler: Compiler, parsed: &ParsedArguments) -> bool
    ensures { result ≡ stamps_times compiler (parsed_of parsed.now) }
{
    is_clang(compiler) && is_header(parsed.language) && !is_among(NO_TIMES, &parsed.common_args)
}

/// Appends the times of the sources, if the outcome has them.
fn push_times(parts: &mut Vec<Part>, compiler: Compiler, parsed: &ParsedArguments) -> Mem<()>
    ensures { OnOk result (parts_of parts.new.items ≡ parts_of parts.old.items ++ (if stamps_times compiler (parsed_of parsed.now) then times ∷ [] else [])) }
{
    if stamps_times(compiler, parsed) {
        parts.push(Part::Times)?;
    }
    Ok(())
}

/// What no text may have.
fn refused(language: Language) -> &'static str
    ensures { result.now ≡ (if is_assembler language then assembler_reading else reading) }
{
    if is_assembler(language) {
        ASSEMBLER_READING
    } else {
        READING
    }
}

/// Appends what no text may have.
fn push_refusals(alloc: Global, parts: &mut Vec<Part>, parsed: &ParsedArguments) -> Mem<()>
    ensures { OnOk result (parts_of parts.new.items ≡ parts_of parts.old.items ++ refusals (parsed_of parsed.now)) }
{
    let pattern = refused(parsed.language);
    push_asked(alloc, parts, Ask::RefuseIfShown, pattern.as_bytes())
}

/// Appends what is asked of variables and files.
fn push_files(
    alloc: Global,
    parts: &mut Vec<Part>,
    line: &Line<'_, '_>,
    known: &Known<'_>,
) -> Mem<()>
    ensures { OnOk result (parts_of parts.new.items ≡ parts_of parts.old.items ++ file_parts (known_of known.now) line.now.compiler (run_words_of line.now.words) (parsed_of line.now.parsed.now)) }
{
    push_asked_values(alloc, parts, Ask::Env, variables(line.compiler))?;
    push_asked_values(alloc, parts, Ask::Unset, unset_variables(line.compiler))?;
    push_asked_each(alloc, parts, Ask::File, &line.parsed.extra_hash_files)?;
    push_asked_each(alloc, parts, Ask::File, response_files(line.words))?;
    let paths = files_perhaps(alloc, line, known)?;
    push_asked_each(alloc, parts, Ask::Maybe, &paths)
}

/// Appends what must be a regular file, if anything.
fn push_regular(
    alloc: Global,
    parts: &mut Vec<Part>,
    known: &Known<'_>,
    parsed: &ParsedArguments,
) -> Mem<()>
    ensures { OnOk result (parts_of parts.new.items ≡ parts_of parts.old.items ++ asked_each Ask.Regular ((parsed_of parsed.now).input ∷ headers (known_of known.now))) }
{
    push_asked(alloc, parts, Ask::Regular, &parsed.input)?;
    let headers = values_among(alloc, Brings::Header, &known.given)?;
    push_asked_values(alloc, parts, Ask::Regular, &headers)
}

/// Appends what is asked of texts.
fn push_texts(
    alloc: Global,
    parts: &mut Vec<Part>,
    line: &Line<'_, '_>,
    known: &Known<'_>,
) -> Mem<()>
    ensures { OnOk result (parts_of parts.new.items ≡ parts_of parts.old.items ++ text_parts (known_of known.now) line.now.compiler (parsed_of line.now.parsed.now)) }
{
    push_runs(alloc, parts, line.compiler, has_macros(known), line.parsed)?;
    push_precompiled(alloc, parts, line.compiler, known, line.parsed)?;
    let text_is_enough = shows(known, line.compiler, line.parsed.language)
        && are_plain(&known.common);
    push_sources(alloc, parts, line.compiler, text_is_enough)?;
    push_times(parts, line.compiler, line.parsed)?;
    push_refusals(alloc, parts, line.parsed)
}

/// Appends the parts that ask.
fn push_asking(
    alloc: Global,
    parts: &mut Vec<Part>,
    line: &Line<'_, '_>,
    known: &Known<'_>,
) -> Mem<()>
    ensures { OnOk result (parts_of parts.new.items ≡ parts_of parts.old.items ++ asked_parts (known_of known.now) line.now.compiler (run_words_of line.now.words) (parsed_of line.now.parsed.now)) }
{
    parts.push(Part::Directory)?;
    parts.push(Part::Compiler)?;
    push_plans(alloc, parts, line.compiler, line.parsed)?;
    push_files(alloc, parts, line, known)?;
    push_regular(alloc, parts, known, line.parsed)?;
    push_texts(alloc, parts, line, known)
}

/// Appends the files that come out.
fn push_outputs(alloc: Global, parts: &mut Vec<Part>, outputs: &[Output]) -> Mem<()>
    ensures { OnOk result (parts_of parts.new.items ≡ parts_of parts.old.items ++ map output (outputs_of outputs.now)) }
{
    for one in outputs {
        parts.push(Part::Output(one.copy(alloc)?))?;
    }
    Ok(())
}

/// The parts of a key.
fn key_with(alloc: Global, line: &Line<'_, '_>, known: &Known<'_>) -> Mem<Vec<Part>>
    ensures { IfOk result (λ key. parts_of key.items ≡ key_by (known_of known.now) line.now.compiler (pairs_of line.now.environment.now) (run_words_of line.now.words) (parsed_of line.now.parsed.now)) }
{
    let is_shown = shows(known, line.compiler, line.parsed.language);
    let mut parts = told(alloc, line, is_shown)?;
    push_outputs(alloc, &mut parts, &known.made)?;
    push_asking(alloc, &mut parts, line, known)?;
    Ok(parts)
}

/// The key, and what direct mode needs.
fn kept(alloc: Global, line: &Line<'_, '_>, known: &Known<'_>) -> Mem<Keeping>
    ensures { IfOk result (λ keeping. keeping_told keeping ≡ under (whole_key_by (lexicon_of line.now.lexicon.now) (known_of known.now) line.now.compiler (pairs_of line.now.environment.now) (run_words_of line.now.words) (parsed_of line.now.parsed.now))) }
{
    let parts = key_with(alloc, line, known)?;
    let direct = directs(alloc, line, known)?;
    Ok(Keeping::Under(Key {
        is_shown: shows(known, line.compiler, line.parsed.language),
        parts,
        direct,
    }))
}

/// The key, or why there is none.
fn kept_unless(alloc: Global, line: &Line<'_, '_>, known: &Known<'_>) -> Mem<Keeping>
    ensures { IfOk result (λ keeping. keeping_told keeping ≡ keeping_by
        (no_keys (known_of known.now) line.now.compiler (run_words_of line.now.words) (parsed_of line.now.parsed.now))
        (whole_key_by (lexicon_of line.now.lexicon.now) (known_of known.now) line.now.compiler (pairs_of line.now.environment.now) (run_words_of line.now.words) (parsed_of line.now.parsed.now))) }
{
    let why = no_keys(alloc, line, known)?;
    if !why.is_empty() {
        return Ok(Keeping::Not(why));
    }
    let keeping = kept(alloc, line, known)?;
    Ok(keeping)
}

/// The key of a line's record, or why there is none: with the environment that its command gets, and the words that a cache runs
/// at a miss (docs/RULES.md, Keys).
pub fn key_of(alloc: Global, line: &Line<'_, '_>) -> Mem<Keeping>
    ensures { IfOk result (λ keeping. keeping_told keeping ≡ keeping_of (lexicon_of line.now.lexicon.now) line.now.compiler (pairs_of line.now.environment.now) (run_words_of line.now.words) (parsed_of line.now.parsed.now)) }
{
    let known = known_in(alloc, line.lexicon, line.parsed)?;
    let keeping = kept_unless(alloc, line, &known)?;
    Ok(keeping)
}
