//! Direct mode: what a cache needs to find a key without a run of the compiler.
ghost use Rattle.std.specs.Prelude.{◌≡◌, ◌++◌, ◌∷◌, map, true, IfOk, OnOk};
ghost use Rattle.std.specs.List.{flat_map, list_all};
ghost use Rattle.scl_values.specs.Words.{words_of};
ghost use Rattle.scl_text.specs.Records.{parsed_of};
ghost use Rattle.scl_text.specs.Runs.{runs_of};
ghost use Rattle.scl_description.specs.Rows.{entry_rows};
ghost use Rattle.scl_description.specs.Rows.{rows_of as rows_told};
ghost use Rattle.scl_description.specs.Takers.{Adds};
ghost use Rattle.scl_catalogue.specs.Views.{lexicon_of};
ghost use Rattle.scl_key.specs.Directs.{direct_entries, direct_entry, direct_variables, directs_by, directs_if, first, implied, is_quiet, is_searched, is_value, may_direct_by, named, names_sources, naming, refuse_if_read, search, search_record, search_words, unseen};
ghost use Rattle.scl_key.specs.Directs.{env as env_asked};
ghost use Rattle.scl_key.specs.Known.{headers, macro_files};
ghost use Rattle.scl_key.specs.KnownViews.{all_given, all_judged, given_of, judged_of, known_of};
ghost use Rattle.scl_key.specs.Runs.{marked_runs};
ghost use Rattle.scl_key.specs.Views.{direct_of, directs_of};

use crate::effect::{Judged, is_plain};
use crate::family::is_gnu;
use crate::given::{Given, values_among};
use crate::known::{Known, all_known, is_text};
use crate::reads::is_path;
use crate::runs::{HIDES_HEADER, is_among, is_assembler, marked_runs};
use crate::told::Line;
use scl_catalogue::{Brings, Lexicon};
use scl_description::{TakesRows, tell_row};
use scl_gnu::gcc::without_output_files;
use scl_reader::Compiler;
use scl_text::Mem;
use scl_text::command::push_word;
use scl_text::language::Language;
use scl_text::records::ParsedArguments;
use std::alloc::Global;

/// What a cache asks or does in direct mode (docs/RULES.md, Keys).
#[derive(Debug, PartialEq, Eq, Drop)]
pub enum Direct {
    /// A variable whose value belongs in the first key.
    Env(&'static str),
    /// Words with which the compiler names the folders that a run searches.
    Search(Vec<Vec<u8>>),
    /// A header that words name, or that no word names.
    First(Vec<u8>),
    /// The pattern of what names a file in a source: the name stands after the first `<` or `"` of what is found, and ends
    /// before the last byte.
    Named(&'static str),
    /// A pattern that no source may have: if one has it, no list is stored.
    RefuseIfRead(&'static str),
}

/// Variables by which a run reads more, or another time.
static VARIABLES: [&'static str; 6] = [
    "CPATH",
    "C_INCLUDE_PATH",
    "CPLUS_INCLUDE_PATH",
    "OBJC_INCLUDE_PATH",
    "OBJCPLUS_INCLUDE_PATH",
    "SOURCE_DATE_EPOCH",
];

/// Headers that no word and no source names: gcc includes them before all others.
static IMPLIED: [&'static [u8]; 1] = [b"stdc-predef.h"];

/// What names a file in a source.
const NAMING: &str = "(include|import)(_next)?[^!-~\n]*\\(?[^!-~\n]*(<[^>\n]*>|\"[^\"\n]*\")";

/// What reads the time, or what no name in a source says: macros of time, bytes of a file, pragmas, trigraphs and digraphs, an
/// included name that is a macro, a directive after a comment, and a name that is asked for by a macro.
static UNSEEN: [&'static str; 10] = [
    "__(DATE|TIME|TIMESTAMP)__",
    "__has_embed|#[^!-~\n]*embed",
    "ragma.*(dependency|module|pch_preprocess|include_alias)",
    "\\?\\?[/=]",
    "%:[^!-~\n]*[a-z/]",
    "^[^!-~\n]*#[^!-~\n]*(include|include_next|import)([^!-~\n]+[A-Za-z_$]|[^!-~\n]*/)",
    "\\*/[^!-~\n]*#",
    "#[^!-~\n]*/[*]",
    "__has_include(_next)?[^!-~\n]*(\\([^!-~\n]*[!#-;=-~]|/)",
    "define[^!-~\n].*__has_include(_next)?[^!-~\n]*([!-')-~]|$)",
];

fn variables() -> &'static [&'static str]
    ensures { map (λ name. name.now) result.now ≡ direct_variables }
{
    &VARIABLES
}

fn implied() -> &'static [&'static [u8]]
    ensures { map (λ header. header.now) result.now ≡ implied }
{
    &IMPLIED
}

fn unseen() -> &'static [&'static str]
    ensures { map (λ pattern. pattern.now) result.now ≡ unseen }
{
    &UNSEEN
}

// ---- where the mode may be used

/// Whether a word is a value of the word before it, and no name of a file of words.
fn is_value(word: &[u8]) -> bool
    ensures { result ≡ is_value word.now }
{
    is_path(word) && !word.starts_with(b"@")
}

/// Whether a run reads nothing more because of the word.
fn is_quiet(lexicon: &Lexicon<'_>, one: &Judged<'_>) -> bool
    ensures { result ≡ is_quiet (lexicon_of lexicon.now) (judged_of one.now) }
{
    is_plain(one.doing) || is_value(one.word) || is_plain(lexicon.running_of(one.word))
}

fn are_quiet(lexicon: &Lexicon<'_>, words: &[Judged<'_>]) -> bool
    ensures { result ≡ list_all (is_quiet (lexicon_of lexicon.now)) (all_judged words.now) }
{
    for one in words {
        if !is_quiet(lexicon, one) {
            return false;
        }
    }
    true
}

/// Whether a run names each file of which it shows the text.
fn names_sources(language: Language) -> bool
    ensures { result ≡ names_sources language }
{
    is_text(language) || is_assembler(language) && language.needs_c_preprocessing()
}

/// Whether the files that its markers name, and those that stand where it searches, are all that a run reads.
fn may_direct(line: &Line<'_, '_>, known: &Known<'_>) -> bool
    ensures { result ≡ may_direct_by (lexicon_of line.now.lexicon.now) (known_of known.now) line.now.compiler (parsed_of line.now.parsed.now) }
{
    is_gnu(line.compiler)
        && names_sources(line.parsed.language)
        && !is_among(HIDES_HEADER, &line.parsed.common_args)
        && all_known(&known.given)
        && are_quiet(line.lexicon, &known.common)
}

// ---- what is searched

/// Whether the value says where a run searches.
fn is_searched(brings: Brings) -> bool
    ensures { result ≡ is_searched brings }
{
    match brings {
        Brings::Folder | Brings::Other => true,
        Brings::Header | Brings::MacroFile | Brings::Dependencies | Brings::Unknown => false,
    }
}

/// Appends a word and the flag before it, if they say where a run searches.
fn push_search_words(alloc: Global, found: &mut Vec<Vec<u8>>, given: &Given<'_>) -> Mem<()>
    ensures { OnOk result (words_of found.new.items ≡ words_of found.old.items ++ search_words (given_of given.now)) }
{
    if !is_searched(given.brings) {
        return Ok(());
    }
    match given.flag {
        Some(flag) => {
            push_word(alloc, found, flag)?;
            push_word(alloc, found, given.word)
        }
        None => push_word(alloc, found, given.word),
    }
}

/// Appends the words of the preprocessor that say where a run searches.
fn push_all_search_words(alloc: Global, found: &mut Vec<Vec<u8>>, given: &[Given<'_>]) -> Mem<()>
    ensures { OnOk result (words_of found.new.items ≡ words_of found.old.items ++ flat_map search_words (all_given given.now)) }
{
    for one in given {
        push_search_words(alloc, found, one)?;
    }
    Ok(())
}

/// The record of a run that names the folders that it searches.
fn search_record(alloc: Global, known: &Known<'_>, parsed: &ParsedArguments) -> Mem<ParsedArguments>
    ensures { IfOk result (λ searching. parsed_of searching ≡ search_record (known_of known.now) (parsed_of parsed.now)) }
{
    let mut words = Vec::new(alloc);
    push_word(alloc, &mut words, b"-v")?;
    push_all_search_words(alloc, &mut words, &known.given)?;
    let mut searching = parsed.copy(alloc)?;
    searching.input = Vec::from_slice(alloc, b"-")?;
    searching.double_dash_input = false;
    searching.dependency_args = Vec::new(alloc);
    searching.preprocessor_args = words;
    searching.common_args = without_output_files(alloc, &parsed.common_args)?;
    Ok(searching)
}

/// The words of the runs that name the folders that they search.
fn searches(
    alloc: Global,
    compiler: Compiler,
    known: &Known<'_>,
    parsed: &ParsedArguments,
) -> Mem<Vec<Vec<Vec<u8>>>>
    ensures { IfOk result (λ runs. runs_of runs.items ≡ marked_runs compiler (search_record (known_of known.now) (parsed_of parsed.now))) }
{
    let searching = search_record(alloc, known, parsed)?;
    marked_runs(alloc, compiler, &searching)
}

// ---- all of it

/// Appends variables.
fn push_variables(rows: &mut Vec<Direct>, names: &[&'static str]) -> Mem<()>
    ensures { OnOk result (directs_of rows.new.items ≡ directs_of rows.old.items ++ map env_asked (map (λ name. name.now) names.now)) }
{
    for name in names {
        rows.push(Direct::Env(*name))?;
    }
    Ok(())
}

/// Appends what names folders.
fn push_searches(rows: &mut Vec<Direct>, runs: Vec<Vec<Vec<u8>>>) -> Mem<()>
    ensures { OnOk result (directs_of rows.new.items ≡ directs_of rows.old.items ++ map search (runs_of runs.items)) }
{
    for one in runs {
        rows.push(Direct::Search(one))?;
    }
    Ok(())
}

/// Appends headers that stand before all others.
fn push_first(alloc: Global, rows: &mut Vec<Direct>, headers: &[&[u8]]) -> Mem<()>
    ensures { OnOk result (directs_of rows.new.items ≡ directs_of rows.old.items ++ map first (map (λ header. header.now) headers.now)) }
{
    for header in headers {
        rows.push(Direct::First(Vec::from_slice(alloc, header)?))?;
    }
    Ok(())
}

/// Appends what no source may have.
fn push_unseen(rows: &mut Vec<Direct>, patterns: &[&'static str]) -> Mem<()>
    ensures { OnOk result (directs_of rows.new.items ≡ directs_of rows.old.items ++ map refuse_if_read (map (λ pattern. pattern.now) patterns.now)) }
{
    for pattern in patterns {
        rows.push(Direct::RefuseIfRead(*pattern))?;
    }
    Ok(())
}

/// Appends the headers, and the files of macros, that words name.
fn push_all_first(alloc: Global, rows: &mut Vec<Direct>, known: &Known<'_>) -> Mem<()>
    ensures { OnOk result (directs_of rows.new.items ≡ directs_of rows.old.items ++ map first (headers (known_of known.now) ++ macro_files (known_of known.now))) }
{
    let headers = values_among(alloc, Brings::Header, &known.given)?;
    push_first(alloc, rows, &headers)?;
    let files = values_among(alloc, Brings::MacroFile, &known.given)?;
    push_first(alloc, rows, &files)
}

/// Appends what is searched in sources.
fn push_patterns(rows: &mut Vec<Direct>) -> Mem<()>
    ensures { OnOk result (directs_of rows.new.items ≡ directs_of rows.old.items ++ named naming ∷ map refuse_if_read unseen) }
{
    rows.push(Direct::Named(NAMING))?;
    push_unseen(rows, unseen())
}

/// What a cache needs if the mode may be used.
fn all_directs(
    alloc: Global,
    compiler: Compiler,
    known: &Known<'_>,
    parsed: &ParsedArguments,
) -> Mem<Vec<Direct>>
    ensures { IfOk result (λ rows. directs_of rows.items ≡ directs_if true (known_of known.now) compiler (parsed_of parsed.now)) }
{
    let mut rows = Vec::new(alloc);
    push_variables(&mut rows, variables())?;
    let runs = searches(alloc, compiler, known, parsed)?;
    push_searches(&mut rows, runs)?;
    push_first(alloc, &mut rows, implied())?;
    push_all_first(alloc, &mut rows, known)?;
    push_patterns(&mut rows)?;
    Ok(rows)
}

/// What a cache needs in direct mode; nothing if the mode may not be used.
pub(crate) fn directs(alloc: Global, line: &Line<'_, '_>, known: &Known<'_>) -> Mem<Vec<Direct>>
    ensures { IfOk result (λ rows. directs_of rows.items ≡ directs_by (lexicon_of line.now.lexicon.now) (known_of known.now) line.now.compiler (parsed_of line.now.parsed.now)) }
{
    if may_direct(line, known) {
        all_directs(alloc, line.compiler, known, line.parsed)
    } else {
        Ok(Vec::new(alloc))
    }
}

// ---- rows

/// Tells a row `direct`.
fn tell_one<R: TakesRows>(rows: &mut R, direct: &Direct) -> Mem<()>
    ensures { OnOk result (Adds R.has rows.old rows.new (entry_rows (direct_entry (direct_of direct.now)))) }
{
    match direct {
        Direct::Env(name) => tell_row(rows, "direct", &[b"env", name.as_bytes()]),
        Direct::Search(words) => rows.take("direct", &[b"search"], words),
        Direct::First(header) => tell_row(rows, "direct", &[b"first", header]),
        Direct::Named(pattern) => tell_row(rows, "direct", &[b"named", pattern.as_bytes()]),
        Direct::RefuseIfRead(pattern) => tell_row(
            rows,
            "direct",
            &[b"refuse-if-read", pattern.as_bytes()],
        ),
    }
}

/// Tells the rows `direct` of a key.
pub fn tell_directs<R: TakesRows>(rows: &mut R, direct: &[Direct]) -> Mem<()>
    ensures { OnOk result (Adds R.has rows.old rows.new (rows_told (direct_entries (directs_of direct.now)))) }
{
    for one in direct {
        tell_one(rows, one)?;
    }
    Ok(())
}
