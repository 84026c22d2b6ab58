//! Why there is no key.
ghost use Rattle.std.specs.Prelude.{◌≡◌, ◌++◌, ◌∷◌, [], map, filter, drop, reverse, codes, false, IfOk, OnOk};
ghost use Rattle.std.specs.List.{flat_map, list_any};
ghost use Rattle.scl_values.specs.Words.{words_of};
ghost use Rattle.scl_text.specs.Records.{parsed_of};
ghost use Rattle.scl_description.specs.Rows.{entry_rows, row_entry, rows_of};
ghost use Rattle.scl_description.specs.Takers.{Adds};
ghost use Rattle.scl_key.specs.Effects.{assembler_words, behind, suffixes, writes_by_assembler};
ghost use Rattle.scl_key.specs.Keys.{asks_for_rules, hazards, hides_file, is_no_file, lost_files, no_key, no_key_by, no_key_entry, no_keys, no_keys_by_words, reason_name, reason_of, repeated, unnamed, unnamed_by, view_of};
ghost use Rattle.scl_key.specs.KnownViews.{all_judged, judged_of, known_of};
ghost use Rattle.scl_key.specs.Made.{dependency_files};
ghost use Rattle.scl_key.specs.Views.{no_key_of, no_keys_of, paths_of, run_words_of};
ghost use Rattle.scl_key.specs.declared.no_key.Reason.TheVariants as Reason;

use crate::effect::{Judged, assembler_words, push_behind, writes_by_assembler};
use crate::family::notes_by_runs;
use crate::known::Known;
use crate::made::{dependency_files, handed_file};
use crate::part::Output;
use crate::reads::push_values;
use crate::told::{Line, RunWords};
use scl_catalogue::Doing;
use scl_description::{TakesRows, tell_row};
use scl_files::View;
use scl_reader::Compiler;
use scl_text::Mem;
use scl_text::command::{push_word, push_words};
use scl_text::records::ParsedArguments;
use std::alloc::Global;

/// Why nothing may be kept of what a command line makes (docs/RULES.md, Keys).
#[derive(Debug, Clone, Copy, PartialEq, Eq)]
pub enum Reason {
    /// A file is written that no row names.
    WritesUnnamed,
    /// The text of a run is not that of what is compiled.
    TextHides,
    /// An output is no file of a folder.
    OutputIsNoFile,
    /// Two outputs have one path.
    OnePathTwice,
    /// The built command has a hazard, and the given words are not known to make the outputs.
    Hazard,
    /// The compiler reads, writes, asks or loads what no row of a key can stand for.
    Effect,
}

/// Why there is no key: the reason, and the word, path or hazard.
#[derive(Debug, PartialEq, Eq, Drop)]
pub struct NoKey {
    /// The reason.
    pub reason: Reason,
    /// The word, path or hazard.
    pub word: Vec<u8>,
}

/// The path by which standard output is meant.
const STANDARD_OUTPUT: &[u8] = b"-";

impl Reason {
    /// Its name in rows.
    pub fn name(self) -> &'static str
        ensures { result.now ≡ reason_name self }
    {
        match self {
            Reason::WritesUnnamed => "writes-unnamed",
            Reason::TextHides => "text-hides",
            Reason::OutputIsNoFile => "output-is-no-file",
            Reason::OnePathTwice => "one-path-twice",
            Reason::Hazard => "hazard",
            Reason::Effect => "effect",
        }
    }
}

/// Why there is no key for a word that does this.
fn reason_of(doing: Doing) -> Option<Reason>
    ensures { result ≡ reason_of doing }
{
    match doing {
        Doing::WritesUnnamed => Some(Reason::WritesUnnamed),
        Doing::TextHides => Some(Reason::TextHides),
        Doing::Plain | Doing::Exact | Doing::Macros | Doing::ReadsCounts | Doing::ReadsSamples =>
            None,
    }
}

/// Appends a reason with its word.
fn push_no(alloc: Global, why: &mut Vec<NoKey>, reason: Reason, word: &[u8]) -> Mem<()>
    ensures { OnOk result (no_keys_of why.new.items ≡ no_keys_of why.old.items ++ no_key reason word.now ∷ []) }
{
    let word = Vec::from_slice(alloc, word)?;
    why.push(NoKey { reason, word })?;
    Ok(())
}

/// Appends a reason with each word.
fn push_each(alloc: Global, why: &mut Vec<NoKey>, reason: Reason, words: &[Vec<u8>]) -> Mem<()>
    ensures { OnOk result (no_keys_of why.new.items ≡ no_keys_of why.old.items ++ map (no_key reason) (words_of words.now)) }
{
    for word in words {
        push_no(alloc, why, reason, word)?;
    }
    Ok(())
}

/// Appends why there is no key for what a word does.
fn push_by_word(alloc: Global, why: &mut Vec<NoKey>, one: &Judged<'_>) -> Mem<()>
    ensures { OnOk result (no_keys_of why.new.items ≡ no_keys_of why.old.items ++ no_key_by (judged_of one.now)) }
{
    match reason_of(one.doing) {
        Some(reason) => push_no(alloc, why, reason, one.word),
        None => Ok(()),
    }
}

/// Appends why there is no key for what words do.
fn push_by_words(alloc: Global, why: &mut Vec<NoKey>, words: &[Judged<'_>]) -> Mem<()>
    ensures { OnOk result (no_keys_of why.new.items ≡ no_keys_of why.old.items ++ flat_map no_key_by (all_judged words.now)) }
{
    for one in words {
        push_by_word(alloc, why, one)?;
    }
    Ok(())
}

fn asks_for_rules(text: &[u8]) -> bool
    ensures { result ≡ asks_for_rules text.now }
{
    text.starts_with(b"-M")
}

/// Whether what stands after a comma of a word asks for rules.
fn some_asks(word: &[u8]) -> bool
    ensures { result ≡ list_any asks_for_rules (suffixes 44 word.now) }
{
    for (at, byte) in word.iter().enumerate() {
        if *byte == b',' && asks_for_rules(&word[at + 1..]) {
            return true;
        }
    }
    false
}

/// Whether a word asks the preprocessor for rules, in another way than by one file.
fn hides_file(word: &[u8]) -> bool
    ensures { result ≡ hides_file word.now }
{
    word.starts_with(b"-Wp,") && some_asks(word) && handed_file(word).is_none()
}

/// Appends those of words for the assembler that write a file.
fn push_writing(alloc: Global, unnamed: &mut Vec<Vec<u8>>, words: &[&[u8]]) -> Mem<()>
    ensures { OnOk result (words_of unnamed.new.items ≡ words_of unnamed.old.items ++ filter writes_by_assembler (map (λ word. word.now) words.now)) }
{
    for word in words {
        if writes_by_assembler(word) {
            push_word(alloc, unnamed, word)?;
        }
    }
    Ok(())
}

/// Appends the words for the assembler that write a file.
fn push_assembler(alloc: Global, unnamed: &mut Vec<Vec<u8>>, words: &[Vec<u8>]) -> Mem<()>
    ensures { OnOk result (words_of unnamed.new.items ≡ words_of unnamed.old.items ++ filter writes_by_assembler (assembler_words (words_of words.now))) }
{
    let handed = assembler_words(alloc, words)?;
    push_writing(alloc, unnamed, &handed)
}

/// Appends the words that ask the preprocessor for rules, in another way than by one file.
fn push_hiding(alloc: Global, unnamed: &mut Vec<Vec<u8>>, words: &[Vec<u8>]) -> Mem<()>
    ensures { OnOk result (words_of unnamed.new.items ≡ words_of unnamed.old.items ++ filter hides_file (words_of words.now)) }
{
    for word in words {
        if hides_file(word) {
            push_word(alloc, unnamed, word)?;
        }
    }
    Ok(())
}

/// Appends those words that ask for rules.
fn push_asking(alloc: Global, unnamed: &mut Vec<Vec<u8>>, words: &[&[u8]]) -> Mem<()>
    ensures { OnOk result (words_of unnamed.new.items ≡ words_of unnamed.old.items ++ filter asks_for_rules (map (λ word. word.now) words.now)) }
{
    for word in words {
        if asks_for_rules(word) {
            push_word(alloc, unnamed, word)?;
        }
    }
    Ok(())
}

/// Appends the words after `-Xpreprocessor` that ask for rules.
fn push_behind_flag(alloc: Global, unnamed: &mut Vec<Vec<u8>>, words: &[Vec<u8>]) -> Mem<()>
    ensures { OnOk result (words_of unnamed.new.items ≡ words_of unnamed.old.items ++ filter asks_for_rules (behind (codes "-Xpreprocessor") false (words_of words.now))) }
{
    let mut found = Vec::new(alloc);
    push_behind(&mut found, b"-Xpreprocessor", words)?;
    push_asking(alloc, unnamed, &found)
}

/// Appends the words that write a file that no row names: of the assembler, and of the preprocessor.
fn push_unnamed_by(alloc: Global, unnamed: &mut Vec<Vec<u8>>, words: &[Vec<u8>]) -> Mem<()>
    ensures { OnOk result (words_of unnamed.new.items ≡ words_of unnamed.old.items ++ unnamed_by (words_of words.now)) }
{
    push_assembler(alloc, unnamed, words)?;
    push_hiding(alloc, unnamed, words)?;
    push_behind_flag(alloc, unnamed, words)
}

/// Appends the files of dependencies except the first.
fn push_second_files(alloc: Global, unnamed: &mut Vec<Vec<u8>>, parsed: &ParsedArguments) -> Mem<()>
    ensures { OnOk result (words_of unnamed.new.items ≡ words_of unnamed.old.items ++ drop 1 (dependency_files (parsed_of parsed.now))) }
{
    let files = dependency_files(alloc, parsed)?;
    match files.as_slice() {
        [] => Ok(()),
        [_, others @ ..] => push_values(alloc, unnamed, others),
    }
}

/// Appends a second file of dependencies, and each that the command does not write.
fn push_lost_files(
    alloc: Global,
    unnamed: &mut Vec<Vec<u8>>,
    compiler: Compiler,
    parsed: &ParsedArguments,
) -> Mem<()>
    ensures { OnOk result (words_of unnamed.new.items ≡ words_of unnamed.old.items ++ lost_files compiler (parsed_of parsed.now)) }
{
    push_second_files(alloc, unnamed, parsed)?;
    if !notes_by_runs(compiler) {
        return Ok(());
    }
    push_words(alloc, unnamed, &parsed.dependency_args)?;
    match parsed.depfile.as_deref() {
        Some(depfile) => push_word(alloc, unnamed, depfile),
        None => Ok(()),
    }
}

/// What is written, and no row names.
fn unnamed(alloc: Global, compiler: Compiler, parsed: &ParsedArguments) -> Mem<Vec<Vec<u8>>>
    ensures { IfOk result (λ words. words_of words.items ≡ unnamed compiler (parsed_of parsed.now)) }
{
    let mut words = Vec::new(alloc);
    push_unnamed_by(alloc, &mut words, &parsed.preprocessor_args)?;
    push_unnamed_by(alloc, &mut words, &parsed.common_args)?;
    push_unnamed_by(alloc, &mut words, &parsed.unhashed_args)?;
    push_lost_files(alloc, &mut words, compiler, parsed)?;
    Ok(words)
}

pub(crate) fn is_no_file(path: &[u8]) -> bool
    ensures { result ≡ is_no_file path.now }
{
    path == STANDARD_OUTPUT || path.starts_with(b"/dev/") || path.starts_with(b"/proc/")
}

/// Appends the outputs that are no files.
fn push_no_files(alloc: Global, why: &mut Vec<NoKey>, outputs: &[Output]) -> Mem<()>
    ensures { OnOk result (no_keys_of why.new.items ≡ no_keys_of why.old.items ++ map (no_key Reason.OutputIsNoFile) (filter is_no_file (paths_of outputs.now))) }
{
    for output in outputs {
        if is_no_file(&output.path) {
            push_no(alloc, why, Reason::OutputIsNoFile, &output.path)?;
        }
    }
    Ok(())
}

/// A view in which the paths of outputs exist.
pub(crate) fn view_of(alloc: Global, outputs: &[Output]) -> Mem<View>
    ensures { IfOk result (λ view. view ≡ view_of (paths_of outputs.now)) }
{
    let mut view = View::new(alloc);
    let mut left = outputs;
    while let Some((output, before)) = left.split_last() {
        view.add_existing(Vec::from_slice(alloc, &output.path)?)?;
        left = before;
    }
    Ok(view)
}

/// The paths that are named again, the last first.
fn repeated_from_the_end<'a>(alloc: Global, outputs: &'a [Output]) -> Mem<Vec<&'a [u8]>>
    ensures { IfOk result (λ paths. reverse (map (λ path. path.now) paths.items) ≡ repeated (paths_of outputs.now)) }
{
    let mut later = View::new(alloc);
    let mut found = Vec::new(alloc);
    let mut left = outputs;
    while let Some((output, before)) = left.split_last() {
        if later.exists(&output.path) {
            found.push(output.path.as_slice())?;
        }
        later.add_existing(Vec::from_slice(alloc, &output.path)?)?;
        left = before;
    }
    Ok(found)
}

/// Appends a reason with each path, the last first.
fn push_from_the_end(
    alloc: Global,
    why: &mut Vec<NoKey>,
    reason: Reason,
    paths: Vec<&[u8]>,
) -> Mem<()>
    ensures { OnOk result (no_keys_of why.new.items ≡ no_keys_of why.old.items ++ map (no_key reason) (reverse (map (λ path. path.now) paths.entry.items))) }
{
    let mut left = paths;
    while let Some(path) = left.pop() {
        push_no(alloc, why, reason, path)?;
    }
    Ok(())
}

/// Appends the paths that are named again.
fn push_repeated(alloc: Global, why: &mut Vec<NoKey>, outputs: &[Output]) -> Mem<()>
    ensures { OnOk result (no_keys_of why.new.items ≡ no_keys_of why.old.items ++ map (no_key Reason.OnePathTwice) (repeated (paths_of outputs.now))) }
{
    let paths = repeated_from_the_end(alloc, outputs)?;
    push_from_the_end(alloc, why, Reason::OnePathTwice, paths)
}

/// Appends the hazard for which no words can be run.
fn push_hazard(alloc: Global, why: &mut Vec<NoKey>, words: RunWords<'_>) -> Mem<()>
    ensures { OnOk result (no_keys_of why.new.items ≡ no_keys_of why.old.items ++ hazards (run_words_of words.entry)) }
{
    match words {
        RunWords::Built | RunWords::Given(_, _) => Ok(()),
        RunWords::Hazardous(hazard) => push_no(alloc, why, Reason::Hazard, hazard),
    }
}

/// Appends why there is no key for what the words of a record do.
fn push_by_record(alloc: Global, why: &mut Vec<NoKey>, known: &Known<'_>) -> Mem<()>
    ensures { OnOk result (no_keys_of why.new.items ≡ no_keys_of why.old.items ++ no_keys_by_words (known_of known.now)) }
{
    push_by_words(alloc, why, &known.preprocessor)?;
    push_by_words(alloc, why, &known.common)?;
    push_by_words(alloc, why, &known.unhashed)?;
    push_by_words(alloc, why, &known.dependency)
}

/// Why there is no key.
pub(crate) fn no_keys(alloc: Global, line: &Line<'_, '_>, known: &Known<'_>) -> Mem<Vec<NoKey>>
    ensures { IfOk result (λ why. no_keys_of why.items ≡ no_keys (known_of known.now) line.now.compiler (run_words_of line.now.words) (parsed_of line.now.parsed.now)) }
{
    let mut why = Vec::new(alloc);
    push_hazard(alloc, &mut why, line.words)?;
    push_by_record(alloc, &mut why, known)?;
    let unnamed = unnamed(alloc, line.compiler, line.parsed)?;
    push_each(alloc, &mut why, Reason::WritesUnnamed, &unnamed)?;
    push_no_files(alloc, &mut why, &known.made)?;
    push_repeated(alloc, &mut why, &known.made)?;
    Ok(why)
}

/// Tells the row of a reason and of its word.
fn tell_no_fields<R: TakesRows>(rows: &mut R, reason: &str, word: &[u8]) -> Mem<()>
    ensures { OnOk result (Adds R.has rows.old rows.new (entry_rows (row_entry (codes "keep") (codes "no" ∷ reason.now ∷ word.now ∷ [])))) }
{
    tell_row(rows, "keep", &[b"no", reason.as_bytes(), word])
}

/// Tells a row `keep no REASON W`.
fn tell_no_row<R: TakesRows>(rows: &mut R, why: &NoKey) -> Mem<()>
    ensures { OnOk result (Adds R.has rows.old rows.new (entry_rows (no_key_entry (no_key_of why.now)))) }
{
    tell_no_fields(rows, why.reason.name(), &why.word)
}

/// Tells a row `keep no REASON W` for each reason.
pub fn tell_no_rows<R: TakesRows>(rows: &mut R, why: &[NoKey]) -> Mem<()>
    ensures { OnOk result (Adds R.has rows.old rows.new (rows_of (map no_key_entry (no_keys_of why.now)))) }
{
    for one in why {
        tell_no_row(rows, one)?;
    }
    Ok(())
}
