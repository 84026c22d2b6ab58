//! What is said of keeping what a command line makes.
ghost use Rattle.std.specs.Prelude.{◌≡◌, ◌∷◌, [], codes, IfOk, OnOk};
ghost use Rattle.std.specs.List.{list_any};
ghost use Rattle.std.specs.Option.{option_copied, option_map};
ghost use Rattle.scl_values.specs.Words.{words_of};
ghost use Rattle.scl_catalogue.specs.Views.{lexicon_of};
ghost use Rattle.scl_text.specs.Commands.{pairs_of};
ghost use Rattle.scl_text.specs.Records.{parsed_of};
ghost use Rattle.scl_description.specs.Rows.{entry_rows, row_entry, rows_of};
ghost use Rattle.scl_description.specs.Takers.{Adds};
ghost use Rattle.scl_hazards.specs.Told.{given};
ghost use Rattle.scl_key.specs.Doings.{with_effects};
ghost use Rattle.scl_key.specs.Keys.{keeping_of};
ghost use Rattle.scl_key.specs.Views.{key_of as key_told, keeping_of as keeping_told, run_words_of};
ghost use Rattle.scl_delivered.specs.Views.{delivered_of};
ghost use Rattle.scl_describe.specs.DescriptionsGiven.{kept_given, kept_told};
ghost use Rattle.scl_describe.specs.Keepings.{barring, concerns_files, delivered_by, is_told, kept_entries, last_entries, names_response_file, run_words_by, under_entries, words_despite};
ghost use Rattle.scl_describe.specs.SettingsRead.{settings_by};

use crate::described::Description;
use crate::settings::Settings;
use scl_catalogue::Lexicon;
use scl_delivered::{Delivered, Delivery, deliver};
use scl_description::{TakesRows, tell_row, tell_word};
use scl_hazards::{Danger, Effect, Hazard};
use scl_key::{Keeping, Key, Line, NoKey, RunWords, key_of, tell_no_rows, with_effects};
use scl_reader::{Compilation, Compiler};
use scl_text::Mem;
use scl_text::records::{Cacheable, CompilerArguments, ParsedArguments};
use std::alloc::Global;

/// What is said of keeping what a command line makes (docs/RULES.md, Keys).
#[derive(Debug, Drop)]
pub enum Kept {
    /// Nothing: it may not be kept, or the key is not wanted.
    Nothing,
    /// It may be kept, under this key.
    Under(Delivered),
    /// Nothing is known of this option, so no key can answer.
    Unknown(Vec<u8>),
    /// No key can be right, for these reasons.
    Not(Vec<NoKey>),
}

/// Whether the files that are made differ, and not only what is said.
pub fn concerns_files(danger: Danger) -> bool
    ensures { result ≡ concerns_files danger }
{
    match danger {
        Danger::Object | Danger::Failure | Danger::SideFile => true,
        Danger::Messages | Danger::Run => false,
    }
}

/// The name of the first hazard that concerns files.
fn barring<'a>(hazards: &'a [Hazard<'_>]) -> Option<&'a [u8]>
    ensures { option_copied result ≡ option_map (λ hazard. hazard.name) (barring hazards.now) }
{
    for hazard in hazards {
        if concerns_files(hazard.danger()) {
            return Some(hazard.name());
        }
    }
    None
}

fn names_response_file(words: &[Vec<u8>]) -> bool
    ensures { result ≡ list_any names_response_file (words_of words.now) }
{
    for word in words {
        if word.starts_with(b"@") {
            return true;
        }
    }
    false
}

/// What is run if no hazard concerns files.
fn words_despite<'a>(words: &'a [Vec<u8>], hazards: &'a [Hazard<'_>]) -> RunWords<'a>
    ensures { run_words_of result ≡ words_despite (words_of words.now) hazards.now }
{
    let Some(hazard) = hazards.first() else {
        return RunWords::Built;
    };
    if names_response_file(words) {
        RunWords::Hazardous(hazard.name())
    } else {
        RunWords::Given(words, &[])
    }
}

/// The words that a cache runs at a miss of a command line of these words, with these hazards.
fn run_words_by<'a>(words: &'a [Vec<u8>], hazards: &'a [Hazard<'_>]) -> RunWords<'a>
    ensures { run_words_of result ≡ run_words_by (words_of words.now) hazards.now }
{
    match barring(hazards) {
        Some(hazard) => RunWords::Hazardous(hazard),
        None => words_despite(words, hazards),
    }
}

/// Whether it is said what a command line may be kept under: it may be kept, and the key is wanted.
fn is_told(settings: &Settings, cacheable: Cacheable) -> bool
    ensures { result ≡ is_told (settings_by settings.now) cacheable }
{
    match cacheable {
        Cacheable::Yes => settings.wanted().key,
        Cacheable::No => false,
    }
}

/// The compiler that is run, and what is known of the words of its command.
#[derive(Clone, Copy)]
pub(crate) struct Driver<'a> {
    pub(crate) compiler: Compiler,
    pub(crate) lexicon: &'a Lexicon<'a>,
}

/// What is said of the key of a compilation, of which these words run at a miss, by these effects of its compiler.
fn keeping_by(
    alloc: Global,
    driver: &Driver<'_>,
    words: RunWords<'_>,
    effects: &[Effect],
    compilation: &Compilation,
) -> Mem<Keeping>
    ensures { IfOk result (λ keeping. keeping_told keeping ≡ with_effects (parsed_of compilation.now.parsed) effects.now (keeping_of (lexicon_of driver.now.lexicon.now) driver.now.compiler (pairs_of compilation.now.command.env_vars.items) (run_words_of words.entry) (parsed_of compilation.now.parsed))) }
{
    let line = Line {
        compiler: driver.compiler,
        lexicon: driver.lexicon,
        environment: &compilation.command.env_vars,
        words,
        parsed: &compilation.parsed,
    };
    let keeping = key_of(alloc, &line)?;
    with_effects(alloc, &compilation.parsed, effects, keeping)
}

/// A key of a record as settings request it.
fn delivered_by(
    alloc: Global,
    driver: &Driver<'_>,
    settings: &Settings,
    parsed: &ParsedArguments,
    key: Key,
) -> Mem<Delivered>
    ensures { IfOk result (λ made. delivered_of made ≡ delivered_by (lexicon_of driver.now.lexicon.now) (settings_by settings.now) driver.now.compiler (parsed_of parsed.now) (key_told key)) }
{
    let by = Delivery {
        dirs: &settings.bases,
        keeps_macros: settings.keeps_shown,
        lexicon: driver.lexicon,
    };
    deliver(alloc, driver.compiler, parsed, &by, key)
}

/// What is said of keeping what a command line of these words makes, which this is described of, as settings request it.
pub(crate) fn kept_in(
    alloc: Global,
    driver: &Driver<'_>,
    settings: &Settings,
    words: &[Vec<u8>],
    described: &Description<'_>,
) -> Mem<Kept>
    ensures { IfOk result (λ kept. kept_told kept ≡ kept_given (lexicon_of driver.now.lexicon.now) (settings_by settings.now) driver.now.compiler (words_of words.now) (given described.now.told) described.now.answer) }
{
    let compilation = match &described.answer {
        CompilerArguments::Ok(compilation) => compilation,
        CompilerArguments::CannotCache(_, _) | CompilerArguments::NotCompilation => {
            return Ok(Kept::Nothing);
        }
    };
    if !is_told(settings, compilation.cacheable) {
        return Ok(Kept::Nothing);
    }
    let told = &described.told;
    let words = run_words_by(words, &told.hazards);
    let keeping = keeping_by(alloc, driver, words, &told.effects, compilation)?;
    match (keeping, told.unknown.as_deref()) {
        (Keeping::Under(_), Some(word)) => Ok(Kept::Unknown(Vec::from_slice(alloc, word)?)),
        (Keeping::Under(key), None) => {
            let key = delivered_by(alloc, driver, settings, &compilation.parsed, key)?;
            Ok(Kept::Under(key))
        }
        (Keeping::Not(why), _) => Ok(Kept::Not(why)),
    }
}

/// Tells the rows of a key that stand before those of options, and that this is all.
fn tell_under<R: TakesRows>(rows: &mut R, key: &Delivered) -> Mem<()>
    ensures { OnOk result (Adds R.has rows.old rows.new (rows_of (under_entries (delivered_of key.now)))) }
{
    key.tell_rows(rows)?;
    tell_word(rows, "keep", b"yes")
}

/// Tells the row of the option of which nothing is known.
fn tell_unknown<R: TakesRows>(rows: &mut R, word: &[u8]) -> Mem<()>
    ensures { OnOk result (Adds R.has rows.old rows.new (entry_rows (row_entry (codes "keep") (codes "unknown" ∷ word.now ∷ [])))) }
{
    tell_row(rows, "keep", &[b"unknown".as_slice(), word])
}

/// Tells the rows of what is said that stand before those of options.
pub(crate) fn tell_kept<R: TakesRows>(rows: &mut R, kept: &Kept) -> Mem<()>
    ensures { OnOk result (Adds R.has rows.old rows.new (rows_of (kept_entries (kept_told kept.now)))) }
{
    match kept {
        Kept::Nothing => Ok(()),
        Kept::Under(key) => tell_under(rows, key),
        Kept::Unknown(word) => tell_unknown(rows, word),
        Kept::Not(why) => tell_no_rows(rows, why),
    }
}

/// Tells the rows of what is said that stand at the end.
pub(crate) fn tell_last<R: TakesRows>(rows: &mut R, kept: &Kept) -> Mem<()>
    ensures { OnOk result (Adds R.has rows.old rows.new (rows_of (last_entries (kept_told kept.now)))) }
{
    match kept {
        Kept::Under(key) => key.tell_last_rows(rows),
        Kept::Nothing | Kept::Unknown(_) | Kept::Not(_) => Ok(()),
    }
}
