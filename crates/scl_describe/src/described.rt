//! What is described of a command line that was read: the answer's lines, and after them rows, as a text or as values.
ghost use Rattle.std.specs.Prelude.{◌≡◌, codes, IfOk, OnOk};
ghost use Rattle.std.specs.Option.{option_copied};
ghost use Rattle.scl_catalogue.specs.Views.{catalogue_of};
ghost use Rattle.scl_values.specs.Words.{words_of};
ghost use Rattle.scl_text.specs.Commands.{pairs_of};
ghost use Rattle.scl_text.specs.Records.{path_of};
ghost use Rattle.scl_text.specs.Runs.{runs_of};
ghost use Rattle.scl_description.specs.Rows.{entries_text, entry_rows, lone, row_entry, rows_of};
ghost use Rattle.scl_description.specs.Takers.{Adds};
ghost use Rattle.scl_reader.specs.AnswersGiven.{answer_of};
ghost use Rattle.scl_reader.specs.CommandLines.{given_by};
ghost use Rattle.scl_reader.specs.QuestionsGiven.{given};
ghost use Rattle.scl_hazards.specs.Told.{given as given_told};
ghost use Rattle.scl_describe.specs.SettingsRead.{settings_by};
ghost use Rattle.scl_describe.specs.Descriptions.{answer_entries, cacheable_name, command_entries, runs_entry, environment_entry, hazards_entry, told_entries, wants_entry, writes_entry, question_entries, refused_entries, too_many_entries, undone_entries, version_entry};
ghost use Rattle.scl_describe.specs.EffectRows.{effect_entries, effect_entry, row_name};
ghost use Rattle.scl_describe.specs.DescriptionsGiven.{IsDescribed, compilation_entries, entries_given, kept_told, outcome_given, rows_given, text_given};

use crate::dependency_file::writes_wanted;
use crate::found::{options_wanted, questions_wanted, runs_wanted, told_wanted};
use crate::keeping::{Driver, Kept, kept_in, tell_kept, tell_last};
use crate::known::lexicon_of;
use crate::option_lines::{tell_index, tell_options};
use crate::settings::Settings;
use scl_cl::answer_text;
use scl_description::{
    RowList, TakesRows, tell_maybe, tell_record, tell_row, tell_row_of, tell_word, tell_words,
    tell_yes,
};
use scl_hazards::{Catalogue, Effect, Hazard, Told, Verb};
use scl_reader::{CommandLine, Compilation, Questions, Reading};
use scl_reasons::sentence;
use scl_rows::{Row, refused_at};
use scl_text::Mem;
use scl_text::records::{Cacheable, CompilerArguments};
use std::alloc::Global;

/// What is described of a command line that was read, as far as settings want it (docs/RULES.md, Descriptions).
#[derive(Drop)]
pub struct Description<'a> {
    /// The answer; its command names no program.
    pub answer: CompilerArguments<Compilation>,
    /// The words of each run of the preprocessor; none where there is no command.
    pub runs: Vec<Vec<Vec<u8>>>,
    /// What is said of keeping what the command line makes.
    pub kept: Kept,
    /// What became of each option.
    pub options: Vec<Row>,
    /// What the catalogue reports of the compiler; the key is judged by it, so it is here where that is wanted too.
    pub told: Told<'a>,
    /// The dependency file that Gcc or Clang writes, if it is no output of the record; it comes with what the catalogue reports.
    pub writes: Option<Vec<u8>>,
    /// The questions of the answer.
    pub questions: Questions,
}

/// Tells the row that says whether the outcome of a command may be kept.
fn tell_cacheable<R: TakesRows>(rows: &mut R, cacheable: Cacheable) -> Mem<()>
    ensures { OnOk result (Adds R.has rows.old rows.new (entry_rows (row_entry (codes "cacheable") (lone (cacheable_name cacheable))))) }
{
    match cacheable {
        Cacheable::Yes => tell_word(rows, "cacheable", b"yes"),
        Cacheable::No => tell_word(rows, "cacheable", b"no"),
    }
}

/// Tells the lines of the answer of a command as rows.
fn tell_command<R: TakesRows>(rows: &mut R, compilation: &Compilation) -> Mem<()>
    ensures { OnOk result (Adds R.has rows.old rows.new (rows_of (command_entries (words_of compilation.now.command.arguments.items) compilation.now.cacheable))) }
{
    tell_yes(rows, "ok", true)?;
    tell_words(rows, "arg", &compilation.command.arguments)?;
    tell_cacheable(rows, compilation.cacheable)
}

/// Tells the lines of an answer as rows; a reason is one field.
fn tell_answer<R: TakesRows>(rows: &mut R, answer: &CompilerArguments<Compilation>) -> Mem<()>
    ensures { OnOk result (Adds R.has rows.old rows.new (rows_of (answer_entries (answer_of answer.now)))) }
{
    match answer {
        CompilerArguments::Ok(compilation) => tell_command(rows, compilation),
        CompilerArguments::CannotCache(reason, _) => {
            tell_word(rows, "cannot-cache", reason.as_bytes())
        }
        CompilerArguments::NotCompilation => tell_yes(rows, "not-compilation", true),
    }
}

/// Tells a row for each run of the preprocessor.
fn tell_runs<R: TakesRows>(rows: &mut R, runs: &[Vec<Vec<u8>>]) -> Mem<()>
    ensures { OnOk result (Adds R.has rows.old rows.new (entry_rows (runs_entry (runs_of runs.now)))) }
{
    for run in runs {
        tell_row_of(rows, "run", run)?;
    }
    Ok(())
}

/// Tells a row for each key and value.
fn tell_environment<R: TakesRows>(rows: &mut R, pairs: &[(Vec<u8>, Vec<u8>)]) -> Mem<()>
    ensures { OnOk result (Adds R.has rows.old rows.new (entry_rows (environment_entry (pairs_of pairs.now)))) }
{
    for (key, value) in pairs {
        tell_row(rows, "environment", &[key.as_slice(), value.as_slice()])?;
    }
    Ok(())
}

/// Tells a row for each path that is in question.
fn tell_wants<R: TakesRows>(rows: &mut R, kind: &str, paths: &[Vec<u8>]) -> Mem<()>
    ensures { OnOk result (Adds R.has rows.old rows.new (entry_rows (wants_entry kind.now (words_of paths.now)))) }
{
    for path in paths {
        tell_row(rows, "wants", &[kind.as_bytes(), path.as_slice()])?;
    }
    Ok(())
}

/// Tells the rows of the answer's questions.
fn tell_questions<R: TakesRows>(rows: &mut R, questions: &Questions) -> Mem<()>
    ensures { OnOk result (Adds R.has rows.old rows.new (rows_of (question_entries (given questions.now)))) }
{
    tell_wants(rows, "file", &questions.files)?;
    tell_wants(rows, "dir", &questions.directories)?;
    tell_wants(rows, "exists", &questions.existing)
}

/// Tells the rows of a command line that has this command.
fn tell_compilation<R: TakesRows>(
    rows: &mut R,
    described: &Description<'_>,
    compilation: &Compilation,
) -> Mem<()>
    ensures { OnOk result (Adds R.has rows.old rows.new (rows_of (compilation_entries (runs_of described.now.runs.items) (kept_told described.now.kept) compilation.now))) }
{
    tell_record(rows, &compilation.parsed)?;
    tell_runs(rows, &described.runs)?;
    tell_environment(rows, &compilation.command.env_vars)?;
    tell_kept(rows, &described.kept)
}

/// Tells the row of the given word by which a command line compiles nothing.
fn tell_undone<R: TakesRows>(alloc: Global, rows: &mut R, at: Option<usize>) -> Mem<()>
    ensures { OnOk result (Adds R.has rows.old rows.new (rows_of (undone_entries at))) }
{
    tell_index(alloc, rows, "at", at)
}

/// Tells the rows of a reason, and of the given word that is refused.
fn tell_refusal<R: TakesRows>(
    alloc: Global,
    rows: &mut R,
    reason: &str,
    because: Option<&str>,
    at: Option<usize>,
) -> Mem<()>
    ensures { OnOk result (Adds R.has rows.old rows.new (rows_of (refused_entries reason.now (option_copied because.entry) at))) }
{
    tell_word(rows, "reason", reason.as_bytes())?;
    tell_maybe(rows, "because", because.map(str::as_bytes))?;
    tell_index(alloc, rows, "at", at)?;
    tell_word(rows, "sentence", sentence(reason).as_bytes())
}

/// Tells the rows of what was read, or of why nothing was.
fn tell_outcome<R: TakesRows>(alloc: Global, rows: &mut R, described: &Description<'_>) -> Mem<()>
    ensures { OnOk result (Adds R.has rows.old rows.new (rows_of (outcome_given described.now))) }
{
    let at = refused_at(&described.options);
    match &described.answer {
        CompilerArguments::Ok(compilation) => tell_compilation(rows, described, compilation),
        CompilerArguments::CannotCache(reason, because) => {
            tell_refusal(alloc, rows, reason, because.as_deref(), at)
        }
        CompilerArguments::NotCompilation => tell_undone(alloc, rows, at),
    }
}

/// Tells a row for each hazard.
fn tell_hazards<R: TakesRows>(rows: &mut R, hazards: &[Hazard<'_>]) -> Mem<()>
    ensures { OnOk result (Adds R.has rows.old rows.new (entry_rows (hazards_entry hazards.now))) }
{
    for hazard in hazards {
        tell_word(rows, "hazard", hazard.name())?;
    }
    Ok(())
}

/// The name of the row of an effect.
fn row_name(verb: Verb, is_like: bool) -> &'static str
    ensures { result.now ≡ row_name verb is_like }
{
    match (verb, is_like) {
        (Verb::Reads, false) => "reads",
        (Verb::Reads, true) => "reads-like",
        (Verb::Writes, false) => "writes",
        (Verb::Writes, true) => "writes-like",
        (Verb::Asks, _) => "asks",
        (Verb::Loads, false) => "loads",
        (Verb::Loads, true) => "loads-like",
    }
}

/// Tells the row of an effect.
fn tell_effect<R: TakesRows>(rows: &mut R, effect: &Effect) -> Mem<()>
    ensures { OnOk result (Adds R.has rows.old rows.new (entry_rows (effect_entry effect.now))) }
{
    tell_word(
        rows,
        row_name(effect.verb(), effect.is_like()),
        effect.name(),
    )
}

/// Tells a row for each effect.
fn tell_effects<R: TakesRows>(rows: &mut R, effects: &[Effect]) -> Mem<()>
    ensures { OnOk result (Adds R.has rows.old rows.new (rows_of (effect_entries effects.now))) }
{
    for effect in effects {
        tell_effect(rows, effect)?;
    }
    Ok(())
}

/// Tells the rows of what is reported.
fn tell_told<R: TakesRows>(rows: &mut R, told: &Told<'_>) -> Mem<()>
    ensures { OnOk result (Adds R.has rows.old rows.new (rows_of (told_entries (given_told told.now)))) }
{
    tell_hazards(rows, &told.hazards)?;
    tell_effects(rows, &told.effects)
}

/// Tells the row of the dependency file, if there is one.
fn tell_writes<R: TakesRows>(rows: &mut R, described: &Description<'_>) -> Mem<()>
    ensures { OnOk result (Adds R.has rows.old rows.new (entry_rows (writes_entry (path_of described.now.writes)))) }
{
    tell_maybe(rows, "writes", described.writes.as_deref())
}

/// Tells the row of the rows' version.
fn tell_version<R: TakesRows>(rows: &mut R) -> Mem<()>
    ensures { OnOk result (Adds R.has rows.old rows.new (entry_rows version_entry)) }
{
    tell_word(rows, "version", b"1")
}

impl<'a> Description<'a> {
    /// What is described of a command line that was read, by a catalogue and as settings request it.
    pub fn of_reading(
        alloc: Global,
        catalogue: &'a Catalogue,
        settings: &Settings,
        reading: Reading,
        line: &CommandLine<'_>,
    ) -> Mem<Description<'a>>
        ensures { IfOk result (IsDescribed (catalogue_of catalogue.now) (settings_by settings.now) reading (given_by line.now)) }
    {
        let compiler = reading.compiler();
        let lexicon = lexicon_of(alloc, catalogue, settings, compiler)?;
        let driver = Driver {
            compiler,
            lexicon: &lexicon,
        };
        let runs = runs_wanted(alloc, settings, &reading)?;
        let options = options_wanted(alloc, settings, &reading)?;
        let told = told_wanted(alloc, catalogue, settings, &reading, line)?;
        let writes = writes_wanted(alloc, settings, &reading)?;
        let questions = questions_wanted(alloc, settings, &reading, line)?;
        let answer = reading.into_answer(alloc, b"", line)?;
        let mut described = Description {
            answer,
            runs,
            kept: Kept::Nothing,
            options,
            told,
            writes,
            questions,
        };
        described.kept = kept_in(alloc, &driver, settings, line.words, &described)?;
        Ok(described)
    }

    /// Tells the rows after the answer's lines.
    pub fn tell<R: TakesRows>(&self, alloc: Global, rows: &mut R) -> Mem<()>
        ensures { OnOk result (Adds R.has rows.old rows.new (rows_of (entries_given self.now))) }
    {
        tell_version(rows)?;
        tell_outcome(alloc, rows, self)?;
        tell_options(alloc, rows, &self.options)?;
        tell_told(rows, &self.told)?;
        tell_writes(rows, self)?;
        tell_questions(rows, &self.questions)?;
        tell_last(rows, &self.kept)
    }

    /// Its text: the answer's lines, and after them the rows.
    pub fn text(&self, alloc: Global) -> Mem<Vec<u8>>
        ensures { IfOk result (λ text. text.items ≡ text_given self.now) }
    {
        let mut text = answer_text(alloc, &self.answer)?;
        self.tell(alloc, &mut text)?;
        Ok(text)
    }

    /// Its rows as values: the answer's lines, a reason as one field, and after them the rows.
    pub fn rows(&self, alloc: Global) -> Mem<Vec<Vec<Vec<u8>>>>
        ensures { IfOk result (λ rows. runs_of rows.items ≡ rows_given self.now) }
    {
        let mut list = RowList::new(alloc);
        tell_answer(&mut list, &self.answer)?;
        self.tell(alloc, &mut list)?;
        Ok(list.into_rows())
    }
}

/// Tells the rows if a command line has too many words.
fn tell_too_many<R: TakesRows>(rows: &mut R) -> Mem<()>
    ensures { OnOk result (Adds R.has rows.old rows.new (rows_of too_many_entries)) }
{
    tell_yes(rows, "too-many-words", true)?;
    tell_version(rows)
}

/// The text if a command line has too many words.
pub fn too_many_words(alloc: Global) -> Mem<Vec<u8>>
    ensures { IfOk result (λ text. text.items ≡ entries_text too_many_entries) }
{
    let mut text = Vec::new(alloc);
    tell_too_many(&mut text)?;
    Ok(text)
}
