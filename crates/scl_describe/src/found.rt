//! What is described of a command line that was read beside its answer, as far as settings want it.
ghost use Rattle.std.specs.Prelude.{◌≡◌, IfOk, map};
ghost use Rattle.scl_catalogue.specs.Views.{catalogue_of, seen_of};
ghost use Rattle.scl_rows.specs.Rows.{told};
ghost use Rattle.scl_text.specs.Runs.{runs_of};
ghost use Rattle.scl_reader.specs.CommandLines.{given_by};
ghost use Rattle.scl_reader.specs.Questions.{questions_in};
ghost use Rattle.scl_reader.specs.QuestionsGiven.{given as given_questions};
ghost use Rattle.scl_reader.specs.Reads.{compiler_of, outcome_in};
ghost use Rattle.scl_hazards.specs.Told.{given};
ghost use Rattle.scl_describe.specs.DescriptionsGiven.{runs_given};
ghost use Rattle.scl_describe.specs.Hazards.{known_by, seen_in, told_in};
ghost use Rattle.scl_describe.specs.OptionRows.{rows_in};
ghost use Rattle.scl_describe.specs.Settings.{wanted};
ghost use Rattle.scl_describe.specs.SettingsRead.{settings_by};
ghost use Rattle.scl_describe.specs.Wants.{if_wanted, questions_if, told_if};

use crate::known::known_of;
use crate::settings::Settings;
use scl_catalogue::Seen;
use scl_hazards::{
    Catalogue, Known, Told, diab_told, gnu_told, line_seen, msvc_told, tasking_told,
};
use scl_reader::{CommandLine, Questions, Reading};
use scl_rows::{Row, gnu_rows, msvc_rows, small_rows};
use scl_text::Mem;
use scl_text::command::copy_text;
use std::alloc::Global;

/// What became of each option of a command line that was read, whether that is refused or not, a row each: those of its words
/// in order, those of inner command lines, and those that the rules add to a compilation. Where a row is refused, so is the
/// command line, as the first such row says; where it is read, the rows make the lists of its record; and the words that they
/// were cut from are those of the line (`laws::of_rows`; docs/RULES.md, Rows of options).
pub fn rows_of(alloc: Global, reading: &Reading) -> Mem<Vec<Row>>
    ensures { IfOk result (λ rows. map told rows.items ≡ rows_in reading.now) }
{
    match reading {
        Reading::Gnu(reading) => gnu_rows(alloc, reading),
        Reading::Msvc(reading) => msvc_rows(alloc, reading),
        Reading::Diab(reading) => small_rows(alloc, reading),
        Reading::Tasking(reading) => small_rows(alloc, reading),
    }
}

/// The options of a command line that was read, without its inner ones, as a catalogue's conditions see them.
pub fn options_seen(alloc: Global, reading: &Reading) -> Mem<Vec<Seen<'_>>>
    ensures { IfOk result (λ all. map seen_of all.items ≡ seen_in reading.now) }
{
    match reading {
        Reading::Gnu(gnu) => line_seen(alloc, gnu.outer()),
        Reading::Msvc(msvc) => line_seen(alloc, msvc.outer()),
        Reading::Diab(diab) => line_seen(alloc, diab.outer()),
        Reading::Tasking(tasking) => line_seen(alloc, tasking.outer()),
    }
}

/// What is reported of a command line that was read: what its compiler is known to do differently with the built command than
/// with the given one, what it reads, writes, asks and loads, and the first option of which nothing is known; nothing where
/// there is no command (docs/RULES.md, Hazards).
fn told_of<'a>(
    alloc: Global,
    known: &Known<'a>,
    reading: &Reading,
    line: &CommandLine<'_>,
) -> Mem<Told<'a>>
    ensures { IfOk result (λ told. given told ≡ told_in known.now (given_by line.now) reading.now) }
{
    match reading {
        Reading::Gnu(gnu) => {
            let has_header = reading.has_precompiled_header(alloc, line)?;
            gnu_told(alloc, known, gnu, has_header)
        }
        Reading::Msvc(msvc) => msvc_told(alloc, known, msvc, line.environment),
        Reading::Diab(diab) => diab_told(alloc, known, diab),
        Reading::Tasking(tasking) => tasking_told(alloc, known, tasking),
    }
}

/// The runs of the preprocessor, if they are wanted.
pub(crate) fn runs_wanted(
    alloc: Global,
    settings: &Settings,
    reading: &Reading,
) -> Mem<Vec<Vec<Vec<u8>>>>
    ensures { IfOk result (λ runs. runs_of runs.items ≡ runs_given (settings_by settings.now) (compiler_of reading.now) (outcome_in reading.now)) }
{
    if !settings.wanted().runs {
        return Ok(Vec::new(alloc));
    }
    let version = copy_text(alloc, &settings.version)?;
    reading.runs(alloc, version, settings.runs)
}

/// The rows of options, if they are wanted.
pub(crate) fn options_wanted(alloc: Global, settings: &Settings, reading: &Reading) -> Mem<Vec<Row>>
    ensures { IfOk result (λ rows. map told rows.items ≡ if_wanted (wanted (settings_by settings.now)).options (rows_in reading.now)) }
{
    if settings.wanted().options {
        rows_of(alloc, reading)
    } else {
        Ok(Vec::new(alloc))
    }
}

/// What is reported, if it is wanted, or the key, which is judged by it.
pub(crate) fn told_wanted<'a>(
    alloc: Global,
    catalogue: &'a Catalogue,
    settings: &Settings,
    reading: &Reading,
    line: &CommandLine<'_>,
) -> Mem<Told<'a>>
    ensures { IfOk result (λ told. let s = settings_by settings.now in
        given told ≡ told_if (wanted s) (told_in (known_by (catalogue_of catalogue.now) s.version) (given_by line.now) reading.now)) }
{
    let wants = settings.wanted();
    if wants.tables || wants.key {
        told_of(alloc, &known_of(catalogue, settings), reading, line)
    } else {
        Ok(Told {
            hazards: Vec::new(alloc),
            effects: Vec::new(alloc),
            unknown: None,
        })
    }
}

/// The questions, if they are wanted.
pub(crate) fn questions_wanted(
    alloc: Global,
    settings: &Settings,
    reading: &Reading,
    line: &CommandLine<'_>,
) -> Mem<Questions>
    ensures { IfOk result (λ asked. given_questions asked ≡ questions_if (wanted (settings_by settings.now)) (questions_in (given_by line.now) reading.now)) }
{
    if settings.wanted().questions {
        reading.questions(alloc, line)
    } else {
        Ok(Questions {
            files: Vec::new(alloc),
            directories: Vec::new(alloc),
            existing: Vec::new(alloc),
        })
    }
}
