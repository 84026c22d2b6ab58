//! What a command line is answered, with the questions of its answer to a disk.
ghost use Rattle.std.specs.Prelude.{◌≡◌, IfOk, IfErr};
ghost use Rattle.scl_catalogue.specs.Views.{catalogue_of};
ghost use Rattle.scl_values.specs.Words.{words_of};
ghost use Rattle.scl_reader.specs.Answers.{answer_to};
ghost use Rattle.scl_reader.specs.AnswersGiven.{answer_of};
ghost use Rattle.scl_reader.specs.CommandLines.{given_by, given_in};
ghost use Rattle.scl_reader.specs.Reads.{read_of};
ghost use Rattle.scl_describe.specs.DescriptionsGiven.{AreOf};
ghost use Rattle.scl_describe.specs.SettingsRead.{settings_by};
ghost use Rattle.scl_load.specs.Loads.{IsDiskError, IsLoaded};
ghost use Rattle.scl_explain.specs.Said.{Decides, InEach, IsDecided, IsNotLoaded, load_for, request_of};
ghost use Rattle.scl_explain.specs.Seen.{IsSeen};

use crate::case::Case;
use crate::logged::Logged;
use crate::seen::Seen;
use scl_describe::{Catalogue, Description};
use scl_load::{Disk, DiskLine, LoadError, Loaded, load};
use scl_reader::{CommandLine, Mem, View};
use std::alloc::Global;

/// How many response files may not name each the next.
const MOST_ROUNDS: u32 = 1 << 12;

/// What a command line is answered.
#[derive(Drop)]
pub struct Answered<'a> {
    /// What is described of it, its answer first.
    pub description: Description<'a>,
    /// The paths of the response files that were read.
    pub response_files: Vec<Vec<u8>>,
    /// The paths at which words name a response file, and there is none.
    pub missing_files: Vec<Vec<u8>>,
    /// What the disk has at the paths in question.
    pub view: View,
}

/// The command line of a case in a view.
fn line_in<'a>(case: &'a Case, view: &'a View) -> CommandLine<'a>
    ensures { given_by result ≡ given_in (request_of case.now view.now) }
{
    CommandLine {
        words: &case.words,
        directory: &case.cwd,
        environment: &case.env_vars,
        view,
    }
}

/// What is loaded for the command line of a case, with its reading.
fn load_case<D: Disk>(
    alloc: Global,
    disk: &D,
    case: &Case,
) -> Mem<Result<Loaded, LoadError<D::Error>>>
    ensures reading { IfOk result (λ said. IfOk said (λ loaded. loaded.reading ≡ read_of (request_of case.now loaded.view))) }
    ensures loaded { IfOk result (λ said. IfOk said (λ loaded. InEach (D.holds disk.now) case.now (λ held. IsLoaded held (load_for case.now) loaded.view))) }
    ensures end { IfOk result (λ said. IfErr said (IsNotLoaded (D.holds disk.now) case.now)) }
    ensures error { IfOk result (λ said. IfErr said (λ error. IsDiskError (D.fails disk.now) error)) }
{
    let line = DiskLine {
        compiler: case.compiler,
        words: &case.words,
        directory: &case.cwd,
        environment: &case.env_vars,
        multiarch: case.multiarch,
    };
    match load(alloc, disk, &line, case.settings.limits, MOST_ROUNDS)? {
        Ok(loaded) => Ok(Ok(loaded)),
        Err(error) => Ok(Err(error)),
    }
}

/// What is described of what was loaded, with which of these response files the view has.
fn answer_loaded<'a>(
    alloc: Global,
    catalogue: &'a Catalogue,
    case: &Case,
    loaded: Loaded,
    paths: Vec<Vec<u8>>,
) -> Mem<Answered<'a>>
    requires { loaded.reading ≡ read_of (request_of case.now loaded.view) }
    ensures view { IfOk result (λ answered. answered.view ≡ loaded.view) }
    ensures described { IfOk result (λ answered. AreOf (catalogue_of catalogue.now) (settings_by case.now.settings) (request_of case.now answered.view) answered.description) }
    ensures seen { IfOk result (λ answered. IsSeen answered.view (words_of answered.response_files.items) (words_of answered.missing_files.items)) }
{
    let Loaded { view, reading } = loaded;
    let line = line_in(case, &view);
    let description = Description::of_reading(alloc, catalogue, &case.settings, reading, &line)?;
    let Seen { found, missing } = Seen::in_view(alloc, &view, paths)?;
    Ok(Answered {
        description,
        response_files: found,
        missing_files: missing,
        view,
    })
}

/// The answer to a command line on a disk, and what is described beside it, by a catalogue and as the settings of the case request
/// it. The disk is queried for response files, directories and other paths. What the view has of them decides the answer, also
/// on any other disk. A read that fails is `Disk` with its error. `TooManyWords` and `TooManyRounds`: response files give more
/// words than the case's limit or are opened more often, or 2^12 name each the next.
pub fn answer_case<'a, D: Disk>(
    alloc: Global,
    disk: &D,
    catalogue: &'a Catalogue,
    case: &Case,
) -> Mem<Result<Answered<'a>, LoadError<D::Error>>>
    ensures answer { IfOk result (λ said. IfOk said (λ answered. InEach (D.holds disk.now) case.now (λ held. answer_to (request_of case.now held) ≡ answer_of answered.description.answer))) }
    ensures described { IfOk result (λ said. IfOk said (λ answered. AreOf (catalogue_of catalogue.now) (settings_by case.now.settings) (request_of case.now answered.view) answered.description)) }
    ensures decided { IfOk result (λ said. IfOk said (λ answered. IsDecided (catalogue_of catalogue.now) (D.holds disk.now) case.now answered.view)) }
    ensures decides { IfOk result (λ said. IfOk said (λ answered. Decides answered.view case.now (answer_of answered.description.answer))) }
    ensures seen { IfOk result (λ said. IfOk said (λ answered. IsSeen answered.view (words_of answered.response_files.items) (words_of answered.missing_files.items))) }
    ensures end { IfOk result (λ said. IfErr said (IsNotLoaded (D.holds disk.now) case.now)) }
    ensures error { IfOk result (λ said. IfErr said (λ error. IsDiskError (D.fails disk.now) error)) }
{
    let logged = Logged::new(alloc, disk);
    let loaded = match load_case(alloc, &logged, case)? {
        Ok(loaded) => loaded,
        Err(error) => return Ok(Err(error)),
    };
    let paths = logged.into_paths();
    let answered = answer_loaded(alloc, catalogue, case, loaded, paths)?;
    Ok(Ok(answered))
}
