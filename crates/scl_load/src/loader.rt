//! Loading from a disk what an answer needs.
ghost use Rattle.std.specs.Prelude.{◌≡◌, IfOk, IfErr, MatchResult, true, false};
ghost use Rattle.scl_files.specs.Views.{Viewed};
ghost use Rattle.scl_reader.specs.Answers.{answer_to, reading_by};
ghost use Rattle.scl_reader.specs.CommandLines.{asked_for, given_by};
ghost use Rattle.scl_reader.specs.Questions.{questions_of};
ghost use Rattle.scl_reader.specs.QuestionsGiven.{given};
ghost use Rattle.scl_reader.specs.Reads.{outcome_in, read_of};
ghost use Rattle.scl_reader.specs.Within.{has_at_most};
ghost use Rattle.scl_load.specs.Leads.{IsReadOnce};
ghost use Rattle.scl_load.specs.Loads.{IsDiskError, IsEnd, asked_on, load_of};
ghost use Rattle.scl_load.specs.LoadsGiven.{view_of};

use crate::disk::Disk;
use crate::leads::Leads;
use crate::look::look_for_all;
use scl_reader::{CommandLine, Compiler, Limits, Mem, Questions, Reading, TooManyWords, View};
use std::alloc::Global;

/// Why a load gives no view.
#[derive(Debug, PartialEq, Eq, Drop)]
pub enum LoadError<E> {
    /// A read of the disk failed.
    Disk(E),
    /// A command line has more words or openings of files than the limit, with the loaded response files expanded.
    TooManyWords,
    /// A chain of response files, each naming the next, has as many files as the limit on rounds; or that many readings each
    /// found something. So there may be more files.
    TooManyRounds,
}

/// A command line whose files are on a disk.
#[derive(Clone, Copy)]
pub struct DiskLine<'a> {
    /// The compiler.
    pub compiler: Compiler,
    /// The words after the program.
    pub words: &'a [Vec<u8>],
    /// The path of the directory from which they are read.
    pub directory: &'a [u8],
    /// The keys and values of the environment, in order.
    pub environment: &'a [(Vec<u8>, Vec<u8>)],
    /// Whether several architectures are allowed.
    pub multiarch: bool,
}

/// The view that was loaded, and the reading of the command line in it.
#[derive(Drop)]
pub struct Loaded {
    /// What the disk has at the paths in question.
    pub view: View,
    /// The reading of the command line.
    pub reading: Reading,
}

impl<'a> DiskLine<'a> {
    /// The command line in a view.
    pub fn in_view(&self, view: &'a View) -> CommandLine<'a>
        ensures { asked_for self.now.compiler (given_by result) ≡ asked_on self.now view.now }
    {
        CommandLine {
            words: self.words,
            directory: self.directory,
            environment: self.environment,
            view,
        }
    }
}

/// The reading of the command line in a view, and its questions.
fn read_in(
    alloc: Global,
    line: &DiskLine<'_>,
    view: &View,
    most: Limits,
) -> Mem<Result<(Reading, Questions), TooManyWords>>
    ensures { IfOk result (λ said. let request = asked_on line.now view.now in
        MatchResult said (λ both. (has_at_most most request ≡ true) × (both.0 ≡ read_of request) × (given both.1 ≡ questions_of request)) (λ _. has_at_most most request ≡ false)) }
{
    let given = line.in_view(view);
    match line.compiler.read(alloc, &given, most)? {
        Ok(reading) => match reading.questions(alloc, &given) {
            Ok(questions) => Ok(Ok((reading, questions))),
            Err(refused) => {
                drop(reading);
                Err(refused)
            }
        },
        Err(too_many) => Ok(Err(too_many)),
    }
}

/// Reads the command line in the view, and looks for the reading's questions; says whether any of it was found.
fn read_once<D: Disk>(
    alloc: Global,
    disk: &D,
    line: &DiskLine<'_>,
    view: &mut View,
    most: Limits,
) -> Mem<Result<(Reading, bool), LoadError<D::Error>>>
    ensures { IfOk result (IsReadOnce (D.holds disk.now) (D.fails disk.now) line.now most view.old view.new) }
{
    let (reading, questions) = match read_in(alloc, line, view, most)? {
        Ok(both) => both,
        Err(TooManyWords) => return Ok(Err(LoadError::TooManyWords)),
    };
    match look_for_all(alloc, disk, view, &questions) {
        Ok(Ok(found)) => Ok(Ok((reading, found))),
        Ok(Err(error)) => {
            drop(reading);
            Ok(Err(LoadError::Disk(error)))
        }
        Err(refused) => {
            drop(reading);
            Err(refused)
        }
    }
}

/// The view that the answer to a command line needs of the disk, and the reading of the command line in it (docs/RULES.md,
/// Loading). It reads the line and looks for the reading's questions, and for the response files that the words of found ones
/// name, until nothing more is found: so no file is read that no reading asks for. The errors:
///
/// - `TooManyRounds`: a chain of response files, each naming the next, has `rounds` files; or `rounds` readings each found
///   something.
/// - `TooManyWords`: the words or the openings of files exceed the limits (`Compiler::answer_within`).
/// - `Disk`: a read of the disk failed. It ends the load.
pub fn load<D: Disk>(
    alloc: Global,
    disk: &D,
    line: &DiskLine<'_>,
    most: Limits,
    rounds: u32,
) -> Mem<Result<Loaded, LoadError<D::Error>>>
    ensures answer { IfOk result (λ said. IfOk said (λ loaded. (held : Viewed) → D.holds disk.now held → held.is_multiarch ≡ line.now.multiarch
        → answer_to (asked_on line.now held) ≡ answer_to (asked_on line.now loaded.view))) }
    ensures decided { IfOk result (λ said. IfOk said (λ loaded. (held : Viewed) → D.holds disk.now held → held.is_multiarch ≡ line.now.multiarch
        → reading_by line.now.compiler (asked_on line.now held) ≡ outcome_in loaded.reading)) }
    ensures reading { IfOk result (λ said. IfOk said (λ loaded. loaded.reading ≡ read_of (asked_on line.now loaded.view))) }
    ensures end { IfOk result (λ said. (held : Viewed) → D.holds disk.now held → held.is_multiarch ≡ line.now.multiarch
        → IsEnd held (load_of line.now most rounds) (view_of said)) }
    ensures error { IfOk result (λ said. IfErr said (λ error. IsDiskError (D.fails disk.now) error)) }
{
    let mut view = View::new(alloc);
    view.set_multiarch(line.multiarch);
    let mut leads = Leads::new(alloc, line.directory, rounds);
    for round in 0..rounds {
        if let Err(error) = leads.follow(alloc, disk, &mut view, most.words)? {
            return Ok(Err(error));
        }
        match read_once(alloc, disk, line, &mut view, most)? {
            Ok((reading, false)) => return Ok(Ok(Loaded { view, reading })),
            Ok((reading, true)) => leads.push_found(alloc, reading, &view, round + 1)?,
            Err(error) => return Ok(Err(error)),
        }
    }
    Ok(Err(LoadError::TooManyRounds))
}
