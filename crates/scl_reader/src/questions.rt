//! The questions of an answer: paths that its view does not have.
ghost use Rattle.std.specs.Prelude.{◌≡◌, ◌++◌, [], true, false, map, IfOk, MatchResult, OnOk};
ghost use Rattle.std.specs.List.{flat_map};
ghost use Rattle.std.specs.Option.{option_copied};
ghost use Rattle.scl_values.specs.Words.{words_of};
ghost use Rattle.scl_text.specs.Records.{outcome_of};
ghost use Rattle.scl_reader.specs.CommandLines.{asked_for, given_by};
ghost use Rattle.scl_reader.specs.Reads.{lacked_of};
ghost use Rattle.scl_reader.specs.Within.{has_at_most};
ghost use Rattle.scl_reader.specs.Questions.{database_in, hash_files, no_directory, no_path, database_asked, questions_in, questions_of};
ghost use Rattle.scl_reader.specs.QuestionsGiven.{given};

use crate::command_line::CommandLine;
use crate::compiler::Compiler;
use crate::reading::{LackedFile, Reading};
use scl_text::outputs::output_path;
use scl_text::path::join;
use scl_text::records::{CompilerArguments, ParsedArguments};
use scl_text::{Limits, Mem, TooManyWords, View};
use std::alloc::Global;

/// The questions of the answer to a command line: paths that its view does not have (docs/RULES.md, Questions). A path may
/// stand more than once.
#[derive(Debug, PartialEq, Eq, Drop)]
pub struct Questions {
    /// The paths at which there may be response files.
    pub files: Vec<Vec<u8>>,
    /// The paths at which there may be directories.
    pub directories: Vec<Vec<u8>>,
    /// The paths at which there may be anything.
    pub existing: Vec<Vec<u8>>,
}

/// Appends a path, where it is no directory of the view.
fn push_directory(alloc: Global, paths: &mut Vec<Vec<u8>>, path: &[u8], view: &View) -> Mem<()>
    ensures { OnOk result (words_of paths.new.items ≡ words_of paths.old.items ++ no_directory view.now path.now) }
{
    if !view.is_dir(path) {
        paths.push(Vec::from_slice(alloc, path)?)?;
    }
    Ok(())
}

/// Those of the paths that are no directories of the view.
fn absent_directories(alloc: Global, hashed: &[Vec<u8>], view: &View) -> Mem<Vec<Vec<u8>>>
    ensures { IfOk result (λ paths. words_of paths.items ≡ flat_map (no_directory view.now) (words_of hashed.now)) }
{
    let mut paths = Vec::new(alloc);
    for path in hashed {
        push_directory(alloc, &mut paths, path, view)?;
    }
    Ok(paths)
}

/// Appends a path, where the view has nothing there.
fn push_path(paths: &mut Vec<Vec<u8>>, path: Vec<u8>, view: &View) -> Mem<()>
    ensures { OnOk result (words_of paths.new.items ≡ words_of paths.old.items ++ no_path view.now path.items) }
{
    if !view.exists(&path) {
        paths.push(path)?;
    }
    Ok(())
}

/// The path of a file for debug information, if there is one and the view has nothing there.
fn absent_database(
    alloc: Global,
    database: Option<&[u8]>,
    cwd: &[u8],
    view: &View,
) -> Mem<Vec<Vec<u8>>>
    ensures { IfOk result (λ paths. words_of paths.items ≡ database_asked cwd.now view.now (option_copied database.entry)) }
{
    let mut paths = Vec::new(alloc);
    if let Some(database) = database {
        push_path(&mut paths, join(alloc, cwd, database)?, view)?;
    }
    Ok(paths)
}

/// Appends those of the paths at which the view has nothing.
fn push_absent(existing: &mut Vec<Vec<u8>>, paths: Vec<Vec<u8>>, view: &View) -> Mem<()>
    ensures { OnOk result (words_of existing.new.items ≡ words_of existing.old.items ++ flat_map (no_path view.now) (words_of paths.items)) }
{
    for path in paths {
        push_path(existing, path, view)?;
    }
    Ok(())
}

/// The files on which an outcome depends.
fn hash_files_of(outcome: &CompilerArguments<ParsedArguments>) -> &[Vec<u8>]
    ensures { words_of result.now ≡ hash_files (outcome_of outcome.now) }
{
    match outcome {
        CompilerArguments::Ok(parsed) => &parsed.extra_hash_files,
        CompilerArguments::CannotCache(_, _) | CompilerArguments::NotCompilation => &[],
    }
}

/// The path of the file for debug information.
fn database_of(outcome: &CompilerArguments<ParsedArguments>) -> Option<&[u8]>
    ensures { option_copied result ≡ database_in (outcome_of outcome.now) }
{
    match outcome {
        CompilerArguments::Ok(parsed) => output_path(&parsed.outputs, "pdb"),
        CompilerArguments::CannotCache(_, _) | CompilerArguments::NotCompilation => None,
    }
}

/// The paths of files.
fn paths_of(alloc: Global, files: Vec<LackedFile>) -> Mem<Vec<Vec<u8>>>
    ensures { IfOk result (λ paths. words_of paths.items ≡ map (λ file. file.path) (lacked_of files.items)) }
{
    let mut paths = Vec::new(alloc);
    for file in files {
        paths.push(file.path)?;
    }
    Ok(paths)
}

impl Reading {
    /// The questions of the answer to this command line, as `Compiler::open_questions` says it.
    pub fn questions(&self, alloc: Global, line: &CommandLine<'_>) -> Mem<Questions>
        ensures { IfOk result (λ questions. given questions ≡ questions_in (given_by line.now) self.now) }
    {
        let files = self.files_lacked(alloc)?;
        let (outcome, view) = (self.outcome(), line.view);
        let database = database_of(outcome);
        let mut existing = absent_database(alloc, database, line.directory, view)?;
        let headers = self.precompiled_headers(alloc, line)?;
        push_absent(&mut existing, headers, view)?;
        Ok(Questions {
            files: paths_of(alloc, files)?,
            directories: absent_directories(alloc, hash_files_of(outcome), view)?,
            existing,
        })
    }
}

impl Compiler {
    /// The questions of the answer to a command line, paths that the view does not have: the response files that its words
    /// name, those that words inside the files of the view name, and those of inner command lines; the directories in which
    /// profiles may lie; the file that debug information may be added to; and the precompiled headers that matter
    /// (docs/RULES.md, Questions). A disk that has what the view has, and none of the questions, gives the same reading and
    /// answer (`laws::of_questions`). `TooManyWords` where `answer_within` says so. The outer error is the refusal of memory.
    pub fn open_questions(
        self,
        alloc: Global,
        line: &CommandLine<'_>,
        most: Limits,
    ) -> Mem<Result<Questions, TooManyWords>>
        ensures { IfOk result (λ said. let request = asked_for self (given_by line.now) in
            MatchResult said (λ questions. (has_at_most most request ≡ true) × (given questions ≡ questions_of request)) (λ _. has_at_most most request ≡ false)) }
    {
        match self.read(alloc, line, most)? {
            Ok(reading) => {
                let questions = reading.questions(alloc, line);
                drop(reading);
                Ok(Ok(questions?))
            }
            Err(too_many) => Ok(Err(too_many)),
        }
    }
}
