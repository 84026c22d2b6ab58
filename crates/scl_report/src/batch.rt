//! What the program says to the entries of a compile database.
use crate::digest::{entry_line, summary};
use crate::foreign::{ForeignDisk, all_with_slashes, is_windows, same_answer};
use crate::json::{entry_object, refused_object};
use crate::settings::copied;
use crate::tally::Tally;
use scl_cl::{Compiler, Mem};
use scl_describe::{Catalogue, Settings};
use scl_explain::{Answered, Case, Counts, Ending, EntryKind, answer_case, load_error_text};
use scl_load::Disk;
use scl_text::command::copy_pairs;
use serde_json::Value;
use std::alloc::Global;
use std::fmt::Display;

/// How a database is answered.
#[derive(Drop)]
pub struct Batch<'a> {
    /// What is known of the compilers.
    pub catalogue: &'a Catalogue,
    /// Further names of launchers.
    pub launchers: Vec<Vec<u8>>,
    /// The compiler of each entry, where one was named.
    pub named: Option<Compiler>,
    /// The directory in which those of the entries stand.
    pub base: Vec<u8>,
    /// The variables of the environment.
    pub env_vars: Vec<(Vec<u8>, Vec<u8>)>,
    /// Whether several architectures are allowed.
    pub multiarch: bool,
    /// How each entry is described.
    pub settings: Settings,
    /// Whether machines read the answers.
    pub json: bool,
    /// Whether it is counted what may be kept under a key.
    pub keep: bool,
    /// The one kind of entries that is written, if not each.
    pub only: Option<EntryKind>,
}

/// An entry's number, and the source that it names.
#[derive(Clone, Copy)]
pub(crate) struct Named<'n> {
    pub(crate) entry: u64,
    pub(crate) file: &'n str,
}

/// What an entry is found to be.
#[derive(Drop)]
pub(crate) enum Found<'a> {
    /// A command line, with what it is answered.
    Answered(Case, Answered<'a>),
    /// A command line that has no answer: why.
    Unread(String),
    /// No command line: why.
    Broken(String),
}

/// A command line with `/` for each backslash of its words.
fn slashed_case(alloc: Global, case: &Case) -> Mem<Case> {
    Ok(Case {
        compiler: case.compiler,
        program: Vec::from_slice(alloc, &case.program)?,
        words: all_with_slashes(alloc, &case.words)?,
        cwd: Vec::from_slice(alloc, &case.cwd)?,
        env_vars: copy_pairs(alloc, &case.env_vars)?,
        multiarch: case.multiarch,
        settings: copied(alloc, &case.settings)?,
    })
}

/// The source that an entry names; empty if it names none.
pub fn file_of(value: &Value) -> &str {
    match value.get("file").and_then(Value::as_str) {
        Some(file) => file,
        None => "",
    }
}

impl<'a> Batch<'a> {
    fn is_written(&self, kind: EntryKind) -> bool {
        match self.only {
            Some(only) => only == kind,
            None => self.json,
        }
    }

    /// The line of an entry that is answered.
    fn answered_line(
        &self,
        alloc: Global,
        named: Named<'_>,
        case: &Case,
        answered: &Answered<'_>,
    ) -> Mem<Vec<u8>> {
        if !self.json {
            return Ok(entry_line(alloc, named, case, answered)?.into_bytes());
        }
        let mut line = entry_object(alloc, named, case, answered)?;
        line.push(b'\n')?;
        Ok(line)
    }

    /// The line of an entry that has no answer; empty where nothing is written of it.
    fn refused_line(&self, alloc: Global, named: Named<'_>, why: &str) -> Mem<Vec<u8>> {
        if !self.json || self.only.is_some() {
            return Ok(Vec::new(alloc));
        }
        let mut line = refused_object(alloc, named, why)?;
        line.push(b'\n')?;
        Ok(line)
    }

    /// What the entry of a command line is answered on a disk, or why it is not.
    fn answer_on<D: Disk>(
        &self,
        alloc: Global,
        disk: &D,
        case: &Case,
    ) -> Mem<Result<Answered<'a>, String>>
    where
        D::Error: Display,
    {
        match answer_case(alloc, disk, self.catalogue, case)? {
            Ok(answered) => Ok(Ok(answered)),
            Err(error) => Ok(Err(load_error_text(alloc, &error)?)),
        }
    }

    /// The same of a command line of Windows, which asks for no file, and is answered in the same way where `/` parts its paths.
    fn answer_foreign(&self, alloc: Global, case: &Case) -> Mem<Result<Answered<'a>, String>> {
        let answered = match self.answer_on(alloc, &ForeignDisk, case)? {
            Ok(answered) => answered,
            Err(why) => return Ok(Err(why)),
        };
        let slashed = slashed_case(alloc, case)?;
        let is_same = match self.answer_on(alloc, &ForeignDisk, &slashed)? {
            Ok(other) => {
                same_answer(
                    alloc,
                    &answered.description.answer,
                    &other.description.answer,
                )?
            }
            Err(_) => false,
        };
        if is_same {
            return Ok(Ok(answered));
        }
        drop(answered);
        Ok(Err(String::from_str(
            alloc,
            "an entry of Windows, and its answer depends on how \\ parts paths",
        )?))
    }

    /// What the entry of a command line is answered, or why it is not.
    fn answer<D: Disk>(
        &self,
        alloc: Global,
        disk: &D,
        case: &Case,
    ) -> Mem<Result<Answered<'a>, String>>
    where
        D::Error: Display,
    {
        if is_windows(&case.cwd) {
            self.answer_foreign(alloc, case)
        } else {
            self.answer_on(alloc, disk, case)
        }
    }

    /// What an entry is found to be, by the files of a disk.
    pub(crate) fn found<D: Disk>(&self, alloc: Global, disk: &D, value: &Value) -> Mem<Found<'a>>
    where
        D::Error: Display,
    {
        let case = match self.case_of(alloc, value)? {
            Ok(case) => case,
            Err(error) => return Ok(Found::Broken(format!(in alloc; "{error}")?)),
        };
        match self.answer(alloc, disk, &case)? {
            Ok(answered) => Ok(Found::Answered(case, answered)),
            Err(why) => {
                drop(case);
                Ok(Found::Unread(why))
            }
        }
    }

    /// Counts an entry that is answered. What it is.
    fn count(
        &self,
        alloc: Global,
        tally: &mut Tally,
        named: Named<'_>,
        answered: &Answered<'_>,
    ) -> Mem<EntryKind> {
        if self.keep {
            tally.keeps.count(alloc, named, &answered.description.kept)?;
        }
        tally.counts.count(alloc, named.entry, named.file, answered)
    }

    /// Answers the next entry, and counts it. What is written of it.
    pub fn answer_entry<D: Disk>(
        &self,
        alloc: Global,
        disk: &D,
        tally: &mut Tally,
        value: &Value,
    ) -> Mem<Vec<u8>>
    where
        D::Error: Display,
    {
        let named = Named {
            entry: tally.counts.next(),
            file: file_of(value),
        };
        match self.found(alloc, disk, value)? {
            Found::Answered(case, answered) => {
                let kind = self.count(alloc, tally, named, &answered)?;
                if self.is_written(kind) {
                    self.answered_line(alloc, named, &case, &answered)
                } else {
                    Ok(Vec::new(alloc))
                }
            }
            Found::Unread(why) => {
                let line = self.refused_line(alloc, named, why.as_str())?;
                tally.counts.count_unread(named.entry, why)?;
                Ok(line)
            }
            Found::Broken(why) => {
                let line = self.refused_line(alloc, named, why.as_str())?;
                tally.counts.count_broken(named.entry, why)?;
                Ok(line)
            }
        }
    }

    /// What is written after the entries.
    pub fn closing_text(&self, alloc: Global, tally: &Tally) -> Mem<String> {
        if self.json {
            Ok(String::new(alloc))
        } else {
            let keeps = self.keep.then_some(&tally.keeps);
            summary(alloc, self.catalogue, &tally.counts, keeps)
        }
    }
}

/// How a database ends, of which this was counted.
pub fn ending_of_counts(counts: &Counts) -> Ending {
    if counts.has_broken() {
        Ending::BadDatabase
    } else if counts.has_unread() {
        Ending::FileFailed
    } else {
        Ending::Answered
    }
}
