//! Response files that words name, followed from file to file on a disk.
ghost use Rattle.std.specs.Prelude.{◌≡◌, [], ◌+◌, ◌≤◌, IfOk, MatchOption, OnOk};
ghost use Rattle.std.specs.Option.{option_copied};
ghost use Rattle.scl_values.specs.Words.{words_of};
ghost use Rattle.scl_load.specs.Leads.{AreFollowed, IsFoundNext, leads_from, leads_found, leads_named, leads_of, with_more};

use crate::disk::Disk;
use crate::loader::LoadError;
use crate::look::look_for_file;
use scl_files::expand::ExpansionKind;
use scl_files::response_file::{arguments, named};
use scl_reader::{Mem, Reading, View};
use std::alloc::Global;
use std::collections::VecDeque;

/// A response file that words name: the compiler's kind, its path, and the number of files in the chain before it.
#[derive(Drop)]
struct Lead {
    kind: ExpansionKind,
    path: Vec<u8>,
    depth: u32,
}

/// Response files to look for, in order: the directory in which words name them, and the limit on the files of a chain.
#[derive(Drop)]
pub(crate) struct Leads<'a> {
    directory: &'a [u8],
    rounds: u32,
    ahead: VecDeque<Lead>,
}

/// A depth plus one, if the depth is below `rounds`.
fn next_depth(depth: u32, rounds: u32) -> Option<u32>
    ensures { MatchOption result (rounds ≤ depth + 1) (λ next. next ≡ depth + 1) }
{
    if depth < rounds && rounds - depth > 1 {
        Some(depth + 1)
    } else {
        None
    }
}

impl<'a> Leads<'a> {
    /// None yet.
    pub(crate) fn new(alloc: Global, directory: &'a [u8], rounds: u32) -> Leads<'a>
        ensures { leads_of result ≡ record { directory = directory.now; rounds = rounds; ahead = [] } }
    {
        Leads {
            directory,
            rounds,
            ahead: VecDeque::new(alloc),
        }
    }

    /// Appends those that words name.
    fn push_named(
        &mut self,
        alloc: Global,
        kind: ExpansionKind,
        words: &[Vec<u8>],
        depth: u32,
    ) -> Mem<()>
        ensures { OnOk result (leads_of self.new ≡ with_more (leads_of self.old) (leads_named kind self.old.directory.now (words_of words.now) depth)) }
    {
        for word in words {
            if let Some(path) = named(alloc, kind, self.directory, word)? {
                self.ahead.push_back(Lead { kind, path, depth })?;
            }
        }
        Ok(())
    }

    /// Appends those that the words of a file name, if there is one; words in Msvc's files name none.
    fn push_inside(
        &mut self,
        alloc: Global,
        kind: ExpansionKind,
        bytes: Option<&[u8]>,
        depth: u32,
    ) -> Mem<()>
        ensures { OnOk result (leads_of self.new ≡ with_more (leads_of self.old) (leads_from kind self.old.directory.now (option_copied bytes.entry) depth)) }
    {
        let Some(bytes) = bytes else {
            return Ok(());
        };
        if kind == ExpansionKind::Msvc {
            return Ok(());
        }
        match arguments(alloc, kind, bytes)? {
            Some(words) => self.push_named(alloc, kind, &words, depth),
            None => Ok(()),
        }
    }

    /// Appends those that are named by the files which the reading lacked and the view has.
    pub(crate) fn push_found(
        &mut self,
        alloc: Global,
        reading: Reading,
        view: &View,
        depth: u32,
    ) -> Mem<()>
        ensures { OnOk result (leads_of self.new ≡ with_more (leads_of self.old) (leads_found reading view.now self.old.directory.now depth)) }
    {
        let files = reading.files_lacked(alloc);
        drop(reading);
        for file in &files? {
            self.push_inside(alloc, file.kind, view.file(&file.path), depth)?;
        }
        Ok(())
    }

    /// The next one that the disk has and the view did not have; it is added to the view. Those before it are dropped.
    fn find<D: Disk>(
        &mut self,
        alloc: Global,
        disk: &D,
        view: &mut View,
    ) -> Mem<Result<Option<Lead>, D::Error>>
        ensures { IfOk result (IsFoundNext (D.holds disk.now) (D.fails disk.now) (leads_of self.old) (leads_of self.new) view.old view.new) }
    {
        while let Some(lead) = self.ahead.pop_front() {
            if view.file(&lead.path).is_some() {
                continue;
            }
            match look_for_file(alloc, disk, view, &lead.path)? {
                Ok(true) => return Ok(Ok(Some(lead))),
                Ok(false) => {}
                Err(error) => return Ok(Err(error)),
            }
        }
        Ok(Ok(None))
    }

    /// Finds the next one that the disk has and the view did not have, and appends those that its words name; says whether
    /// there was one. The error is `TooManyRounds` if it is the last in a chain of `rounds` files.
    fn step<D: Disk>(
        &mut self,
        alloc: Global,
        disk: &D,
        view: &mut View,
    ) -> Mem<Result<bool, LoadError<D::Error>>>
        ensures { IfOk result (AreFollowed (D.holds disk.now) (D.fails disk.now) (leads_of self.old) (leads_of self.new) view.old view.new) }
    {
        let lead = match self.find(alloc, disk, view)? {
            Ok(Some(lead)) => lead,
            Ok(None) => return Ok(Ok(false)),
            Err(error) => return Ok(Err(LoadError::Disk(error))),
        };
        match next_depth(lead.depth, self.rounds) {
            Some(depth) => {
                self.push_inside(alloc, lead.kind, view.file(&lead.path), depth)?;
                Ok(Ok(true))
            }
            None => Ok(Err(LoadError::TooManyRounds)),
        }
    }

    /// Looks for them, and for those that the words of found ones name, until none is left, or `most` were found: then the
    /// command line is too long. The error is `TooManyRounds` if a chain has `rounds` files, `Disk` if a read fails.
    pub(crate) fn follow<D: Disk>(
        &mut self,
        alloc: Global,
        disk: &D,
        view: &mut View,
        most: usize,
    ) -> Mem<Result<(), LoadError<D::Error>>>
        ensures { IfOk result (AreFollowed (D.holds disk.now) (D.fails disk.now) (leads_of self.old) (leads_of self.new) view.old view.new) }
    {
        for _found in 0..most {
            match self.step(alloc, disk, view)? {
                Ok(true) => {}
                Ok(false) => return Ok(Ok(())),
                Err(error) => return Ok(Err(error)),
            }
        }
        Ok(Ok(()))
    }
}
