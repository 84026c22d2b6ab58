//! The engine of all expansions: the files that are open, and the words left in them.
ghost use Rattle.std.specs.Prelude.{◌≡◌, [], ◌∷◌, IfOk, MatchOption, length};
ghost use Rattle.std.specs.Option.{option_map};
ghost use Rattle.std.specs.Vec.Iter.{into_iter_items, into_iter_len};

use crate::expand::ExpansionKind;
use crate::path_map::PathMap;
use crate::response_file::{arguments, named};
use crate::view::View;
use scl_values::Mem;
use std::alloc::Global;
use std::mem::replace;
use std::vec::IntoIter;

/// The words left in a file.
#[derive(Drop)]
pub(crate) struct WordsLeft {
    words: IntoIter<Vec<u8>>,
    ghost counted: { into_iter_len words ≡ length (into_iter_items words) },
}

impl WordsLeft {
    ghost use Rattle.scl_files.specs.ExpansionState.{words_left};

    fn next(&mut self) -> Option<Vec<u8>>
        ensures { MatchOption result ((words_left self.old ≡ []) × (words_left self.new ≡ [])) (λ word. words_left self.old ≡ word.items ∷ words_left self.new) }
    {
        self.words.next()
    }
}

/// An expansion that has begun: the given words that are left, the words left in the file opened last, and the open files.
/// These are in the order of opening, each with the words left around it.
#[derive(Drop)]
pub(crate) struct Expansion<'a> {
    alloc: Global,
    kind: ExpansionKind,
    directory: &'a [u8],
    view: &'a View,
    words: &'a [Vec<u8>],
    inner: WordsLeft,
    open_files: PathMap<WordsLeft>,
}

/// The result of a step.
#[derive(Drop)]
pub(crate) enum Step {
    /// The next word.
    Word(Vec<u8>),
    /// A file was opened, at this path.
    Opened(Vec<u8>),
    /// The file opened last was closed.
    Closed,
    /// No words are left.
    End,
}

impl<'a> Expansion<'a> {
    ghost use Rattle.scl_files.specs.ExpansionState.{is_shut, opens, open_files_of, closed_of, left_of, left_before, openings_of, openings_before, steps_before, StepsFrom, Steps};
    ghost use Rattle.scl_files.specs.Expand.{opened, expand};
    ghost use Rattle.scl_files.specs.Openings.{openings};
    ghost use Rattle.scl_values.specs.Words.{words_of};

    pub(crate) fn new(
        alloc: Global,
        kind: ExpansionKind,
        directory: &'a [u8],
        words: &'a [Vec<u8>],
        view: &'a View,
    ) -> Expansion<'a>
        ensures words { left_of result ≡ expand kind directory.now view.now.files (words_of words.now) }
        ensures openings { openings_of result ≡ openings kind directory.now view.now.files (words_of words.now) }
    {
        Expansion {
            alloc,
            kind,
            directory,
            view,
            words,
            inner: WordsLeft {
                words: Vec::new(alloc).into_iter(),
            },
            open_files: PathMap::new(alloc),
        }
    }

    /// Whether no word may open the file at the path, given the files that are open.
    fn is_shut(&self, path: &[u8]) -> bool
        ensures { result ≡ is_shut self.now.kind path.now (open_files_of self.now) }
    {
        match self.kind {
            ExpansionKind::Gnu | ExpansionKind::Diab => self.open_files.contains(path),
            ExpansionKind::Msvc => !self.open_files.is_empty(),
        }
    }

    /// The path and the words of the file that a word names, if the word may open it.
    #[tactic(auto, using(crate::proofs::OpenLemmas::opened_rules))]
    fn open(&self, word: &[u8]) -> Mem<Option<(Vec<u8>, WordsLeft)>>
        ensures { IfOk result (λ r. option_map opens r ≡ opened self.now.kind self.now.directory.now (closed_of self.now) word.now) }
    {
        let Some(path) = named(self.alloc, self.kind, self.directory, word)? else {
            return Ok(None);
        };
        if self.is_shut(&path) {
            return Ok(None);
        }
        let Some(bytes) = self.view.file(&path) else {
            return Ok(None);
        };
        let Some(words) = arguments(self.alloc, self.kind, bytes)? else {
            return Ok(None);
        };
        let words = words.into_iter();
        Ok(Some((path, WordsLeft { words })))
    }

    /// Gives a word, or opens the file that it names.
    fn give(&mut self, word: Vec<u8>) -> Mem<Step>
        ensures { IfOk result (λ step. StepsFrom (left_before self.old word.items) (openings_before self.old word.items) (steps_before self.old word.items) step self.new) }
    {
        match self.open(&word)? {
            None => Ok(Step::Word(word)),
            Some((path, words)) => {
                let opened = Vec::from_slice(self.alloc, &path)?;
                let around = replace(&mut self.inner, words);
                self.open_files.add(path, around)?;
                Ok(Step::Opened(opened))
            }
        }
    }

    /// Takes the next given word, if no file is open.
    fn next_given(&mut self) -> Mem<Step>
        requires { self.old.open_files ≡ [] }
        ensures { IfOk result (λ step. Steps self.old step self.new) }
    {
        let Some((word, words)) = self.words.split_first() else {
            return Ok(Step::End);
        };
        self.words = words;
        let word = Vec::from_slice(self.alloc, word)?;
        self.give(word)
    }

    /// Takes the next word, or closes the file opened last if it has none left.
    pub(crate) fn step(&mut self) -> Mem<Step>
        ensures { IfOk result (λ step. Steps self.old step self.new) }
    {
        if self.open_files.is_empty() {
            return self.next_given();
        }
        if let Some(word) = self.inner.next() {
            return self.give(word);
        }
        match self.open_files.pop() {
            Some((_path, around)) => self.inner = around,
            None => unreachable!(),
        }
        Ok(Step::Closed)
    }
}
