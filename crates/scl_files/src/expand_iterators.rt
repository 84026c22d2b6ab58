//! The iterators of the three expansions.
ghost use Rattle.std.specs.Prelude.{◌≡◌, false};
ghost use Rattle.scl_values.specs.Words.{words_of};
ghost use Rattle.scl_files.specs.Expand.{expand};
ghost use Rattle.scl_files.specs.WordsToCome.{items_left, GivesWord};

use crate::expand::ExpansionKind;
use crate::expansion::{Expansion, Step};
use crate::view::View;
use scl_values::Mem;
use std::alloc::Global;
use std::marker::Model;

/// The words of an expansion of one kind.
#[derive(Drop)]
pub(crate) struct Expand<'a> {
    expansion: Expansion<'a>,
    ended: bool,
}

impl<'a> Model for Expand<'a> {
    ghost use Rattle.scl_files.specs.WordsToCome.{WordsToCome};

    ghost Value = { WordsToCome };

    ghost use Rattle.scl_files.specs.ExpansionState.{left_of};

    ghost view = { λ e. record { words = left_of e.expansion; ended = e.ended } };
}

impl<'a> Expand<'a> {
    pub(crate) fn new(
        alloc: Global,
        kind: ExpansionKind,
        directory: &'a [u8],
        words: &'a [Vec<u8>],
        view: &'a View,
    ) -> Expand<'a>
        ensures { result ≡ record { words = expand kind directory.now view.now.files (words_of words.now); ended = false } }
    {
        Expand {
            expansion: Expansion::new(alloc, kind, directory, words, view),
            ended: false,
        }
    }
}

impl Iterator for Expand<'_> {
    type Item = Mem<Vec<u8>>;

    ghost next_gives = { GivesWord };

    ghost remaining = { items_left };

    fn next(&mut self) -> Option<Mem<Vec<u8>>> {
        if self.ended {
            return None;
        }
        loop {
            match self.expansion.step() {
                Ok(Step::Word(word)) => return Some(Ok(word)),
                Ok(Step::Opened(_) | Step::Closed) => {}
                Ok(Step::End) => {
                    self.ended = true;
                    return None;
                }
                Err(refused) => {
                    self.ended = true;
                    return Some(Err(refused));
                }
            }
        }
    }
}

/// The words, with the GNU response files expanded that `@name` words name. A failed allocation is the last item
/// (docs/RULES.md, Expansion).
#[derive(Drop)]
pub struct GnuExpand<'a> {
    words: Expand<'a>,
}

impl<'a> Model for GnuExpand<'a> {
    ghost use Rattle.scl_files.specs.WordsToCome.{WordsToCome};

    ghost Value = { WordsToCome };

    ghost view = { λ e. e.words };
}

impl<'a> GnuExpand<'a> {
    /// An expansion before its first word; nothing is allocated yet (docs/RULES.md, Expansion).
    pub fn new(alloc: Global, cwd: &'a [u8], words: &'a [Vec<u8>], view: &'a View) -> GnuExpand<'a>
        ensures { result ≡ record { words = expand ExpansionKind.Gnu cwd.now view.now.files (words_of words.now); ended = false } }
    {
        GnuExpand {
            words: Expand::new(alloc, ExpansionKind::Gnu, cwd, words, view),
        }
    }
}

impl Iterator for GnuExpand<'_> {
    type Item = Mem<Vec<u8>>;

    ghost next_gives = { GivesWord };

    ghost remaining = { items_left };

    fn next(&mut self) -> Option<Mem<Vec<u8>>> {
        self.words.next()
    }
}

/// The words, with the MSVC response files expanded that `@name` words name. A failed allocation is the last item
/// (docs/RULES.md, Expansion).
#[derive(Drop)]
pub struct MsvcExpand<'a> {
    words: Expand<'a>,
}

impl<'a> Model for MsvcExpand<'a> {
    ghost use Rattle.scl_files.specs.WordsToCome.{WordsToCome};

    ghost Value = { WordsToCome };

    ghost view = { λ e. e.words };
}

impl<'a> MsvcExpand<'a> {
    /// An expansion before its first word; nothing is allocated yet (docs/RULES.md, Expansion).
    pub fn new(alloc: Global, cwd: &'a [u8], words: &'a [Vec<u8>], view: &'a View) -> MsvcExpand<'a>
        ensures { result ≡ record { words = expand ExpansionKind.Msvc cwd.now view.now.files (words_of words.now); ended = false } }
    {
        MsvcExpand {
            words: Expand::new(alloc, ExpansionKind::Msvc, cwd, words, view),
        }
    }
}

impl Iterator for MsvcExpand<'_> {
    type Item = Mem<Vec<u8>>;

    ghost next_gives = { GivesWord };

    ghost remaining = { items_left };

    fn next(&mut self) -> Option<Mem<Vec<u8>>> {
        self.words.next()
    }
}

/// The words, with the Diab response files expanded that `-@name` words name. A failed allocation is the last item
/// (docs/RULES.md, Expansion).
#[derive(Drop)]
pub struct ExpandAtArgs<'a> {
    words: Expand<'a>,
}

impl<'a> Model for ExpandAtArgs<'a> {
    ghost use Rattle.scl_files.specs.WordsToCome.{WordsToCome};

    ghost Value = { WordsToCome };

    ghost view = { λ e. e.words };
}

impl<'a> ExpandAtArgs<'a> {
    /// An expansion before its first word; nothing is allocated yet (docs/RULES.md, Expansion).
    pub fn new(
        alloc: Global,
        cwd: &'a [u8],
        words: &'a [Vec<u8>],
        view: &'a View,
    ) -> ExpandAtArgs<'a>
        ensures { result ≡ record { words = expand ExpansionKind.Diab cwd.now view.now.files (words_of words.now); ended = false } }
    {
        ExpandAtArgs {
            words: Expand::new(alloc, ExpansionKind::Diab, cwd, words, view),
        }
    }
}

impl Iterator for ExpandAtArgs<'_> {
    type Item = Mem<Vec<u8>>;

    ghost next_gives = { GivesWord };

    ghost remaining = { items_left };

    fn next(&mut self) -> Option<Mem<Vec<u8>>> {
        self.words.next()
    }
}
