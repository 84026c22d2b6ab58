//! Words with response files expanded.
ghost use Rattle.std.specs.Prelude.{◌≡◌, is_some, IfOk};
ghost use Rattle.std.specs.List.{list_any};
ghost use Rattle.scl_files.specs.ResponseFiles.{file_name_in};
ghost use Rattle.scl_values.specs.Words.{words_of};
ghost use Rattle.scl_files.specs.Expand.{expand};

use crate::expand_iterators::Expand;
pub use crate::expand_iterators::{ExpandAtArgs, GnuExpand, MsvcExpand};
use crate::response_file::file_name_in;
use crate::view::View;
use scl_values::Mem;
use std::alloc::Global;

/// The compiler whose response files are expanded (docs/RULES.md, Expansion).
#[derive(Clone, Copy, Debug, PartialEq, Eq)]
pub enum ExpansionKind {
    /// `@name`, GNU text, expanded again.
    Gnu,
    /// `@name`, MSVC text, never expanded again.
    Msvc,
    /// `-@name`, Diab text, expanded again.
    Diab,
}

/// All words with response files expanded, as the iterator of this kind gives them (docs/RULES.md, Expansion).
pub fn expand_all(
    alloc: Global,
    kind: ExpansionKind,
    cwd: &[u8],
    words: &[Vec<u8>],
    view: &View,
) -> Mem<Vec<Vec<u8>>>
    ensures { IfOk result (λ v. words_of v.items ≡ expand kind cwd.now view.now.files (words_of words.now)) }
{
    let mut all = Vec::new(alloc);
    for word in Expand::new(alloc, kind, cwd, words, view) {
        all.push(word?)?;
    }
    Ok(all)
}

/// Whether the word names a file.
fn names_file(kind: ExpansionKind, word: &[u8]) -> bool
    ensures { result ≡ is_some (file_name_in kind word.now) }
{
    file_name_in(kind, word).is_some()
}

/// Whether any of the words names a file.
pub(crate) fn name_files(kind: ExpansionKind, words: &[Vec<u8>]) -> bool
    ensures { result ≡ list_any (λ word. is_some (file_name_in kind word)) (words_of words.now) }
{
    for word in words {
        if names_file(kind, word) {
            return true;
        }
    }
    false
}

/// The words that `expand_all` gives. It takes ownership of the words, and returns them unchanged if none of them names a
/// file (docs/RULES.md, Expansion).
pub fn expand_words(
    alloc: Global,
    kind: ExpansionKind,
    cwd: &[u8],
    words: Vec<Vec<u8>>,
    view: &View,
) -> Mem<Vec<Vec<u8>>>
    ensures { IfOk result (λ v. words_of v.items ≡ expand kind cwd.now view.now.files (words_of words.items)) }
{
    if name_files(kind, &words) {
        return expand_all(alloc, kind, cwd, &words, view);
    }
    Ok(words)
}

/// How much a command line may have, once its response files are put in place.
#[derive(Debug, Clone, Copy, PartialEq, Eq)]
pub struct Limits {
    /// How many words it may have, and how often it may open files.
    pub words: usize,
    /// How many bytes its words may have together, and those of the files' texts, each as often as it is opened.
    pub bytes: usize,
}

impl Limits {
    ghost use Rattle.scl_files.specs.Within.{standard};

    /// The limits where nothing else is said: a million words and openings of files, and 64 MB.
    pub fn standard() -> Limits
        ensures { result ≡ standard }
    {
        Limits {
            words: 1_000_000,
            bytes: 1 << 26,
        }
    }
}

/// An expansion exceeds its limits: of words, of opened files, or of the bytes of either.
#[derive(Debug, Clone, Copy, PartialEq, Eq)]
pub struct TooManyWords;
