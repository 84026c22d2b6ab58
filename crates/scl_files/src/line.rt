//! A command line with response files expanded, and all that is known of it before it is cut.
ghost use Rattle.std.specs.Option.{option_to_list};
ghost use Rattle.std.specs.Prelude.{◌≡◌, [], ◌∷◌, ◌++◌, IfOk, length, replicate};
ghost use Rattle.scl_values.specs.Words.{words_of};
ghost use Rattle.scl_files.specs.Expand.{expand};
ghost use Rattle.scl_files.specs.Expanded.{IsExpanded, Stands};
ghost use Rattle.scl_files.specs.Sources.{ats_expanded};
ghost use Rattle.scl_files.specs.Views.{bytes_at};
ghost use Rattle.scl_files.specs.Walks.{IsWithin, WalksOn};
ghost use Rattle.scl_files.specs.Within.{bytes_in, is_within};

use crate::expand::{ExpansionKind, Limits, TooManyWords, name_files};
use crate::expansion::{Expansion, Step};
use crate::sourced::{Sourced, behind, first_at, push_at};
use crate::texts::texts_once;
use crate::view::View;
use crate::wanted::lacked_files;
use scl_values::Mem;
use std::alloc::Global;

/// Words with response files expanded, and all that is known of them before they are cut.
#[derive(Debug, Drop)]
pub struct Expanded {
    /// The words.
    pub words: Vec<Vec<u8>>,
    /// Of each word, the index of the given word from which it came, if it came from one.
    pub ats: Vec<Option<usize>>,
    /// The texts of the files that were expanded, in the order of their first opening, each once.
    pub texts: Vec<Vec<u8>>,
    /// The paths of the wanted files that the view does not have, in order and as often as they are asked for.
    pub lacked: Vec<Vec<u8>>,
}

/// The words so far, the index of the given word from which each came, the paths of the files that were opened, and the bytes
/// of the words and of the files' texts.
#[derive(Drop)]
struct Walked {
    words: Vec<Vec<u8>>,
    ats: Vec<Option<usize>>,
    openings: Vec<Vec<u8>>,
    word_bytes: usize,
    text_bytes: usize,
}

impl Walked {
    ghost use Rattle.std.specs.Prelude.{OnOk, OnErr, false};
    ghost use Rattle.scl_files.specs.Openings.{are_opened_within};
    ghost use Rattle.scl_files.specs.Walks.{HasFewOpenings, HasFewWords, HasRestOf, HasWordsOf};

    fn new(alloc: Global) -> Walked
        ensures words { result.words.items ≡ [] }
        ensures ats { result.ats.items ≡ [] }
        ensures openings { result.openings.items ≡ [] }
        ensures word_bytes { result.word_bytes ≡ 0 }
        ensures text_bytes { result.text_bytes ≡ 0 }
    {
        Walked {
            words: Vec::new(alloc),
            ats: Vec::new(alloc),
            openings: Vec::new(alloc),
            word_bytes: 0,
            text_bytes: 0,
        }
    }

    /// Appends a word, unless that exceeds the limits.
    #[tactic(auto, using(crate::proofs::LimitLemmas::word_more, crate::proofs::LimitLemmas::count_over, crate::proofs::LimitLemmas::bytes_over))]
    fn push_word(&mut self, word: Vec<u8>, most: Limits) -> Mem<Result<(), TooManyWords>>
        requires { HasFewWords most self.old }
        ensures words { IfOk result (λ said. OnOk said (words_of self.new.words.items ≡ words_of self.old.words.items ++ word.items ∷ [])) }
        ensures within { IfOk result (λ said. OnOk said (HasFewWords most self.new)) }
        ensures rest { IfOk result (λ said. OnOk said (HasRestOf self.old self.new)) }
        ensures too_many { IfOk result (λ said. OnErr said (is_within most (words_of self.old.words.items ++ word.items ∷ []) ≡ false)) }
    {
        if self.words.len() == most.words {
            return Ok(Err(TooManyWords));
        }
        if word.len() > most.bytes - self.word_bytes {
            return Ok(Err(TooManyWords));
        }
        self.word_bytes += word.len();
        self.words.push(word)?;
        Ok(Ok(()))
    }

    /// Appends the path of a file that was opened, unless that exceeds the limits.
    #[tactic(auto, using(crate::proofs::LimitLemmas::opening_more, crate::proofs::LimitLemmas::opening_count_over, crate::proofs::LimitLemmas::opening_bytes_over))]
    fn push_opening(
        &mut self,
        path: Vec<u8>,
        view: &View,
        most: Limits,
    ) -> Mem<Result<(), TooManyWords>>
        requires { HasFewOpenings most view.now.files self.old }
        ensures openings { IfOk result (λ said. OnOk said (words_of self.new.openings.items ≡ words_of self.old.openings.items ++ path.items ∷ [])) }
        ensures within { IfOk result (λ said. OnOk said (HasFewOpenings most view.now.files self.new)) }
        ensures rest { IfOk result (λ said. OnOk said (HasWordsOf self.old self.new)) }
        ensures too_many { IfOk result (λ said. OnErr said (are_opened_within most view.now.files (words_of self.old.openings.items ++ path.items ∷ []) ≡ false)) }
    {
        if self.openings.len() == most.words {
            return Ok(Err(TooManyWords));
        }
        let bytes = text_bytes(view, &path);
        if bytes > most.bytes - self.text_bytes {
            return Ok(Err(TooManyWords));
        }
        self.text_bytes += bytes;
        self.openings.push(path)?;
        Ok(Ok(()))
    }
}

/// How many bytes the file at the path has; 0 if there is none.
fn text_bytes(view: &View, path: &[u8]) -> usize
    ensures { result ≡ bytes_in (option_to_list (bytes_at path.now view.now.files)) }
{
    match view.file(path) {
        Some(text) => text.len(),
        None => 0,
    }
}

/// Appends what a word expands to, unless that exceeds the limits.
fn walk_word(
    alloc: Global,
    kind: ExpansionKind,
    cwd: &[u8],
    word: &[u8],
    view: &View,
    most: Limits,
    all: &mut Walked,
) -> Mem<Result<(), TooManyWords>>
    requires { IsWithin most view.now.files all.old }
    ensures { IfOk result (λ said. WalksOn most kind cwd.now view.now.files (word.now ∷ []) all.old.ats.items all.old said all.new) }
{
    let alone = vec![in alloc; Vec::from_slice(alloc, word)?]?;
    let mut expansion = Expansion::new(alloc, kind, cwd, &alone, view);
    loop {
        match expansion.step()? {
            Step::Word(word) => {
                if let Err(too_many) = all.push_word(word, most)? {
                    return Ok(Err(too_many));
                }
            }
            Step::Opened(path) => {
                if let Err(too_many) = all.push_opening(path, view, most)? {
                    return Ok(Err(too_many));
                }
            }
            Step::Closed => {}
            Step::End => return Ok(Ok(())),
        }
    }
}

/// The same for a given word, with its index.
fn walk_given(
    alloc: Global,
    kind: ExpansionKind,
    cwd: &[u8],
    word: &[u8],
    at: Option<usize>,
    view: &View,
    most: Limits,
    all: &mut Walked,
) -> Mem<Result<(), TooManyWords>>
    requires { IsWithin most view.now.files all.old }
    ensures { IfOk result (λ said. WalksOn most kind cwd.now view.now.files (word.now ∷ [])
        (all.old.ats.items ++ replicate (length (expand kind cwd.now view.now.files (word.now ∷ []))) at) all.old said all.new) }
{
    let before = all.words.len();
    match walk_word(alloc, kind, cwd, word, view, most, all)? {
        Ok(()) => {}
        Err(too_many) => return Ok(Err(too_many)),
    }
    push_at(&mut all.ats, at, all.words.len() - before)?;
    Ok(Ok(()))
}

/// All given words, in one walk.
fn walk(
    alloc: Global,
    kind: ExpansionKind,
    cwd: &[u8],
    given: &Sourced,
    view: &View,
    most: Limits,
    all: &mut Walked,
) -> Mem<Result<(), TooManyWords>>
    requires { IsWithin most view.now.files all.old }
    ensures { IfOk result (λ said. WalksOn most kind cwd.now view.now.files (words_of given.now.words.items)
        (all.old.ats.items ++ ats_expanded kind cwd.now view.now.files (words_of given.now.words.items) given.now.ats.items) all.old said all.new) }
{
    let mut left = given.ats.as_slice();
    for word in &given.words {
        match walk_given(alloc, kind, cwd, word, first_at(left), view, most, all)? {
            Ok(()) => {}
            Err(too_many) => return Ok(Err(too_many)),
        }
        left = behind(left, 1);
    }
    Ok(Ok(()))
}

/// The expansion of words that may name files, and all that is known of it.
fn expand_named(
    alloc: Global,
    kind: ExpansionKind,
    cwd: &[u8],
    given: &Sourced,
    view: &View,
    most: Limits,
) -> Mem<Result<Expanded, TooManyWords>>
    ensures { IfOk result (λ said. IsExpanded most kind cwd.now view.now.files (words_of given.now.words.items) given.now.ats.items said) }
{
    let mut all = Walked::new(alloc);
    match walk(alloc, kind, cwd, given, view, most, &mut all)? {
        Ok(()) => {}
        Err(too_many) => return Ok(Err(too_many)),
    }
    let texts = texts_once(alloc, &all.openings, view)?;
    let lacked = lacked_files(alloc, kind, cwd, &given.words, &all.words, view)?;
    Ok(Ok(Expanded {
        words: all.words,
        ats: all.ats,
        texts,
        lacked,
    }))
}

/// Whether the words are within the limits.
fn are_within(words: &[Vec<u8>], most: Limits) -> bool
    ensures { result ≡ is_within most (words_of words.now) }
{
    if words.len() > most.words {
        return false;
    }
    let mut left = most.bytes;
    for word in words {
        let bytes = word.as_slice().len();
        if bytes > left {
            return false;
        }
        left -= bytes;
    }
    true
}

/// The given words unchanged, if they are within the limits; else `TooManyWords`.
pub fn standing_line(alloc: Global, given: Sourced, most: Limits) -> Result<Expanded, TooManyWords>
    ensures { Stands most (words_of given.words.items) given.ats.items result }
{
    if !are_within(&given.words, most) {
        return Err(TooManyWords);
    }
    Ok(Expanded {
        words: given.words,
        ats: given.ats,
        texts: Vec::new(alloc),
        lacked: Vec::new(alloc),
    })
}

/// The given words with response files expanded, and all that is known of them before they are cut (docs/RULES.md,
/// Expansion). If the words or the openings of files exceed the limits, the result is `TooManyWords`, as soon as they do. A
/// text is held once, however often it is opened.
pub fn expand_line(
    alloc: Global,
    kind: ExpansionKind,
    cwd: &[u8],
    given: Sourced,
    view: &View,
    most: Limits,
) -> Mem<Result<Expanded, TooManyWords>>
    ensures { IfOk result (λ said. IsExpanded most kind cwd.now view.now.files (words_of given.words.items) given.ats.items said) }
{
    if name_files(kind, &given.words) {
        return expand_named(alloc, kind, cwd, &given, view, most);
    }
    Ok(standing_line(alloc, given, most))
}
