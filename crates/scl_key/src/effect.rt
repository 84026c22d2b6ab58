//! What words of a command line do beside compiling, as far as a key has to answer for it.
ghost use Rattle.std.specs.Prelude.{◌≡◌, ◌++◌, map, IfOk, OnOk, false};
ghost use Rattle.std.specs.List.{flat_map, list_any};
ghost use Rattle.scl_values.specs.Words.{words_of};
ghost use Rattle.scl_catalogue.specs.Views.{lexicon_of};
ghost use Rattle.scl_key.specs.Effects.{assembler_words, behind, handed_words, is_comma, is_plain, judged_in, keeps_macros, pieces, until, writes_by_assembler};
ghost use Rattle.scl_key.specs.KnownViews.{all_judged};

use scl_catalogue::{Doing, Lexicon};
use scl_text::Mem;
use std::alloc::Global;

/// Whether a text has a comma.
pub(crate) fn has_comma(text: &[u8]) -> bool
    ensures { result ≡ list_any is_comma text.now }
{
    text.iter().any(|byte| *byte == b',')
}

/// A word, and what it does.
#[derive(Debug, Clone, Copy)]
pub(crate) struct Judged<'a> {
    pub(crate) word: &'a [u8],
    pub(crate) doing: Doing,
}

/// The words, each with what a lexicon says that it does.
pub(crate) fn judged_words<'a>(
    alloc: Global,
    lexicon: &Lexicon<'_>,
    words: &'a [Vec<u8>],
) -> Mem<Vec<Judged<'a>>>
    ensures { IfOk result (λ found. all_judged found.items ≡ judged_in (lexicon_of lexicon.now) (words_of words.now)) }
{
    let mut found = Vec::new(alloc);
    for word in words {
        found.push(Judged {
            word,
            doing: lexicon.doing_of(word),
        })?;
    }
    Ok(found)
}

/// Whether a word for the assembler makes it write a file that no row names.
pub(crate) fn writes_by_assembler(word: &[u8]) -> bool
    ensures { result ≡ writes_by_assembler word.now }
{
    word.starts_with(b"-o") || word.starts_with(b"-MD") || word.starts_with(b"--listing")
}

/// Whether nothing is done.
pub(crate) fn is_plain(doing: Doing) -> bool
    ensures { result ≡ is_plain doing }
{
    match doing {
        Doing::Plain => true,
        Doing::Exact
        | Doing::Macros
        | Doing::WritesUnnamed
        | Doing::TextHides
        | Doing::ReadsCounts
        | Doing::ReadsSamples => false,
    }
}

/// Whether macros come into the outcome.
pub(crate) fn keeps_macros(doing: Doing) -> bool
    ensures { result ≡ keeps_macros doing }
{
    match doing {
        Doing::Macros => true,
        Doing::Plain
        | Doing::Exact
        | Doing::WritesUnnamed
        | Doing::TextHides
        | Doing::ReadsCounts
        | Doing::ReadsSamples => false,
    }
}

/// What stands before the first such byte of a text.
pub(crate) fn until(mark: u8, text: &[u8]) -> &[u8]
    ensures { result.now ≡ until mark text.now }
{
    for (at, byte) in text.iter().enumerate() {
        if *byte == mark {
            return &text[..at];
        }
    }
    text
}

/// Appends what stands after each such byte of a text: all after the first ones, as many as `whole`, and after the others what
/// stands before the next.
pub(crate) fn push_pieces<'a>(
    found: &mut Vec<&'a [u8]>,
    mark: u8,
    whole: usize,
    text: &'a [u8],
) -> Mem<()>
    ensures { OnOk result (map (λ word. word.now) found.new.items ≡ map (λ word. word.now) found.old.items ++ pieces mark whole text.now) }
{
    let mut left = whole;
    for (at, byte) in text.iter().enumerate() {
        if *byte == mark {
            let behind = &text[at + 1..];
            found.push(if left == 0 {
                until(mark, behind)
            } else {
                behind
            })?;
            left = left.saturating_sub(1);
        }
    }
    Ok(())
}

/// Appends the words that a word passes to the assembler.
fn push_handed<'a>(found: &mut Vec<&'a [u8]>, word: &'a [u8]) -> Mem<()>
    ensures { OnOk result (map (λ word. word.now) found.new.items ≡ map (λ word. word.now) found.old.items ++ handed_words word.now) }
{
    if word.starts_with(b"-Wa,") {
        push_pieces(found, b',', 0, word)
    } else {
        Ok(())
    }
}

/// Appends the words that words pass to the assembler.
fn push_all_handed<'a>(found: &mut Vec<&'a [u8]>, words: &'a [Vec<u8>]) -> Mem<()>
    ensures { OnOk result (map (λ word. word.now) found.new.items ≡ map (λ word. word.now) found.old.items ++ flat_map handed_words (words_of words.now)) }
{
    for word in words {
        push_handed(found, word)?;
    }
    Ok(())
}

/// Appends the words after each word that is this flag.
pub(crate) fn push_behind<'a>(
    found: &mut Vec<&'a [u8]>,
    flag: &[u8],
    words: &'a [Vec<u8>],
) -> Mem<()>
    ensures { OnOk result (map (λ word. word.now) found.new.items ≡ map (λ word. word.now) found.old.items ++ behind flag.now false (words_of words.now)) }
{
    let mut is_behind = false;
    for word in words {
        if is_behind {
            found.push(word.as_slice())?;
            is_behind = false;
        } else {
            is_behind = word.as_slice() == flag;
        }
    }
    Ok(())
}

/// The words for the assembler among words of a command.
pub(crate) fn assembler_words<'a>(alloc: Global, words: &'a [Vec<u8>]) -> Mem<Vec<&'a [u8]>>
    ensures { IfOk result (λ found. map (λ word. word.now) found.items ≡ assembler_words (words_of words.now)) }
{
    let mut found = Vec::new(alloc);
    push_all_handed(&mut found, words)?;
    push_behind(&mut found, b"-Xassembler", words)?;
    Ok(found)
}
