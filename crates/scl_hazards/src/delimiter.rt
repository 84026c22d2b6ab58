//! Options whose delimiter is dropped in the built command.
ghost use Rattle.std.specs.Prelude.{◌≡◌, IfOk, IfSome, Some};
ghost use Rattle.std.proofs.Props.{props};
ghost use Rattle.scl_values.specs.Words.{words_of};
ghost use Rattle.scl_hazards.specs.Options.{HasEnds, delimiter_of, is_delimited, lacks_delimiter, stands_delimited};

use scl_args::{ArgDisposition, Delimiter, Mem};
use std::alloc::Global;
use std::collections::BTreeSet;

/// Words among which delimiters are sought; where that is often, the last byte of each too, with the bytes before it.
#[derive(Drop)]
pub(crate) struct Words<'a> {
    words: &'a [Vec<u8>],
    ends: Option<BTreeSet<(u8, &'a [u8])>>,
    ghost ended: { IfSome ends (λ ends. HasEnds ends (words_of words.now)) } by { Prim.hlevel props },
}

/// The last byte of each word, with the bytes before it.
fn ends_of<'a>(alloc: Global, words: &'a [Vec<u8>]) -> Mem<BTreeSet<(u8, &'a [u8])>>
    ensures { IfOk result (λ ends. HasEnds ends (words_of words.now)) }
{
    let mut ends = BTreeSet::new(alloc);
    for word in words {
        if let Some((last, front)) = word.split_last() {
            ends.insert((*last, front))?;
        }
    }
    Ok(ends)
}

/// Whether the word is the flag and the delimiter.
fn is_delimited(flag: &[u8], delimiter: u8, word: &[u8]) -> bool
    ensures { result ≡ is_delimited flag.now delimiter word.now }
{
    word.starts_with(flag) && word[flag.len()..] == [delimiter]
}

fn is_among(flag: &[u8], delimiter: u8, words: &[Vec<u8>]) -> bool
    ensures { result ≡ stands_delimited (words_of words.now) flag.now (Some delimiter) }
{
    for word in words {
        if is_delimited(flag, delimiter, word) {
            return true;
        }
    }
    false
}

impl<'a> Words<'a> {
    /// These words, among which delimiters are sought often or seldom.
    pub(crate) fn new(alloc: Global, words: &'a [Vec<u8>], is_often: bool) -> Mem<Words<'a>>
        ensures { IfOk result (λ made. made.words.now ≡ words.now) }
    {
        let ends = if is_often {
            Some(ends_of(alloc, words)?)
        } else {
            None
        };
        Ok(Words { words, ends })
    }

    fn stands_delimited(&self, flag: &'a [u8], delimiter: Delimiter) -> bool
        ensures { result ≡ stands_delimited (words_of self.now.words.now) flag.now delimiter }
    {
        let Some(delimiter) = delimiter else {
            return false;
        };
        match &self.ends {
            Some(ends) => ends.contains(&(delimiter, flag)),
            None => is_among(flag, delimiter, self.words),
        }
    }
}

fn delimiter_of(how: ArgDisposition) -> Delimiter
    ensures { result ≡ delimiter_of how }
{
    match how {
        ArgDisposition::Separated => None,
        ArgDisposition::CanBeConcatenated(delimiter)
        | ArgDisposition::CanBeSeparated(delimiter)
        | ArgDisposition::Concatenated(delimiter) => delimiter,
    }
}

/// Whether an option with this flag and value has an empty value, and one of the words has its delimiter.
pub(crate) fn lacks_delimiter<'a>(
    words: &Words<'a>,
    flag: &'a [u8],
    value: &[u8],
    how: Option<ArgDisposition>,
) -> bool
    ensures { result ≡ lacks_delimiter (words_of words.now.words.now) flag.now value.now how }
{
    let Some(how) = how else {
        return false;
    };
    value.is_empty() && words.stands_delimited(flag, delimiter_of(how))
}
