//! The words of the preprocessor, cut into what belongs together: what each brings in.
ghost use Rattle.std.specs.Prelude.{◌≡◌, ◌++◌, map, drop, IfOk, OnOk};
ghost use Rattle.std.specs.Option.{option_map};
ghost use Rattle.scl_values.specs.Words.{words_of};
ghost use Rattle.scl_catalogue.specs.Views.{lexicon_of};
ghost use Rattle.scl_key.specs.Given.{awaits, given_by, given_in, given_last, given_next, given_or, is_known, values_among};
ghost use Rattle.scl_key.specs.KnownViews.{all_given, given_of};

use crate::made::handed_file;
use scl_catalogue::{Brings, Brought, Lexicon};
use scl_text::Mem;
use std::alloc::Global;

/// A word, the flag before it whose value it is, if it is one, and what they bring in.
#[derive(Debug, Clone, Copy)]
pub(crate) struct Given<'a> {
    /// What they bring in.
    pub(crate) brings: Brings,
    /// The flag.
    pub(crate) flag: Option<&'a [u8]>,
    /// The word.
    pub(crate) word: &'a [u8],
    /// What of the word is the value.
    pub(crate) value: &'a [u8],
}

/// The bytes after this many.
fn behind(word: &[u8], count: usize) -> &[u8]
    ensures { result.now ≡ drop count word.now }
{
    word.get(count..).unwrap_or(&[])
}

/// What a word brings in of which a lexicon says this.
fn given_or(word: &[u8], brought: Option<Brought>) -> Given<'_>
    ensures { given_of result ≡ given_or word.now brought }
{
    match brought {
        Some(brought) => Given {
            brings: brought.brings,
            flag: None,
            word,
            value: behind(word, brought.front),
        },
        None => Given {
            brings: Brings::Unknown,
            flag: None,
            word,
            value: word,
        },
    }
}

/// What a word brings in.
fn given_by<'a>(lexicon: &Lexicon<'_>, word: &'a [u8]) -> Given<'a>
    ensures { given_of result ≡ given_by (lexicon_of lexicon.now) word.now }
{
    if handed_file(word).is_some() {
        return Given {
            brings: Brings::Dependencies,
            flag: None,
            word,
            value: word,
        };
    }
    given_or(word, lexicon.brought_by(word))
}

/// Whether it is a flag, which has its value in the next word.
fn awaits(given: &Given<'_>) -> bool
    ensures { result ≡ awaits (given_of given.now) }
{
    given.flag.is_none() && !given.word.is_empty() && given.value.is_empty()
}

/// What a word brings in, with the flag before it that awaits a value.
fn given_next<'a>(lexicon: &Lexicon<'_>, flag: Option<Given<'a>>, word: &'a [u8]) -> Given<'a>
    ensures { given_of result ≡ given_next (lexicon_of lexicon.now) (option_map given_of flag.entry) word.now }
{
    match flag {
        Some(flag) => Given {
            brings: flag.brings,
            flag: Some(flag.word),
            word,
            value: word,
        },
        None => given_by(lexicon, word),
    }
}

/// Appends a flag without its value.
fn push_last<'a>(given: &mut Vec<Given<'a>>, flag: Option<Given<'a>>) -> Mem<()>
    ensures { OnOk result (all_given given.new.items ≡ all_given given.old.items ++ given_last (option_map given_of flag.entry)) }
{
    if let Some(flag) = flag {
        given.push(Given {
            brings: Brings::Unknown,
            flag: None,
            word: flag.word,
            value: b"",
        })?;
    }
    Ok(())
}

/// What the words of the preprocessor bring in.
pub(crate) fn given_in<'a>(
    alloc: Global,
    lexicon: &Lexicon<'_>,
    words: &'a [Vec<u8>],
) -> Mem<Vec<Given<'a>>>
    ensures { IfOk result (λ given. all_given given.items ≡ given_in (lexicon_of lexicon.now) (words_of words.now)) }
{
    let mut given = Vec::new(alloc);
    let mut flag = None;
    for word in words {
        let next = given_next(lexicon, flag, word);
        if awaits(&next) {
            flag = Some(next);
        } else {
            given.push(next)?;
            flag = None;
        }
    }
    push_last(&mut given, flag)?;
    Ok(given)
}

/// Whether the text of a run has it.
pub(crate) fn is_known(brings: Brings) -> bool
    ensures { result ≡ is_known brings }
{
    match brings {
        Brings::Folder
        | Brings::Header
        | Brings::MacroFile
        | Brings::Other
        | Brings::Dependencies => true,
        Brings::Unknown => false,
    }
}

/// The values that bring in this.
pub(crate) fn values_among<'a>(
    alloc: Global,
    brings: Brings,
    given: &[Given<'a>],
) -> Mem<Vec<&'a [u8]>>
    ensures { IfOk result (λ values. map (λ value. value.now) values.items ≡ values_among brings (all_given given.now)) }
{
    let mut values = Vec::new(alloc);
    for one in given {
        if one.brings == brings {
            values.push(one.value)?;
        }
    }
    Ok(values)
}
