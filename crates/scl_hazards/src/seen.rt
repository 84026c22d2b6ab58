//! Options of a command line that was read, as a catalogue's conditions see them.
ghost use Rattle.std.specs.Prelude.{◌≡◌, map, IfOk};
ghost use Rattle.scl_catalogue.specs.Views.{seen_of};
ghost use Rattle.scl_values.specs.Seen.{seen};
ghost use Rattle.scl_values.specs.Words.{words_of};
ghost use Rattle.scl_hazards.specs.Options.{bare, could_be_joined, could_stand_apart, in_one_word, is_hidden, marks_of, option_seen, options_seen};

use crate::delimiter::{Words, lacks_delimiter};
use scl_args::{ArgDisposition, Argument, Mem, ReadArg};
use scl_catalogue::{Marks, Seen, Standing};
use scl_text::ReadLine;
use scl_text::path::{extension, file_name};
use std::alloc::Global;

/// Values whose options conditions see.
pub trait Kinded: ReadArg {
    ghost use Rattle.std.specs.Prelude.{ℕ, Bool, List};
    ghost use Rattle.scl_values.specs.Seen.{Seen, seen};

    /// The name by which a catalogue calls the kind.
    ghost kind_text: { Self.Kind → List ℕ };

    /// The option goes to the list of common words.
    ghost is_common: { Seen Self.Kind → Bool };

    /// The name by which a catalogue calls the kind.
    fn kind_text(kind: Self::Kind) -> &'static [u8]
        ensures { result.now ≡ kind_text kind };

    /// Whether the option goes to the list of common words.
    fn is_common(option: &Argument<Self>) -> bool
        ensures { result ≡ is_common (seen Self.kind_of Self.word_of option.now) };
}

/// Whether the file name of a path has a dot as its first byte and nowhere else.
pub(crate) fn is_hidden(path: &[u8]) -> bool
    ensures { result ≡ is_hidden path.now }
{
    let Some(name) = file_name(path) else {
        return false;
    };
    name.first() == Some(&b'.') && extension(path).is_none()
}

/// Whether the value stands apart, and could have been joined.
fn could_be_joined(how: Option<ArgDisposition>) -> bool
    ensures { result ≡ could_be_joined how }
{
    matches!(how, Some(ArgDisposition::CanBeConcatenated(_)))
}

/// Whether the value is joined, and could have stood apart.
fn could_stand_apart(how: Option<ArgDisposition>) -> bool
    ensures { result ≡ could_stand_apart how }
{
    matches!(how, Some(ArgDisposition::CanBeSeparated(_)))
}

/// Whether the option stands in one word, and is printed as it stands.
fn in_one_word(how: Option<ArgDisposition>) -> bool
    ensures { result ≡ in_one_word how }
{
    matches!(how, None | Some(ArgDisposition::Concatenated(_)))
}

/// An option without a row.
fn bare<'a>(standing: Standing, word: &'a [u8], stays: bool) -> Seen<'a>
    ensures { seen_of result ≡ bare standing word.now stays }
{
    Seen {
        standing,
        name: word,
        kind: &[],
        value: &[],
        marks: Marks {
            stays,
            is_apart: false,
            is_joined: false,
            is_delimiter_dropped: false,
            has_hidden_value: false,
        },
    }
}

/// What is known of an option with a row, whose words are among these.
#[tactic(auto, unfolding(crate::specs::Options::marks_of))]
fn marks<'a>(
    words: &Words<'a>,
    flag: &'a [u8],
    value: &[u8],
    how: Option<ArgDisposition>,
    is_common: bool,
) -> Marks
    ensures { result ≡ marks_of (words_of words.now.words.now) flag.now value.now how is_common }
{
    Marks {
        stays: in_one_word(how) && is_common,
        is_apart: could_be_joined(how),
        is_joined: could_stand_apart(how),
        is_delimiter_dropped: lacks_delimiter(words, flag, value, how),
        has_hidden_value: is_hidden(value),
    }
}

/// An option as conditions see it, whose words are among these.
fn option_seen<'a, T: Kinded>(words: &Words<'a>, option: &'a Argument<T>) -> Seen<'a>
    ensures { seen_of result ≡ option_seen T.kind_text T.is_common (words_of words.now.words.now) (seen T.kind_of T.word_of option.now) }
{
    let is_common = T::is_common(option);
    let (flag, value, how) = match option {
        Argument::Raw(word) => return bare(Standing::Raw, word, is_common),
        Argument::UnknownFlag(word) => return bare(Standing::Unknown, word, is_common),
        Argument::Flag(flag, value) => (flag.as_bytes(), value, None),
        Argument::WithValue(flag, value, how) => (flag.as_bytes(), value, Some(*how)),
    };
    let word = value.word();
    Seen {
        standing: Standing::Known,
        name: flag,
        kind: T::kind_text(value.kind()),
        value: word,
        marks: marks(words, flag, word, how, is_common),
    }
}

/// The options of a command line and those of its inner one, as conditions see them.
#[derive(Drop)]
pub(crate) struct BothSeen<'a> {
    pub(crate) outer: Vec<Seen<'a>>,
    pub(crate) inner: Vec<Seen<'a>>,
}

/// How many options with an empty value look through all words, one by one.
const FEW: usize = 8;

fn has_empty_value<T: Kinded>(option: &Argument<T>) -> bool {
    matches!(option, Argument::WithValue(_, value, _) if value.word().is_empty())
}

/// Whether so many options have an empty value that words are better put in order.
fn are_often_sought<T: Kinded>(options: &[Argument<T>]) -> bool {
    let mut empty = options.iter().filter(|option| has_empty_value(option));
    empty.nth(FEW).is_some()
}

/// Options as conditions see them, whose words are these.
pub(crate) fn options_seen<'a, T: Kinded>(
    alloc: Global,
    words: &'a [Vec<u8>],
    options: &'a [Argument<T>],
) -> Mem<Vec<Seen<'a>>>
    ensures { IfOk result (λ all. map seen_of all.items ≡ options_seen T.kind_text T.is_common (words_of words.now) (map (seen T.kind_of T.word_of) options.now)) }
{
    let sought = Words::new(alloc, words, are_often_sought(options))?;
    let mut all = Vec::with_capacity(alloc, options.len())?;
    for option in options {
        all.push(option_seen(&sought, option))?;
    }
    Ok(all)
}

/// The options of a line that was read, as conditions see them.
pub fn line_seen<'a, T: Kinded>(alloc: Global, line: &'a ReadLine<T>) -> Mem<Vec<Seen<'a>>>
    ensures { IfOk result (λ all. map seen_of all.items ≡ options_seen T.kind_text T.is_common line.now.words line.now.line.options) }
{
    options_seen(alloc, line.words(), line.line().options().as_slice())
}
