//! Options as words: moving values to a side, and printing.
ghost use Rattle.std.specs.Prelude.{◌≡◌, ◌∷◌, ◌++◌, ◌<◌, ◌≤◌, ℕ, List, Result, Vec, length, IfOk};
ghost use Rattle.std.specs.declared.alloc.AllocError.{AllocError};
ghost use Rattle.std.specs.declared.alloc.Global.{Global};
ghost use Rattle.scl_values.specs.declared.argument.NormalizedDisposition.{NormalizedDisposition};
ghost use Rattle.std.specs.Iterator.{item_count, Drains};
ghost use Rattle.std.specs.Option.{option_map};
ghost use Rattle.scl_values.specs.Left.{words_left};
ghost use Rattle.scl_values.specs.Seen.{seen};
ghost use Rattle.scl_values.specs.Spell.{normal, normal_how, delimited, spelled, flag_at, data_at, head_of, YieldsWords};

use crate::argument::{ArgDisposition, Argument, Delimiter, NormalizedDisposition};
use crate::left::Left;
use crate::memory::Mem;
use crate::value::ArgumentValue;
use std::alloc::Global;
use std::marker::Model;

impl ArgDisposition {
    /// The disposition of a value that is moved to this side, if its row allows both (docs/RULES.md, Printing).
    pub fn normalize(self, side: NormalizedDisposition) -> ArgDisposition
        ensures { result ≡ normal_how side self }
    {
        match self {
            ArgDisposition::Separated | ArgDisposition::Concatenated(_) => self,
            ArgDisposition::CanBeConcatenated(delimiter)
            | ArgDisposition::CanBeSeparated(delimiter) => match side {
                NormalizedDisposition::Separated => ArgDisposition::Separated,
                NormalizedDisposition::Concatenated => ArgDisposition::Concatenated(delimiter),
            },
        }
    }
}

impl<T: ArgumentValue> Argument<T> {
    /// Moves the value to this side, into the next word or into the flag's, if its row allows both. Nothing else changes
    /// (docs/RULES.md, Printing).
    pub fn normalize(self, side: NormalizedDisposition) -> Argument<T>
        ensures normal { result ≡ normal side self }
        ensures again { (other : NormalizedDisposition) → normal other result ≡ result }
    {
        match self {
            Argument::WithValue(flag, value, disposition) => {
                Argument::WithValue(flag, value, disposition.normalize(side))
            }
            other @ (Argument::Raw(_) | Argument::UnknownFlag(_) | Argument::Flag(_, _)) => other,
        }
    }

    /// The words of the option, one or two (docs/RULES.md, Printing). Making the iterator allocates nothing; each word is
    /// allocated when it is read.
    pub fn iter_os_strings(&self, alloc: Global) -> Iter<'_, T>
        ensures words { result ≡ spelled (seen T.kind_of T.word_of self.now) }
        ensures few { (items : List (Result (Vec ℕ Global) AllocError)) → Drains (YieldsWords (λ words. words)) result items
            → (0 < length items) × (length items ≤ 2) }
    {
        Iter {
            alloc,
            left: Left::Whole(self),
        }
    }

    /// The flag, or the word of an option without a flag.
    pub fn to_os_string(&self, alloc: Global) -> Mem<Vec<u8>>
        ensures { IfOk result (λ word. word.items ≡ head_of self.now) }
    {
        match self {
            Argument::Raw(word) | Argument::UnknownFlag(word) => Vec::from_slice(alloc, word),
            Argument::Flag(flag, _) | Argument::WithValue(flag, _, _) => {
                Vec::from_slice(alloc, flag.as_bytes())
            }
        }
    }
}

impl<T> Argument<T> {
    /// The flag, if the option has one.
    pub fn flag_str(&self) -> Option<&'static str>
        ensures { option_map (λ flag. flag.now) result ≡ flag_at self.now }
    {
        match self {
            Argument::Raw(_) | Argument::UnknownFlag(_) => None,
            Argument::Flag(flag, _) | Argument::WithValue(flag, _, _) => Some(flag),
        }
    }

    /// The value with its kind, if the option has a flag.
    pub fn get_data(&self) -> Option<&T>
        ensures { option_map (λ value. value.now) result ≡ data_at self.now }
    {
        match self {
            Argument::Raw(_) | Argument::UnknownFlag(_) => None,
            Argument::Flag(_, data) | Argument::WithValue(_, data, _) => Some(data),
        }
    }
}

/// The words of an option. After a failed allocation there are no more.
#[derive(Drop)]
pub struct Iter<'a, T: ArgumentValue> {
    alloc: Global,
    left: Left<'a, T>,
}

impl<'a, T: ArgumentValue> Model for Iter<'a, T> {
    ghost use Rattle.std.specs.Prelude.{ℕ, List};
    ghost use Rattle.scl_values.specs.Left.{words_left};

    ghost Value = { List (List ℕ) };

    ghost view = { λ s. words_left T.kind_of T.word_of s.left };
}

/// The word of an option whose value is joined to its flag, with the delimiter between them if the row has one
/// (docs/RULES.md, Printing).
pub fn join_value<T: ArgumentValue>(
    alloc: Global,
    flag: &str,
    delimiter: Delimiter,
    value: &T,
) -> Mem<Vec<u8>>
    ensures { IfOk result (λ word. word.items ≡ flag.now ++ delimited delimiter (T.word_of value.now)) }
{
    let value = value.into_arg_os_string(alloc)?;
    join_word(alloc, flag, delimiter, value.as_slice())
}

/// A flag and a value in one word, with the delimiter between them if there is one (docs/RULES.md, Printing).
pub fn join_word(alloc: Global, flag: &str, delimiter: Delimiter, value: &[u8]) -> Mem<Vec<u8>>
    ensures { IfOk result (λ word. word.items ≡ flag.now ++ delimited delimiter value.now) }
{
    let room = flag.len().saturating_add(value.len()).saturating_add(1);
    let mut word = Vec::with_capacity(alloc, room)?;
    word.extend_from_slice(flag.as_bytes())?;
    if !value.is_empty() {
        if let Some(byte) = delimiter {
            word.push(byte)?;
        }
        word.extend_from_slice(value)?;
    }
    Ok(word)
}

/// The first word of the option, and what is left after it.
fn first_word<'a, T: ArgumentValue>(
    alloc: Global,
    option: &'a Argument<T>,
) -> (Mem<Vec<u8>>, Left<'a, T>)
    ensures { IfOk result.0 (λ word. spelled (seen T.kind_of T.word_of option.now) ≡ word.items ∷ words_left T.kind_of T.word_of result.1) }
{
    match option {
        Argument::Raw(_) | Argument::UnknownFlag(_) | Argument::Flag(_, _) => {
            (option.to_os_string(alloc), Left::Nothing)
        }
        Argument::WithValue(flag, value, disposition) => match *disposition {
            ArgDisposition::Separated | ArgDisposition::CanBeConcatenated(_) => {
                (option.to_os_string(alloc), Left::Value(value))
            }
            ArgDisposition::CanBeSeparated(delimiter) | ArgDisposition::Concatenated(delimiter) => {
                (join_value(alloc, flag, delimiter, value), Left::Nothing)
            }
        },
    }
}

impl<'a, T: ArgumentValue> Iterator for Iter<'a, T> {
    type Item = Mem<Vec<u8>>;

    ghost next_gives = { YieldsWords (λ s. s) };

    ghost remaining = { item_count (λ s. s) };

    fn next(&mut self) -> Option<Mem<Vec<u8>>> {
        let (word, left) = match self.left {
            Left::Whole(option) => first_word(self.alloc, option),
            Left::Value(value) => (value.into_arg_os_string(self.alloc), Left::Nothing),
            Left::Nothing => return None,
        };
        self.left = if word.is_ok() { left } else { Left::Nothing };
        Some(word)
    }
}
