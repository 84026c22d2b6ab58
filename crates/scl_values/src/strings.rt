//! Options as texts.
ghost use Rattle.std.specs.Prelude.{◌≡◌, ◌++◌, ◌≤◌, length, true, List, MatchResult, Result, String};
ghost use Rattle.std.specs.declared.alloc.Global.{Global};
ghost use Rattle.std.specs.String.{string_bytes};
ghost use Rattle.std.specs.Fn.{CalledAt};
ghost use Rattle.std.specs.Iterator.{item_count, Drains};
ghost use Rattle.scl_values.specs.declared.error.ArgToStringError.{ArgToStringError};
ghost use Rattle.scl_values.specs.Tables.{is_ascii_or_none};
ghost use Rattle.scl_values.specs.Seen.{seen};
ghost use Rattle.scl_values.specs.Spell.{delimited};
ghost use Rattle.scl_values.specs.Texts.{IsWord, IsWantOfMemory, PrintsBehind, PrintsNext, printer, is_delimited_by_ascii};

use crate::argument::{ArgDisposition, Argument, Delimiter};
use crate::error::{ArgToStringError, ArgToStringResult};
use crate::left::Left;
use crate::value::{ArgumentValue, text_of_word};
use std::alloc::Global;
use std::marker::Model;

impl<T: ArgumentValue> Argument<T> {
    /// The words of the option as texts, one or two (docs/RULES.md, Texts). `f` gives the text of a path. A delimiter must be
    /// an ASCII byte. An error is the last item:
    /// - `FailedPathTransform`: `f` gave None.
    /// - `InvalidUnicode`: a word is not UTF-8.
    /// - `Memory`: an allocation failed.
    pub fn iter_strings<F: FnMut(&[u8]) -> Option<String>>(
        &self,
        alloc: Global,
        f: F,
    ) -> IterStrings<'_, T, F>
        requires { is_delimited_by_ascii self.now ≡ true }
        ensures texts { result ≡ printer f (seen T.is_path T.word_of self.now) }
        ensures few { (items : List (Result (String Global) ArgToStringError)) → Drains (PrintsNext (CalledAt F.FnMut)) result items → length items ≤ 2 }
    {
        IterStrings {
            alloc,
            left: Left::Whole(self),
            closure: f,
        }
    }
}

/// An option's words as texts, at most two; an error is the last item (docs/RULES.md, Texts).
#[derive(Drop)]
pub struct IterStrings<'a, T: ArgumentValue, F> {
    alloc: Global,
    left: Left<'a, T>,
    closure: F,
}

impl<'a, T: ArgumentValue, F> Model for IterStrings<'a, T, F> {
    ghost use Rattle.std.specs.Prelude.{◌≡◌, true};
    ghost use Rattle.scl_values.specs.Left.{items_left, has_ascii_left};
    ghost use Rattle.scl_values.specs.Texts.{Printer};

    ghost Value = { Printer F };

    ghost view = { λ s. record { closure = s.closure; left = items_left T.is_path T.word_of s.left } };

    ghost invariant = { λ s. has_ascii_left s.left ≡ true };
}

fn text_of_flag(alloc: Global, flag: &str) -> ArgToStringResult
    ensures { IsWord flag.now result }
{
    Ok(String::from_str(alloc, flag)?)
}

fn join_bytes(
    alloc: Global,
    flag: &str,
    delimiter: Delimiter,
    text: &str,
) -> Result<String, ArgToStringError>
    requires { is_ascii_or_none delimiter ≡ true }
    ensures { MatchResult result (λ printed. string_bytes printed ≡ flag.now ++ delimited delimiter text.now) IsWantOfMemory }
{
    let mut item = String::from_str(alloc, flag)?;
    if !text.is_empty() {
        if let Some(byte) = delimiter {
            item.push(char::from(byte))?;
        }
        item.push_str(text)?;
    }
    Ok(item)
}

fn join_text<T: ArgumentValue, F: FnMut(&[u8]) -> Option<String>>(
    alloc: Global,
    flag: &str,
    delimiter: Delimiter,
    value: &T,
    f: &mut F,
) -> ArgToStringResult
    requires ascii { is_ascii_or_none delimiter ≡ true }
    requires callable { F.IsAlwaysCallable f.old }
    ensures prints { PrintsBehind (CalledAt F.FnMut) flag.now delimiter (T.is_path value.now) (T.word_of value.now) f.old result f.new }
    ensures callable { F.IsAlwaysCallable f.new }
{
    let text = value.into_arg_string(alloc, f)?;
    join_bytes(alloc, flag, delimiter, text.as_str())
}

impl<'a, T: ArgumentValue, F: FnMut(&[u8]) -> Option<String> + Drop> Iterator
    for IterStrings<'a, T, F> {
    type Item = ArgToStringResult;

    ghost can_next = { λ s. F.IsAlwaysCallable s.closure };

    ghost next_gives = { PrintsNext (CalledAt F.FnMut) };

    ghost remaining = { item_count (λ s. s.left) };

    fn next(&mut self) -> Option<ArgToStringResult> {
        let (text, left) = match self.left {
            Left::Whole(option) => match option {
                Argument::Raw(word) | Argument::UnknownFlag(word) => {
                    (text_of_word(self.alloc, word), Left::Nothing)
                }
                Argument::Flag(flag, _) => (text_of_flag(self.alloc, flag), Left::Nothing),
                Argument::WithValue(flag, value, disposition) => match *disposition {
                    ArgDisposition::Separated | ArgDisposition::CanBeConcatenated(_) => {
                        (text_of_flag(self.alloc, flag), Left::Value(value))
                    }
                    ArgDisposition::CanBeSeparated(delimiter)
                    | ArgDisposition::Concatenated(delimiter) => (
                        join_text(self.alloc, flag, delimiter, value, &mut self.closure),
                        Left::Nothing,
                    ),
                },
            },
            Left::Value(value) => (
                value.into_arg_string(self.alloc, &mut self.closure),
                Left::Nothing,
            ),
            Left::Nothing => return None,
        };
        self.left = if text.is_ok() { left } else { Left::Nothing };
        Some(text)
    }
}
