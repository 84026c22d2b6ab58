//! What values hold: nothing, a word or a path.
ghost use Rattle.std.specs.Prelude.{◌≡◌, ◌≢◌, ◌↔◌, [], false, MatchResult};
ghost use Rattle.std.specs.Fn.{CalledAt};
ghost use Rattle.scl_values.specs.Texts.{Prints};
ghost use Rattle.scl_values.specs.Held.{word_held, is_path_held};
ghost use Rattle.scl_values.specs.Values.{IsNoValueError};

use crate::error::{ArgParseError, ArgParseResult, ArgToStringError, ArgToStringResult};
use crate::value::{ArgumentValue, text_of_word};
use std::alloc::Global;

/// What a value holds (docs/RULES.md, Values).
#[derive(Clone, Copy, Debug, PartialEq, Eq)]
pub enum Held<'a> {
    /// No value.
    Nothing,
    /// Any word.
    Word(&'a [u8]),
    /// The bytes of a path.
    Path(&'a [u8]),
}

impl<'a> Held<'a> {
    /// The word; empty if nothing is held.
    pub fn word(self) -> &'a [u8]
        ensures { result.now ≡ word_held self.entry }
    {
        match self {
            Held::Nothing => &[],
            Held::Word(word) | Held::Path(word) => word,
        }
    }

    /// The word as a text (docs/RULES.md, Texts). Of a path it is what one call of `f` gives. The errors:
    /// - `FailedPathTransform`: it is a path, and `f` gave None.
    /// - `InvalidUnicode`: it is a word that is not UTF-8.
    /// - `Memory`: an allocation failed.
    pub fn text<F: FnMut(&[u8]) -> Option<String>>(
        self,
        alloc: Global,
        f: &mut F,
    ) -> ArgToStringResult
        requires { F.IsAlwaysCallable f.old }
        ensures prints { Prints (CalledAt F.FnMut) (is_path_held self.entry) (word_held self.entry) f.old result f.new }
        ensures callable { F.IsAlwaysCallable f.new }
    {
        match self {
            Held::Nothing => Ok(String::new(alloc)),
            Held::Word(word) => text_of_word(alloc, word),
            Held::Path(path) => match f(path) {
                Some(text) => Ok(text),
                None => Err(ArgToStringError::FailedPathTransform(Vec::from_slice(alloc, path)?)),
            },
        }
    }
}

/// A value from which its kind and what it holds can be read.
pub trait ReadArg: ArgumentValue {
    /// The kind of the value's options.
    fn kind(&self) -> Self::Kind
        ensures { result ≡ Self.kind_of self.now };

    /// What the value holds: `Nothing` exactly if its kind holds no value. A word or path that is held may be empty.
    fn held(&self) -> Held<'_>
        ensures nothing { (result ≡ Held.Nothing) ↔ (Self.holds_value (Self.kind_of self.now) ≡ false) }
        ensures word { word_held result ≡ Self.word_of self.now }
        ensures path { is_path_held result ≡ Self.is_path self.now };

    /// The value's word; empty if it holds none.
    fn word(&self) -> &[u8]
        ensures { result.now ≡ Self.word_of self.now }
    {
        self.held().word()
    }
}

/// The value of a kind that holds none, if the word is empty; else the error `flag takes no value` (docs/RULES.md, Values).
pub fn without_value<T: Drop>(value: T, word: &[u8]) -> ArgParseResult<T>
    ensures { MatchResult result (λ made. (made ≡ value) × (word.now ≡ [])) (λ error. IsNoValueError error × (word.now ≢ [])) }
{
    if word.is_empty() {
        Ok(value)
    } else {
        Err(ArgParseError::Other("flag takes no value"))
    }
}
