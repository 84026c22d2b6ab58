//! Values: made from words, printed as words and as texts.
ghost use Rattle.std.specs.Prelude.{◌≡◌, ℕ, List, [], IfOk, IsOkAnd, MatchResult, Result, Ok, Bool, true, false, ◌⊎◌};
ghost use Rattle.std.specs.Fn.{CalledAt};
ghost use Rattle.std.specs.String.{string_bytes};
ghost use Rattle.scl_values.specs.Texts.{IsWord, IsInvalidUnicode, Prints};

use crate::error::{ArgParseError, ArgParseResult, ArgToStringError, ArgToStringResult};
use crate::held::Held;
use crate::memory::Mem;
use std::alloc::Global;
use std::str;

/// A value that is made from a word.
pub trait FromArg: Sized {
    ghost use Rattle.scl_values.specs.declared.error.ArgParseError.{ArgParseError};

    /// The results of making a value from a word that are allowed.
    ghost process_gives: { List ℕ → Result Self ArgParseError → Type 0 };

    /// The value of the word. Each type says which errors there are (docs/RULES.md, Texts).
    fn process(alloc: Global, arg: Vec<u8>) -> ArgParseResult<Self>
        ensures { process_gives arg.items result };
}

/// A value that prints as one word.
pub trait IntoArg {
    /// The word that it prints as.
    ghost word_of: { Self → List ℕ };

    /// Whether its text comes from a closure.
    ghost is_path: { Self → Bool };

    /// The word that the value prints as.
    fn into_arg_os_string(&self, alloc: Global) -> Mem<Vec<u8>>
        ensures { IfOk result (λ printed. printed.items ≡ word_of self.now) };

    /// The value as a text (docs/RULES.md, Texts). Of a path it is what one call of `f` gives. The errors:
    /// - `FailedPathTransform`: it is a path, and `f` gave None.
    /// - `InvalidUnicode`: it is another value, and its word is not UTF-8.
    /// - `Memory`: an allocation failed.
    fn into_arg_string<F: FnMut(&[u8]) -> Option<String>>(
        &self,
        alloc: Global,
        f: &mut F,
    ) -> ArgToStringResult
        requires { F.IsAlwaysCallable f.old }
        ensures prints { Prints (CalledAt F.FnMut) (is_path self.now) (word_of self.now) f.old result f.new }
        ensures callable { F.IsAlwaysCallable f.new };
}

/// A value that a row of a table makes from a word.
pub trait ArgumentValue: IntoArg + Drop {
    /// What a row says of its values: they are made by it.
    type Kind: Copy;

    ghost use Rattle.scl_values.specs.declared.error.ArgParseError.{ArgParseError};

    /// The results of making a value from a kind and a word that are allowed.
    ghost make_gives: { Self.Kind → List ℕ → Result Self ArgParseError → Type 0 };

    /// Whether values of the kind hold a word.
    ghost holds_value: { Self.Kind → Bool };

    /// The kind from which a value was made.
    ghost kind_of: { Self → Self.Kind };

    /// The value of a kind and a word; the word is empty if the option has none. Each type says which errors there are, such
    /// as `flag takes no value` if the kind holds none and the word is not empty (docs/RULES.md, Values).
    fn make(alloc: Global, kind: Self::Kind, word: Vec<u8>) -> ArgParseResult<Self>
        ensures { make_gives kind word.items result };
}

/// The law of values that print the word that they were made from.
pub trait ExactArg: ArgumentValue {
    ghost use Rattle.scl_values.specs.declared.error.ArgParseError.{ArgParseError};

    /// A kind that holds a word makes a value from each word, any other kind from the empty word. The value has both the kind
    /// and the word.
    ghost exact: { (kind : Self.Kind) (word : List ℕ) (made : Result Self ArgParseError)
        → (Self.holds_value kind ≡ true) ⊎ (word ≡ []) → Self.make_gives kind word made
        → IsOkAnd made (λ value. (Self.kind_of value ≡ kind) × (Self.word_of value ≡ word)) };

    /// A value has the kind and the word that it was made from.
    ghost keeps: { (kind : Self.Kind) (word : List ℕ) (value : Self)
        → Self.make_gives kind word (Ok value) → (Self.kind_of value ≡ kind) × (Self.word_of value ≡ word) };
}

/// A word as a text, if it is UTF-8.
pub(crate) fn text_of_word(alloc: Global, word: &[u8]) -> ArgToStringResult
    ensures { IsWord word.now result }
{
    match str::from_utf8(word) {
        Ok(text) => Ok(String::from_str(alloc, text)?),
        Err(_) => Err(ArgToStringError::InvalidUnicode(Vec::from_slice(alloc, word)?)),
    }
}

impl FromArg for Vec<u8> {
    ghost process_gives = { λ word result. IsOkAnd result (λ value. value.items ≡ word) };

    fn process(_alloc: Global, arg: Vec<u8>) -> ArgParseResult<Vec<u8>> {
        Ok(arg)
    }
}

impl IntoArg for Vec<u8> {
    ghost word_of = { λ word. word.items };

    ghost is_path = { λ _. false };

    fn into_arg_os_string(&self, alloc: Global) -> Mem<Vec<u8>> {
        Vec::from_slice(alloc, self.as_slice())
    }

    fn into_arg_string<F: FnMut(&[u8]) -> Option<String>>(
        &self,
        alloc: Global,
        _f: &mut F,
    ) -> ArgToStringResult {
        text_of_word(alloc, self.as_slice())
    }
}

/// A path in a value.
#[derive(Debug, PartialEq, Eq, Drop)]
pub struct PathArg(pub Vec<u8>);

impl FromArg for PathArg {
    ghost process_gives = { λ word result. IsOkAnd result (λ path. path.0.items ≡ word) };

    fn process(_alloc: Global, arg: Vec<u8>) -> ArgParseResult<PathArg> {
        Ok(PathArg(arg))
    }
}

impl IntoArg for PathArg {
    ghost word_of = { λ path. path.0.items };

    ghost is_path = { λ _. true };

    fn into_arg_os_string(&self, alloc: Global) -> Mem<Vec<u8>> {
        Vec::from_slice(alloc, self.0.as_slice())
    }

    fn into_arg_string<F: FnMut(&[u8]) -> Option<String>>(
        &self,
        alloc: Global,
        f: &mut F,
    ) -> ArgToStringResult {
        Held::Path(self.0.as_slice()).text(alloc, f)
    }
}

impl FromArg for String {
    ghost process_gives = { λ word result. MatchResult result (λ text. string_bytes text ≡ word) (IsInvalidUnicode word) };

    fn process(_alloc: Global, arg: Vec<u8>) -> ArgParseResult<String> {
        match String::from_utf8(arg) {
            Ok(text) => Ok(text),
            Err(error) => Err(ArgParseError::InvalidUnicode(error.into_bytes())),
        }
    }
}

impl IntoArg for String {
    ghost word_of = { λ text. string_bytes text };

    ghost is_path = { λ _. false };

    fn into_arg_os_string(&self, alloc: Global) -> Mem<Vec<u8>> {
        Vec::from_slice(alloc, self.as_bytes())
    }

    fn into_arg_string<F: FnMut(&[u8]) -> Option<String>>(
        &self,
        alloc: Global,
        _f: &mut F,
    ) -> ArgToStringResult {
        Ok(String::from_str(alloc, self.as_str())?)
    }
}

impl IntoArg for () {
    ghost word_of = { λ _. [] };

    ghost is_path = { λ _. false };

    fn into_arg_os_string(&self, alloc: Global) -> Mem<Vec<u8>> {
        Ok(Vec::new(alloc))
    }

    fn into_arg_string<F: FnMut(&[u8]) -> Option<String>>(
        &self,
        alloc: Global,
        _f: &mut F,
    ) -> ArgToStringResult {
        Ok(String::new(alloc))
    }
}
