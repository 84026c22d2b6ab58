//! Words for an inner command line, each after a wrapper.
ghost use Rattle.std.specs.Prelude.{◌≡◌, ◌++◌, OnOk, OnErr};
ghost use Rattle.scl_values.specs.Words.{words_of};
ghost use Rattle.scl_args.specs.Wrapped.{HasFirstOf};

use scl_values::Mem;
use std::alloc::Global;

/// How a word for an inner command line is written (docs/RULES.md, Lists of options).
pub trait Wrapper {
    ghost use Rattle.std.specs.Prelude.{ℕ, List};

    /// The words that are written for a word.
    ghost wrapped: { Self → List ℕ → List (List ℕ) };

    /// Appends the words that are written for this word. If it fails, the first of them may have been appended.
    fn push_word(&self, alloc: Global, words: &mut Vec<Vec<u8>>, word: &[u8]) -> Mem<()>
        ensures ok { OnOk result (words_of words.new.items ≡ words_of words.old.items ++ wrapped self.now word.now) }
        ensures err { OnErr result (HasFirstOf (words_of words.old.items) (wrapped self.now word.now) (words_of words.new.items)) };
}

/// The wrapper is a word of its own before each word.
#[derive(Clone, Copy, Debug)]
pub struct WrappedApart(pub &'static str);

impl Wrapper for WrappedApart {
    ghost use Rattle.scl_args.specs.Wrapped.{wrapped_apart};

    ghost wrapped = { λ wrapper. wrapped_apart wrapper.0.now };

    fn push_word(&self, alloc: Global, words: &mut Vec<Vec<u8>>, word: &[u8]) -> Mem<()> {
        words.push(Vec::from_slice(alloc, self.0.as_bytes())?)?;
        words.push(Vec::from_slice(alloc, word)?)?;
        Ok(())
    }
}

/// Each word is joined to the wrapper.
#[derive(Clone, Copy, Debug)]
pub struct WrappedJoined(pub &'static str);

impl Wrapper for WrappedJoined {
    ghost use Rattle.scl_args.specs.Wrapped.{wrapped_joined};

    ghost wrapped = { λ wrapper. wrapped_joined wrapper.0.now };

    fn push_word(&self, alloc: Global, words: &mut Vec<Vec<u8>>, word: &[u8]) -> Mem<()> {
        let mut joined = Vec::from_slice(alloc, self.0.as_bytes())?;
        joined.extend_from_slice(word)?;
        words.push(joined)?;
        Ok(())
    }
}
