//! The splitters of gcc's driver and of clang's.
ghost use Rattle.std.specs.Prelude.{◌≡◌, ◌==◌, position, ℕ, None, List, [], ◌∷◌, OnOk, IfOk, false};
ghost use Rattle.scl_values.specs.Words.{words_of};
ghost use Rattle.scl_driver_texts.specs.Pieces.{is_nul, before_nul};
ghost use Rattle.scl_driver_texts.specs.GnuWords.{separates, is_quote, at_end, gnu_words, libiberty_words, llvm_words};
ghost use Rattle.scl_driver_texts.specs.Readers.{left};

use crate::words::Words;
use scl_values::Mem;
use std::alloc::Global;

/// The driver whose splitter it is.
#[derive(Clone, Copy)]
pub(crate) enum Dialect {
    Libiberty,
    Llvm,
}

impl Dialect {
    fn separates(self, byte: u8) -> bool
        ensures { result ≡ separates self byte }
    {
        match self {
            Dialect::Libiberty => matches!(byte, b' ' | b'\t' | b'\n' | 0xB | 0xC | b'\r'),
            Dialect::Llvm => matches!(byte, b' ' | b'\t' | b'\n' | b'\r'),
        }
    }

    /// What a backslash at the end of the text becomes.
    fn at_end(self) -> &'static [u8]
        ensures { result.now ≡ at_end self }
    {
        match self {
            Dialect::Libiberty => b"",
            Dialect::Llvm => b"\\",
        }
    }
}

fn is_quote(byte: u8) -> bool
    ensures { result ≡ is_quote byte }
{
    byte == b'\'' || byte == b'"'
}

/// The words so far, and the context of the next byte.
#[derive(Drop)]
pub(crate) struct Reader {
    dialect: Dialect,
    words: Words,
    is_taken: bool,
    quote: Option<u8>,
}

impl Reader {
    /// Reads a byte outside quotes that is not escaped.
    fn step_outside(&mut self, byte: u8) -> Mem<()>
        requires bare { self.old.is_taken ≡ false }
        requires outside { self.old.quote ≡ None }
        requires plain { (byte == 92) ≡ false }
        ensures { OnOk result ((rest : List ℕ) → left self.new rest ≡ left self.old (byte ∷ rest)) }
    {
        if self.dialect.separates(byte) {
            return self.words.end();
        }
        if is_quote(byte) {
            self.quote = Some(byte);
            return self.words.stand(b"");
        }
        self.words.stand(&[byte])
    }

    fn step(&mut self, byte: u8) -> Mem<()>
        ensures { OnOk result ((rest : List ℕ) → left self.new rest ≡ left self.old (byte ∷ rest)) }
    {
        if self.is_taken {
            self.is_taken = false;
            return self.words.stand(&[byte]);
        }
        if byte == b'\\' {
            self.is_taken = true;
            return Ok(());
        }
        let Some(quote) = self.quote else {
            return self.step_outside(byte);
        };
        if byte == quote {
            self.quote = None;
            return self.words.stand(b"");
        }
        self.words.stand(&[byte])
    }

    fn finish(self) -> Mem<Vec<Vec<u8>>>
        ensures { IfOk result (λ words. words_of words.items ≡ left self []) }
    {
        let mut words = self.words;
        if self.is_taken {
            words.stand(self.dialect.at_end())?;
            return words.finish();
        }
        words.finish()
    }
}

#[tactic(auto, unfolding(crate::specs::GnuWords::gnu_words))]
fn gnu_words(alloc: Global, dialect: Dialect, text: &[u8]) -> Mem<Vec<Vec<u8>>>
    ensures { IfOk result (λ words. words_of words.items ≡ gnu_words dialect text.now) }
{
    let mut reader = Reader {
        dialect,
        words: Words::new(alloc),
        is_taken: false,
        quote: None,
    };
    for byte in text {
        reader.step(*byte)?;
    }
    reader.finish()
}

fn nul_at(bytes: &[u8]) -> Option<usize>
    ensures { result ≡ position is_nul bytes.now }
{
    bytes.iter().position(|byte| *byte == 0)
}

/// A string as C reads it: the bytes before the first 0.
#[tactic(auto, using(crate::proofs::WordLemmas::nul_rules))]
fn before_nul(bytes: &[u8]) -> &[u8]
    ensures { result.now ≡ before_nul bytes.now }
{
    match nul_at(bytes) {
        Some(at) => &bytes[..at],
        None => bytes,
    }
}

/// The words of a text by gcc's driver.
#[tactic(auto, unfolding(crate::specs::GnuWords::libiberty_words))]
pub(crate) fn libiberty_words(alloc: Global, text: &[u8]) -> Mem<Vec<Vec<u8>>>
    ensures { IfOk result (λ words. words_of words.items ≡ libiberty_words text.now) }
{
    gnu_words(alloc, Dialect::Libiberty, before_nul(text))
}

/// The words of a text by clang's driver.
#[tactic(auto, unfolding(crate::specs::GnuWords::llvm_words))]
pub(crate) fn llvm_words(alloc: Global, text: &[u8]) -> Mem<Vec<Vec<u8>>>
    ensures { IfOk result (λ words. words_of words.items ≡ llvm_words text.now) }
{
    let mut words = Vec::new(alloc);
    let all = gnu_words(alloc, Dialect::Llvm, text)?;
    for word in &all {
        if !word.is_empty() {
            words.push(Vec::from_slice(alloc, before_nul(word))?)?;
        }
    }
    Ok(words)
}
