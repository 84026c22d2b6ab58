//! Words that are built piece by piece.
ghost use Rattle.std.specs.Prelude.{◌≡◌, List, [], ◌∷◌, None, OnOk, IfOk};
ghost use Rattle.scl_values.specs.Words.{words_of};
ghost use Rattle.scl_driver_texts.specs.Pieces.{Piece, gap, stands, lost, joined};
ghost use Rattle.scl_driver_texts.specs.Readers.{made};
ghost use Rattle.scl_driver_texts.specs.WindowsWords.{pieces};
ghost use Rattle.scl_windows_words.specs.Parts.{Part};
ghost use Rattle.scl_windows_words.specs.Reading.{marked, stepped, stood};

use scl_values::Mem;
use scl_windows_words::{Mark, Step};
use std::alloc::Global;

/// The complete words, and the one that has begun.
#[derive(Drop)]
pub(crate) struct Words {
    alloc: Global,
    whole: Vec<Vec<u8>>,
    begun: Option<Vec<u8>>,
}

impl Words {
    pub(crate) fn new(alloc: Global) -> Words
        ensures { (ps : List Piece) → made result ps ≡ joined None ps }
    {
        Words {
            alloc,
            whole: Vec::new(alloc),
            begun: None,
        }
    }

    /// Appends bytes to a word, which begins with them if none has begun.
    pub(crate) fn stand(&mut self, bytes: &[u8]) -> Mem<()>
        ensures { OnOk result ((ps : List Piece) → made self.new ps ≡ made self.old (stands bytes.now ∷ ps)) }
    {
        match &mut self.begun {
            Some(word) => word.extend_from_slice(bytes)?,
            None => self.begun = Some(Vec::from_slice(self.alloc, bytes)?),
        }
        Ok(())
    }

    /// Ends the word, if one has begun.
    pub(crate) fn end(&mut self) -> Mem<()>
        ensures made { OnOk result ((ps : List Piece) → made self.new ps ≡ made self.old (gap ∷ ps)) }
        ensures none { OnOk result (self.new.begun ≡ None) }
    {
        if let Some(word) = self.begun.take() {
            self.whole.push(word)?;
        }
        Ok(())
    }

    /// Drops the word that has begun.
    pub(crate) fn lose(&mut self)
        ensures { (ps : List Piece) → made self.new ps ≡ made self.old (lost ∷ ps) }
    {
        self.begun = None;
    }

    fn slashes(&mut self, count: usize) -> Mem<()>
        ensures { OnOk result ((ps : List Part) → made self.new (pieces ps) ≡ made self.old (pieces (stood count ps))) }
    {
        if count == 0 {
            return Ok(());
        }
        let bytes = vec![in self.alloc; b'\\'; count]?;
        self.stand(&bytes)
    }

    /// Reads a mark of Windows; a quote that follows one that closes is itself, and the end in quotes drops the word.
    fn mark(&mut self, mark: Mark) -> Mem<()>
        ensures { OnOk result ((ps : List Part) → made self.new (pieces ps) ≡ made self.old (pieces (marked mark ps))) }
    {
        match mark {
            Mark::Nothing => Ok(()),
            Mark::Separates => self.end(),
            Mark::Opens => self.stand(b""),
            Mark::Stands(byte) => self.stand(&[byte]),
            Mark::Doubles => self.stand(b"\""),
            Mark::StaysOpen => {
                self.lose();
                Ok(())
            }
        }
    }

    /// Reads a step of Windows.
    pub(crate) fn step(&mut self, step: Step) -> Mem<()>
        ensures { OnOk result ((ps : List Part) → made self.new (pieces ps) ≡ made self.old (pieces (stepped step ps))) }
    {
        self.slashes(step.backslashes)?;
        self.mark(step.mark)
    }

    /// All words, after the last step of Windows.
    pub(crate) fn finish_after(self, step: Step) -> Mem<Vec<Vec<u8>>>
        ensures { IfOk result (λ words. words_of words.items ≡ made self (pieces (stepped step []))) }
    {
        let mut words = self;
        words.step(step)?;
        words.finish()
    }

    /// All words.
    pub(crate) fn finish(self) -> Mem<Vec<Vec<u8>>>
        ensures { IfOk result (λ words. words_of words.items ≡ made self []) }
    {
        let mut words = self;
        words.end()?;
        Ok(words.whole)
    }
}
