//! The splitter of clang-cl's driver.
ghost use Rattle.std.specs.Prelude.{◌≡◌, IfOk};
ghost use Rattle.scl_values.specs.Words.{words_of};
ghost use Rattle.scl_driver_texts.specs.WindowsWords.{windows_words};

use crate::words::Words;
use scl_values::Mem;
use scl_windows_words::{Gaps, Reader};
use std::alloc::Global;

/// The words of a text by clang-cl's driver.
#[tactic(auto, unfolding(crate::specs::WindowsWords::windows_words))]
pub(crate) fn windows_words(alloc: Global, text: &[u8]) -> Mem<Vec<Vec<u8>>>
    ensures { IfOk result (λ words. words_of words.items ≡ windows_words text.now) }
{
    let mut words = Words::new(alloc);
    let mut reader = Reader::new(Gaps::WhiteSpace);
    for byte in text {
        words.step(reader.read(*byte))?;
    }
    words.finish_after(reader.finish())
}
