//! The splitters of the compilers' drivers.
ghost use Rattle.std.specs.Prelude.{◌≡◌, IfOk};
ghost use Rattle.std.specs.Option.{option_map};
ghost use Rattle.scl_values.specs.Words.{words_of};
ghost use Rattle.scl_driver_texts.specs.Splitters.{llvm_text, split};

use crate::gnu_words::{libiberty_words, llvm_words};
use crate::windows_words::windows_words;
use scl_files::read_text;
use scl_values::Mem;
use std::alloc::Global;

/// A compiler's splitter.
#[derive(Clone, Copy, Debug, PartialEq, Eq)]
pub enum Splitter {
    /// gcc's: `buildargv` of libiberty, as gcc 12 has it.
    Libiberty,
    /// clang's: `TokenizeGNUCommandLine` of LLVM 14.
    LlvmGnu,
    /// clang-cl's: `TokenizeWindowsCommandLine` of LLVM 14.
    LlvmWindows,
}

/// What LLVM reads of a file's bytes.
#[tactic(auto, unfolding(crate::specs::Splitters::llvm_text))]
fn llvm_text(alloc: Global, bytes: &[u8]) -> Mem<Option<Vec<u8>>>
    ensures { IfOk result (λ text. option_map (λ t. t.items) text ≡ llvm_text bytes.now) }
{
    match bytes {
        [0xEF, 0xBB, 0xBF, rest @ ..] => Ok(Some(Vec::from_slice(alloc, rest)?)),
        [0xFF, 0xFE, ..] | [0xFE, 0xFF, ..] => match read_text(alloc, bytes)? {
            Some(text) => Ok(Some(text.into_bytes())),
            None => Ok(None),
        },
        _ => Ok(Some(Vec::from_slice(alloc, bytes)?)),
    }
}

/// The words of a response file's bytes, as the driver splits them; none if it stops at bytes that are no text.
#[tactic(auto, unfolding(crate::specs::Splitters::split))]
pub fn split(alloc: Global, splitter: Splitter, bytes: &[u8]) -> Mem<Option<Vec<Vec<u8>>>>
    ensures { IfOk result (λ words. option_map (λ w. words_of w.items) words ≡ split splitter bytes.now) }
{
    match splitter {
        Splitter::Libiberty => Ok(Some(libiberty_words(alloc, bytes)?)),
        Splitter::LlvmGnu => match llvm_text(alloc, bytes)? {
            Some(text) => Ok(Some(llvm_words(alloc, &text)?)),
            None => Ok(None),
        },
        Splitter::LlvmWindows => match llvm_text(alloc, bytes)? {
            Some(text) => Ok(Some(windows_words(alloc, &text)?)),
            None => Ok(None),
        },
    }
}
