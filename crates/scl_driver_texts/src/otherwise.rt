//! Texts that a driver splits differently than the rules.
ghost use Rattle.std.specs.Prelude.{◌≡◌, IfOk};
ghost use Rattle.scl_values.specs.Words.{words_of};
ghost use Rattle.scl_driver_texts.specs.Splitters.{are_same, is_otherwise};
ghost use Rattle.scl_driver_texts.specs.Otherwise.{is_split_otherwise, splits_otherwise};

use crate::splitter::{Splitter, split};
use scl_files::response_file::arguments;
use scl_files::{ExpansionKind, Mem};
use std::alloc::Global;

fn are_same(words: &[Vec<u8>], others: &[Vec<u8>]) -> bool
    ensures { result ≡ are_same (words_of words.now) (words_of others.now) }
{
    words == others
}

/// Whether the driver splits the file's bytes into other words than these, or into none.
fn is_otherwise(alloc: Global, splitter: Splitter, bytes: &[u8], words: &[Vec<u8>]) -> Mem<bool>
    ensures { IfOk result (λ it_is. it_is ≡ is_otherwise splitter bytes.now (words_of words.now)) }
{
    match split(alloc, splitter, bytes)? {
        Some(others) => Ok(!are_same(&others, words)),
        None => Ok(true),
    }
}

/// Whether the driver splits the bytes of a response file differently than the rules. The answer is no if by the rules the
/// bytes are no text that can be read.
#[tactic(auto, unfolding(crate::specs::Otherwise::is_split_otherwise))]
pub fn is_split_otherwise(
    alloc: Global,
    splitter: Splitter,
    kind: ExpansionKind,
    bytes: &[u8],
) -> Mem<bool>
    ensures { IfOk result (λ it_is. it_is ≡ is_split_otherwise splitter kind bytes.now) }
{
    match arguments(alloc, kind, bytes)? {
        Some(words) => is_otherwise(alloc, splitter, bytes, &words),
        None => Ok(false),
    }
}

/// Whether the driver splits one of the texts of response files differently than the rules.
#[tactic(auto, unfolding(crate::specs::Otherwise::splits_otherwise))]
pub fn splits_otherwise(
    alloc: Global,
    splitter: Splitter,
    kind: ExpansionKind,
    texts: &[Vec<u8>],
) -> Mem<bool>
    ensures { IfOk result (λ it_does. it_does ≡ splits_otherwise splitter kind (words_of texts.now)) }
{
    for text in texts {
        if is_split_otherwise(alloc, splitter, kind, text)? {
            return Ok(true);
        }
    }
    Ok(false)
}
