//! Bytes of a line, cut at blanks and other marks.
ghost use Rattle.std.specs.Prelude.{◌≡◌, ◌==◌, ◌<◌, ◌≤◌, ◌∷◌, [], not, true, length, map, IfOk, IfSome, MatchOption};
ghost use Rattle.std.specs.List.{list_any};
ghost use Rattle.scl_catalogue_text.specs.Cutting.{behind_blanks, first_word, from_mark, is_word, other_words, parts, until_mark, words};

use memchr::memchr;
use scl_values::Mem;
use std::alloc::Global;

/// The bytes from the first mark on; none where it is missing.
fn from_mark(bytes: &[u8], mark: u8) -> &[u8]
    ensures from { result.now ≡ from_mark mark bytes.now }
    ensures within { length result.now ≤ length bytes.now }
{
    let mut left = bytes;
    while let Some((first, behind)) = left.split_first() {
        if *first == mark {
            return left;
        }
        left = behind;
    }
    left
}

/// The bytes before the first mark, and those from it on.
#[tactic(auto, using(crate::proofs::CutLemmas::until_from))]
pub(crate) fn cut_at(bytes: &[u8], mark: u8) -> (&[u8], &[u8])
    ensures until { result.0.now ≡ until_mark mark bytes.now }
    ensures from { result.1.now ≡ from_mark mark bytes.now }
{
    let from = from_mark(bytes, mark);
    (&bytes[..bytes.len() - from.len()], from)
}

fn behind_blanks(bytes: &[u8]) -> &[u8]
    ensures { result.now ≡ behind_blanks bytes.now }
{
    let mut left = bytes;
    while let Some((first, behind)) = left.split_first() {
        if *first != b' ' {
            return left;
        }
        left = behind;
    }
    left
}

/// The first word, and the bytes after it; the word is empty where there is none.
#[tactic(auto, unfolding(crate::specs::Cutting::first_word, crate::specs::Cutting::other_words))]
pub(crate) fn first_word(bytes: &[u8]) -> (&[u8], &[u8])
    ensures word { result.0.now ≡ first_word bytes.now }
    ensures others { result.1.now ≡ other_words bytes.now }
{
    cut_at(behind_blanks(bytes), b' ')
}

/// Whether a word stands there.
pub(crate) fn has_word(bytes: &[u8]) -> bool
    ensures { result ≡ is_word (first_word bytes.now) }
{
    let (word, _) = first_word(bytes);
    !word.is_empty()
}

/// The first word and the bytes after it; none where there is no word.
#[tactic(auto, using(crate::proofs::WordLemmas::words_none, crate::proofs::WordLemmas::words_some, crate::proofs::WordLemmas::others_shorter))]
pub(crate) fn next_word(bytes: &[u8]) -> Option<(&[u8], &[u8])>
    ensures words { MatchOption result (words bytes.now ≡ []) (λ cut. words bytes.now ≡ cut.0.now ∷ words cut.1.now) }
    ensures shorter { IfSome result (λ cut. length cut.1.now < length bytes.now) }
{
    let (word, others) = first_word(bytes);
    if word.is_empty() {
        return None;
    }
    Some((word, others))
}

/// Whether the mark stands nowhere. It looks at each byte, which takes less than to stop at the first mark.
pub(crate) fn lacks(bytes: &[u8], mark: u8) -> bool
    ensures { result ≡ not (list_any (λ byte. byte == mark) bytes.now) }
{
    let mut stands = false;
    for byte in bytes {
        stands |= *byte == mark;
    }
    !stands
}

/// Whether there is one part, so that no mark stands there.
#[tactic(auto, using(crate::proofs::SplitLemmas::one_part))]
pub(crate) fn is_one_part(bytes: &[u8], mark: u8) -> bool
    ensures { result ≡ true → parts mark bytes.now ≡ bytes.now ∷ [] }
{
    lacks(bytes, mark)
}

/// The first part, and the bytes behind its mark; none where no mark stands.
fn next_part(bytes: &[u8], mark: u8) -> Option<(&[u8], &[u8])>
    ensures parts { MatchOption result (parts mark bytes.now ≡ bytes.now ∷ []) (λ cut. parts mark bytes.now ≡ cut.0.now ∷ parts mark cut.1.now) }
    ensures shorter { IfSome result (λ cut. length cut.1.now < length bytes.now) }
{
    match memchr(mark, bytes) {
        Some(at) => Some((&bytes[..at], &bytes[at + 1..])),
        None => None,
    }
}

/// The parts between the marks.
pub(crate) fn parts(alloc: Global, bytes: &[u8], mark: u8) -> Mem<Vec<&[u8]>>
    ensures { IfOk result (λ all. map (λ part. part.now) all.items ≡ parts mark bytes.now) }
{
    let mut all = Vec::new(alloc);
    let mut left = bytes;
    while let Some((part, others)) = next_part(left, mark) {
        all.push(part)?;
        left = others;
    }
    all.push(left)?;
    Ok(all)
}

/// The words between blanks.
#[tactic(auto, unfolding(crate::specs::Cutting::words, crate::specs::Cutting::parts))]
pub(crate) fn words(alloc: Global, bytes: &[u8]) -> Mem<Vec<&[u8]>>
    ensures { IfOk result (λ all. map (λ word. word.now) all.items ≡ words bytes.now) }
{
    bytes
        .split(|byte| *byte == b' ')
        .filter(|part| !part.is_empty())
        .collect(alloc)
}
