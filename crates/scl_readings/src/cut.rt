//! Texts cut at a byte, and the places of words.
ghost use Rattle.std.specs.Prelude.{◌≡◌, ◌+◌, ◌≤◌, List, [], ◌∷◌, ◌++◌, IfSome, MatchOption, length, position};
ghost use Rattle.scl_readings.specs.Lines.{parts};
ghost use Rattle.scl_readings.specs.Places.{first_place, has_word};

use memchr::{memchr, memmem};

/// What stands before and after the first byte that is `mark`.
pub fn cut_at(mark: u8, text: &[u8]) -> Option<(&[u8], &[u8])>
    ensures whole { IfSome result (λ cut. text.now ≡ cut.0.now ++ mark ∷ cut.1.now) }
    ensures parts { MatchOption result (parts mark text.now ≡ text.now ∷ []) (λ cut. parts mark text.now ≡ cut.0.now ∷ parts mark cut.1.now) }
{
    match memchr(mark, text) {
        Some(at) => Some((&text[..at], &text[at + 1..])),
        None => None,
    }
}

/// The first place where the word stands in the text.
pub fn first_place(word: &[u8], text: &[u8]) -> Option<usize>
    ensures place { result ≡ first_place word.now text.now }
    ensures within { IfSome result (λ at. at + length word.now ≤ length text.now) }
{
    memmem::find(text, word)
}

/// The first of the words that stands anywhere in the text, by its index.
pub fn first_word(words: &[&[u8]], text: &[u8]) -> Option<usize>
    ensures { result ≡ position (λ word. has_word word.now text.now) words.now }
{
    words
        .iter()
        .position(|word| first_place(word, text).is_some())
}
