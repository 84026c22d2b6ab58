//! The architectures that a command line names.
ghost use Rattle.std.specs.Prelude.{◌≡◌, ◌≤◌, ◌↔◌, IsTrue, IfOk, length};
ghost use Rattle.std.specs.List.{list_any};
ghost use Rattle.std.specs.Str.{bytes_eq};
ghost use Rattle.std.specs.Iterator.{YieldsFirstRef, item_count};
ghost use Rattle.scl_values.specs.Words.{words_of};
ghost use Rattle.scl_text.specs.Records.{archs, second_words};

use crate::command::push_word;
use crate::records::ParsedArguments;
use scl_args::Mem;
use std::alloc::Global;

/// The second words of pairs of words.
#[derive(Drop)]
struct SecondWords<'a>(&'a [Vec<u8>]);

impl<'a> Iterator for SecondWords<'a> {
    type Item = &'a [u8];

    ghost next_gives = { YieldsFirstRef (λ s. second_words (words_of s.0.now)) };

    ghost remaining = { item_count (λ s. second_words (words_of s.0.now)) };

    fn next(&mut self) -> Option<&'a [u8]> {
        let [_, word, rest @ ..] = self.0 else {
            return None;
        };
        self.0 = rest;
        Some(word)
    }
}

fn is_among(word: &[u8], words: &[Vec<u8>]) -> bool
    ensures { result ≡ list_any (bytes_eq word.now) (words_of words.now) }
{
    for other in words {
        if word == other.as_slice() {
            return true;
        }
    }
    false
}

impl ParsedArguments {
    /// The distinct second words of `arch_args`' pairs, each at its first occurrence. A last word without a partner is left
    /// out (docs/RULES.md, Records).
    #[tactic(auto, using(crate::proofs::ArchLemmas::distinct_rules))]
    pub fn archs(&self, alloc: Global) -> Mem<Vec<Vec<u8>>>
        ensures { IfOk result (λ words. words_of words.items ≡ archs (words_of self.now.arch_args.items)) }
    {
        let mut words = Vec::new(alloc);
        for word in SecondWords(&self.arch_args) {
            if !is_among(word, &words) {
                push_word(alloc, &mut words, word)?;
            }
        }
        Ok(words)
    }

    /// Whether `archs` has two words or more (docs/RULES.md, Records).
    #[tactic(auto, using(crate::proofs::ArchLemmas::many_rules))]
    pub fn is_multiarch(&self) -> bool
        ensures { IsTrue result ↔ (2 ≤ length (archs (words_of self.now.arch_args.items))) }
    {
        let mut words = SecondWords(&self.arch_args);
        let Some(first) = words.next() else {
            return false;
        };
        for word in words {
            if word != first {
                return true;
            }
        }
        false
    }
}
