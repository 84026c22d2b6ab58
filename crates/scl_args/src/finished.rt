//! The finished list of options, and filters over it.
ghost use Rattle.std.specs.Prelude.{◌≡◌, IfOk, map};
ghost use Rattle.std.specs.List.{list_any};
ghost use Rattle.std.specs.Option.{option_map};
ghost use Rattle.scl_values.specs.Seen.{seen};
ghost use Rattle.scl_values.specs.Words.{words_of};
ghost use Rattle.scl_args.specs.Options.{all_seen, is_behind_dashes, last_by, last_flag, last_text, texts, list};

use crate::lists::{Sides, list, push_option, push_whole};
use crate::options::{Test, is_dashes, last_by, last_text, texts};
use scl_cutting::ShrinkingIter;
use scl_values::{Argument, Mem, ReadArg};
use std::alloc::Global;
use std::marker::Model;

/// A finished list of options.
#[derive(Debug, Drop)]
pub struct Options<T: ReadArg> {
    options: Vec<Argument<T>>,
}

impl<T: ReadArg> Model for Options<T> {
    ghost use Rattle.std.specs.Prelude.{List, map};
    ghost use Rattle.scl_values.specs.Seen.{Seen, seen};

    ghost Value = { List (Seen T.Kind) };

    ghost view = { λ o. map (seen T.kind_of T.word_of) o.options.items };
}

impl<T: ReadArg> Options<T> {
    /// Wraps the finished list.
    pub fn new(options: Vec<Argument<T>>) -> Options<T>
        ensures { result ≡ all_seen T.kind_of T.word_of options }
    {
        Options { options }
    }

    /// All options.
    pub fn as_slice(&self) -> &[Argument<T>]
        ensures { map (seen T.kind_of T.word_of) result.now ≡ self.now }
    {
        &self.options
    }

    /// The last option that passes.
    pub fn last_by<P: Test<T>>(&self, test: &P) -> Option<&Argument<T>>
        ensures { option_map (λ option. seen T.kind_of T.word_of option.now) result ≡ last_by (P.passes test.now) self.now }
    {
        last_by(&self.options, test)
    }

    /// The flag of the last option that passes.
    pub fn last_flag<P: Test<T>>(&self, test: &P) -> Option<&'static str>
        ensures { option_map (λ flag. flag.now) result ≡ last_flag (P.passes test.now) self.now }
    {
        Some(self.last_by(test)?.flag())
    }

    /// The text of the last option that passes.
    pub fn last_text<P: Test<T>>(&self, test: &P) -> Option<&[u8]>
        ensures { option_map (λ text. text.now) result ≡ last_text (P.passes test.now) self.now }
    {
        last_text(&self.options, test)
    }

    /// Whether any option passes.
    pub fn any<P: Test<T>>(&self, test: &P) -> bool
        ensures { result ≡ list_any (P.passes test.now) self.now }
    {
        self.options.iter().any(|option| test.passes(option))
    }

    /// The texts of the options that pass, in order.
    pub fn texts<P: Test<T>>(&self, alloc: Global, test: &P) -> Mem<Vec<Vec<u8>>>
        ensures { IfOk result (λ words. words_of words.items ≡ texts (P.passes test.now) self.now) }
    {
        texts(alloc, &self.options, test)
    }

    /// The words of the options that pass, each option on the side of its flag (docs/RULES.md, Lists of options).
    pub fn list<S: Sides, P: Test<T>>(
        &self,
        alloc: Global,
        sides: &S,
        test: &P,
    ) -> Mem<Vec<Vec<u8>>>
        ensures { IfOk result (λ words. words_of words.items ≡ list (S.side sides.now) (P.passes test.now) self.now) }
    {
        list(alloc, &self.options, sides, test)
    }

    /// The words of two lists, as `list` gives them: those of the options that pass the first test, and those of the options
    /// that pass the second. It takes ownership of the options, and reuses or frees their memory on the way.
    pub fn into_two_lists<S: Sides, P: Test<T>>(
        self,
        alloc: Global,
        sides: &S,
        first: &P,
        second: &P,
    ) -> Mem<(Vec<Vec<u8>>, Vec<Vec<u8>>)>
        ensures first { IfOk result (λ lists. words_of lists.0.items ≡ list (S.side sides.now) (P.passes first.now) self) }
        ensures second { IfOk result (λ lists. words_of lists.1.items ≡ list (S.side sides.now) (P.passes second.now) self) }
    {
        let mut firsts = Vec::new(alloc);
        let mut seconds = Vec::new(alloc);
        for option in ShrinkingIter::new(self.options) {
            let passes_second = second.passes(&option);
            if !first.passes(&option) {
                if passes_second {
                    push_whole(alloc, &mut seconds, option, sides)?;
                }
                continue;
            }
            if passes_second {
                push_option(alloc, &mut seconds, &option, sides)?;
            }
            push_whole(alloc, &mut firsts, option, sides)?;
        }
        Ok((firsts, seconds))
    }

    /// Whether a raw word `--` is before any option that the test accepts as an input (docs/RULES.md, Readings).
    pub fn is_behind_dashes<P: Test<T>>(&self, inputs: &P) -> bool
        ensures { result ≡ is_behind_dashes (P.passes inputs.now) self.now }
    {
        for option in &self.options {
            if is_dashes(option) {
                return true;
            }
            if inputs.passes(option) {
                return false;
            }
        }
        false
    }
}
