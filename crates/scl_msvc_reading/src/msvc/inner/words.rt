//! Words of inner options, each with its wrapper.
ghost use Rattle.std.specs.Prelude.{◌≡◌, ◌++◌, IfOk, OnOk, codes};
ghost use Rattle.std.specs.List.{flat_map};
ghost use Rattle.scl_values.specs.Words.{words_of};
ghost use Rattle.scl_args.specs.Wrapped.{wrapped_apart, wrapped_joined};
ghost use Rattle.scl_msvc_reading.specs.InnerBy.{inner_of};
ghost use Rattle.scl_msvc_reading.specs.Inners.{inner_list, inner_words_at};

use super::options::InnerOptions;
use super::place::Inside;
use crate::msvc::place::Place;
use scl_args::{Mem, Options, ShortFlagsJoined};
use scl_gnu_reading::gcc;
use scl_text::command::push_word;
use scl_values::join_word;
use std::alloc::Global;

fn inner_list(alloc: Global, inner: &Options<gcc::ArgData>, there: Place) -> Mem<Vec<Vec<u8>>>
    ensures { IfOk result (λ words. words_of words.items ≡ inner_list there inner.now) }
{
    inner.list(alloc, &ShortFlagsJoined, &Inside(there))
}

/// Appends words, each after `-Xclang`.
fn push_behind_xclang(alloc: Global, words: &mut Vec<Vec<u8>>, inner: Vec<Vec<u8>>) -> Mem<()>
    ensures { OnOk result (words_of words.new.items ≡ words_of words.old.items ++ flat_map (wrapped_apart (codes "-Xclang")) (words_of inner.items)) }
{
    for word in inner {
        push_word(alloc, words, b"-Xclang")?;
        words.push(word)?;
    }
    Ok(())
}

/// Appends words, each joined to `-clang:`.
#[tactic(auto, using(crate::proofs::InnerLemmas::undelimited))]
fn push_joined_to_clang(alloc: Global, words: &mut Vec<Vec<u8>>, inner: Vec<Vec<u8>>) -> Mem<()>
    ensures { OnOk result (words_of words.new.items ≡ words_of words.old.items ++ flat_map (wrapped_joined (codes "-clang:")) (words_of inner.items)) }
{
    for word in inner {
        words.push(join_word(alloc, "-clang:", None, &word)?)?;
    }
    Ok(())
}

/// Appends the words of the inner options of this place, each with the flag of its inner line.
pub(crate) fn push_inner(
    alloc: Global,
    words: &mut Vec<Vec<u8>>,
    inner: &InnerOptions<'_>,
    there: Place,
) -> Mem<()>
    ensures { OnOk result (words_of words.new.items ≡ words_of words.old.items ++ inner_words_at there (inner_of inner.now)) }
{
    push_behind_xclang(alloc, words, inner_list(alloc, inner.xclang, there)?)?;
    push_joined_to_clang(alloc, words, inner_list(alloc, inner.clang, there)?)
}
