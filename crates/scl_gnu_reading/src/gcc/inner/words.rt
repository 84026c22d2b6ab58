//! Words of inner options, each after `-Xclang`.
ghost use Rattle.std.specs.Prelude.{◌≡◌, ◌++◌, OnOk};
ghost use Rattle.scl_values.specs.Words.{words_of};
ghost use Rattle.scl_gnu_reading.specs.Inners.{inner_words_at};

use super::place::Inside;
use crate::gcc::data::ArgData;
use crate::gcc::place::Place;
use scl_args::{Mem, Options, ShortFlagsJoined};
use scl_text::command::push_word;
use std::alloc::Global;

/// Appends the words of the inner options of this place, each after `-Xclang`.
pub(crate) fn push_inner(
    alloc: Global,
    words: &mut Vec<Vec<u8>>,
    inner: &Options<ArgData>,
    there: Place,
) -> Mem<()>
    ensures { OnOk result (words_of words.new.items ≡ words_of words.old.items ++ inner_words_at there inner.now) }
{
    for word in inner.list(alloc, &ShortFlagsJoined, &Inside(there))? {
        push_word(alloc, words, b"-Xclang")?;
        words.push(word)?;
    }
    Ok(())
}
