//! The words of lists of options.
ghost use Rattle.std.specs.Prelude.{◌≡◌, ◌++◌, map, IfOk, OnOk};
ghost use Rattle.scl_values.specs.Seen.{seen};
ghost use Rattle.scl_values.specs.Spell.{spell_value};
ghost use Rattle.scl_args.specs.Options.{spelled_on, list};
ghost use Rattle.scl_values.specs.Words.{words_of};

use crate::options::Test;
use scl_values::{ArgDisposition, Argument, Mem, NormalizedDisposition, ReadArg, join_word};
use std::alloc::Global;

/// The side of a flag on which an option of a list prints its value, if its row allows both (docs/RULES.md, Printing).
pub trait Sides {
    ghost use Rattle.std.specs.Prelude.{ℕ, List};
    ghost use Rattle.scl_values.specs.declared.argument.NormalizedDisposition.{NormalizedDisposition};

    /// The side of a flag.
    ghost side: { Self → List ℕ → NormalizedDisposition };

    /// The side of the flag.
    fn side(&self, flag: &str) -> NormalizedDisposition
        ensures { result ≡ side self.now flag.now };
}

/// Flags of two bytes are printed joined to their values, any others apart (docs/RULES.md, Printing).
#[derive(Clone, Copy, Debug)]
pub struct ShortFlagsJoined;

impl Sides for ShortFlagsJoined {
    ghost use Rattle.scl_args.specs.Options.{side_of_flag};

    ghost side = { λ _. side_of_flag };

    fn side(&self, flag: &str) -> NormalizedDisposition {
        if flag.len() == 2 {
            NormalizedDisposition::Concatenated
        } else {
            NormalizedDisposition::Separated
        }
    }
}

fn push_value<T: ReadArg>(
    alloc: Global,
    words: &mut Vec<Vec<u8>>,
    flag: &str,
    value: &T,
    disposition: ArgDisposition,
) -> Mem<()>
    ensures { OnOk result (words_of words.new.items ≡ words_of words.old.items ++ spell_value flag.now (T.word_of value.now) disposition) }
{
    match disposition {
        ArgDisposition::Separated | ArgDisposition::CanBeConcatenated(_) => {
            words.push(Vec::from_slice(alloc, flag.as_bytes())?)?;
            words.push(Vec::from_slice(alloc, value.word())?)?;
        }
        ArgDisposition::CanBeSeparated(delimiter) | ArgDisposition::Concatenated(delimiter) => {
            words.push(join_word(alloc, flag, delimiter, value.word())?)?;
        }
    }
    Ok(())
}

/// Appends the words of the option, its value on the side of its flag (docs/RULES.md, Printing). If it fails, the first of
/// two words may have been appended.
pub fn push_option<T: ReadArg, S: Sides>(
    alloc: Global,
    words: &mut Vec<Vec<u8>>,
    option: &Argument<T>,
    sides: &S,
) -> Mem<()>
    ensures { OnOk result (words_of words.new.items ≡ words_of words.old.items ++ spelled_on (S.side sides.now) (seen T.kind_of T.word_of option.now)) }
{
    match option {
        Argument::Raw(word) | Argument::UnknownFlag(word) => {
            words.push(Vec::from_slice(alloc, word)?)?;
            Ok(())
        }
        Argument::Flag(flag, _) => {
            words.push(Vec::from_slice(alloc, flag.as_bytes())?)?;
            Ok(())
        }
        Argument::WithValue(flag, value, disposition) => {
            let disposition = disposition.normalize(sides.side(flag));
            push_value(alloc, words, flag, value, disposition)
        }
    }
}

/// Appends the words of the option as `push_option` does. The word of an option without a flag is moved, not copied.
pub(crate) fn push_whole<T: ReadArg, S: Sides>(
    alloc: Global,
    words: &mut Vec<Vec<u8>>,
    option: Argument<T>,
    sides: &S,
) -> Mem<()>
    ensures { OnOk result (words_of words.new.items ≡ words_of words.old.items ++ spelled_on (S.side sides.now) (seen T.kind_of T.word_of option)) }
{
    match option {
        Argument::Raw(word) | Argument::UnknownFlag(word) => {
            words.push(word)?;
            Ok(())
        }
        known @ (Argument::Flag(_, _) | Argument::WithValue(_, _, _)) => {
            push_option(alloc, words, &known, sides)
        }
    }
}

/// The words of the options that pass, each option on the side of its flag (docs/RULES.md, Lists of options).
pub(crate) fn list<T: ReadArg, S: Sides, P: Test<T>>(
    alloc: Global,
    options: &[Argument<T>],
    sides: &S,
    test: &P,
) -> Mem<Vec<Vec<u8>>>
    ensures { IfOk result (λ words. words_of words.items ≡ list (S.side sides.now) (P.passes test.now) (map (seen T.kind_of T.word_of) options.now)) }
{
    let mut words = Vec::new(alloc);
    for option in options {
        if test.passes(option) {
            push_option(alloc, &mut words, option, sides)?;
        }
    }
    Ok(words)
}
