//! Filters over a finished list of options: the last that passes a test, its flag or text, whether any passes, and the texts
//! of those that do.
ghost use Rattle.std.specs.Prelude.{◌≡◌, IfOk, map};
ghost use Rattle.std.specs.List.{list_any};
ghost use Rattle.std.specs.Option.{option_map};
ghost use Rattle.scl_values.specs.Seen.{seen};
ghost use Rattle.scl_values.specs.Words.{words_of};
ghost use Rattle.scl_args.specs.Options.{begins_with_at, names_file, is_dashes, last, last_by, last_text, texts};

use scl_values::{ArgDisposition, Argument, ArgumentValue, Mem, ReadArg};
use std::alloc::Global;

/// A test of options (docs/RULES.md, Lists of options).
pub trait Test<T: ArgumentValue> {
    ghost use Rattle.std.specs.Prelude.{Bool};
    ghost use Rattle.scl_values.specs.Seen.{Seen};

    /// Whether an option passes.
    ghost passes: { Self → Seen T.Kind → Bool };

    /// Whether the option passes.
    fn passes(&self, option: &Argument<T>) -> bool
        ensures { result ≡ passes self.now (seen T.kind_of T.word_of option.now) };
}

/// The test for options of these kinds.
#[derive(Clone, Copy, Debug)]
pub struct OfKinds<'a, K>(pub &'a [K]);

impl<'a, K: PartialEq> OfKinds<'a, K> {
    /// Whether the kind is one of these. A loop, because `contains` would make a call for each option of a filter.
    fn has(&self, kind: &K) -> bool
        ensures { result ≡ list_any (λ other. K.eq other kind.now) self.now.0.now }
    {
        self.0.iter().any(|other| other == kind)
    }
}

impl<'a, T: ReadArg> Test<T> for OfKinds<'a, T::Kind>
where
    T::Kind: PartialEq,
{
    ghost use Rattle.scl_args.specs.Options.{of_kinds};

    ghost passes = { λ test. of_kinds T.Kind.eq test.0.now };

    fn passes(&self, option: &Argument<T>) -> bool {
        match option {
            Argument::Raw(_) | Argument::UnknownFlag(_) => false,
            Argument::Flag(_, value) | Argument::WithValue(_, value, _) => {
                self.has(&value.kind())
            }
        }
    }
}

/// The last of the options that pass.
pub(crate) fn last_by<'a, T: ArgumentValue, P: Test<T>>(
    options: &'a [Argument<T>],
    test: &P,
) -> Option<&'a Argument<T>>
    ensures { option_map (λ option. seen T.kind_of T.word_of option.now) result ≡ last_by (P.passes test.now) (map (seen T.kind_of T.word_of) options.now) }
{
    let mut left = options;
    while let Some((option, before)) = left.split_last() {
        if test.passes(option) {
            return Some(option);
        }
        left = before;
    }
    None
}

/// The last of the options.
pub fn last_option<T: ArgumentValue>(options: &[Argument<T>]) -> Option<&Argument<T>>
    ensures { option_map (λ option. seen T.kind_of T.word_of option.now) result ≡ last (map (seen T.kind_of T.word_of) options.now) }
{
    options.last()
}

/// The text of the last of the options that pass.
pub fn last_text<'a, T: ReadArg, P: Test<T>>(
    options: &'a [Argument<T>],
    test: &P,
) -> Option<&'a [u8]>
    ensures { option_map (λ text. text.now) result ≡ last_text (P.passes test.now) (map (seen T.kind_of T.word_of) options.now) }
{
    Some(last_by(options, test)?.text())
}

/// The texts of the options that pass, in order.
pub fn texts<T: ReadArg, P: Test<T>>(
    alloc: Global,
    options: &[Argument<T>],
    test: &P,
) -> Mem<Vec<Vec<u8>>>
    ensures { IfOk result (λ words. words_of words.items ≡ texts (P.passes test.now) (map (seen T.kind_of T.word_of) options.now)) }
{
    let mut words = Vec::new(alloc);
    for option in options {
        if test.passes(option) {
            words.push(Vec::from_slice(alloc, option.text())?)?;
        }
    }
    Ok(words)
}

/// Whether the option is the raw word `--`.
pub fn is_dashes<T: ArgumentValue>(option: &Argument<T>) -> bool
    ensures { result ≡ is_dashes (seen T.kind_of T.word_of option.now) }
{
    match option {
        Argument::Raw(word) => word.as_slice() == b"--".as_slice(),
        Argument::UnknownFlag(_) | Argument::Flag(_, _) | Argument::WithValue(_, _, _) => false,
    }
}

fn begins_with_at(value: &[u8]) -> bool
    ensures { result ≡ begins_with_at value.now }
{
    value.first() == Some(&b'@')
}

/// Whether the option's value begins with `@` and was a word of its own, or could have been: such a value names a file that
/// was not expanded (docs/RULES.md, Readings).
pub fn names_file<T: ReadArg>(option: &Argument<T>) -> bool
    ensures { result ≡ names_file (seen T.kind_of T.word_of option.now) }
{
    match option {
        Argument::Raw(_)
        | Argument::UnknownFlag(_)
        | Argument::Flag(_, _)
        | Argument::WithValue(_, _, ArgDisposition::Concatenated(_)) => false,
        Argument::WithValue(
            _,
            value,
            ArgDisposition::Separated
            | ArgDisposition::CanBeConcatenated(_)
            | ArgDisposition::CanBeSeparated(_),
        ) => begins_with_at(value.word()),
    }
}
