//! An iterator that cuts words into options.
ghost use Rattle.std.specs.Prelude.{◌≡◌, List, true, false, Result};
ghost use Rattle.std.specs.Bool.{OnFalse};
ghost use Rattle.std.specs.Iterator.{count_unless, Drains};
ghost use Rattle.scl_values.specs.declared.argument.Argument.{Argument};
ghost use Rattle.scl_values.specs.declared.error.ArgParseError.{ArgParseError};
ghost use Rattle.scl_values.specs.Tables.{owner_in};
ghost use Rattle.scl_cutting.specs.Iter.{CutsNext, CutsRun, cutter};

use crate::piece::option_of;
use scl_tables::SearchableArgInfo;
use scl_values::{ArgParseResult, Argument, ArgumentValue};
use std::alloc::Global;
use std::marker::{Model, PhantomData};

/// Cuts the words of an iterator into options (docs/RULES.md, Cutting). Each option can be printed as texts. The first error
/// is the last item:
/// - `UnexpectedEndOfArgs`: the last flag has no value.
/// - an error of `make`: a value can't be made from its word.
/// - `Memory`: an allocation failed.
#[derive(Drop)]
pub struct ArgsIter<I, T, S> {
    alloc: Global,
    arguments: I,
    arg_info: S,
    double_dashes: bool,
    only_raw: bool,
    ended: bool,
    value: PhantomData<T>,
}

impl<I, T, S> Model for ArgsIter<I, T, S> {
    ghost use Rattle.scl_cutting.specs.State.{State};

    ghost Value = { State I S };

    ghost view = { λ s. record { arguments = s.arguments; arg_info = s.arg_info; double_dashes = s.double_dashes; only_raw = s.only_raw; ended = s.ended } };
}

impl<I: Iterator<Item = Vec<u8>> + Drop, T: ArgumentValue, S: SearchableArgInfo<T> + Drop> Iterator
    for ArgsIter<I, T, S> {
    type Item = ArgParseResult<Argument<T>>;

    ghost can_next = { λ s. OnFalse s.ended (I.can_next s.arguments) };

    ghost next_gives = { λ s r t.
        CutsNext I.next_gives T.make_gives
        (cutter s.arguments (owner_in (S.tables s.arg_info)) s.double_dashes s.only_raw s.ended)
        r
        (cutter t.arguments (owner_in (S.tables t.arg_info)) t.double_dashes t.only_raw t.ended) };

    ghost remaining = { λ s. count_unless s.ended (I.remaining s.arguments) };

    fn next(&mut self) -> Option<ArgParseResult<Argument<T>>> {
        if self.ended {
            return None;
        }
        let Some(word) = self.arguments.next() else {
            self.ended = true;
            return None;
        };
        if self.only_raw {
            return Some(Ok(Argument::Raw(word)));
        }
        if self.double_dashes && word.as_slice() == b"--".as_slice() {
            self.only_raw = true;
            return Some(Ok(Argument::Raw(word)));
        }
        let (item, over) = option_of(self.alloc, &mut self.arguments, &self.arg_info, word);
        self.ended = over;
        Some(item)
    }
}

impl<I: Iterator<Item = Vec<u8>> + Drop, T: ArgumentValue, S: SearchableArgInfo<T> + Drop> ArgsIter<
    I,
    T,
    S,
> {
    /// Cuts these words by the rows of a table, or of several. It allocates nothing.
    pub fn new(alloc: Global, arguments: I, arg_info: S) -> ArgsIter<I, T, S>
        ensures arguments { result.arguments ≡ arguments }
        ensures arg_info { result.arg_info ≡ arg_info }
        ensures state { (result.double_dashes ≡ false) × (result.only_raw ≡ false) × (result.ended ≡ false) }
        ensures runs { (items : List (Result (Argument T) ArgParseError)) → Drains (⟦<ArgsIter<I, T, S> as Iterator>⟧.next_gives) result items
            → CutsRun I.next_gives T.make_gives (cutter arguments (owner_in (S.tables arg_info)) false false false) items }
    {
        ArgsIter {
            alloc,
            arguments,
            arg_info,
            double_dashes: false,
            only_raw: false,
            ended: false,
            value: PhantomData,
        }
    }

    /// The same, except that the first word `--` where an option may begin, and all words after it, are raw.
    pub fn with_double_dashes(self) -> ArgsIter<I, T, S>
        ensures arguments { result.arguments ≡ self.arguments }
        ensures arg_info { result.arg_info ≡ self.arg_info }
        ensures state { (result.double_dashes ≡ true) × (result.only_raw ≡ self.only_raw) × (result.ended ≡ self.ended) }
        ensures runs { (items : List (Result (Argument T) ArgParseError)) → Drains (⟦<ArgsIter<I, T, S> as Iterator>⟧.next_gives) result items
            → CutsRun I.next_gives T.make_gives (cutter result.arguments (owner_in (S.tables result.arg_info)) true result.only_raw result.ended) items }
    {
        ArgsIter {
            double_dashes: true,
            ..self
        }
    }
}
