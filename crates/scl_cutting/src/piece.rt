//! What one word is cut into, and where the value is.
ghost use Rattle.std.specs.Prelude.{◌≡◌, ◌≤◌, length, drop, is_err, IfOk, true};
ghost use Rattle.std.specs.Bool.{OnFalse};
ghost use Rattle.std.specs.Iterator.{IsFinite, size};
ghost use Rattle.scl_values.specs.Row.{either, row_of, shape_of};
ghost use Rattle.scl_values.specs.Tables.{owner_in, has_ascii_delimiter};
ghost use Rattle.scl_values.specs.Cuts.{flag, with_value, owned_piece, piece_at, after_delimiter};
ghost use Rattle.scl_cutting.specs.Places.{piece_of_place, IsPlaceIn, has_ascii_delimiters};
ghost use Rattle.scl_cutting.specs.Iter.{Makes, CutsPiece};
ghost use Rattle.scl_values.specs.Texts.{is_delimited_by_ascii};

use scl_tables::SearchableArgInfo;
use scl_values::{
    ArgDisposition, ArgInfo, ArgParseError, ArgParseResult, ArgRow, Argument, ArgumentValue,
    Delimiter,
};
use std::alloc::Global;

/// Where the value of a flag is whose row fits a word.
#[derive(Drop)]
pub(crate) enum ValuePlace {
    /// The flag takes no value.
    Nowhere,
    /// The value begins at this index of the word.
    Joined(usize, ArgDisposition),
    /// The value is the next word. If none is left, the second disposition, if any, is that of an empty value.
    NextWord(ArgDisposition, Option<ArgDisposition>),
}

fn skip_delimiter(delimiter: Delimiter, word: &[u8], start: usize) -> usize
    requires { start ≤ length word.now }
    ensures bound { result ≤ length word.now }
    ensures rest { drop result word.now ≡ after_delimiter delimiter (drop start word.now) }
{
    match delimiter {
        Some(byte) if start < word.len() && word[start] == byte => start + 1,
        Some(_) | None => start,
    }
}

/// Where the value of a flag of an either row is.
#[tactic(auto, using(crate::proofs::CutsLemmas::piece_at_either))]
fn either_place<K>(row: &ArgRow<K>, delimiter: Delimiter, word: &[u8]) -> ValuePlace
    requires { length (row_of row.now).flag ≤ length word.now }
    ensures bound { IsPlaceIn word.now result }
    ensures piece { piece_of_place (row_of row.now) word.now result
        ≡ piece_at (row_of row.now) (either delimiter) (drop (length (row_of row.now).flag) word.now) }
    ensures delimiter { has_ascii_delimiter (either delimiter) ≡ true → has_ascii_delimiters result ≡ true }
{
    let start = row.flag().len();
    if start < word.len() {
        return ValuePlace::Joined(
            skip_delimiter(delimiter, word, start),
            ArgDisposition::CanBeSeparated(delimiter),
        );
    }
    let last = match delimiter {
        None => Some(ArgDisposition::Concatenated(None)),
        Some(_) => None,
    };
    ValuePlace::NextWord(ArgDisposition::CanBeConcatenated(delimiter), last)
}

fn value_place<K>(row: &ArgRow<K>, word: &[u8]) -> ValuePlace
    requires { length (row_of row.now).flag ≤ length word.now }
    ensures bound { IsPlaceIn word.now result }
    ensures piece { piece_of_place (row_of row.now) word.now result
        ≡ piece_at (row_of row.now) (row_of row.now).shape (drop (length (row_of row.now).flag) word.now) }
    ensures delimiter { has_ascii_delimiter (row_of row.now).shape ≡ true → has_ascii_delimiters result ≡ true }
{
    let start = row.flag().len();
    match row {
        ArgRow::Flag(_, _) => ValuePlace::Nowhere,
        ArgRow::TakeArg(_, _, disposition) => match *disposition {
            ArgDisposition::Separated => ValuePlace::NextWord(ArgDisposition::Separated, None),
            ArgDisposition::Concatenated(delimiter) => ValuePlace::Joined(
                skip_delimiter(delimiter, word, start),
                ArgDisposition::Concatenated(delimiter),
            ),
            ArgDisposition::CanBeConcatenated(delimiter)
            | ArgDisposition::CanBeSeparated(delimiter) => either_place(row, delimiter, word),
        },
    }
}

fn make_flag<T: ArgumentValue>(alloc: Global, row: &ArgInfo<T>) -> ArgParseResult<Argument<T>>
    ensures made { Makes T.make_gives (flag (row_of row.now)) result }
    ensures delimiter { IfOk result (λ option. is_delimited_by_ascii option ≡ true) }
{
    let value = T::make(alloc, row.kind(), Vec::new(alloc))?;
    Ok(Argument::Flag(row.flag(), value))
}

fn make_with_value<T: ArgumentValue>(
    alloc: Global,
    row: &ArgInfo<T>,
    word: Vec<u8>,
    disposition: ArgDisposition,
) -> ArgParseResult<Argument<T>>
    ensures made { Makes T.make_gives (with_value (row_of row.now) word.items disposition) result }
    ensures delimiter { IfOk result (λ option. is_delimited_by_ascii option ≡ has_ascii_delimiter (shape_of disposition)) }
{
    let value = T::make(alloc, row.kind(), word)?;
    Ok(Argument::WithValue(row.flag(), value, disposition))
}

fn make_joined<T: ArgumentValue>(
    alloc: Global,
    row: &ArgInfo<T>,
    word: &[u8],
    disposition: ArgDisposition,
) -> ArgParseResult<Argument<T>>
    ensures made { Makes T.make_gives (with_value (row_of row.now) word.now disposition) result }
    ensures delimiter { IfOk result (λ option. is_delimited_by_ascii option ≡ has_ascii_delimiter (shape_of disposition)) }
{
    make_with_value(alloc, row, Vec::from_slice(alloc, word)?, disposition)
}

fn over_on_error<T: ArgumentValue>(
    item: ArgParseResult<Argument<T>>,
) -> (ArgParseResult<Argument<T>>, bool)
    ensures item { result.0 ≡ item }
    ensures over { result.1 ≡ is_err item }
{
    let over = item.is_err();
    (item, over)
}

/// The option that begins with a word where an option may begin, and whether it is the last item.
#[tactic(auto, using(scl_tables::proofs::TablesLemmas::owner_in_length))]
pub(crate) fn option_of<I: Iterator<Item = Vec<u8>>, T: ArgumentValue, S: SearchableArgInfo<T>>(
    alloc: Global,
    arguments: &mut I,
    arg_info: &S,
    word: Vec<u8>,
) -> (ArgParseResult<Argument<T>>, bool)
    requires { I.can_next arguments.old }
    ensures piece { CutsPiece I.next_gives T.make_gives (owned_piece (owner_in (S.tables arg_info.now) word.items) word.items)
        arguments.old result.0 result.1 arguments.new }
    ensures delimiter { IfOk result.0 (λ option. is_delimited_by_ascii option ≡ true) }
    ensures goes_on { OnFalse result.1 (I.can_next arguments.new) }
    ensures finite { IsFinite (I.remaining arguments.old) → IsFinite (I.remaining arguments.new) }
    ensures fewer { IsFinite (I.remaining arguments.old) → OnFalse result.1 (size (I.remaining arguments.new) ≤ size (I.remaining arguments.old)) }
{
    let Some(row) = arg_info.search(word.as_slice()) else {
        if word.first() == Some(&b'-') {
            return (Ok(Argument::UnknownFlag(word)), false);
        }
        return (Ok(Argument::Raw(word)), false);
    };
    match value_place(row, word.as_slice()) {
        ValuePlace::Nowhere => over_on_error(make_flag(alloc, row)),
        ValuePlace::Joined(start, disposition) => {
            over_on_error(make_joined(alloc, row, &word[start..], disposition))
        }
        ValuePlace::NextWord(disposition, last) => match (arguments.next(), last) {
            (Some(value), _) => over_on_error(make_with_value(alloc, row, value, disposition)),
            (None, Some(last)) => (make_with_value(alloc, row, Vec::new(alloc), last), true),
            (None, None) => (Err(ArgParseError::UnexpectedEndOfArgs), true),
        },
    }
}
