//! Empty values of either rows.
ghost use Rattle.std.specs.Prelude.{◌≡◌};
ghost use Rattle.scl_args.specs.Empties.{finds_either, has_empty_value, stands_either};
ghost use Rattle.scl_values.specs.Row.{row_at};
ghost use Rattle.scl_values.specs.Seen.{seen};
ghost use Rattle.scl_values.specs.Tables.{owner_in};

use scl_tables::SearchableArgInfo;
use scl_values::{ArgDisposition, ArgInfo, ArgRow, Argument, ArgumentValue, ReadArg};

/// Whether a row was found and its shape is either.
fn finds_either<T: ArgumentValue>(row: Option<&ArgInfo<T>>) -> bool
    ensures { result ≡ finds_either (row_at row.entry) }
{
    match row {
        None | Some(ArgRow::Flag(_, _)) => false,
        Some(ArgRow::TakeArg(_, _, disposition)) => match *disposition {
            ArgDisposition::Separated | ArgDisposition::Concatenated(_) => false,
            ArgDisposition::CanBeConcatenated(_) | ArgDisposition::CanBeSeparated(_) => true,
        },
    }
}

/// Whether an empty value with this disposition belongs to an either row. The tables are searched only if the value is joined
/// without a delimiter.
fn stands_either<T: ArgumentValue, S: SearchableArgInfo<T>>(
    arg_info: &S,
    flag: &str,
    disposition: ArgDisposition,
) -> bool
    ensures { result ≡ stands_either (owner_in (S.tables arg_info.now)) flag.now disposition }
{
    match disposition {
        ArgDisposition::Separated | ArgDisposition::Concatenated(Some(_)) => false,
        ArgDisposition::CanBeConcatenated(_) | ArgDisposition::CanBeSeparated(_) => true,
        ArgDisposition::Concatenated(None) => finds_either::<T>(arg_info.search(flag.as_bytes())),
    }
}

/// Whether the option's value is empty and its row, in the tables by which it was cut, has an either shape (docs/RULES.md,
/// Readings).
pub fn has_empty_value<T: ReadArg, S: SearchableArgInfo<T>>(
    arg_info: &S,
    option: &Argument<T>,
) -> bool
    ensures { result ≡ has_empty_value (owner_in (S.tables arg_info.now)) (seen T.kind_of T.word_of option.now) }
{
    match option {
        Argument::Raw(_) | Argument::UnknownFlag(_) | Argument::Flag(_, _) => false,
        Argument::WithValue(flag, value, disposition) => {
            value.word().is_empty() && stands_either::<T, S>(arg_info, flag, *disposition)
        }
    }
}
