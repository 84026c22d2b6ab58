//! From words to TaskingVX's outcome.
ghost use Rattle.std.specs.Prelude.{◌≡◌, IfOk, IsTrue};
ghost use Rattle.scl_values.specs.Tables.{owner_in, tables_hold_values};
ghost use Rattle.scl_values.specs.Words.{words_of};
ghost use Rattle.scl_text.specs.Records.{outcome_of};
ghost use Rattle.scl_small.specs.TaskingValues.{holds_value};
ghost use Rattle.scl_small.specs.TaskingReading.{reading};

use super::data::ArgData;
use crate::parse::read_words;
use scl_args::SearchableArgInfo;
use scl_text::command::copy_words;
use scl_text::records::{CompilerArguments, ParsedArguments};
use scl_text::{Mem, View};
use std::alloc::Global;

/// The outcome, for TaskingVX, of words (docs/RULES.md, Diab and TaskingVX): the record, or the first refusal. The kinds of
/// the tables' rows that take a value must hold one. It takes ownership of the words. Response files are not expanded, so
/// directory and view are not used.
pub fn parse_arguments_owned<S: SearchableArgInfo<ArgData> + Drop>(
    alloc: Global,
    arguments: Vec<Vec<u8>>,
    _cwd: &[u8],
    arg_info: S,
    _view: &View,
) -> Mem<CompilerArguments<ParsedArguments>>
    requires { IsTrue (tables_hold_values holds_value (S.tables arg_info)) }
    ensures { IfOk result (λ answer. outcome_of answer ≡ reading (owner_in (S.tables arg_info)) (words_of arguments.items)) }
{
    read_words::<ArgData, S>(alloc, arguments, arg_info)
}

/// What `parse_arguments_owned` gives, with a copy of the words.
pub fn parse_arguments<S: SearchableArgInfo<ArgData> + Drop>(
    alloc: Global,
    arguments: &[Vec<u8>],
    cwd: &[u8],
    arg_info: S,
    view: &View,
) -> Mem<CompilerArguments<ParsedArguments>>
    requires { IsTrue (tables_hold_values holds_value (S.tables arg_info)) }
    ensures { IfOk result (λ answer. outcome_of answer ≡ reading (owner_in (S.tables arg_info)) (words_of arguments.now)) }
{
    let arguments = copy_words(alloc, arguments)?;
    parse_arguments_owned(alloc, arguments, cwd, arg_info, view)
}
