//! The parser of the command lines of cl and clang-cl.
ghost use Rattle.std.specs.Prelude.{◌≡◌, IfOk};
ghost use Rattle.scl_values.specs.Words.{words_of};
ghost use Rattle.scl_text.specs.Records.{outcome_of, parsed_of};
ghost use Rattle.scl_text.specs.Stops.{Gives};
ghost use Rattle.scl_msvc_reading.specs.Readings.{read, reading};
ghost use Rattle.scl_msvc_reading.specs.Rows.{msvc_tables};

use super::args::trees;
use super::data::ArgData;
use super::fixed_tests::apply_fixed_tests;
use super::inner::{InnerOptions, both_inner};
use super::judge::ByVerdict;
use super::record::record_of;
use scl_args::{Mem, Options, SearchableArgInfo};
use scl_text::command::copy_words;
use scl_text::records::{CompilerArguments, ParsedArguments};
use scl_text::stop::into_answer;
use scl_text::view::View;
use scl_text::{ExpansionKind, Stop, judge_words};
use std::alloc::Global;

/// The record of options that are not refused, with the inner options in them.
fn read_options(
    alloc: Global,
    options: Options<ArgData>,
    cwd: &[u8],
    is_clang: bool,
    view: &View,
) -> Result<ParsedArguments, Stop>
    ensures { Gives parsed_of result (read is_clang cwd.now view.now options) }
{
    let (xclang, clang) = both_inner(alloc, &options, cwd, view)?;
    let inner = InnerOptions {
        xclang: &xclang,
        clang: &clang,
    };
    let found = apply_fixed_tests(alloc, &options, is_clang)?;
    Ok(record_of(alloc, options, &inner, found, cwd, view)?)
}

/// The record of a command line.
#[tactic(auto, using(crate::proofs::TableLaws::msvc_tables_hold_values))]
fn parse<S: SearchableArgInfo<ArgData> + Drop>(
    alloc: Global,
    arguments: Vec<Vec<u8>>,
    cwd: &[u8],
    arg_info: S,
    is_clang: bool,
    view: &View,
) -> Result<ParsedArguments, Stop>
    requires { S.tables arg_info ≡ msvc_tables }
    ensures { Gives parsed_of result (reading is_clang cwd.now view.now (words_of arguments.items)) }
{
    let judge = ByVerdict { is_clang };
    let options = judge_words(
        alloc,
        ExpansionKind::Msvc,
        arguments,
        cwd,
        arg_info,
        is_clang,
        &judge,
        view,
    )?;
    read_options(alloc, options, cwd, is_clang, view)
}

/// The outcome of a command line of cl, or of clang-cl (docs/RULES.md, Msvc). It takes ownership of the words. Paths and
/// words are bytes; the directory and the view are for what is asked of files. The outcome is the record, or the first of
/// these refusals:
///
/// - the first of an option, in order; of each option an empty value is tested first;
/// - the last flag has no value;
/// - the same two of the inner options, those after `-Xclang` before those after `-clang:`;
/// - the fixed tests, of which the first is `NotCompilation`.
pub fn parse_arguments_owned(
    alloc: Global,
    arguments: Vec<Vec<u8>>,
    cwd: &[u8],
    is_clang: bool,
    view: &View,
) -> Mem<CompilerArguments<ParsedArguments>>
    ensures { IfOk result (λ answer. outcome_of answer ≡ reading is_clang cwd.now view.now (words_of arguments.items)) }
{
    parse_arguments_by(alloc, arguments, cwd, trees(alloc)?, is_clang, view)
}

/// What `parse_arguments_owned` gives, by Msvc's tables or by trees from `trees`.
#[tactic(auto, using(scl_text::proofs::StopLemmas::outcome_given))]
pub fn parse_arguments_by<S: SearchableArgInfo<ArgData> + Drop>(
    alloc: Global,
    arguments: Vec<Vec<u8>>,
    cwd: &[u8],
    arg_info: S,
    is_clang: bool,
    view: &View,
) -> Mem<CompilerArguments<ParsedArguments>>
    requires { S.tables arg_info ≡ msvc_tables }
    ensures { IfOk result (λ answer. outcome_of answer ≡ reading is_clang cwd.now view.now (words_of arguments.items)) }
{
    into_answer(parse(alloc, arguments, cwd, arg_info, is_clang, view))
}

/// What `parse_arguments_owned` gives, with a copy of the words.
pub fn parse_arguments(
    alloc: Global,
    arguments: &[Vec<u8>],
    cwd: &[u8],
    is_clang: bool,
    view: &View,
) -> Mem<CompilerArguments<ParsedArguments>>
    ensures { IfOk result (λ answer. outcome_of answer ≡ reading is_clang cwd.now view.now (words_of arguments.now)) }
{
    let arguments = copy_words(alloc, arguments)?;
    parse_arguments_owned(alloc, arguments, cwd, is_clang, view)
}
