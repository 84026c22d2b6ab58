//! The parser of the command lines of Gcc and Clang.
ghost use Rattle.std.specs.Prelude.{◌≡◌, IfOk, IsTrue};
ghost use Rattle.scl_values.specs.Tables.{tables_hold_values};
ghost use Rattle.scl_values.specs.Words.{words_of};
ghost use Rattle.scl_text.specs.JudgedWords.{judged_words};
ghost use Rattle.scl_text.specs.Records.{outcome_of, parsed_of};
ghost use Rattle.scl_text.specs.Stops.{Gives};
ghost use Rattle.scl_gnu_reading.specs.Data.{holds_value};
ghost use Rattle.scl_gnu_reading.specs.Readings.{read, reading};
ghost use Rattle.scl_gnu_reading.specs.Recordings.{is_clang};
ghost use Rattle.scl_gnu_reading.specs.Verdicts.{verdict};

use super::data::{ArgData, Kind};
use super::fixed_tests::apply_fixed_tests;
use super::inner::{ByInnerVerdict, read_inner};
use super::judge::ByVerdict;
use super::record::record_of;
use scl_args::{Mem, OfKinds, Options, SearchableArgInfo};
use scl_text::command::copy_words;
use scl_text::records::{CCompilerKind, CompilerArguments, ParsedArguments};
use scl_text::stop::into_answer;
use scl_text::view::View;
use scl_text::{ExpansionKind, Stop, judge_words};
use std::alloc::Global;

/// The options of a command line by these tables, if none is refused.
fn judge_line<S: SearchableArgInfo<ArgData> + Drop>(
    alloc: Global,
    arguments: Vec<Vec<u8>>,
    cwd: &[u8],
    arg_info: S,
    kind: CCompilerKind,
    view: &View,
) -> Result<Options<ArgData>, Stop>
    requires { IsTrue (tables_hold_values holds_value (S.tables arg_info)) }
    ensures { Gives (λ options. options) result
        (judged_words ExpansionKind.Gnu (verdict view.now.is_multiarch) (S.tables arg_info) (is_clang kind) cwd.now view.now (words_of arguments.items)) }
{
    let judge = ByVerdict {
        multiarch: view.multiarch(),
    };
    let dashes = kind == CCompilerKind::Clang;
    judge_words(
        alloc,
        ExpansionKind::Gnu,
        arguments,
        cwd,
        arg_info,
        dashes,
        &judge,
        view,
    )
}

/// The record of options that are not refused, with the inner options in them.
fn read_options(
    alloc: Global,
    options: Options<ArgData>,
    cwd: &[u8],
    plusplus: bool,
    kind: CCompilerKind,
    view: &View,
) -> Result<ParsedArguments, Stop>
    ensures { Gives parsed_of result (read kind plusplus cwd.now view.now options) }
{
    let words = options.texts(alloc, &OfKinds(&[Kind::XClang]))?;
    let inner = read_inner(alloc, words, cwd, &ByInnerVerdict, view)?;
    let found = apply_fixed_tests(alloc, &options, plusplus)?;
    Ok(record_of(alloc, options, &inner, found, kind, cwd, view)?)
}

/// The record of a command line.
fn parse<S: SearchableArgInfo<ArgData> + Drop>(
    alloc: Global,
    arguments: Vec<Vec<u8>>,
    cwd: &[u8],
    arg_info: S,
    plusplus: bool,
    kind: CCompilerKind,
    view: &View,
) -> Result<ParsedArguments, Stop>
    requires { IsTrue (tables_hold_values holds_value (S.tables arg_info)) }
    ensures { Gives parsed_of result (reading kind plusplus (S.tables arg_info) cwd.now view.now (words_of arguments.items)) }
{
    let options = judge_line(alloc, arguments, cwd, arg_info, kind, view)?;
    read_options(alloc, options, cwd, plusplus, kind, view)
}

/// The outcome of a command line, by these tables (docs/RULES.md, Gcc, and Inner command lines). It takes ownership of the
/// words. For `Clang`, `--` ends the options; if `plusplus` is set, C files are taken as C++. Paths and words are bytes; the
/// directory and the view are for what is asked of files. The outcome is the record, or the first of these refusals:
///
/// - the first of an option, in order; of each option an empty value is tested first;
/// - the last flag has no value;
/// - the same two of the inner options;
/// - the fixed tests, of which the first is `NotCompilation`.
#[tactic(auto, using(scl_text::proofs::StopLemmas::outcome_given))]
pub fn parse_arguments_owned<S: SearchableArgInfo<ArgData> + Drop>(
    alloc: Global,
    arguments: Vec<Vec<u8>>,
    cwd: &[u8],
    arg_info: S,
    plusplus: bool,
    kind: CCompilerKind,
    view: &View,
) -> Mem<CompilerArguments<ParsedArguments>>
    requires { IsTrue (tables_hold_values holds_value (S.tables arg_info)) }
    ensures { IfOk result (λ answer. outcome_of answer ≡ reading kind plusplus (S.tables arg_info) cwd.now view.now (words_of arguments.items)) }
{
    into_answer(parse(alloc, arguments, cwd, arg_info, plusplus, kind, view))
}

/// What `parse_arguments_owned` gives, with a copy of the words.
pub fn parse_arguments<S: SearchableArgInfo<ArgData> + Drop>(
    alloc: Global,
    arguments: &[Vec<u8>],
    cwd: &[u8],
    arg_info: S,
    plusplus: bool,
    kind: CCompilerKind,
    view: &View,
) -> Mem<CompilerArguments<ParsedArguments>>
    requires { IsTrue (tables_hold_values holds_value (S.tables arg_info)) }
    ensures { IfOk result (λ answer. outcome_of answer ≡ reading kind plusplus (S.tables arg_info) cwd.now view.now (words_of arguments.now)) }
{
    let arguments = copy_words(alloc, arguments)?;
    parse_arguments_owned(alloc, arguments, cwd, arg_info, plusplus, kind, view)
}
