//! From words to the outcome.
ghost use Rattle.std.specs.Prelude.{◌≡◌, IfOk, IsTrue};
ghost use Rattle.scl_values.specs.Tables.{owner_in, tables_hold_values};
ghost use Rattle.scl_values.specs.Words.{words_of};
ghost use Rattle.scl_text.specs.Records.{outcome_of, parsed_of};
ghost use Rattle.scl_text.specs.Stops.{Gives};
ghost use Rattle.scl_small.specs.Readings.{reads, tested_by};

use crate::fixed_tests::read_options;
use crate::judge::{ByRules, Rules};
use scl_args::SearchableArgInfo;
use scl_text::records::{CompilerArguments, ParsedArguments};
use scl_text::stop::into_answer;
use scl_text::{Mem, Stop, judge_cut};
use std::alloc::Global;

/// The record of the words, cut by the tables.
fn parse<T: Rules, S: SearchableArgInfo<T> + Drop>(
    alloc: Global,
    words: Vec<Vec<u8>>,
    arg_info: S,
) -> Result<ParsedArguments, Stop>
    requires { IsTrue (tables_hold_values T.holds_value (S.tables arg_info)) }
    ensures { Gives parsed_of result (reads T.verdict (tested_by T.place T.compile_flag_for) (owner_in (S.tables arg_info)) (words_of words.items)) }
{
    let options = judge_cut(alloc, words, arg_info, false, &ByRules)?;
    read_options(alloc, options)
}

/// The outcome of the words, cut by the tables.
#[tactic(auto, using(scl_text::proofs::StopLemmas::outcome_given))]
pub(crate) fn read_words<T: Rules, S: SearchableArgInfo<T> + Drop>(
    alloc: Global,
    words: Vec<Vec<u8>>,
    arg_info: S,
) -> Mem<CompilerArguments<ParsedArguments>>
    requires { IsTrue (tables_hold_values T.holds_value (S.tables arg_info)) }
    ensures { IfOk result (λ answer. outcome_of answer ≡ reads T.verdict (tested_by T.place T.compile_flag_for) (owner_in (S.tables arg_info)) (words_of words.items)) }
{
    into_answer(parse(alloc, words, arg_info))
}
