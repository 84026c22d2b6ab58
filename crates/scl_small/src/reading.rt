//! A command line of Diab or TaskingVX, read once; all answers about it are functions of this.
ghost use Rattle.std.specs.Prelude.{◌≡◌, IfOk, IsTrue};
ghost use Rattle.scl_files.specs.Expanded.{expanded_of};
ghost use Rattle.scl_text.specs.Records.{outcome_of, parsed_of};
ghost use Rattle.scl_text.specs.Stops.{Gives};
ghost use Rattle.scl_values.specs.Tables.{owner_in, tables_hold_values};
ghost use Rattle.scl_small.specs.Readings.{tested_by};
ghost use Rattle.scl_small.specs.Reads.{outcome_by, read_by};

use crate::fixed_tests::read_beside;
use crate::judge::{ByRules, Rules};
use scl_args::SearchableArgInfo;
use scl_text::records::{CompilerArguments, ParsedArguments};
use scl_text::stop::into_answer;
use scl_text::{Expanded, Line, Mem, ReadLine, Stop};
use std::alloc::Global;
use std::marker::Model;

/// A command line of Diab or TaskingVX, read.
#[derive(Drop)]
pub struct SmallReading<T: Rules> {
    outer: ReadLine<T>,
    outcome: CompilerArguments<ParsedArguments>,
}

impl<T: Rules> Model for SmallReading<T> {
    ghost use Rattle.scl_text.specs.Records.{outcome_of};
    ghost use Rattle.scl_small.specs.Reads.{SmallRead};

    ghost Value = { SmallRead T.Kind };

    ghost view = { λ r. record { outer = r.outer; outcome = outcome_of r.outcome } };
}

/// The record of a line that is not refused.
fn record<T: Rules>(alloc: Global, line: &Line<T>) -> Result<ParsedArguments, Stop>
    ensures { Gives parsed_of result (outcome_by (tested_by T.place T.compile_flag_for) line.now) }
{
    line.check(alloc)?;
    read_beside(alloc, line.options())
}

/// The outcome of the line.
#[tactic(auto, using(scl_text::proofs::StopLemmas::outcome_given))]
fn outcome<T: Rules>(alloc: Global, line: &Line<T>) -> Mem<CompilerArguments<ParsedArguments>>
    ensures { IfOk result (λ answer. outcome_of answer ≡ outcome_by (tested_by T.place T.compile_flag_for) line.now) }
{
    into_answer(record(alloc, line))
}

impl<T: Rules> SmallReading<T> {
    /// The reading of expanded words, by these tables.
    pub fn read<S: SearchableArgInfo<T>>(
        alloc: Global,
        expanded: Expanded,
        arg_info: &S,
    ) -> Mem<SmallReading<T>>
        requires { IsTrue (tables_hold_values T.holds_value (S.tables arg_info.now)) }
        ensures { IfOk result (λ r. r ≡ read_by T.verdict (tested_by T.place T.compile_flag_for) (owner_in (S.tables arg_info.now)) (expanded_of expanded)) }
    {
        let outer = ReadLine::read(alloc, arg_info, false, &ByRules, expanded)?;
        let outcome = outcome(alloc, outer.line())?;
        Ok(SmallReading { outer, outcome })
    }

    /// The line.
    pub fn outer(&self) -> &ReadLine<T>
        ensures { result.now ≡ self.now.outer }
    {
        &self.outer
    }

    /// Its outcome: the record, or why it is refused.
    pub fn outcome(&self) -> &CompilerArguments<ParsedArguments>
        ensures { outcome_of result.now ≡ self.now.outcome }
    {
        &self.outcome
    }

    /// Its outcome; the rest of the reading is dropped.
    pub fn into_outcome(self) -> CompilerArguments<ParsedArguments>
        ensures { outcome_of result ≡ self.outcome }
    {
        self.outcome
    }
}
