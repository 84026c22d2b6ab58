//! A command line of Gcc or Clang, read once; all answers about it are functions of this.
ghost use Rattle.std.specs.Prelude.{◌≡◌, true, false, IfOk, IsTrue, MatchResult};
ghost use Rattle.scl_files.specs.Expanded.{expanded_of};
ghost use Rattle.scl_text.specs.Records.{outcome_of, parsed_of};
ghost use Rattle.scl_text.specs.Stops.{Gives};
ghost use Rattle.scl_values.specs.Tables.{tables_hold_values};
ghost use Rattle.scl_values.specs.Words.{words_of};
ghost use Rattle.scl_gnu_reading.specs.Data.{holds_value};
ghost use Rattle.scl_gnu_reading.specs.Reads.{is_inner_within, outcome_by, outer_read, read_by};

use super::data::{ArgData, Kind};
use super::fixed_tests::apply_fixed_tests;
use super::inner::{ByInnerVerdict, read_inner_line};
use super::judge::ByVerdict;
use super::record::record_beside;
use scl_args::{Mem, OfKinds, SearchableArgInfo};
use scl_text::command::copy_words;
use scl_text::records::{CCompilerKind, CompilerArguments, ParsedArguments};
use scl_text::stop::into_answer;
use scl_text::view::View;
use scl_text::{Expanded, Limits, Line, ReadLine, Stop, TooManyWords};
use std::alloc::Global;
use std::marker::Model;

/// A command line of Gcc or Clang, read.
#[derive(Drop)]
pub struct GnuReading {
    kind: CCompilerKind,
    plusplus: bool,
    outer: ReadLine<ArgData>,
    handed: Vec<Vec<u8>>,
    inner: ReadLine<ArgData>,
    outcome: CompilerArguments<ParsedArguments>,
}

impl Model for GnuReading {
    ghost use Rattle.scl_text.specs.Records.{outcome_of};
    ghost use Rattle.scl_values.specs.Words.{words_of};
    ghost use Rattle.scl_gnu_reading.specs.Reads.{GnuRead};

    ghost Value = { GnuRead };

    ghost view = { λ r. record { compiler = r.kind; plusplus = r.plusplus; outer = r.outer; handed = words_of r.handed.items; inner = r.inner; outcome = outcome_of r.outcome } };
}

/// The given line.
fn outer_line<S: SearchableArgInfo<ArgData>>(
    alloc: Global,
    arg_info: &S,
    kind: CCompilerKind,
    view: &View,
    expanded: Expanded,
) -> Mem<ReadLine<ArgData>>
    requires { IsTrue (tables_hold_values holds_value (S.tables arg_info.now)) }
    ensures { IfOk result (λ line. line ≡ outer_read kind (S.tables arg_info.now) view.now (expanded_of expanded)) }
{
    let judge = ByVerdict {
        multiarch: view.multiarch(),
    };
    let dashes = kind == CCompilerKind::Clang;
    ReadLine::read(alloc, arg_info, dashes, &judge, expanded)
}

/// The record of lines that are not refused.
fn record(
    alloc: Global,
    outer: &Line<ArgData>,
    inner: &Line<ArgData>,
    cwd: &[u8],
    plusplus: bool,
    kind: CCompilerKind,
    view: &View,
) -> Result<ParsedArguments, Stop>
    ensures { Gives parsed_of result (outcome_by kind plusplus cwd.now view.now outer.now inner.now) }
{
    outer.check(alloc)?;
    inner.check(alloc)?;
    let (options, inner) = (outer.options(), inner.options());
    let found = apply_fixed_tests(alloc, options, plusplus)?;
    Ok(record_beside(alloc, options, inner, found, kind, cwd, view)?)
}

/// The outcome of the lines.
#[tactic(auto, using(scl_text::proofs::StopLemmas::outcome_given))]
fn outcome(
    alloc: Global,
    outer: &Line<ArgData>,
    inner: &Line<ArgData>,
    cwd: &[u8],
    plusplus: bool,
    kind: CCompilerKind,
    view: &View,
) -> Mem<CompilerArguments<ParsedArguments>>
    ensures { IfOk result (λ answer. outcome_of answer ≡ outcome_by kind plusplus cwd.now view.now outer.now inner.now) }
{
    into_answer(record(alloc, outer, inner, cwd, plusplus, kind, view))
}

impl GnuReading {
    /// The reading of expanded words by these tables, if the words and openings of files of the inner line are within the
    /// limits; else `TooManyWords`.
    pub fn read<S: SearchableArgInfo<ArgData>>(
        alloc: Global,
        expanded: Expanded,
        cwd: &[u8],
        arg_info: &S,
        plusplus: bool,
        kind: CCompilerKind,
        view: &View,
        most: Limits,
    ) -> Mem<Result<GnuReading, TooManyWords>>
        requires { IsTrue (tables_hold_values holds_value (S.tables arg_info.now)) }
        ensures { IfOk result (λ said. let within = is_inner_within most kind (S.tables arg_info.now) cwd.now view.now (expanded_of expanded) in
            MatchResult said (λ r. (within ≡ true) × (r ≡ read_by kind plusplus (S.tables arg_info.now) cwd.now view.now (expanded_of expanded))) (λ _. within ≡ false)) }
    {
        let outer = outer_line(alloc, arg_info, kind, view, expanded)?;
        let given = outer.line().handed_on(alloc, &OfKinds(&[Kind::XClang]))?;
        let handed = copy_words(alloc, &given.words)?;
        let inner = match read_inner_line(alloc, &ByInnerVerdict, given, cwd, view, most)? {
            Ok(inner) => inner,
            Err(too_many) => return Ok(Err(too_many)),
        };
        let outcome = outcome(alloc, outer.line(), inner.line(), cwd, plusplus, kind, view)?;
        Ok(Ok(GnuReading {
            kind,
            plusplus,
            outer,
            handed,
            inner,
            outcome,
        }))
    }

    /// Gcc or Clang.
    pub fn kind(&self) -> CCompilerKind
        ensures { result ≡ self.now.compiler }
    {
        self.kind
    }

    /// Whether it is the C++ driver.
    pub fn plusplus(&self) -> bool
        ensures { result ≡ self.now.plusplus }
    {
        self.plusplus
    }

    /// The given line.
    pub fn outer(&self) -> &ReadLine<ArgData>
        ensures { result.now ≡ self.now.outer }
    {
        &self.outer
    }

    /// The words for the inner command line, before expansion.
    pub fn handed(&self) -> &[Vec<u8>]
        ensures { words_of result.now ≡ self.now.handed }
    {
        &self.handed
    }

    /// The inner command line.
    pub fn inner(&self) -> &ReadLine<ArgData>
        ensures { result.now ≡ self.now.inner }
    {
        &self.inner
    }

    /// Its outcome: the record, or why it is refused.
    pub fn outcome(&self) -> &CompilerArguments<ParsedArguments>
        ensures { outcome_of result.now ≡ self.now.outcome }
    {
        &self.outcome
    }

    /// Its outcome; the rest of the reading is dropped.
    pub fn into_outcome(self) -> CompilerArguments<ParsedArguments>
        ensures { outcome_of result ≡ self.outcome }
    {
        self.outcome
    }
}
