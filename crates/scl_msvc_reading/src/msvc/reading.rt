//! A command line of cl or clang-cl, read once; all answers about it are functions of this.
ghost use Rattle.std.specs.Prelude.{◌≡◌, true, false, IfOk, MatchResult};
ghost use Rattle.scl_files.specs.Expanded.{expanded_of};
ghost use Rattle.scl_text.specs.Records.{outcome_of, parsed_of};
ghost use Rattle.scl_text.specs.Stops.{Gives};
ghost use Rattle.scl_values.specs.Words.{words_of};
ghost use Rattle.scl_msvc_reading.specs.ReadBy.{AreInnerLines};
ghost use Rattle.scl_msvc_reading.specs.Reads.{are_behind_within, are_inner_within, is_behind_within, line_behind, outcome_by, outer_read, read_by, refused_by};

use super::args::trees;
use super::data::{ArgData, Kind};
use super::fixed_tests::apply_fixed_tests;
use super::inner::{ByInnerVerdict, InnerOptions};
use super::judge::ByVerdict;
use super::record::record_beside;
use scl_args::{Mem, OfKinds};
use scl_gnu_reading::gcc;
use scl_text::records::{CompilerArguments, ParsedArguments};
use scl_text::stop::into_answer;
use scl_text::view::View;
use scl_text::{Expanded, Limits, Line, ReadLine, Stop, TooManyWords};
use std::alloc::Global;
use std::marker::Model;

/// A command line of cl or clang-cl, read.
#[derive(Drop)]
pub struct MsvcReading {
    is_clang: bool,
    environment: Vec<Vec<u8>>,
    outer: ReadLine<ArgData>,
    xclang: ReadLine<gcc::ArgData>,
    clang: ReadLine<gcc::ArgData>,
    handed: Vec<Vec<u8>>,
    inner: ReadLine<gcc::ArgData>,
    outcome: CompilerArguments<ParsedArguments>,
}

impl Model for MsvcReading {
    ghost use Rattle.scl_text.specs.Records.{outcome_of};
    ghost use Rattle.scl_values.specs.Words.{words_of};
    ghost use Rattle.scl_msvc_reading.specs.Reads.{MsvcRead};

    ghost Value = { MsvcRead };

    ghost view = { λ r. record {
      is_clang = r.is_clang;
      environment = words_of r.environment.items;
      outer = r.outer;
      xclang = r.xclang;
      clang = r.clang;
      handed = words_of r.handed.items;
      inner = r.inner;
      outcome = outcome_of r.outcome;
    } };
}

/// The given line.
#[tactic(auto, using(crate::proofs::TableLaws::msvc_tables_hold_values))]
fn outer_line(alloc: Global, is_clang: bool, expanded: Expanded) -> Mem<ReadLine<ArgData>>
    ensures { IfOk result (λ line. line ≡ outer_read is_clang (expanded_of expanded)) }
{
    let trees = trees(alloc)?;
    ReadLine::read(alloc, &trees, is_clang, &ByVerdict { is_clang }, expanded)
}

/// The line of the words in the options of these kinds, if its words and openings of files are within the limits.
fn line_behind(
    alloc: Global,
    outer: &Line<ArgData>,
    kinds: &[Kind],
    cwd: &[u8],
    view: &View,
    most: Limits,
) -> Mem<Result<ReadLine<gcc::ArgData>, TooManyWords>>
    ensures { IfOk result (λ said. let within = is_behind_within most kinds.now cwd.now view.now outer.now in
        MatchResult said (λ line. (within ≡ true) × (line ≡ line_behind kinds.now cwd.now view.now outer.now)) (λ _. within ≡ false)) }
{
    let handed = outer.handed_on(alloc, &OfKinds(kinds))?;
    gcc::read_inner_line(alloc, &ByInnerVerdict, handed, cwd, view, most)
}

/// The inner lines of a line: of the words after `-Xclang`, of those after `-clang:`, and of both together.
#[derive(Drop)]
struct InnerLines {
    xclang: ReadLine<gcc::ArgData>,
    clang: ReadLine<gcc::ArgData>,
    handed: Vec<Vec<u8>>,
    either: ReadLine<gcc::ArgData>,
}

/// The inner lines, if the words and openings of files of each are within the limits.
fn inner_lines(
    alloc: Global,
    outer: &Line<ArgData>,
    cwd: &[u8],
    view: &View,
    most: Limits,
) -> Mem<Result<InnerLines, TooManyWords>>
    ensures { IfOk result (λ said. let within = are_behind_within most cwd.now view.now outer.now in
        MatchResult said (λ lines. (within ≡ true) × AreInnerLines cwd.now view.now outer.now lines) (λ _. within ≡ false)) }
{
    let xclang = match line_behind(alloc, outer, &[Kind::XClang], cwd, view, most)? {
        Ok(xclang) => xclang,
        Err(too_many) => return Ok(Err(too_many)),
    };
    let clang = match line_behind(alloc, outer, &[Kind::Clang], cwd, view, most)? {
        Ok(clang) => clang,
        Err(too_many) => return Ok(Err(too_many)),
    };
    let kinds = [Kind::XClang, Kind::Clang];
    let handed = outer.options().texts(alloc, &OfKinds(&kinds))?;
    let either = match line_behind(alloc, outer, &kinds, cwd, view, most)? {
        Ok(either) => either,
        Err(too_many) => return Ok(Err(too_many)),
    };
    Ok(Ok(InnerLines {
        xclang,
        clang,
        handed,
        either,
    }))
}

/// The record of lines that are not refused.
fn record(
    alloc: Global,
    outer: &Line<ArgData>,
    xclang: &Line<gcc::ArgData>,
    clang: &Line<gcc::ArgData>,
    cwd: &[u8],
    is_clang: bool,
    view: &View,
) -> Result<ParsedArguments, Stop>
    ensures { Gives parsed_of result (outcome_by is_clang cwd.now view.now outer.now xclang.now clang.now) }
{
    outer.check(alloc)?;
    xclang.check(alloc)?;
    clang.check(alloc)?;
    let options = outer.options();
    let inner = InnerOptions {
        xclang: xclang.options(),
        clang: clang.options(),
    };
    let found = apply_fixed_tests(alloc, options, is_clang)?;
    Ok(record_beside(alloc, options, &inner, found, cwd, view)?)
}

/// The outcome of the lines.
#[tactic(auto, using(scl_text::proofs::StopLemmas::outcome_given))]
fn outcome(
    alloc: Global,
    outer: &Line<ArgData>,
    xclang: &Line<gcc::ArgData>,
    clang: &Line<gcc::ArgData>,
    cwd: &[u8],
    is_clang: bool,
    view: &View,
) -> Mem<CompilerArguments<ParsedArguments>>
    ensures { IfOk result (λ answer. outcome_of answer ≡ outcome_by is_clang cwd.now view.now outer.now xclang.now clang.now) }
{
    into_answer(record(alloc, outer, xclang, clang, cwd, is_clang, view))
}

impl MsvcReading {
    /// The reading of expanded words, some of which the environment gave, if the words and openings of files of
    /// each inner line are within the limits; else `TooManyWords`.
    pub fn read(
        alloc: Global,
        environment: Vec<Vec<u8>>,
        expanded: Expanded,
        cwd: &[u8],
        is_clang: bool,
        view: &View,
        most: Limits,
    ) -> Mem<Result<MsvcReading, TooManyWords>>
        ensures { IfOk result (λ said. let within = are_inner_within most is_clang cwd.now view.now (expanded_of expanded) in
            MatchResult said (λ r. (within ≡ true) × (r ≡ read_by is_clang cwd.now view.now (words_of environment.items) (expanded_of expanded))) (λ _. within ≡ false)) }
    {
        let outer = outer_line(alloc, is_clang, expanded)?;
        let inner = match inner_lines(alloc, outer.line(), cwd, view, most)? {
            Ok(inner) => inner,
            Err(too_many) => return Ok(Err(too_many)),
        };
        let (xclang, clang) = (inner.xclang.line(), inner.clang.line());
        let outcome = outcome(alloc, outer.line(), xclang, clang, cwd, is_clang, view)?;
        Ok(Ok(MsvcReading {
            is_clang,
            environment,
            outer,
            xclang: inner.xclang,
            clang: inner.clang,
            handed: inner.handed,
            inner: inner.either,
            outcome,
        }))
    }

    /// A reading without words, of a line that is refused before they are read.
    pub fn refused(
        alloc: Global,
        is_clang: bool,
        outcome: CompilerArguments<ParsedArguments>,
    ) -> MsvcReading
        ensures { result ≡ refused_by is_clang (outcome_of outcome) }
    {
        MsvcReading {
            is_clang,
            environment: Vec::new(alloc),
            outer: ReadLine::none(alloc),
            xclang: ReadLine::none(alloc),
            clang: ReadLine::none(alloc),
            handed: Vec::new(alloc),
            inner: ReadLine::none(alloc),
            outcome,
        }
    }

    /// Whether it is clang-cl.
    pub fn is_clang(&self) -> bool
        ensures { result ≡ self.now.is_clang }
    {
        self.is_clang
    }

    /// The words from the environment.
    pub fn environment(&self) -> &[Vec<u8>]
        ensures { words_of result.now ≡ self.now.environment }
    {
        &self.environment
    }

    /// The given line, with the words from the environment.
    pub fn outer(&self) -> &ReadLine<ArgData>
        ensures { result.now ≡ self.now.outer }
    {
        &self.outer
    }

    /// The line of the words after `-Xclang`.
    pub fn xclang(&self) -> &ReadLine<gcc::ArgData>
        ensures { result.now ≡ self.now.xclang }
    {
        &self.xclang
    }

    /// The line of the words after `-clang:`.
    pub fn clang(&self) -> &ReadLine<gcc::ArgData>
        ensures { result.now ≡ self.now.clang }
    {
        &self.clang
    }

    /// The words for both inner lines, in order, before expansion.
    pub fn handed(&self) -> &[Vec<u8>]
        ensures { words_of result.now ≡ self.now.handed }
    {
        &self.handed
    }

    /// The line of these words together.
    pub fn inner(&self) -> &ReadLine<gcc::ArgData>
        ensures { result.now ≡ self.now.inner }
    {
        &self.inner
    }

    /// Its outcome: the record, or why it is refused.
    pub fn outcome(&self) -> &CompilerArguments<ParsedArguments>
        ensures { outcome_of result.now ≡ self.now.outcome }
    {
        &self.outcome
    }

    /// Its outcome; the rest of the reading is dropped.
    pub fn into_outcome(self) -> CompilerArguments<ParsedArguments>
        ensures { outcome_of result ≡ self.outcome }
    {
        self.outcome
    }
}
