//! The runs of the preprocessor, of any compiler that is served.
ghost use Rattle.std.specs.Prelude.{◌≡◌, IfOk, string_bytes};
ghost use Rattle.std.specs.Option.{option_map};
ghost use Rattle.scl_text.specs.Records.{parsed_of};
ghost use Rattle.scl_text.specs.Runs.{runs_of};
ghost use Rattle.scl_reader.specs.Answers.{runs_by, runs_with};
ghost use Rattle.scl_reader.specs.Reads.{runs_in};

use crate::ask::Query;
use crate::compiler::Compiler;
use crate::reading::Reading;
use scl_text::records::ParsedArguments;
use scl_text::{CCompilerImpl, Mem};
use std::alloc::Global;

/// What the runs of the preprocessor are for (docs/RULES.md, Preprocessing).
#[derive(Debug, Clone, Copy, PartialEq, Eq)]
pub struct RunOptions {
    /// They are for a distant compiler too.
    pub may_dist: bool,
    /// Macros are left in place, if the compiler can do so.
    pub rewrite_includes_only: bool,
    /// They are for a cache of preprocessor runs.
    pub cache_mode: bool,
}

/// The words of the runs of the preprocessor for a record.
#[derive(Clone, Copy)]
struct PreprocessRuns<'a> {
    parsed: &'a ParsedArguments,
    options: RunOptions,
}

impl<'a> Query for PreprocessRuns<'a> {
    ghost use Rattle.std.specs.Prelude.{◌≡◌};
    ghost use Rattle.scl_text.specs.Records.{parsed_of};
    ghost use Rattle.scl_text.specs.Runs.{runs_of};

    type Answer = Vec<Vec<Vec<u8>>>;

    ghost gives = { λ query definitions runs.
        runs_of runs.items ≡ definitions.runs query.options.may_dist query.options.rewrite_includes_only query.options.cache_mode (parsed_of query.parsed.now) };

    fn ask<C: CCompilerImpl>(self, alloc: Global, compiler: &C) -> Mem<Vec<Vec<Vec<u8>>>> {
        compiler.preprocess_passes(
            alloc,
            self.parsed,
            self.options.may_dist,
            self.options.rewrite_includes_only,
            self.options.cache_mode,
        )
    }
}

impl Compiler {
    /// The words of the runs of the preprocessor for a record that this compiler read, in order, as the options request; no
    /// version of the compiler is known (docs/RULES.md, Preprocessing).
    pub fn preprocess_runs(
        self,
        alloc: Global,
        parsed: &ParsedArguments,
        options: RunOptions,
    ) -> Mem<Vec<Vec<Vec<u8>>>>
        ensures { IfOk result (λ runs. runs_of runs.items ≡ runs_by self options.may_dist options.rewrite_includes_only options.cache_mode (parsed_of parsed.now)) }
    {
        self.preprocess_runs_with(alloc, None, parsed, options)
    }

    /// What `preprocess_runs` gives of a compiler whose version has this text, if it is known: from some version on Clang has
    /// one more flag (docs/RULES.md, Preprocessing).
    pub fn preprocess_runs_with(
        self,
        alloc: Global,
        version: Option<String>,
        parsed: &ParsedArguments,
        options: RunOptions,
    ) -> Mem<Vec<Vec<Vec<u8>>>>
        ensures { IfOk result (λ runs. runs_of runs.items ≡ runs_with (option_map string_bytes version) self options.may_dist options.rewrite_includes_only options.cache_mode (parsed_of parsed.now)) }
    {
        self.ask_with(alloc, PreprocessRuns { parsed, options }, version)
    }
}

impl Reading {
    /// The words of the runs of the preprocessor for its record, as `Compiler::preprocess_runs_with` gives them; none without a
    /// record.
    pub fn runs(
        &self,
        alloc: Global,
        version: Option<String>,
        options: RunOptions,
    ) -> Mem<Vec<Vec<Vec<u8>>>>
        ensures { IfOk result (λ runs. runs_of runs.items ≡ runs_in (option_map string_bytes version) options.may_dist options.rewrite_includes_only options.cache_mode self.now) }
    {
        match self.record() {
            Some(parsed) => self
                .compiler()
                .preprocess_runs_with(alloc, version, parsed, options),
            None => Ok(Vec::new(alloc)),
        }
    }
}
