//! Diab as a compiler.
ghost use Rattle.std.specs.Prelude.{◌≡◌, None};

use super::args::table;
use super::{generate_compile_commands_owned, parse_arguments_owned};
use crate::preprocess::diab_runs;
use scl_args::FlagTree;
use scl_text::command::copy_text;
use scl_text::records::{
    CCompilerKind, Cacheable, CommandError, CompilerArguments, ParsedArguments,
    SingleCompileCommand,
};
use scl_text::{CCompilerImpl, Mem, View};
use std::alloc::Global;

/// Diab, and its version if it is known (docs/RULES.md, Diab and TaskingVX).
#[derive(Debug, Drop)]
pub struct Diab {
    /// Its version, if it is known.
    pub version: Option<String>,
}

impl Diab {
    /// Diab with an unknown version.
    pub fn new() -> Diab
        ensures { result.version ≡ None }
    {
        Diab { version: None }
    }
}

impl CCompilerImpl for Diab {
    ghost use Rattle.std.specs.Prelude.{false, None, [], ◌∷◌};
    ghost use Rattle.std.specs.Option.{option_map};
    ghost use Rattle.std.specs.String.{string_bytes};
    ghost use Rattle.scl_values.specs.Tables.{owner_in};
    ghost use Rattle.scl_small.specs.DiabAgain.{DiabReadsAgain};
    ghost use Rattle.scl_small.specs.DiabTable.{rows};
    ghost use Rattle.scl_small.specs.DiabReading.{expanded_reading};
    ghost use Rattle.scl_small.specs.Command.{command_words, diab_runs};
    ghost use Rattle.scl_text.specs.declared.records.CCompilerKind.TheVariants as compilers;
    ghost use Rattle.scl_text.specs.declared.records.Cacheable.TheVariants as cacheables;

    ghost kind_of = { λ _. compilers.Diab };

    ghost plusplus_of = { λ _. false };

    ghost version_of = { λ diab. option_map string_bytes diab.version };

    ghost digest_of = { λ _. None };

    ghost reading = { λ _ words directory env_vars view. expanded_reading (owner_in (rows ∷ [])) directory view.files words };

    ghost command = { λ _. command_words };

    ghost environment = { λ _ env_vars. env_vars };

    ghost cacheable = { λ _ _ _ _. cacheables.Yes };

    ghost is_read_again = { λ _ words directory env_vars view. DiabReadsAgain directory view.files words };

    ghost runs = { λ _ may_dist rewrites cache_mode. diab_runs };

    fn kind(&self) -> CCompilerKind {
        CCompilerKind::Diab
    }

    fn plusplus(&self) -> bool {
        false
    }

    fn version(&self, alloc: Global) -> Mem<Option<String>> {
        copy_text(alloc, &self.version)
    }

    fn parse_arguments_owned(
        &self,
        alloc: Global,
        arguments: Vec<Vec<u8>>,
        cwd: &[u8],
        _env_vars: &[(Vec<u8>, Vec<u8>)],
        view: &View,
    ) -> Mem<CompilerArguments<ParsedArguments>> {
        let tree = FlagTree::build(alloc, &table())?;
        parse_arguments_owned(alloc, arguments, cwd, tree, view)
    }

    fn generate_compile_commands_owned(
        &self,
        alloc: Global,
        executable: &[u8],
        parsed: ParsedArguments,
        cwd: &[u8],
        env_vars: &[(Vec<u8>, Vec<u8>)],
        view: &View,
    ) -> Result<(SingleCompileCommand, Cacheable), CommandError> {
        generate_compile_commands_owned(alloc, executable, parsed, cwd, env_vars, view)
    }

    fn assembler_digest(&self, _alloc: Global) -> Mem<Option<String>> {
        Ok(None)
    }

    fn preprocess_passes(
        &self,
        alloc: Global,
        parsed: &ParsedArguments,
        _may_dist: bool,
        _rewrite_includes_only: bool,
        _cache_mode: bool,
    ) -> Mem<Vec<Vec<Vec<u8>>>> {
        diab_runs(alloc, parsed)
    }
}
