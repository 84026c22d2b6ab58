//! TaskingVX as a compiler.
use super::args::table;
use super::{generate_compile_commands_owned, parse_arguments_owned};
use crate::preprocess::tasking_runs;
use scl_args::FlagTree;
use scl_text::records::{
    CCompilerKind, Cacheable, CommandError, CompilerArguments, ParsedArguments,
    SingleCompileCommand,
};
use scl_text::{CCompilerImpl, Mem, View};
use std::alloc::Global;

/// TaskingVX (docs/RULES.md, Diab and TaskingVX).
#[derive(Clone, Copy, Debug)]
pub struct TaskingVX;

impl CCompilerImpl for TaskingVX {
    ghost use Rattle.std.specs.Prelude.{false, None, [], ◌∷◌};
    ghost use Rattle.scl_values.specs.Tables.{owner_in};
    ghost use Rattle.scl_small.specs.TaskingAgain.{TaskingReadsAgain};
    ghost use Rattle.scl_small.specs.TaskingTable.{rows};
    ghost use Rattle.scl_small.specs.TaskingReading.{reading};
    ghost use Rattle.scl_small.specs.Command.{command_words, tasking_runs};
    ghost use Rattle.scl_text.specs.declared.records.CCompilerKind.TheVariants as compilers;
    ghost use Rattle.scl_text.specs.declared.records.Cacheable.TheVariants as cacheables;

    ghost kind_of = { λ _. compilers.TaskingVX };

    ghost plusplus_of = { λ _. false };

    ghost version_of = { λ _. None };

    ghost digest_of = { λ _. None };

    ghost reading = { λ _ words directory env_vars view. reading (owner_in (rows ∷ [])) words };

    ghost command = { λ _. command_words };

    ghost environment = { λ _ env_vars. env_vars };

    ghost cacheable = { λ _ _ _ _. cacheables.Yes };

    ghost is_read_again = { λ _ words directory env_vars view. TaskingReadsAgain words };

    ghost runs = { λ _ may_dist rewrites cache_mode. tasking_runs };

    fn kind(&self) -> CCompilerKind {
        CCompilerKind::TaskingVX
    }

    fn plusplus(&self) -> bool {
        false
    }

    fn version(&self, _alloc: Global) -> Mem<Option<String>> {
        Ok(None)
    }

    fn parse_arguments_owned(
        &self,
        alloc: Global,
        arguments: Vec<Vec<u8>>,
        cwd: &[u8],
        _env_vars: &[(Vec<u8>, Vec<u8>)],
        view: &View,
    ) -> Mem<CompilerArguments<ParsedArguments>> {
        let tree = FlagTree::build(alloc, &table())?;
        parse_arguments_owned(alloc, arguments, cwd, tree, view)
    }

    fn generate_compile_commands_owned(
        &self,
        alloc: Global,
        executable: &[u8],
        parsed: ParsedArguments,
        cwd: &[u8],
        env_vars: &[(Vec<u8>, Vec<u8>)],
        view: &View,
    ) -> Result<(SingleCompileCommand, Cacheable), CommandError> {
        generate_compile_commands_owned(alloc, executable, parsed, cwd, env_vars, view)
    }

    fn assembler_digest(&self, _alloc: Global) -> Mem<Option<String>> {
        Ok(None)
    }

    fn preprocess_passes(
        &self,
        alloc: Global,
        parsed: &ParsedArguments,
        _may_dist: bool,
        _rewrite_includes_only: bool,
        _cache_mode: bool,
    ) -> Mem<Vec<Vec<Vec<u8>>>> {
        tasking_runs(alloc, parsed)
    }
}
