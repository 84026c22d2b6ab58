//! Gcc.
ghost use Rattle.std.specs.Prelude.{◌≡◌, None};

use super::command::{generate_compile_commands_owned, language_to_gcc_arg};
use super::preprocess::gcc_runs;
use scl_args::{FlagTree, Mem};
use scl_gnu_reading::gcc::{parse_arguments_owned, table};
use scl_text::CCompilerImpl;
use scl_text::command::copy_text;
use scl_text::records::{
    CCompilerKind, Cacheable, CommandError, CompilerArguments, ParsedArguments,
    SingleCompileCommand,
};
use scl_text::view::View;
use std::alloc::Global;

/// Gcc, the C or the C++ driver; its version and the digest of its assembler, if they are known (docs/RULES.md, Gcc).
#[derive(Debug, Drop)]
pub struct Gcc {
    /// Whether it is the C++ driver.
    pub gplusplus: bool,
    /// Its version, if it is known.
    pub version: Option<String>,
    /// The digest of its assembler, if it is known.
    pub assembler_digest: Option<String>,
}

impl Gcc {
    /// Gcc's C or C++ driver, with unknown version and assembler.
    pub fn new(gplusplus: bool) -> Gcc
        ensures driver { result.gplusplus ≡ gplusplus }
        ensures unknown { (result.version ≡ None) × (result.assembler_digest ≡ None) }
    {
        Gcc {
            gplusplus,
            version: None,
            assembler_digest: None,
        }
    }
}

impl CCompilerImpl for Gcc {
    ghost use Rattle.std.specs.Prelude.{[], ◌∷◌};
    ghost use Rattle.std.specs.Option.{option_map};
    ghost use Rattle.std.specs.String.{string_bytes};
    ghost use Rattle.scl_text.specs.declared.records.CCompilerKind.TheVariants as compilers;
    ghost use Rattle.scl_text.specs.declared.records.Cacheable.TheVariants as cacheables;
    ghost use Rattle.scl_text.specs.Languages.{gcc_text};
    ghost use Rattle.scl_gnu.specs.Building.{command_words};
    ghost use Rattle.scl_gnu_reading.specs.GccRows.{gcc_rows};
    ghost use Rattle.scl_gnu.specs.Preprocess.{gcc_runs};
    ghost use Rattle.scl_gnu.specs.ReadAgain.{GccReadsAgain};
    ghost use Rattle.scl_gnu_reading.specs.Readings.{reading};

    ghost kind_of = { λ _. compilers.Gcc };

    ghost plusplus_of = { λ gcc. gcc.gplusplus };

    ghost version_of = { λ gcc. option_map string_bytes gcc.version };

    ghost digest_of = { λ gcc. option_map string_bytes gcc.assembler_digest };

    ghost reading = { λ gcc words directory env_vars view. reading compilers.Gcc gcc.gplusplus (gcc_rows ∷ []) directory view words };

    ghost command = { λ _ parsed. command_words (gcc_text parsed.language) parsed };

    ghost environment = { λ _ env_vars. env_vars };

    ghost cacheable = { λ _ parsed directory view. cacheables.Yes };

    ghost is_read_again = { λ _ words directory env_vars view. GccReadsAgain directory view words };

    ghost runs = { λ _. gcc_runs };

    fn kind(&self) -> CCompilerKind {
        CCompilerKind::Gcc
    }

    fn plusplus(&self) -> bool {
        self.gplusplus
    }

    fn version(&self, alloc: Global) -> Mem<Option<String>> {
        copy_text(alloc, &self.version)
    }

    fn parse_arguments_owned(
        &self,
        alloc: Global,
        arguments: Vec<Vec<u8>>,
        cwd: &[u8],
        _env_vars: &[(Vec<u8>, Vec<u8>)],
        view: &View,
    ) -> Mem<CompilerArguments<ParsedArguments>> {
        parse_arguments_owned(
            alloc,
            arguments,
            cwd,
            FlagTree::build(alloc, &table())?,
            self.gplusplus,
            CCompilerKind::Gcc,
            view,
        )
    }

    fn generate_compile_commands_owned(
        &self,
        alloc: Global,
        executable: &[u8],
        parsed: ParsedArguments,
        cwd: &[u8],
        env_vars: &[(Vec<u8>, Vec<u8>)],
        view: &View,
    ) -> Result<(SingleCompileCommand, Cacheable), CommandError> {
        generate_compile_commands_owned(
            alloc,
            executable,
            parsed,
            cwd,
            env_vars,
            CCompilerKind::Gcc,
            language_to_gcc_arg,
            view,
        )
    }

    fn assembler_digest(&self, alloc: Global) -> Mem<Option<String>> {
        copy_text(alloc, &self.assembler_digest)
    }

    fn preprocess_passes(
        &self,
        alloc: Global,
        parsed: &ParsedArguments,
        may_dist: bool,
        rewrite_includes_only: bool,
        cache_mode: bool,
    ) -> Mem<Vec<Vec<Vec<u8>>>> {
        gcc_runs(alloc, parsed, may_dist, rewrite_includes_only, cache_mode)
    }
}
