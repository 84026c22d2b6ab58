//! Clang.
ghost use Rattle.std.specs.Prelude.{◌≡◌, IfOk, IsOk, None, false, true};
ghost use Rattle.std.specs.Option.{option_copied, option_map};
ghost use Rattle.std.specs.String.{string_bytes};
ghost use Rattle.scl_text.specs.Languages.{clang_text};
ghost use Rattle.scl_gnu.specs.Versions.{is_minversion};

use super::preprocess::clang_runs;
use super::version::names_at_least;
use crate::gcc;
use scl_args::Mem;
use scl_gnu_reading::clang::trees;
use scl_text::CCompilerImpl;
use scl_text::command::copy_text;
use scl_text::language::Language;
use scl_text::records::{
    CCompilerKind, Cacheable, CommandError, CompilerArguments, ParsedArguments,
    SingleCompileCommand,
};
use scl_text::view::View;
use std::alloc::Global;

/// The text that clang's `-x` takes for the language, if there is one (docs/RULES.md, Languages).
pub fn language_to_clang_arg(language: Language) -> Option<&'static str>
    ensures { option_copied result ≡ clang_text language }
{
    language.to_clang_arg()
}

/// Clang, the C or the C++ driver, Apple's or not; its version and the digest of its assembler, if they are known
/// (docs/RULES.md, Clang).
#[derive(Debug, Drop)]
pub struct Clang {
    /// Whether it is the C++ driver.
    pub clangplusplus: bool,
    /// Whether it is Apple's, whose versions are numbered differently.
    pub is_appleclang: bool,
    /// The text of its version, if it is known.
    pub version: Option<String>,
    /// The digest of its assembler, if it is known.
    pub assembler_digest: Option<String>,
}

impl Clang {
    /// Clang's C or C++ driver, not Apple's, with unknown version and assembler.
    pub fn new(clangplusplus: bool) -> Clang
        ensures driver { result.clangplusplus ≡ clangplusplus }
        ensures maker { result.is_appleclang ≡ false }
        ensures unknown { (result.version ≡ None) × (result.assembler_digest ≡ None) }
    {
        Clang {
            clangplusplus,
            is_appleclang: false,
            version: None,
            assembler_digest: None,
        }
    }

    /// Whether the version is at least `major`.0.0. It is false for Apple's clang, for an unknown version, and for a text
    /// without a version (docs/RULES.md, Clang). For Apple's and an unknown version it does not fail.
    pub fn is_minversion(&self, alloc: Global, major: u64) -> Mem<bool>
        ensures is_new { IfOk result (λ is_new. is_new ≡ is_minversion self.now.is_appleclang (option_map string_bytes self.now.version) major) }
        ensures apple { self.now.is_appleclang ≡ true → IsOk result }
        ensures unknown { self.now.version ≡ None → IsOk result }
    {
        if self.is_appleclang {
            return Ok(false);
        }
        match &self.version {
            Some(version) => names_at_least(alloc, version.as_str(), major),
            None => Ok(false),
        }
    }
}

impl CCompilerImpl for Clang {
    ghost use Rattle.std.specs.Option.{option_map};
    ghost use Rattle.std.specs.String.{string_bytes};
    ghost use Rattle.scl_text.specs.declared.records.CCompilerKind.TheVariants as compilers;
    ghost use Rattle.scl_text.specs.declared.records.Cacheable.TheVariants as cacheables;
    ghost use Rattle.scl_text.specs.Languages.{clang_text};
    ghost use Rattle.scl_gnu.specs.Building.{command_words};
    ghost use Rattle.scl_gnu_reading.specs.ClangRows.{clang_tables};
    ghost use Rattle.scl_gnu.specs.Preprocess.{clang_runs};
    ghost use Rattle.scl_gnu.specs.ReadAgain.{ClangReadsAgain};
    ghost use Rattle.scl_gnu_reading.specs.Readings.{reading};

    ghost kind_of = { λ _. compilers.Clang };

    ghost plusplus_of = { λ clang. clang.clangplusplus };

    ghost version_of = { λ clang. option_map string_bytes clang.version };

    ghost digest_of = { λ clang. option_map string_bytes clang.assembler_digest };

    ghost reading = { λ clang words directory env_vars view. reading compilers.Clang clang.clangplusplus clang_tables directory view words };

    ghost command = { λ _ parsed. command_words (clang_text parsed.language) parsed };

    ghost environment = { λ _ env_vars. env_vars };

    ghost cacheable = { λ _ parsed directory view. cacheables.Yes };

    ghost is_read_again = { λ _ words directory env_vars view. ClangReadsAgain directory view words };

    ghost runs = { λ clang. clang_runs clang.is_appleclang (option_map string_bytes clang.version) };

    fn kind(&self) -> CCompilerKind {
        CCompilerKind::Clang
    }

    fn plusplus(&self) -> bool {
        self.clangplusplus
    }

    fn version(&self, alloc: Global) -> Mem<Option<String>> {
        copy_text(alloc, &self.version)
    }

    fn parse_arguments_owned(
        &self,
        alloc: Global,
        arguments: Vec<Vec<u8>>,
        cwd: &[u8],
        _env_vars: &[(Vec<u8>, Vec<u8>)],
        view: &View,
    ) -> Mem<CompilerArguments<ParsedArguments>> {
        gcc::parse_arguments_owned(
            alloc,
            arguments,
            cwd,
            trees(alloc)?,
            self.clangplusplus,
            CCompilerKind::Clang,
            view,
        )
    }

    fn generate_compile_commands_owned(
        &self,
        alloc: Global,
        executable: &[u8],
        parsed: ParsedArguments,
        cwd: &[u8],
        env_vars: &[(Vec<u8>, Vec<u8>)],
        view: &View,
    ) -> Result<(SingleCompileCommand, Cacheable), CommandError> {
        gcc::generate_compile_commands_owned(
            alloc,
            executable,
            parsed,
            cwd,
            env_vars,
            CCompilerKind::Clang,
            language_to_clang_arg,
            view,
        )
    }

    fn assembler_digest(&self, alloc: Global) -> Mem<Option<String>> {
        copy_text(alloc, &self.assembler_digest)
    }

    fn preprocess_passes(
        &self,
        alloc: Global,
        parsed: &ParsedArguments,
        may_dist: bool,
        rewrite_includes_only: bool,
        cache_mode: bool,
    ) -> Mem<Vec<Vec<Vec<u8>>>> {
        clang_runs(
            alloc,
            self,
            parsed,
            may_dist,
            rewrite_includes_only,
            cache_mode,
        )
    }
}
