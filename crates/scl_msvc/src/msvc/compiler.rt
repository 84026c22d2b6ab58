//! Msvc.
ghost use Rattle.std.specs.Prelude.{◌≡◌, IfOk, None};
ghost use Rattle.scl_values.specs.Words.{words_of};
ghost use Rattle.scl_text.specs.Commands.{pairs_of};
ghost use Rattle.scl_text.specs.Records.{outcome_of};
ghost use Rattle.scl_msvc.specs.Environment.{surrounded_reading};
ghost use Rattle.scl_msvc_reading.specs.Rows.{msvc_tables};

use super::command::generate_compile_commands_owned;
use super::environment::surround;
use super::preprocess::runs;
use scl_args::{Mem, SearchableArgInfo};
use scl_msvc_reading::msvc::{ArgData, parse_arguments_by, trees};
use scl_text::CCompilerImpl;
use scl_text::command::copy_text;
use scl_text::records::{
    CCompilerKind, Cacheable, CommandError, CompilerArguments, ParsedArguments,
    SingleCompileCommand,
};
use scl_text::stop::into_answer;
use scl_text::view::View;
use std::alloc::Global;

/// Microsoft's cl, or clang-cl; its version, if it is known, and the prefix of the lines in which it prints the names of
/// included files (docs/RULES.md, Msvc).
#[derive(Debug, PartialEq, Eq, Drop)]
pub struct Msvc {
    /// The prefix of the lines in which it prints the names of included files.
    pub includes_prefix: String,
    /// Whether it is clang-cl; else it is cl.
    pub is_clang: bool,
    /// Its version, if it is known.
    pub version: Option<String>,
}

impl Msvc {
    /// cl or clang-cl, with this prefix for the names of included files, and an unknown version.
    pub fn new(is_clang: bool, includes_prefix: String) -> Msvc
        ensures compiler { result.is_clang ≡ is_clang }
        ensures prefix { result.includes_prefix ≡ includes_prefix }
        ensures unknown { result.version ≡ None }
    {
        Msvc {
            includes_prefix,
            is_clang,
            version: None,
        }
    }
}

/// The outcome of words, between those that the environment gives, by Msvc's tables or by trees from `trees` (docs/RULES.md,
/// Msvc). It takes ownership of the words.
#[tactic(auto, using(crate::proofs::EnvironmentLemmas::refusal_given))]
pub fn parse_surrounded<S: SearchableArgInfo<ArgData> + Drop>(
    alloc: Global,
    arguments: Vec<Vec<u8>>,
    cwd: &[u8],
    env_vars: &[(Vec<u8>, Vec<u8>)],
    arg_info: S,
    is_clang: bool,
    view: &View,
) -> Mem<CompilerArguments<ParsedArguments>>
    requires { S.tables arg_info ≡ msvc_tables }
    ensures { IfOk result (λ answer. outcome_of answer ≡ surrounded_reading is_clang cwd.now (pairs_of env_vars.now) view.now (words_of arguments.items)) }
{
    match surround(alloc, arguments, env_vars) {
        Ok(words) => parse_arguments_by(alloc, words, cwd, arg_info, is_clang, view),
        Err(stop) => into_answer(Err(stop)),
    }
}

impl CCompilerImpl for Msvc {
    ghost use Rattle.std.specs.Prelude.{false};
    ghost use Rattle.std.specs.Option.{option_map};
    ghost use Rattle.std.specs.String.{string_bytes};
    ghost use Rattle.scl_text.specs.declared.records.CCompilerKind.TheVariants as compilers;
    ghost use Rattle.scl_msvc.specs.Building.{command_words, cacheable};
    ghost use Rattle.scl_msvc.specs.Environment.{without_cl_env_vars};
    ghost use Rattle.scl_msvc.specs.Preprocess.{runs};
    ghost use Rattle.scl_msvc.specs.Promises.{MsvcReadsAgain};
    ghost use Rattle.scl_msvc.specs.Environment.{surrounded_reading};

    ghost kind_of = { λ _. compilers.Msvc };

    ghost plusplus_of = { λ _. false };

    ghost version_of = { λ msvc. option_map string_bytes msvc.version };

    ghost digest_of = { λ _. None };

    ghost reading = { λ msvc words directory env_vars view. surrounded_reading msvc.is_clang directory env_vars view words };

    ghost command = { λ _. command_words };

    ghost environment = { λ _. without_cl_env_vars };

    ghost cacheable = { λ _. cacheable };

    ghost is_read_again = { λ msvc words directory env_vars view. MsvcReadsAgain msvc.is_clang directory env_vars view words };

    ghost runs = { λ msvc may_dist rewrites _. runs msvc.is_clang may_dist rewrites };

    fn kind(&self) -> CCompilerKind {
        CCompilerKind::Msvc
    }

    fn plusplus(&self) -> bool {
        false
    }

    fn version(&self, alloc: Global) -> Mem<Option<String>> {
        copy_text(alloc, &self.version)
    }

    fn parse_arguments_owned(
        &self,
        alloc: Global,
        arguments: Vec<Vec<u8>>,
        cwd: &[u8],
        env_vars: &[(Vec<u8>, Vec<u8>)],
        view: &View,
    ) -> Mem<CompilerArguments<ParsedArguments>> {
        parse_surrounded(
            alloc,
            arguments,
            cwd,
            env_vars,
            trees(alloc)?,
            self.is_clang,
            view,
        )
    }

    fn generate_compile_commands_owned(
        &self,
        alloc: Global,
        executable: &[u8],
        parsed: ParsedArguments,
        cwd: &[u8],
        env_vars: &[(Vec<u8>, Vec<u8>)],
        view: &View,
    ) -> Result<(SingleCompileCommand, Cacheable), CommandError> {
        generate_compile_commands_owned(alloc, executable, parsed, cwd, env_vars, view)
    }

    fn assembler_digest(&self, _alloc: Global) -> Mem<Option<String>> {
        Ok(None)
    }

    fn preprocess_passes(
        &self,
        alloc: Global,
        parsed: &ParsedArguments,
        may_dist: bool,
        rewrite_includes_only: bool,
        _cache_mode: bool,
    ) -> Mem<Vec<Vec<Vec<u8>>>> {
        runs(
            alloc,
            parsed,
            self.is_clang,
            may_dist,
            rewrite_includes_only,
        )
    }
}
