//! What a parser reads from a command line, and what a builder makes of it.
ghost use Rattle.std.specs.Prelude.{◌≡◌};
ghost use Rattle.scl_text.specs.Records.{bare_record, parsed_of};

use crate::language::Language;
use std::alloc::{AllocError, AllocFailed, Global};
use std::collections::BTreeMap;
use thiserror::Error;

/// Whether diagnostics are coloured: never, always, or as the compiler chooses.
#[derive(Debug, Clone, Copy, PartialEq, Eq)]
pub enum ColorMode {
    /// Never.
    Off,
    /// Always.
    On,
    /// As the compiler chooses.
    Auto,
}

/// Whether the result of a command can be cached.
#[derive(Debug, Clone, Copy, PartialEq, Eq)]
pub enum Cacheable {
    /// It can be cached.
    Yes,
    /// It can't be cached.
    No,
}

/// The compilers whose command lines are read.
#[derive(Debug, Clone, Copy, PartialEq, Eq)]
pub enum CCompilerKind {
    /// Gcc, as either driver.
    Gcc,
    /// Clang, as either driver.
    Clang,
    /// Diab.
    Diab,
    /// Microsoft's cl, and clang-cl.
    Msvc,
    /// TaskingVX.
    TaskingVX,
}

/// A file that a compilation makes: its path in bytes, and whether it may be missing.
#[derive(Debug, PartialEq, Eq, Drop)]
pub struct ArtifactDescriptor {
    /// The path of the output.
    pub path: Vec<u8>,
    /// Whether it may be missing.
    pub optional: bool,
}

/// The outcome of reading a command line (docs/RULES.md, Records).
#[derive(Debug, PartialEq, Eq, Drop)]
pub enum CompilerArguments<T> {
    /// What was read.
    Ok(T),
    /// The result can't be cached: the reason, and perhaps a text with details.
    CannotCache(&'static str, Option<String>),
    /// The line compiles nothing.
    NotCompilation,
}

/// The record of a command line; paths and words are bytes (docs/RULES.md, Records).
#[derive(Debug, PartialEq, Eq, Drop)]
pub struct ParsedArguments {
    /// The path of the only input.
    pub input: Vec<u8>,
    /// Whether `--` is before the input.
    pub double_dash_input: bool,
    /// The language of the input.
    pub language: Language,
    /// The flag that requests a compilation.
    pub compilation_flag: Vec<u8>,
    /// The path of the dependency file, if the compiler keeps one in this field.
    pub depfile: Option<Vec<u8>>,
    /// What the compilation makes, by name: `obj`, and others.
    pub outputs: BTreeMap<String, ArtifactDescriptor>,
    /// The words that request dependencies.
    pub dependency_args: Vec<Vec<u8>>,
    /// The words for the preprocessor.
    pub preprocessor_args: Vec<Vec<u8>>,
    /// All other words that change the result.
    pub common_args: Vec<Vec<u8>>,
    /// The words that name architectures.
    pub arch_args: Vec<Vec<u8>>,
    /// The words that do not change the result.
    pub unhashed_args: Vec<Vec<u8>>,
    /// Files that a distant compiler needs besides the input.
    pub extra_dist_files: Vec<Vec<u8>>,
    /// Files, besides the input, on whose contents the result depends.
    pub extra_hash_files: Vec<Vec<u8>>,
    /// Whether the assembler is a separate program.
    pub uses_external_assembler: bool,
    /// Whether the included files are printed.
    pub msvc_show_includes: bool,
    /// Whether a flag gives the language of the input.
    pub msvc_explicit_language: bool,
    /// Whether the compiled program writes a profile when it runs.
    pub profile_generate: bool,
    /// Whether messages are coloured.
    pub color_mode: ColorMode,
    /// Whether each run of the preprocessor must expand macros.
    pub suppress_rewrite_includes_only: bool,
    /// The flag whose request to the preprocessor a cache of preprocessor runs can't see.
    pub too_hard_for_preprocessor_cache_mode: Option<Vec<u8>>,
}

impl ParsedArguments {
    /// A record with an input, its language and the compile flag. All other fields are empty, false or `Auto`.
    pub fn bare(
        alloc: Global,
        input: Vec<u8>,
        language: Language,
        compilation_flag: Vec<u8>,
    ) -> ParsedArguments
        ensures { parsed_of result ≡ bare_record input.items language compilation_flag.items }
    {
        ParsedArguments {
            input,
            double_dash_input: false,
            language,
            compilation_flag,
            depfile: None,
            outputs: BTreeMap::new(alloc),
            dependency_args: Vec::new(alloc),
            preprocessor_args: Vec::new(alloc),
            common_args: Vec::new(alloc),
            arch_args: Vec::new(alloc),
            unhashed_args: Vec::new(alloc),
            extra_dist_files: Vec::new(alloc),
            extra_hash_files: Vec::new(alloc),
            uses_external_assembler: false,
            msvc_show_includes: false,
            msvc_explicit_language: false,
            profile_generate: false,
            color_mode: ColorMode::Auto,
            suppress_rewrite_includes_only: false,
            too_hard_for_preprocessor_cache_mode: None,
        }
    }
}

/// A command to run: program, words, environment and directory in bytes; `share_jobserver` is false.
#[derive(Debug, PartialEq, Eq, Drop)]
pub struct SingleCompileCommand {
    /// The path of the program.
    pub executable: Vec<u8>,
    /// The words after the program.
    pub arguments: Vec<Vec<u8>>,
    /// The keys and values of the environment, in order.
    pub env_vars: Vec<(Vec<u8>, Vec<u8>)>,
    /// The path of the directory to run in.
    pub cwd: Vec<u8>,
    /// Whether it shares the job server of the caller: always false.
    pub share_jobserver: bool,
}

/// The result of a run of the preprocessor: its status, which is 0 on success, and both outputs in bytes.
#[derive(Debug, PartialEq, Eq, Drop)]
pub struct PassOutput {
    /// Its exit status; any other than 0 is a failure.
    pub status: i32,
    /// The bytes of its output.
    pub stdout: Vec<u8>,
    /// The bytes of its error output.
    pub stderr: Vec<u8>,
}

/// Why there is no command: the record has no output `obj`, or an allocation failed.
#[derive(Debug, PartialEq, Eq, Drop, Error)]
pub enum CommandError {
    /// The record has no output `obj`.
    #[error("Missing object file output")]
    MissingObj,
    /// A memory allocation failed.
    #[error("out of memory")]
    Memory,
}

impl From<AllocError> for CommandError {
    ghost use Rattle.std.specs.Prelude.{◌≡◌};
    ghost use Rattle.scl_text.specs.declared.records.CommandError.TheVariants.{Memory};

    ghost from_gives = { λ _ e. e ≡ Memory };

    fn from(_: AllocError) -> CommandError {
        CommandError::Memory
    }
}

impl<T: Drop> From<AllocFailed<T>> for CommandError {
    ghost use Rattle.std.specs.Prelude.{◌≡◌};
    ghost use Rattle.scl_text.specs.declared.records.CommandError.TheVariants.{Memory};

    ghost from_gives = { λ _ e. e ≡ Memory };

    fn from(_: AllocFailed<T>) -> CommandError {
        CommandError::from(AllocError)
    }
}
