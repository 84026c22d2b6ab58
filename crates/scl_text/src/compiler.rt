//! The calls of every compiler.
use crate::command::copy_words;
use crate::records::{
    CCompilerKind, Cacheable, CommandError, CompilerArguments, ParsedArguments,
    SingleCompileCommand,
};
use scl_args::Mem;
use scl_files::view::View;
use std::alloc::Global;

/// A compiler: its command lines are read, and its commands built. The ghost members are its definitions (docs/RULES.md,
/// Compilers).
pub trait CCompilerImpl {
    ghost use Rattle.std.specs.Prelude.{◌≡◌, ◌↔◌, ℕ, Bool, List, Option, None, Result, Ok, IfOk, IsOk};
    ghost use Rattle.std.specs.Option.{option_map};
    ghost use Rattle.std.specs.String.{string_bytes};
    ghost use Rattle.scl_values.specs.Words.{words_of};
    ghost use Rattle.scl_files.specs.Views.{Viewed};
    ghost use Rattle.scl_text.specs.Commands.{pairs_of, object_of, command_by};
    ghost use Rattle.scl_text.specs.Compilers.{IsBuiltCommand, IfCommand};
    ghost use Rattle.scl_text.specs.Records.{Parsed, Verdict, parsed_of, outcome_of};
    ghost use Rattle.scl_text.specs.Runs.{runs_of};
    ghost use Rattle.scl_text.specs.declared.records.CCompilerKind.{CCompilerKind};
    ghost use Rattle.scl_text.specs.declared.records.Cacheable.{Cacheable};

    /// The result of `kind`.
    ghost kind_of: { Self → CCompilerKind };

    /// The result of `plusplus`.
    ghost plusplus_of: { Self → Bool };

    /// The text that `version` copies.
    ghost version_of: { Self → Option (List ℕ) };

    /// The text that `assembler_digest` copies.
    ghost digest_of: { Self → Option (List ℕ) };

    /// The outcome of a command line: of its words, directory, environment and view.
    ghost reading: { Self → List (List ℕ) → List ℕ → List (List ℕ × List ℕ) → Viewed → Result Parsed Verdict };

    /// The words of the command of a record, for this object.
    ghost command: { Self → Parsed → List ℕ → List (List ℕ) };

    /// The environment of the command.
    ghost environment: { Self → List (List ℕ × List ℕ) → List (List ℕ × List ℕ) };

    /// Whether the result of a record's command can be cached, by directory and view.
    ghost cacheable: { Self → Parsed → List ℕ → Viewed → Cacheable };

    /// Of a command line (words, directory, environment, view), its record and these words: the words are read again, and say
    /// what the command line says.
    ghost is_read_again: { Self → List (List ℕ) → List ℕ → List (List ℕ × List ℕ) → Viewed → Parsed → List (List ℕ) → Type 0 };

    /// The runs of the preprocessor.
    ghost runs: { Self → (may_dist rewrites cache_mode : Bool) → Parsed → List (List (List ℕ)) };

    /// Which compiler it is (docs/RULES.md, Compilers).
    fn kind(&self) -> CCompilerKind
        ensures { result ≡ kind_of self.now };

    /// Whether it is the C++ driver (docs/RULES.md, Compilers).
    fn plusplus(&self) -> bool
        ensures { result ≡ plusplus_of self.now };

    /// A copy of its version, if it is known (docs/RULES.md, Compilers). If no version is known, it does not fail.
    fn version(&self, alloc: Global) -> Mem<Option<String>>
        ensures copy { IfOk result (λ version. option_map string_bytes version ≡ version_of self.now) }
        ensures none { version_of self.now ≡ None → IsOk result };

    /// The outcome of a command line. It takes ownership of the words; the directory and the view are for what they ask of
    /// files. If the outcome is a record with an output `obj`, its command is read again (docs/RULES.md, Compilers, and
    /// Cutting again).
    fn parse_arguments_owned(
        &self,
        alloc: Global,
        arguments: Vec<Vec<u8>>,
        cwd: &[u8],
        env_vars: &[(Vec<u8>, Vec<u8>)],
        view: &View,
    ) -> Mem<CompilerArguments<ParsedArguments>>
        ensures outcome { IfOk result (λ answer. outcome_of answer ≡ reading self.now (words_of arguments.items) cwd.now (pairs_of env_vars.now) view.now) }
        ensures read_again { IfOk result (λ answer. IfCommand (command_by (command self.now)) (is_read_again self.now (words_of arguments.items) cwd.now (pairs_of env_vars.now) view.now) (outcome_of answer)) };

    /// What `parse_arguments_owned` gives, with a copy of the words.
    fn parse_arguments(
        &self,
        alloc: Global,
        arguments: &[Vec<u8>],
        cwd: &[u8],
        env_vars: &[(Vec<u8>, Vec<u8>)],
        view: &View,
    ) -> Mem<CompilerArguments<ParsedArguments>>
        ensures outcome { IfOk result (λ answer. outcome_of answer ≡ reading self.now (words_of arguments.now) cwd.now (pairs_of env_vars.now) view.now) }
        ensures read_again { IfOk result (λ answer. IfCommand (command_by (command self.now)) (is_read_again self.now (words_of arguments.now) cwd.now (pairs_of env_vars.now) view.now) (outcome_of answer)) }
    {
        let arguments = copy_words(alloc, arguments)?;
        self.parse_arguments_owned(alloc, arguments, cwd, env_vars, view)
    }

    /// The command of a record, and whether its result can be cached. It takes ownership of the record. If the record is the
    /// outcome of a command line, the command is read again (docs/RULES.md, Compilers, and Cutting again). The error is
    /// `MissingObj` exactly if the record has no output `obj`, else `Memory`.
    fn generate_compile_commands_owned(
        &self,
        alloc: Global,
        executable: &[u8],
        parsed: ParsedArguments,
        cwd: &[u8],
        env_vars: &[(Vec<u8>, Vec<u8>)],
        view: &View,
    ) -> Result<(SingleCompileCommand, Cacheable), CommandError>
        ensures command { IfOk result (λ answer. IsBuiltCommand answer.0 answer.1 (command_by (command self.now) (parsed_of parsed)) executable.now (environment self.now (pairs_of env_vars.now)) cwd.now (cacheable self.now (parsed_of parsed) cwd.now view.now)) }
        ensures read_again { IfOk result (λ answer. (line : List (List ℕ)) (directory : List ℕ) (pairs : List (List ℕ × List ℕ)) (files : Viewed) →
            reading self.now line directory pairs files ≡ Ok (parsed_of parsed) → is_read_again self.now line directory pairs files (parsed_of parsed) (words_of answer.0.arguments.items)) }
        ensures missing { (result ≡ Err CommandError.MissingObj) ↔ (object_of (parsed_of parsed) ≡ None) };

    /// What `generate_compile_commands_owned` gives, with a copy of the record; the errors are the same.
    fn generate_compile_commands(
        &self,
        alloc: Global,
        executable: &[u8],
        parsed: &ParsedArguments,
        cwd: &[u8],
        env_vars: &[(Vec<u8>, Vec<u8>)],
        view: &View,
    ) -> Result<(SingleCompileCommand, Cacheable), CommandError>
        ensures command { IfOk result (λ answer. IsBuiltCommand answer.0 answer.1 (command_by (command self.now) (parsed_of parsed.now)) executable.now (environment self.now (pairs_of env_vars.now)) cwd.now (cacheable self.now (parsed_of parsed.now) cwd.now view.now)) }
        ensures read_again { IfOk result (λ answer. (line : List (List ℕ)) (directory : List ℕ) (pairs : List (List ℕ × List ℕ)) (files : Viewed) →
            reading self.now line directory pairs files ≡ Ok (parsed_of parsed.now) → is_read_again self.now line directory pairs files (parsed_of parsed.now) (words_of answer.0.arguments.items)) }
        ensures missing { (result ≡ Err CommandError.MissingObj) ↔ (object_of (parsed_of parsed.now) ≡ None) }
    {
        let parsed = parsed.copy_for_command(alloc)?;
        self.generate_compile_commands_owned(alloc, executable, parsed, cwd, env_vars, view)
    }

    /// A copy of the assembler's digest, if it is known (docs/RULES.md, Compilers). If no digest is known, it does not fail.
    fn assembler_digest(&self, alloc: Global) -> Mem<Option<String>>
        ensures copy { IfOk result (λ digest. option_map string_bytes digest ≡ digest_of self.now) }
        ensures none { digest_of self.now ≡ None → IsOk result };

    /// The words of the preprocessor's runs for a record, in order (docs/RULES.md, Preprocessing):
    ///
    /// - `may_dist`: for a distant compiler;
    /// - `rewrite_includes_only`: macros are left in place, if the compiler can do so;
    /// - `cache_mode`: for a cache of preprocessor runs.
    fn preprocess_passes(
        &self,
        alloc: Global,
        parsed: &ParsedArguments,
        may_dist: bool,
        rewrite_includes_only: bool,
        cache_mode: bool,
    ) -> Mem<Vec<Vec<Vec<u8>>>>
        ensures { IfOk result (λ made. runs_of made.items ≡ runs self.now may_dist rewrite_includes_only cache_mode (parsed_of parsed.now)) };
}
