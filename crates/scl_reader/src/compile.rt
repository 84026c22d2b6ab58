//! The answer to a command line, by its compiler.
ghost use Rattle.std.specs.Prelude.{◌≡◌, ℕ, List, IfOk, Ok};
ghost use Rattle.std.specs.Result.{result_ok};
ghost use Rattle.scl_files.specs.Views.{Viewed};
ghost use Rattle.scl_text.specs.Commands.{pairs_of, command_by};
ghost use Rattle.scl_text.specs.Records.{parsed_of};
ghost use Rattle.scl_reader.specs.CommandLines.{asked_for, given_by};
ghost use Rattle.scl_reader.specs.Answers.{answer_to, answer_with, environment_by, reading_by, read_again_by};
ghost use Rattle.scl_reader.specs.AnswersGiven.{answer_of, record_given, HasParts, IfCompiled, AnswersReading};
ghost use Rattle.scl_reader.specs.Definitions.{definitions_of};
ghost use Rattle.scl_reader.specs.Reads.{compiler_of, outcome_in};

use crate::ask::Query;
use crate::command_line::CommandLine;
use crate::compilation::Compilation;
use crate::compiler::Compiler;
use crate::reading::Reading;
use scl_text::records::{CommandError, CompilerArguments, ParsedArguments};
use scl_text::{CCompilerImpl, Mem};
use std::alloc::{AllocError, Global};

/// The answer of a record, which is moved in.
fn answer_record<C: CCompilerImpl>(
    alloc: Global,
    compiler: &C,
    executable: &[u8],
    parsed: ParsedArguments,
    line: &CommandLine<'_>,
) -> Mem<CompilerArguments<Compilation>>
    ensures answer { IfOk result (λ answer. answer_of answer ≡ answer_with (command_by (C.command compiler.now) (parsed_of parsed)) (C.cacheable compiler.now (parsed_of parsed) line.now.directory.now line.now.view.now)) }
    ensures parts { IfOk result (HasParts (Ok (parsed_of parsed)) executable.now (C.environment compiler.now (pairs_of line.now.environment.now)) line.now.directory.now) }
    ensures read_again { IfOk result (λ answer. (words : List (List ℕ)) (directory : List ℕ) (pairs : List (List ℕ × List ℕ)) (files : Viewed) →
        C.reading compiler.now words directory pairs files ≡ Ok (parsed_of parsed) → IfCompiled (C.is_read_again compiler.now words directory pairs files) answer) }
{
    let (cwd, env_vars, view) = (line.directory, line.environment, line.view);
    match compiler.generate_compile_commands(alloc, executable, &parsed, cwd, env_vars, view) {
        Ok((command, cacheable)) => Ok(CompilerArguments::Ok(Compilation {
            parsed,
            command,
            cacheable,
        })),
        Err(CommandError::MissingObj) => Ok(CompilerArguments::CannotCache(
            "Missing object file output",
            None,
        )),
        Err(CommandError::Memory) => Err(AllocError),
    }
}

/// What a command line says.
#[derive(Clone, Copy)]
struct Parse<'a> {
    line: CommandLine<'a>,
}

impl<'a> Query for Parse<'a> {
    ghost use Rattle.std.specs.Prelude.{◌≡◌};
    ghost use Rattle.scl_text.specs.Records.{outcome_of};
    ghost use Rattle.scl_reader.specs.CommandLines.{given_by};

    type Answer = CompilerArguments<ParsedArguments>;

    ghost gives = { λ query definitions outcome. outcome_of outcome ≡ definitions.reading (given_by query.line) };

    fn ask<C: CCompilerImpl>(
        self,
        alloc: Global,
        compiler: &C,
    ) -> Mem<CompilerArguments<ParsedArguments>> {
        let CommandLine {
            words,
            directory,
            environment,
            view,
        } = self.line;
        compiler.parse_arguments(alloc, words, directory, environment, view)
    }
}

/// The answer of what a command line says, which is moved in.
#[derive(Drop)]
struct Answered<'a> {
    executable: &'a [u8],
    outcome: CompilerArguments<ParsedArguments>,
    line: CommandLine<'a>,
}

impl<'a> Query for Answered<'a> {
    ghost use Rattle.scl_text.specs.Commands.{pairs_of};
    ghost use Rattle.scl_text.specs.Records.{outcome_of};
    ghost use Rattle.scl_reader.specs.AnswersGiven.{AnswersReading};

    type Answer = CompilerArguments<Compilation>;

    ghost gives = { λ query definitions. AnswersReading definitions query.executable.now (outcome_of query.outcome)
        query.line.directory.now (pairs_of query.line.environment.now) query.line.view.now };

    fn ask<C: CCompilerImpl>(
        self,
        alloc: Global,
        compiler: &C,
    ) -> Mem<CompilerArguments<Compilation>> {
        let Answered {
            executable,
            outcome,
            line,
        } = self;
        match outcome {
            CompilerArguments::Ok(parsed) => {
                answer_record(alloc, compiler, executable, parsed, &line)
            }
            CompilerArguments::CannotCache(reason, text) => {
                Ok(CompilerArguments::CannotCache(reason, text))
            }
            CompilerArguments::NotCompilation => Ok(CompilerArguments::NotCompilation),
        }
    }
}

impl Compiler {
    /// What a command line is answered, with the program `executable`. Where the answer is a command, it is read again
    /// (docs/RULES.md, Answers, and Cutting again).
    pub fn answer(
        self,
        alloc: Global,
        executable: &[u8],
        line: &CommandLine<'_>,
    ) -> Mem<CompilerArguments<Compilation>>
        ensures answer { IfOk result (λ answer. answer_of answer ≡ answer_to (asked_for self (given_by line.now))) }
        ensures parts { let request = asked_for self (given_by line.now) in
            IfOk result (HasParts (reading_by self request) executable.now (environment_by self request.environment) request.directory) }
        ensures record { IfOk result (λ answer. record_given answer ≡ result_ok (reading_by self (asked_for self (given_by line.now)))) }
        ensures read_again { IfOk result (IfCompiled (read_again_by self (asked_for self (given_by line.now)))) }
    {
        let outcome = self.ask(alloc, Parse { line: *line })?;
        let query = Answered {
            executable,
            outcome,
            line: *line,
        };
        self.ask(alloc, query)
    }
}

impl Reading {
    /// The answer to the command line that was read, with this program: what is kept of the record in directory, environment
    /// and view of the line.
    pub fn into_answer(
        self,
        alloc: Global,
        executable: &[u8],
        line: &CommandLine<'_>,
    ) -> Mem<CompilerArguments<Compilation>>
        ensures { IfOk result (AnswersReading (definitions_of (compiler_of self)) executable.now (outcome_in self) line.now.directory.now (pairs_of line.now.environment.now) line.now.view.now) }
    {
        let compiler = self.compiler();
        let query = Answered {
            executable,
            outcome: self.into_outcome(),
            line: *line,
        };
        compiler.ask(alloc, query)
    }
}
