//! Answers to command lines within limits.
ghost use Rattle.std.specs.Prelude.{◌≡◌, true, false, IfOk, MatchResult};
ghost use Rattle.scl_reader.specs.CommandLines.{asked_for, given_by};
ghost use Rattle.scl_reader.specs.Answers.{answer_to, environment_by, reading_by, read_again_by};
ghost use Rattle.scl_reader.specs.AnswersGiven.{answer_of, HasParts, IfCompiled};
ghost use Rattle.scl_reader.specs.Within.{has_at_most};

use crate::command_line::CommandLine;
use crate::compilation::Compilation;
use crate::compiler::Compiler;
use scl_text::records::CompilerArguments;
use scl_text::{Limits, Mem, TooManyWords};
use std::alloc::Global;

impl Compiler {
    /// Whether each command line that is read, the given one and the inner ones, is within the limits (docs/RULES.md,
    /// Expansion).
    pub fn has_at_most(self, alloc: Global, line: &CommandLine<'_>, most: Limits) -> Mem<bool>
        ensures { IfOk result (λ within. within ≡ has_at_most most (asked_for self (given_by line.now))) }
    {
        match self.read(alloc, line, most)? {
            Ok(reading) => {
                drop(reading);
                Ok(true)
            }
            Err(TooManyWords) => Ok(false),
        }
    }

    /// What `answer` answers, where each command line that is read, the given one and the inner ones, is within the limits; else
    /// `TooManyWords`, before any of them is refused (docs/RULES.md, Expansion).
    pub fn answer_within(
        self,
        alloc: Global,
        executable: &[u8],
        line: &CommandLine<'_>,
        most: Limits,
    ) -> Mem<Result<CompilerArguments<Compilation>, TooManyWords>>
        ensures within { IfOk result (λ answered. let request = asked_for self (given_by line.now) in
            MatchResult answered (λ answer. (has_at_most most request ≡ true) × (answer_of answer ≡ answer_to request)) (λ _. has_at_most most request ≡ false)) }
        ensures parts { let request = asked_for self (given_by line.now) in
            IfOk result (λ answered. IfOk answered (HasParts (reading_by self request) executable.now (environment_by self request.environment) request.directory)) }
        ensures read_again { IfOk result (λ answered. IfOk answered (IfCompiled (read_again_by self (asked_for self (given_by line.now))))) }
    {
        match self.read(alloc, line, most)? {
            Ok(reading) => Ok(Ok(reading.into_answer(alloc, executable, line)?)),
            Err(too_many) => Ok(Err(too_many)),
        }
    }
}
