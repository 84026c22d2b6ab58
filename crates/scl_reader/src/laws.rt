//! Laws of the definitions of readings and answers, each a clause of a function that does nothing.
ghost use Rattle.std.specs.Prelude.{◌≡◌, true};
ghost use Rattle.scl_reader.specs.Answers.{AnswersAreReadAgain, RecordsHaveCommands};
ghost use Rattle.scl_reader.specs.Questions.{AnswersAreDecided, HeadersAreDecided, ReadingsAreDecided, WholeReadingsAreDecided};
ghost use Rattle.scl_reader.specs.Reads.{ReadingsSay};
ghost use Rattle.scl_reader.specs.Within.{ClangInnerIsWithin};
ghost use Rattle.scl_reader.specs.contracts.compiler.CompilerPartialEq.TheImpl as compilers;
ghost use Rattle.scl_reader.specs.declared.compiler.Compiler.{Compiler};

/// The law of `==`: compilers that are equal are one.
pub fn of_equality()
    ensures compilers_are_told_apart { (a b : Compiler) → compilers.ghosts.eq a b ≡ true → a ≡ b }
{}

/// The law of readings: a reading is by the compiler of the request, and says what the words say, as `Compiler::answer` reads
/// them.
pub fn of_readings()
    ensures readings_say { ReadingsSay }
{}

/// Laws of answers (docs/RULES.md, Answers, and Cutting again):
///
/// - `answers_are_read_again`: a command that answers a request is read again;
/// - `records_have_commands`: what was read of a request, where it is a record, has a command.
pub fn of_answers()
    ensures answers_are_read_again { AnswersAreReadAgain }
    ensures records_have_commands { RecordsHaveCommands }
{}

/// Laws of the questions of answers (docs/RULES.md, Questions): of every disk that has what the view has, and none of the
/// questions of the answer to a request,
///
/// - `answers_are_decided`: the answer is the same;
/// - `readings_are_decided`: so is the record, each of its fields, or the refusal, and with it the runs of the preprocessor;
/// - `whole_readings_are_decided`: so is the whole reading, and with it all that is a function of it;
/// - `headers_are_decided`: so is whether there is a precompiled header that matters.
pub fn of_questions()
    ensures answers_are_decided { AnswersAreDecided }
    ensures readings_are_decided { ReadingsAreDecided }
    ensures whole_readings_are_decided { WholeReadingsAreDecided }
    ensures headers_are_decided { HeadersAreDecided }
{}

/// The law of inner lines of Clang (docs/RULES.md, Expansion):
///
/// - `clang_inner_is_within`: where the given command line of a request has at most n words, so has the inner one, if no
///   option of the given one is refused.
pub fn of_bounds()
    ensures clang_inner_is_within { ClangInnerIsWithin }
{}
