//! Laws of the definitions of requests and of the texts of answers. Each is a clause of a function with an empty body.
ghost use Rattle.std.specs.Prelude.{◌≡◌, true};
ghost use Rattle.scl_cl.specs.contracts.outcome.OutcomePartialEq.TheImpl as outcomes;
ghost use Rattle.scl_cl.specs.declared.outcome.Outcome.{Outcome};
ghost use Rattle.scl_cl.specs.Written.{FieldReadsBack, FieldIsPrintable, LineReadsBack, RequestReadsBack, LinesEndAtFeeds, AnswerHasLines, BadLineIsFirst, NamesReadBack};

/// The law of `==`: outcomes of runs that are equal are the same.
pub fn of_equality()
    ensures outcomes_are_told_apart { (a b : Outcome) → outcomes.ghosts.eq a b ≡ true → a ≡ b }
{}

/// Laws of requests (docs/RULES.md, Lines, Fields, and Requests):
///
/// - `field_reads_back`: a field that is written is read back, whatever its bytes;
/// - `field_is_printable`: a field that is written has only bytes from 21 to 7E (hexadecimal): no space, tab or LF;
/// - `line_reads_back`: a line that is written says what it was written for;
/// - `request_reads_back`: the lines of a request that is written say what they were written for, in order;
/// - `lines_end_at_feeds`: a line ends at the first LF;
/// - `bad_line_is_first`: the bad line breaks a rule, given the lines before it, and none of those does;
/// - `names_read_back`: a compiler is found by its name, and a keyword by its text: the lists that are searched have all of
///   them.
pub fn of_requests()
    ensures field_reads_back { FieldReadsBack }
    ensures field_is_printable { FieldIsPrintable }
    ensures line_reads_back { LineReadsBack }
    ensures request_reads_back { RequestReadsBack }
    ensures lines_end_at_feeds { LinesEndAtFeeds }
    ensures bad_line_is_first { BadLineIsFirst }
    ensures names_read_back { NamesReadBack }
{}

/// The law of the texts of answers (docs/RULES.md, Answers):
///
/// - `answer_has_lines`: the lines of a command's text are `ok`, one for each word, and whether its result can be cached.
pub fn of_answers()
    ensures answer_has_lines { AnswerHasLines }
{}
