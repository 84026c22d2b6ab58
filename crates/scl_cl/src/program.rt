//! The program over a reader and a writer.
ghost use Rattle.std.specs.Prelude.{◌≡◌, ◌≢◌, ◌^◌, ◌+◌, ◌<◌, ◌≤◌, ◌⊎◌, ℕ, List, length, take, IfOk, IfSome, Ok, Err};
ghost use Rattle.std.specs.Io.KnownBytes.{Appends, IsAtEnd};
ghost use Rattle.scl_devices.specs.Counts.{one_more, many_more};
ghost use Rattle.scl_cl.specs.Transfers.{Gave};
ghost use Rattle.scl_cl.specs.Drafts.{asked_by};
ghost use Rattle.scl_cl.specs.AnswerTexts.{text_of};
ghost use Rattle.scl_reader.specs.Answers.{answer_to};
ghost use Rattle.scl_reader.specs.AnswersGiven.{answer_of};
ghost use Rattle.scl_cl.specs.Outcomes.{IsJudged, IsSilent};
ghost use Rattle.scl_cl.specs.Program.{program_answer, IsTextReadAgain};

use crate::answer::answer_text;
use crate::outcome::Outcome;
use crate::request::{Request, read_request};
use crate::service::{Service, serve};
use scl_args::Counted;
use scl_reader::Compilation;
use scl_text::Mem;
use scl_text::records::CompilerArguments;
use std::alloc::Global;
use std::io::{Read, Write};

/// The answer to a request.
fn answer_for(alloc: Global, request: &Request) -> Mem<CompilerArguments<Compilation>>
    ensures { IfOk result (λ answer. answer_of answer ≡ answer_to (asked_by request.now)) }
{
    request.compiler.answer(alloc, b"", &request.line())
}

/// The text of the answer to a request.
fn text_for(alloc: Global, request: &Request) -> Mem<Vec<u8>>
    ensures { IfOk result (λ text. text.items ≡ text_of (answer_to (asked_by request.now))) }
{
    let answer = answer_for(alloc, request)?;
    answer_text(alloc, &answer)
}

/// The service that answers a request with the text of its answer (docs/RULES.md, Answers).
#[derive(Debug, Clone, Copy)]
pub struct Commands;

impl Service for Commands {
    ghost use Rattle.std.specs.Prelude.{◌≡◌};
    ghost use Rattle.scl_cl.specs.Program.{program_answer};

    ghost answers = { λ _ bytes said. program_answer bytes ≡ said };

    fn answer(&self, alloc: Global, bytes: Vec<u8>) -> Mem<Result<Vec<u8>, u64>> {
        let read = read_request(alloc, &bytes)?;
        drop(bytes);
        match read {
            Ok(request) => Ok(Ok(text_for(alloc, &request)?)),
            Err(number) => Ok(Err(number)),
        }
    }
}

/// Reads the whole request, and writes the answer (docs/RULES.md, Outcomes).
pub fn run<R: Read, W: Write>(
    alloc: Global,
    reader: &mut Counted<R>,
    writer: &mut Counted<W>,
) -> Outcome
    // The answer to all that the reader had was written, whole.
    ensures answered { result ≡ Outcome.Answered → IfSome (R.remaining reader.old.device) (λ bytes.
        (text : List ℕ) × (program_answer bytes ≡ Ok text) × Appends (W.contents writer.old.device) (W.contents writer.new.device) text) }
    // A command in the answer is read again.
    ensures read_again { result ≡ Outcome.Answered → IfSome (R.remaining reader.old.device) (λ bytes.
        (text : List ℕ) × IsTextReadAgain bytes text × Appends (W.contents writer.old.device) (W.contents writer.new.device) text) }
    ensures bad_line { (n : ℕ) → result ≡ Outcome.BadLine n → IfSome (R.remaining reader.old.device) (λ bytes. program_answer bytes ≡ Err n) }
    // No line is judged before everything was read.
    ensures judged { IsJudged result → IsAtEnd (R.remaining reader.new.device) }
    // The first failed read ends the run, and is reported.
    ensures read_failed { result ≡ Outcome.ReadFailed → (reader.new.failed ≡ one_more reader.old.failed)
        ⊎ (Gave (R.remaining reader.old.device) (R.remaining reader.new.device) (2 ^ 40) × (reader.new.failed ≡ reader.old.failed) × (many_more (2 ^ 40) reader.old.calls ≤ reader.new.calls)) }
    // Whatever the reader does, the number of reads is bounded.
    ensures reads { reader.new.calls ≤ reader.old.calls + 2 ^ 40 }
    ensures reader_told { result ≢ Outcome.ReadFailed → reader.new.failed ≡ reader.old.failed }
    // A proper prefix of the answer was written, and the writer failed.
    ensures write_failed { result ≡ Outcome.WriteFailed → IfSome (R.remaining reader.old.device) (λ bytes.
        (text : List ℕ) × (n : ℕ) × (program_answer bytes ≡ Ok text) × (n < length text) × Appends (W.contents writer.old.device) (W.contents writer.new.device) (take n text)) }
    // The first failed write ends the run, and is reported.
    ensures writer_failed { result ≡ Outcome.WriteFailed → writer.new.failed ≡ one_more writer.old.failed }
    ensures writer_told { result ≢ Outcome.WriteFailed → writer.new.failed ≡ writer.old.failed }
    // Nothing was written.
    ensures untouched { IsSilent result → writer.new ≡ writer.old }
{
    serve(alloc, &Commands, reader, writer)
}
