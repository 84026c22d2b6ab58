//! Services: they answer requests with texts, over a reader and a writer.
ghost use Rattle.std.specs.Prelude.{◌≡◌, ◌≢◌, ◌^◌, ◌+◌, ◌<◌, ◌≤◌, ◌⊎◌, ℕ, List, length, take, IfSome, Ok, Err};
ghost use Rattle.std.specs.Io.KnownBytes.{Appends, IsAtEnd};
ghost use Rattle.scl_devices.specs.Counts.{one_more, many_more};
ghost use Rattle.scl_cl.specs.Transfers.{Gave};
ghost use Rattle.scl_cl.specs.Outcomes.{IsJudged, IsSilent};

use crate::outcome::Outcome;
use crate::transfer::{ReadError, read_all};
use scl_args::{Counted, write_whole};
use scl_text::Mem;
use std::alloc::Global;
use std::io::{Read, Write};

/// Something that answers the bytes of a request with a text.
pub trait Service {
    ghost use Rattle.std.specs.Prelude.{ℕ, List, Result, Ok, Err, IfOk, MatchResult};

    /// The answers to the bytes of a request that are allowed: a text, or the number of the bad line.
    ghost answers: { Self → List ℕ → Result (List ℕ) ℕ → Type 0 };

    /// The text that answers the bytes of a request, or the number of their bad line, counted from 1.
    fn answer(&self, alloc: Global, bytes: Vec<u8>) -> Mem<Result<Vec<u8>, u64>>
        ensures { IfOk result (λ answered. MatchResult answered (λ text. answers self.now bytes.items (Ok text.items)) (λ number. answers self.now bytes.items (Err number))) };
}

/// Reads a whole request, and writes the service's answer (docs/RULES.md, Outcomes).
pub fn serve<S: Service, R: Read, W: Write>(
    alloc: Global,
    service: &S,
    reader: &mut Counted<R>,
    writer: &mut Counted<W>,
) -> Outcome
    // The answer to all that the reader had was written, whole.
    ensures answered { result ≡ Outcome.Answered → IfSome (R.remaining reader.old.device) (λ bytes.
        (text : List ℕ) × S.answers service.now bytes (Ok text) × Appends (W.contents writer.old.device) (W.contents writer.new.device) text) }
    ensures bad_line { (n : ℕ) → result ≡ Outcome.BadLine n → IfSome (R.remaining reader.old.device) (λ bytes. S.answers service.now bytes (Err n)) }
    // No line is judged before everything was read.
    ensures judged { IsJudged result → IsAtEnd (R.remaining reader.new.device) }
    // The first failed read ends the run, and is reported.
    ensures read_failed { result ≡ Outcome.ReadFailed → (reader.new.failed ≡ one_more reader.old.failed)
        ⊎ (Gave (R.remaining reader.old.device) (R.remaining reader.new.device) (2 ^ 40) × (reader.new.failed ≡ reader.old.failed) × (many_more (2 ^ 40) reader.old.calls ≤ reader.new.calls)) }
    // Whatever the reader does, the number of reads is bounded.
    ensures reads { reader.new.calls ≤ reader.old.calls + 2 ^ 40 }
    ensures reader_told { result ≢ Outcome.ReadFailed → reader.new.failed ≡ reader.old.failed }
    // A proper prefix of the answer was written, and the writer failed.
    ensures write_failed { result ≡ Outcome.WriteFailed → IfSome (R.remaining reader.old.device) (λ bytes.
        (text : List ℕ) × (n : ℕ) × S.answers service.now bytes (Ok text) × (n < length text) × Appends (W.contents writer.old.device) (W.contents writer.new.device) (take n text)) }
    // The first failed write ends the run, and is reported.
    ensures writer_failed { result ≡ Outcome.WriteFailed → writer.new.failed ≡ one_more writer.old.failed }
    ensures writer_told { result ≢ Outcome.WriteFailed → writer.new.failed ≡ writer.old.failed }
    // Nothing was written.
    ensures untouched { IsSilent result → writer.new ≡ writer.old }
{
    let bytes = match read_all(alloc, reader) {
        Ok(bytes) => bytes,
        Err(ReadError::Memory) => return Outcome::OutOfMemory,
        Err(ReadError::Device) => return Outcome::ReadFailed,
    };
    match service.answer(alloc, bytes) {
        Err(_) => Outcome::OutOfMemory,
        Ok(Err(number)) => Outcome::BadLine(number),
        Ok(Ok(text)) => match write_whole(writer, &text) {
            Ok(()) => Outcome::Answered,
            Err(_) => Outcome::WriteFailed,
        },
    }
}
