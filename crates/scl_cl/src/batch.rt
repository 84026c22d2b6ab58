//! Batches: requests that are answered one by one. Each request ends with a line `end`, and so does each answer.
ghost use Rattle.std.specs.Prelude.{◌≡◌, ◌≢◌, ◌++◌, ◌≤◌, ◌^◌, ◌⊎◌, ℕ, [], List, None, IfOk, IfSome, OnOk, length, take};
ghost use Rattle.std.specs.Io.KnownBytes.{Appends, IsAtEnd};
ghost use Rattle.scl_devices.specs.Counts.{one_more};
ghost use Rattle.scl_description.specs.Lines.{cut_at, line, lines_of};
ghost use Rattle.scl_cl.specs.Batches.{requests_of, told, AreTold, AreToldBegun, AreToldBroken, ReadsMore, TakesLine};
ghost use Rattle.scl_cl.specs.BatchesGiven.{said_by, left_of, IsFirstLine, LastOf, IsTold, TakesIn, TakesEnd, BatchEnds};

use crate::outcome::Outcome;
use crate::service::Service;
use crate::transfer::{READS, ReadError, read_block};
use scl_args::{Counted, write_whole};
use scl_description::cut_at;
use scl_text::Mem;
use std::alloc::{AllocError, Global};
use std::io::{Read, Write};
use std::mem;

/// Why a batch ends early.
#[derive(Drop)]
enum Stop {
    /// A memory allocation failed.
    Memory,
    /// The reader failed.
    Read,
    /// The writer failed.
    Write,
}

impl From<AllocError> for Stop {
    ghost use Rattle.std.specs.Prelude.{◌≡◌};
    ghost use Rattle.scl_cl.specs.declared.batch.Stop.TheVariants.{Memory};

    ghost from_gives = { λ _ e. e ≡ Memory };

    fn from(_: AllocError) -> Stop {
        Stop::Memory
    }
}

impl From<ReadError> for Stop {
    ghost use Rattle.scl_cl.specs.BatchesGiven.{StopsBy};

    ghost from_gives = { StopsBy };

    fn from(error: ReadError) -> Stop {
        match error {
            ReadError::Memory => Stop::Memory,
            ReadError::Device => Stop::Read,
        }
    }
}

/// Bytes that were read. Those before `begin` were taken; the others do not make a line yet.
#[derive(Drop)]
struct Pending {
    bytes: Vec<u8>,
    begin: usize,
}

impl Pending {
    fn new(alloc: Global) -> Pending
        ensures { left_of result ≡ [] }
    {
        Pending {
            bytes: Vec::new(alloc),
            begin: 0,
        }
    }

    /// The bytes that do not make a line yet.
    fn left(&self) -> &[u8]
        ensures { result.now ≡ left_of self.now }
    {
        &self.bytes[self.begin.min(self.bytes.len())..]
    }

    /// Takes the first line, without its LF, if one ends here. The first `searched` bytes have no LF and are not searched
    /// again.
    fn take(&mut self, alloc: Global, searched: usize) -> Mem<Option<Vec<u8>>>
        requires within { searched ≤ length (left_of self.old) }
        requires searched { cut_at 10 (take searched (left_of self.old)) ≡ None }
        ensures { IfOk result (IsFirstLine (left_of self.old) (left_of self.new)) }
    {
        let left = self.left();
        let Some((front, rest)) = cut_at(b'\n', &left[searched..]) else {
            return Ok(None);
        };
        let line = Vec::from_slice(alloc, &left[..searched + front.len()])?;
        self.begin = self.bytes.len() - rest.len();
        Ok(Some(line))
    }

    /// Reads one more block and drops what was taken; says whether it read anything.
    fn read<R: Read>(&mut self, alloc: Global, reader: &mut Counted<R>) -> Result<bool, ReadError>
        ensures { ReadsMore (R.remaining reader.old.device) (R.remaining reader.new.device) (left_of self.old) (left_of self.new) reader.old.failed reader.new.failed result }
    {
        if self.begin > 0 {
            let left = Vec::from_slice(alloc, self.left())?;
            self.bytes = left;
            self.begin = 0;
        }
        read_block(alloc, reader, &mut self.bytes)
    }

    /// Takes the bytes that are left as the last line, if there are any.
    fn take_last(&mut self, alloc: Global) -> Mem<Option<Vec<u8>>>
        ensures { IfOk result (LastOf (left_of self.old) (left_of self.new)) }
    {
        if self.left().is_empty() {
            return Ok(None);
        }
        let line = Vec::from_slice(alloc, self.left())?;
        self.begin = self.bytes.len();
        Ok(Some(line))
    }
}

/// Takes the next line, without its LF, which the last line may lack; none if no byte is left. Each byte is searched once.
fn take_line<R: Read>(
    alloc: Global,
    reader: &mut Counted<R>,
    pending: &mut Pending,
) -> Result<Option<Vec<u8>>, ReadError>
    ensures { TakesLine (R.remaining reader.old.device) (R.remaining reader.new.device) (left_of pending.old) (left_of pending.new) reader.old.failed reader.new.failed result }
{
    let mut searched = 0;
    for _turn in 0..READS {
        if let Some(line) = pending.take(alloc, searched)? {
            return Ok(Some(line));
        }
        searched = pending.left().len();
        if !pending.read(alloc, reader)? {
            return Ok(pending.take_last(alloc)?);
        }
    }
    Err(ReadError::Device)
}

/// What is written for a request.
fn told_text(alloc: Global, said: Result<Vec<u8>, u64>) -> Mem<Vec<u8>>
    ensures { IfOk result (λ text. text.items ≡ told (said_by said)) }
{
    match said {
        Ok(mut text) => {
            text.extend_from_slice(b"end\n")?;
            Ok(text)
        }
        Err(number) => Ok(format!(in alloc; "bad-line {number}\nend\n")?.into_bytes()),
    }
}

/// Answers one request of a batch.
fn answer_one<S: Service, W: Write>(
    alloc: Global,
    service: &S,
    request: Vec<u8>,
    writer: &mut Counted<W>,
) -> Result<(), Stop>
    ensures { IsTold (S.answers service.now request.items) (W.contents writer.old.device) (W.contents writer.new.device) writer.old.failed writer.new.failed result }
{
    let said = service.answer(alloc, request)?;
    let text = told_text(alloc, said)?;
    match write_whole(writer, &text) {
        Ok(()) => Ok(()),
        Err(_) => Err(Stop::Write),
    }
}

/// Appends a line.
fn push_line(bytes: &mut Vec<u8>, text: &[u8]) -> Mem<()>
    ensures { OnOk result (bytes.new.items ≡ bytes.old.items ++ line text.now) }
{
    bytes.extend_from_slice(text)?;
    bytes.push(b'\n')?;
    Ok(())
}

/// Takes a line of a batch: a line of a request, or the line that ends it; then the request is answered.
fn take_in<S: Service, W: Write>(
    alloc: Global,
    service: &S,
    text: &[u8],
    request: &mut Vec<u8>,
    writer: &mut Counted<W>,
) -> Result<(), Stop>
    ensures { TakesIn (S.answers service.now) text.now request.old.items request.new.items (W.contents writer.old.device) (W.contents writer.new.device) writer.old.failed writer.new.failed result }
{
    if text == b"end".as_slice() {
        return answer_one(
            alloc,
            service,
            mem::replace(request, Vec::new(alloc)),
            writer,
        );
    }
    push_line(request, text)?;
    Ok(())
}

/// Answers the last request of a batch, if no line `end` follows it.
fn take_end<S: Service, W: Write>(
    alloc: Global,
    service: &S,
    request: Vec<u8>,
    writer: &mut Counted<W>,
) -> Result<(), Stop>
    ensures { TakesEnd (S.answers service.now) request.items (W.contents writer.old.device) (W.contents writer.new.device) writer.old.failed writer.new.failed result }
{
    if request.is_empty() {
        return Ok(());
    }
    answer_one(alloc, service, request, writer)
}

/// Answers the requests of a batch.
fn serve_requests<S: Service, R: Read, W: Write>(
    alloc: Global,
    service: &S,
    reader: &mut Counted<R>,
    writer: &mut Counted<W>,
) -> Result<(), Stop>
    ensures { BatchEnds (S.answers service.now) (R.remaining reader.old.device) (R.remaining reader.new.device) (W.contents writer.old.device) (W.contents writer.new.device)
        reader.old.failed reader.new.failed writer.old.failed writer.new.failed result }
{
    let mut pending = Pending::new(alloc);
    let mut request = Vec::new(alloc);
    for _line in 0..u64::MAX {
        let text = match take_line(alloc, reader, &mut pending) {
            Ok(Some(text)) => text,
            Ok(None) => return take_end(alloc, service, request, writer),
            Err(error) => return Err(Stop::from(error)),
        };
        match take_in(alloc, service, &text, &mut request, writer) {
            Ok(()) => {}
            Err(stop) => return Err(stop),
        }
    }
    Err(Stop::Read)
}

/// Reads requests, each up to a line `end`, which the last may lack. Each is answered as soon as it has been read: with the
/// service's text, or with a line `bad-line N`, and then with a line `end` (docs/RULES.md, Batches). It never ends with
/// `BadLine`. Whenever it ends, the requests read before are answered, whole and in order; after `WriteFailed` a prefix of
/// the next answer follows them.
pub fn serve_each<S: Service, R: Read, W: Write>(
    alloc: Global,
    service: &S,
    reader: &mut Counted<R>,
    writer: &mut Counted<W>,
) -> Outcome
    // The answers to the requests were written, in order.
    ensures answered { result ≡ Outcome.Answered → IfSome (R.remaining reader.old.device) (λ bytes.
        (written : List ℕ) × AreTold (S.answers service.now) (requests_of (lines_of bytes)) written × Appends (W.contents writer.old.device) (W.contents writer.new.device) written) }
    // If a run ends early, they are those to the first requests.
    ensures begun { result ≢ Outcome.WriteFailed → AreToldBegun (S.answers service.now) (R.remaining reader.old.device) (W.contents writer.old.device) (W.contents writer.new.device) }
    // If the writer failed, a proper prefix of the next answer follows them.
    ensures write_failed { result ≡ Outcome.WriteFailed → AreToldBroken (S.answers service.now) (R.remaining reader.old.device) (W.contents writer.old.device) (W.contents writer.new.device) }
    ensures at_end { result ≡ Outcome.Answered → IsAtEnd (R.remaining reader.new.device) }
    ensures goes_on { (n : ℕ) → result ≢ Outcome.BadLine n }
    // The first failed read ends the run, and is reported; or the reader had too many bytes.
    ensures read_failed { result ≡ Outcome.ReadFailed → (reader.new.failed ≡ one_more reader.old.failed)
        ⊎ (IfSome (R.remaining reader.old.device) (λ bytes. 2 ^ 40 ≤ length bytes) × (reader.new.failed ≡ reader.old.failed)) }
    ensures reader_told { result ≢ Outcome.ReadFailed → reader.new.failed ≡ reader.old.failed }
    // The first failed write ends the run, and is reported.
    ensures writer_failed { result ≡ Outcome.WriteFailed → writer.new.failed ≡ one_more writer.old.failed }
    ensures writer_told { result ≢ Outcome.WriteFailed → writer.new.failed ≡ writer.old.failed }
{
    match serve_requests(alloc, service, reader, writer) {
        Ok(()) => Outcome::Answered,
        Err(Stop::Memory) => Outcome::OutOfMemory,
        Err(Stop::Read) => Outcome::ReadFailed,
        Err(Stop::Write) => Outcome::WriteFailed,
    }
}
