//! Descriptions: the answer's lines, and after them rows of what was read.
ghost use Rattle.std.specs.Prelude.{◌≡◌, ◌≢◌, ◌^◌, ◌+◌, ◌<◌, ◌≤◌, ◌⊎◌, ℕ, List, length, take, IfOk, IfSome, Ok, Err};
ghost use Rattle.std.specs.Io.KnownBytes.{Appends, IsAtEnd};
ghost use Rattle.scl_devices.specs.Counts.{one_more, many_more};
ghost use Rattle.scl_catalogue.specs.Views.{catalogue_of};
ghost use Rattle.scl_cl.specs.Drafts.{asked_by};
ghost use Rattle.scl_cl.specs.Outcomes.{IsJudged, IsSilent};
ghost use Rattle.scl_cl.specs.Transfers.{Gave};
ghost use Rattle.scl_describe.specs.SettingsRead.{settings_by};
ghost use Rattle.scl_describe.specs.Descriptions.{DescribesBytes, description};

use crate::described::{Description, too_many_words};
use crate::settings::Settings;
use scl_cl::{Counted, Outcome, Request, Service, read_lines, serve};
use scl_hazards::Catalogue;
use scl_text::{Mem, TooManyWords};
use std::alloc::Global;
use std::io::{Read, Write};

/// The description of the answer to a request.
#[tactic(auto, using(crate::proofs::FindingLaws::is_too_long))]
fn request_description(
    alloc: Global,
    catalogue: &Catalogue,
    settings: &Settings,
    request: &Request,
) -> Mem<Vec<u8>>
    ensures { IfOk result (λ text. text.items ≡ description (catalogue_of catalogue.now) (settings_by settings.now) (asked_by request.now)) }
{
    let (compiler, line) = (request.compiler, request.line());
    match compiler.read(alloc, &line, settings.limits)? {
        Ok(reading) => {
            let described = Description::of_reading(alloc, catalogue, settings, reading, &line)?;
            let text = described.text(alloc)?;
            Ok(text)
        }
        Err(TooManyWords) => too_many_words(alloc),
    }
}

/// Answers a request by a description of its answer, with what a catalogue knows of compilers (docs/RULES.md, Descriptions).
#[derive(Debug, Clone, Copy)]
pub struct Descriptions<'a> {
    /// What is known of compilers.
    pub catalogue: &'a Catalogue,
}

impl<'a> Service for Descriptions<'a> {
    ghost use Rattle.scl_catalogue.specs.Views.{catalogue_of};
    ghost use Rattle.scl_describe.specs.Descriptions.{DescribesBytes};

    ghost answers = { λ service bytes said. DescribesBytes (catalogue_of service.catalogue.now) bytes said };

    #[tactic(auto, using(crate::proofs::FindingLaws::describes_bytes))]
    fn answer(&self, alloc: Global, bytes: Vec<u8>) -> Mem<Result<Vec<u8>, u64>> {
        let mut settings = Settings::new(alloc);
        let read = read_lines(alloc, None, 1, &bytes, &mut settings)?;
        drop(bytes);
        match read {
            Ok(request) => {
                settings.trim_bases(alloc)?;
                Ok(Ok(request_description(alloc, self.catalogue, &settings, &request)?))
            }
            Err(number) => Ok(Err(number)),
        }
    }
}

/// Reads the request to its end, and writes a description of its answer: the answer's lines as `run` writes them, and after
/// them rows of what was read, with what the catalogue knows of compilers (docs/RULES.md, Descriptions). Lines `setting` are the
/// description's settings beside the request. It ends as `run` does.
pub fn describe<R: Read, W: Write>(
    alloc: Global,
    catalogue: &Catalogue,
    reader: &mut Counted<R>,
    writer: &mut Counted<W>,
) -> Outcome
    // What is answered is the answer to all that the reader had, and it is written whole.
    ensures answered { result ≡ Outcome.Answered → IfSome (R.remaining reader.old.device) (λ bytes.
        (text : List ℕ) × DescribesBytes (catalogue_of catalogue.now) bytes (Ok text) × Appends (W.contents writer.old.device) (W.contents writer.new.device) text) }
    ensures bad_line { (n : ℕ) → result ≡ Outcome.BadLine n → IfSome (R.remaining reader.old.device) (λ bytes. DescribesBytes (catalogue_of catalogue.now) bytes (Err n)) }
    // No line is judged before all was read.
    ensures judged { IsJudged result → IsAtEnd (R.remaining reader.new.device) }
    // The first read that fails ends the run, and is reported.
    ensures read_failed { result ≡ Outcome.ReadFailed → (reader.new.failed ≡ one_more reader.old.failed)
        ⊎ (Gave (R.remaining reader.old.device) (R.remaining reader.new.device) (2 ^ 40) × (reader.new.failed ≡ reader.old.failed) × (many_more (2 ^ 40) reader.old.calls ≤ reader.new.calls)) }
    // Whatever the reader reports, it is not read without end.
    ensures reads { reader.new.calls ≤ reader.old.calls + 2 ^ 40 }
    ensures reader_told { result ≢ Outcome.ReadFailed → reader.new.failed ≡ reader.old.failed }
    // A beginning of the answer was written, not all of it, and the writer failed.
    ensures write_failed { result ≡ Outcome.WriteFailed → IfSome (R.remaining reader.old.device) (λ bytes.
        (text : List ℕ) × (n : ℕ) × DescribesBytes (catalogue_of catalogue.now) bytes (Ok text) × (n < length text) × Appends (W.contents writer.old.device) (W.contents writer.new.device) (take n text)) }
    // The first write that fails ends the run, and is reported.
    ensures writer_failed { result ≡ Outcome.WriteFailed → writer.new.failed ≡ one_more writer.old.failed }
    ensures writer_told { result ≢ Outcome.WriteFailed → writer.new.failed ≡ writer.old.failed }
    // Nothing was written.
    ensures untouched { IsSilent result → writer.new ≡ writer.old }
{
    let service = Descriptions { catalogue };
    serve(alloc, &service, reader, writer)
}
