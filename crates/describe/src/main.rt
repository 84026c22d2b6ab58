//! Describes the answer to the request on standard input (docs/RULES.md, The program).
#![tactic(auto)]

use scl_catalogue_default::{built_in, over_built_in};
use scl_catalogue_text::{BadLine, ReadError};
use scl_cl::{Counted, Outcome, serve, serve_each};
use scl_describe::Catalogue;
use scl_requests::Requests;
use scl_shell::shown_briefly;
use std::alloc::AllocError;
use std::fs::Metadata;
use std::io::{self, ErrorKind};
use std::os::unix::fs::MetadataExt;
use std::process::ExitCode;
use std::rt::Files;
use std::{env, fs};

/// What `--help` prints.
const HELP: &str = "\
Describes what a compiler's command line means: the command to run in its place, what it reads and writes, and why.

usage: describe [--catalogue FILE]            one request on standard input, its description on standard output
       describe [--catalogue FILE] --batch    many requests, each ended by a line `end`; so is each description
       describe --help | --version

Hazards and effects of options are those of the built-in catalogue. The catalogue FILE (catalogue/README.md) adds to it: an
entry takes the place of the built-in one of its name.

example: printf 'compiler gcc\\nword -c\\nword a.c\\n' | describe

statuses: 0 answered, 2 a bad line (its number is on standard error), 3 out of memory, 4 reading or writing failed,
          64 called with other words, 65 a line of the catalogue is wrong (its number is on standard error)
";

/// What the program is to do.
#[derive(Clone, Copy, PartialEq, Eq)]
enum Call {
    One,
    Batch,
    Help,
    Version,
}

/// What the program is to do, and the path of the catalogue that is passed.
#[derive(Drop)]
struct Asked {
    call: Call,
    catalogue: Option<String>,
}

/// What a word requests, if the program does it; with a catalogue that is a description.
fn call_named(word: Option<&str>, has_catalogue: bool) -> Option<Call> {
    match word {
        None => Some(Call::One),
        Some("--batch") => Some(Call::Batch),
        Some("--help") if !has_catalogue => Some(Call::Help),
        Some("--version") if !has_catalogue => Some(Call::Version),
        Some(_) => None,
    }
}

/// What the words after the program's name request; none where the program does no such thing.
fn asked_of(rt: &HostRuntime) -> io::Result<Option<Asked>> {
    let mut words = env::args(rt)?.skip(1);
    let mut word = words.next();
    let mut catalogue = None;
    if matches!(&word, Some(first) if first.as_str() == "--catalogue") {
        let Some(path) = words.next() else {
            return Ok(None);
        };
        catalogue = Some(path);
        word = words.next();
    }
    let call = call_named(word.as_deref(), catalogue.is_some());
    match call {
        Some(call) if words.next().is_none() => Ok(Some(Asked { call, catalogue })),
        Some(_) | None => Ok(None),
    }
}

/// Reports a failure on standard error, and gives the status. Where standard error takes nothing, only the status says so.
fn tell(rt: &HostRuntime, outcome: Outcome) -> u8 {
    if outcome != Outcome::Answered {
        let _ = eprintln!(rt; "describe: {outcome}");
    }
    outcome.status()
}

/// Describes the request of standard input, by a catalogue, and gives the status.
fn describe_by(rt: &HostRuntime, catalogue: &Catalogue, is_batch: bool) -> u8 {
    let mut reader = Counted::new(rt.stdin());
    let mut writer = Counted::new(rt.stdout());
    let requests = Requests { catalogue };
    let outcome = if is_batch {
        serve_each(rt.alloc(), &requests, &mut reader, &mut writer)
    } else {
        serve(rt.alloc(), &requests, &mut reader, &mut writer)
    };
    tell(rt, outcome)
}

/// Reports that a line of the built-in catalogue is wrong, and gives the status. The gate runs the program, so none is.
fn refuse_built_in(rt: &HostRuntime, bad: BadLine) -> u8 {
    let _ = eprintln!(rt;
        "describe: the built-in catalogue:{}: {}",
        bad.line, bad.mistake
    );
    65
}

/// Describes by the built-in catalogue, and gives the status.
fn describe_by_built_in(rt: &HostRuntime, is_batch: bool) -> u8 {
    match built_in(rt.alloc()) {
        Ok(catalogue) => describe_by(rt, &catalogue, is_batch),
        Err(ReadError::BadLine(bad)) => refuse_built_in(rt, bad),
        Err(ReadError::Memory) => tell(rt, Outcome::OutOfMemory),
    }
}

/// Reports that a file can't be read, and gives the status.
fn refuse_file(rt: &HostRuntime, path: &str, error: &io::Error) -> u8 {
    match shown_briefly(rt.alloc(), path.as_bytes()) {
        Ok(path) if error.kind() != ErrorKind::OutOfMemory => {
            let _ = eprintln!(rt; "describe: {path}: {error}");
            Outcome::ReadFailed.status()
        }
        Ok(_) | Err(_) => tell(rt, Outcome::OutOfMemory),
    }
}

/// The wrong line of a file's text, with the word that is wrong.
fn wrong_line(
    rt: &HostRuntime,
    path: &str,
    text: &[u8],
    bad: BadLine,
) -> Result<String, AllocError> {
    let path = shown_briefly(rt.alloc(), path.as_bytes())?;
    match bad.word(rt.alloc(), text)? {
        Some(word) => {
            let word = shown_briefly(rt.alloc(), word)?;
            Ok(format!(in rt.alloc(); "{path}:{}: {word}: {}", bad.line, bad.mistake)?)
        }
        None => Ok(format!(in rt.alloc(); "{path}:{}: {}", bad.line, bad.mistake)?),
    }
}

/// Reports the first wrong line of a catalogue, and gives the status.
fn refuse_line(rt: &HostRuntime, path: &str, text: &[u8], bad: BadLine) -> u8 {
    match wrong_line(rt, path, text, bad) {
        Ok(line) => {
            let _ = eprintln!(rt; "describe: {line}");
            65
        }
        Err(_) => tell(rt, Outcome::OutOfMemory),
    }
}

/// Whether a file is one of those of `/proc`, whose size the system does not report.
fn is_unsized(rt: &HostRuntime, metadata: &Metadata) -> bool {
    let proc = rt.metadata("/proc");
    metadata.len() == 0 && proc.is_ok_and(|proc| proc.dev() == metadata.dev())
}

/// The bytes of a regular file. No other is opened, since reads of it may wait for ever.
fn file_bytes(rt: &HostRuntime, path: &str) -> io::Result<Vec<u8>> {
    let metadata = rt.metadata(path)?;
    if !metadata.is_file() {
        return Err(io::Error::other("it is no regular file"));
    }
    if is_unsized(rt, &metadata) {
        return Err(io::Error::other("the system does not say how large it is"));
    }
    fs::read(rt, path)
}

/// Describes by the catalogue of a file over the built-in one, or reports its first wrong line, and gives the status.
fn describe_by_file(rt: &HostRuntime, path: &str, is_batch: bool) -> u8 {
    let text = match file_bytes(rt, path) {
        Ok(text) => text,
        Err(error) => return refuse_file(rt, path, &error),
    };
    match over_built_in(rt.alloc(), &text) {
        Ok(catalogue) => describe_by(rt, &catalogue, is_batch),
        Err(ReadError::BadLine(bad)) if bad.line == 0 => refuse_built_in(rt, bad),
        Err(ReadError::BadLine(bad)) => refuse_line(rt, path, &text, bad),
        Err(ReadError::Memory) => tell(rt, Outcome::OutOfMemory),
    }
}

/// Describes the request of standard input, and gives the status.
fn describe_input(rt: &HostRuntime, catalogue: Option<&str>, is_batch: bool) -> u8 {
    match catalogue {
        Some(path) => describe_by_file(rt, path, is_batch),
        None => describe_by_built_in(rt, is_batch),
    }
}

/// Says that it was called with other words, and gives the status.
fn refuse_words(rt: &HostRuntime) -> u8 {
    let _ = eprintln!(rt; "describe: no such words; describe --help says which there are");
    64
}

/// Writes a text, and gives the status.
fn write_text(rt: &HostRuntime, text: &str) -> u8 {
    let outcome = match print!(rt; "{text}") {
        Ok(()) => Outcome::Answered,
        Err(_) => Outcome::WriteFailed,
    };
    tell(rt, outcome)
}

fn main(rt: HostRuntime) -> ExitCode {
    ExitCode::from(match asked_of(&rt) {
        Ok(Some(asked)) => match asked.call {
            Call::One => describe_input(&rt, asked.catalogue.as_deref(), false),
            Call::Batch => describe_input(&rt, asked.catalogue.as_deref(), true),
            Call::Help => write_text(&rt, HELP),
            Call::Version => write_text(&rt, "describe 1\n"),
        },
        Err(error) if error.kind() == ErrorKind::OutOfMemory => tell(&rt, Outcome::OutOfMemory),
        Ok(None) | Err(_) => refuse_words(&rt),
    })
}
