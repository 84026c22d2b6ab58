//! The dependency file that clang-cl does not write, from what it wrote on its error output.
ghost use Rattle.std.specs.Prelude.{◌≡◌, IfOk, MatchResult, Ok, Err};
ghost use Rattle.std.specs.Option.{option_map};
ghost use Rattle.scl_cl.specs.Drafts.{asked_by};
ghost use Rattle.scl_description.specs.Lines.{lines_of};
ghost use Rattle.scl_description.specs.Rows.{entries_text};
ghost use Rattle.scl_reader.specs.CommandLines.{asked_for};
ghost use Rattle.scl_reader.specs.Reads.{outcome_in};
ghost use Rattle.scl_reader.specs.declared.reading.Reading.{Reading};
ghost use Rattle.scl_text.specs.Records.{parsed_of};
ghost use Rattle.scl_requests.specs.Depfiles.{IsDepfileSaid, IsReadingSaid, IsRequestSaid, IsSaid, is_clang_cl, made_entries, nothing_entries, shown_by, shown_cut, shown_in, unread_entries};

use scl_cl::{Compiler, Mem, NoLines, Request, read_lines};
use scl_describe::too_many_words;
use scl_description::{cut_at, next_line, push_word, push_yes, read_field};
use scl_msvc::msvc::{DepfileError, DepfileText, depfile_text};
use scl_reader::{Limits, ParsedArguments, Reading};
use scl_text::{TooManyWords, from_local_codepage};
use std::alloc::{AllocError, Global};

/// What the compiler wrote on its error output, and the prefix of the lines that name files.
#[derive(Drop)]
struct Shown {
    prefix: String,
    messages: Vec<u8>,
}

/// What two fields tell, with a tab between them.
fn shown_cut(alloc: Global, prefix: &[u8], messages: &[u8]) -> Mem<Option<Shown>>
    ensures { IfOk result (λ shown. option_map shown_by shown ≡ shown_cut prefix.now messages.now) }
{
    let Some(prefix) = read_field(alloc, prefix)? else {
        return Ok(None);
    };
    let Some(prefix) = from_local_codepage(alloc, &prefix)? else {
        return Ok(None);
    };
    let Some(messages) = read_field(alloc, messages)? else {
        return Ok(None);
    };
    Ok(Some(Shown { prefix, messages }))
}

/// What a line tells of an error output.
fn shown_in(alloc: Global, line: &[u8]) -> Mem<Option<Shown>>
    ensures { IfOk result (λ shown. option_map shown_by shown ≡ shown_in line.now) }
{
    let Some((keyword, text)) = cut_at(b' ', line) else {
        return Ok(None);
    };
    if keyword != b"shown".as_slice() {
        return Ok(None);
    }
    match cut_at(b'\t', text) {
        Some((prefix, messages)) => shown_cut(alloc, prefix, messages),
        None => Ok(None),
    }
}

/// The rows of a dependency file.
fn made_text(alloc: Global, made: &DepfileText) -> Mem<Vec<u8>>
    ensures { IfOk result (λ text. text.items ≡ entries_text (made_entries made.now)) }
{
    let mut text = Vec::new(alloc);
    push_word(&mut text, "text", &made.text)?;
    push_word(&mut text, "kept", &made.kept)?;
    push_word(&mut text, "version", b"1")?;
    Ok(text)
}

/// The rows where no dependency file is to be made.
fn nothing_text(alloc: Global) -> Mem<Vec<u8>>
    ensures { IfOk result (λ text. text.items ≡ entries_text nothing_entries) }
{
    let mut text = Vec::new(alloc);
    push_word(&mut text, "version", b"1")?;
    Ok(text)
}

/// The rows where the error output is not UTF-8.
fn unread_text(alloc: Global) -> Mem<Vec<u8>>
    ensures { IfOk result (λ text. text.items ≡ entries_text unread_entries) }
{
    let mut text = Vec::new(alloc);
    push_yes(&mut text, "not-utf-8", true)?;
    push_word(&mut text, "version", b"1")?;
    Ok(text)
}

/// What is answered by a record.
#[tactic(auto, using(crate::proofs::DepfileLaws::by_made, crate::proofs::DepfileLaws::by_nothing, crate::proofs::DepfileLaws::by_unread))]
fn record_said(
    alloc: Global,
    parsed: &ParsedArguments,
    is_clang: bool,
    shown: &Shown,
) -> Mem<Vec<u8>>
    ensures { IfOk result (λ text. IsDepfileSaid is_clang (parsed_of parsed.now) (shown_by shown.now) text.items) }
{
    match depfile_text(
        alloc,
        parsed,
        is_clang,
        shown.prefix.as_str(),
        &shown.messages,
    ) {
        Ok(Some(made)) => made_text(alloc, &made),
        Ok(None) => nothing_text(alloc),
        Err(DepfileError::NotUtf8) => unread_text(alloc),
        Err(DepfileError::Memory) => Err(AllocError),
    }
}

/// Whether it is clang-cl, which writes no dependency file.
fn is_clang_cl(compiler: Compiler) -> bool
    ensures { result ≡ is_clang_cl compiler }
{
    match compiler {
        Compiler::ClangCl => true,
        Compiler::Gcc
        | Compiler::Gxx
        | Compiler::Clang
        | Compiler::Clangxx
        | Compiler::Cl
        | Compiler::Diab
        | Compiler::Tasking => false,
    }
}

/// What is answered by what a compiler read.
#[tactic(auto, using(crate::proofs::DepfileLaws::reads_record, crate::proofs::DepfileLaws::reads_none))]
fn reading_said(alloc: Global, compiler: Compiler, reading: &Reading, shown: &Shown) -> Mem<Vec<u8>>
    ensures { IfOk result (λ text. IsReadingSaid compiler (outcome_in reading.now) (shown_by shown.now) text.items) }
{
    match reading.record() {
        Some(parsed) => record_said(alloc, parsed, is_clang_cl(compiler), shown),
        None => nothing_text(alloc),
    }
}

/// What is answered to a request.
#[tactic(auto, using(crate::proofs::DepfileLaws::by_reading, crate::proofs::DepfileLaws::by_too_many))]
fn request_said(alloc: Global, request: &Request, shown: &Shown) -> Mem<Vec<u8>>
    ensures { IfOk result (λ text. IsRequestSaid (asked_by request.now) (shown_by shown.now) text.items) }
{
    match request
        .compiler
        .read(alloc, &request.line(), Limits::standard())?
    {
        Ok(reading) => reading_said(alloc, request.compiler, &reading, shown),
        Err(TooManyWords) => too_many_words(alloc),
    }
}

/// What is answered to the lines after the first: one of the error output, and those of a request.
#[tactic(auto, using(crate::proofs::DepfileLaws::by_request, crate::proofs::DepfileLaws::by_bad_line, crate::proofs::DepfileLaws::none_shown, crate::proofs::DepfileLaws::no_line))]
pub(crate) fn depfile_said(alloc: Global, bytes: &[u8]) -> Mem<Result<Vec<u8>, u64>>
    ensures { IfOk result (λ said. MatchResult said (λ text. IsSaid (lines_of bytes.now) (Ok text.items)) (λ number. IsSaid (lines_of bytes.now) (Err number))) }
{
    let Some((line, rest)) = next_line(bytes) else {
        return Ok(Err(2));
    };
    let Some(shown) = shown_in(alloc, line)? else {
        return Ok(Err(2));
    };
    match read_lines(alloc, None, 3, rest, &mut NoLines)? {
        Ok(request) => Ok(Ok(request_said(alloc, &request, &shown)?)),
        Err(number) => Ok(Err(number)),
    }
}
