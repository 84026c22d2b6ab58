//! What is known of compilers: the built-in catalogue, with one over it where it is passed.
use crate::asked::Asked;
use crate::fault::{Fault, warn};
use crate::file::{name_of, read_regular_file};
use crate::{BuiltIn, batch, diff, one, tables, why};
use scl_catalogue_text::{BadLine, ReadError};
use scl_describe::Catalogue;
use scl_explain::Ending;
use scl_reader::is_apple;
use scl_shell::shown_briefly;

/// Answers a request, by a catalogue.
fn answer(rt: &HostRuntime, known: &Catalogue, asked: &Asked<'_, '_>) -> Result<Ending, Fault> {
    match asked.name {
        "explain" => one::explain(rt, known, asked),
        "command" => one::command(rt, known, asked),
        "check" => one::check(rt, known, asked),
        "database" => batch::database(rt, known, asked),
        "why" => why::why(rt, known, asked),
        "diff" => diff::diff(rt, known, asked),
        "flags" => tables::words(rt, known, asked),
        _ => tables::reasons(rt, known, asked),
    }
}

/// Reports the first wrong line of a catalogue, with the word that is wrong.
fn wrong_line(rt: &HostRuntime, path: &str, text: &[u8], bad: BadLine) -> Result<Ending, Fault> {
    let name = name_of(rt, path)?;
    let line = match bad.word(rt.alloc(), text)? {
        Some(word) => {
            let word = shown_briefly(rt.alloc(), word)?;
            format!(in rt.alloc(); "{name}:{}: {word}: {}", bad.line, bad.mistake)?
        }
        None => format!(in rt.alloc(); "{name}:{}: {}", bad.line, bad.mistake)?,
    };
    warn(rt, &line);
    Ok(Ending::Usage)
}

/// Reports that a line of the built-in catalogue is wrong. The gate runs the program, so none is.
fn wrong_built_in(rt: &HostRuntime, bad: BadLine) -> Result<Ending, Fault> {
    let line = format!(in rt.alloc(); "the built-in catalogue:{}: {}", bad.line, bad.mistake)?;
    warn(rt, &line);
    Ok(Ending::Usage)
}

/// Answers a request, by the catalogue of a file over the built-in one.
fn answer_by_file<B: BuiltIn>(
    rt: &HostRuntime,
    built_in: &B,
    path: &str,
    asked: &Asked<'_, '_>,
) -> Result<Ending, Fault> {
    let text = read_regular_file(rt, path)?;
    match built_in.over(rt.alloc(), &text) {
        Ok(catalogue) => answer(rt, &catalogue, asked),
        Err(ReadError::BadLine(bad)) if bad.line == 0 => wrong_built_in(rt, bad),
        Err(ReadError::BadLine(bad)) => wrong_line(rt, path, &text, bad),
        Err(ReadError::Memory) => Err(Fault::Memory),
    }
}

/// Answers a request, by the built-in catalogue.
fn answer_by_built_in<B: BuiltIn>(
    rt: &HostRuntime,
    built_in: &B,
    asked: &Asked<'_, '_>,
) -> Result<Ending, Fault> {
    match built_in.catalogue(rt.alloc()) {
        Ok(catalogue) => answer(rt, &catalogue, asked),
        Err(ReadError::BadLine(bad)) => wrong_built_in(rt, bad),
        Err(ReadError::Memory) => Err(Fault::Memory),
    }
}

/// Answers a request, by the catalogue that is named over the built-in one, or by that alone.
fn answer_by_catalogue<B: BuiltIn>(
    rt: &HostRuntime,
    built_in: &B,
    asked: &Asked<'_, '_>,
) -> Result<Ending, Fault> {
    match asked.value("--catalogue") {
        Some(path) => answer_by_file(rt, built_in, path, asked),
        None => answer_by_built_in(rt, built_in, asked),
    }
}

/// Whether a text is numbers with dots between them.
fn is_numbers(text: &str) -> bool {
    let mut is_number = false;
    for byte in text.as_bytes() {
        let is_digit = byte.is_ascii_digit();
        if !is_digit && !(is_number && *byte == b'.') {
            return false;
        }
        is_number = is_digit;
    }
    is_number
}

/// Whether a text is a version.
fn tells_version(text: &str) -> bool {
    is_numbers(text) || is_apple(Some(text))
}

/// Answers a request. A catalogue is read only for what needs one, since that takes longer than all else of a short request.
pub fn answer_by<B: BuiltIn>(
    rt: &HostRuntime,
    built_in: &B,
    asked: &Asked<'_, '_>,
) -> Result<Ending, Fault> {
    let told = asked.value("--compiler-version");
    if told.is_some_and(|text| !tells_version(text)) {
        warn(
            rt,
            &"a version is numbers with dots between them, as 14.0.6, or a text that names Apple's",
        );
        return Ok(Ending::Usage);
    }
    match asked.name {
        "flags" if asked.words.len() < 2 => tables::flags(rt, asked),
        "completions" | "man" => tables::page(rt, asked),
        _ => answer_by_catalogue(rt, built_in, asked),
    }
}
