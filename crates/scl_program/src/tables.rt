//! What needs no command line: reasons and hazards, the flags of the compilers' tables, completions and the manual's page.
use crate::asked::Asked;
use crate::fault::{Fault, warn};
use scl_cl::Compiler;
use scl_describe::Catalogue;
use scl_explain::Ending;
use scl_help::{BASH, FISH, MANUAL, ZSH};
use scl_report::{flags_json, flags_text, reasons_json, reasons_text, words_json, words_text};
use scl_shell::shown_briefly;
use std::io::Write;

/// Writes what is answered.
pub fn write(rt: &HostRuntime, text: &[u8]) -> Result<Ending, Fault> {
    rt.stdout().write_all(text).map_err(Fault::of_output)?;
    Ok(Ending::Answered)
}

/// Writes each reason and hazard.
pub fn reasons(
    rt: &HostRuntime,
    catalogue: &Catalogue,
    asked: &Asked<'_, '_>,
) -> Result<Ending, Fault> {
    if asked.has("--json") {
        return write(rt, &reasons_json(rt.alloc(), catalogue)?);
    }
    write(rt, reasons_text(rt.alloc(), catalogue)?.as_bytes())
}

/// Writes the flags of one compiler's tables, or of all.
fn write_flags(rt: &HostRuntime, compiler: Option<Compiler>, json: bool) -> Result<Ending, Fault> {
    if json {
        return write(rt, &flags_json(rt.alloc(), compiler)?);
    }
    write(rt, flags_text(rt.alloc(), compiler)?.as_bytes())
}

/// Writes what words of a compiler are.
fn write_words(
    rt: &HostRuntime,
    catalogue: &Catalogue,
    compiler: Compiler,
    asked: &Asked<'_, '_>,
) -> Result<Ending, Fault> {
    let words = asked.words.get(1..).unwrap_or(&[]);
    if asked.has("--json") {
        return write(rt, &words_json(rt.alloc(), catalogue, compiler, words)?);
    }
    let text = words_text(rt.alloc(), catalogue, compiler, words)?;
    write(rt, text.as_bytes())
}

/// Reports that a word names no compiler.
fn no_compiler(rt: &HostRuntime, word: &[u8]) -> Result<Ending, Fault> {
    let word = shown_briefly(rt.alloc(), word)?;
    let line = format!(in rt.alloc();
        "{word} is no compiler (scl flags --help says what there is)"
    )?;
    warn(rt, &line);
    Ok(Ending::Usage)
}

/// Writes the flags of the compilers' tables, of the one that is named or of all.
pub fn flags(rt: &HostRuntime, asked: &Asked<'_, '_>) -> Result<Ending, Fault> {
    let json = asked.has("--json");
    let Some(first) = asked.words.first() else {
        return write_flags(rt, None, json);
    };
    match Compiler::named(first) {
        Some(compiler) => write_flags(rt, Some(compiler), json),
        None => no_compiler(rt, first),
    }
}

/// Writes what the words of the compiler are that is named, and what the catalogue says of them.
pub fn words(
    rt: &HostRuntime,
    catalogue: &Catalogue,
    asked: &Asked<'_, '_>,
) -> Result<Ending, Fault> {
    let first = asked
        .words
        .first()
        .map_or(b"".as_slice(), |word| word.as_slice());
    match Compiler::named(first) {
        Some(compiler) => write_words(rt, catalogue, compiler, asked),
        None => no_compiler(rt, first),
    }
}

/// Writes the completions for a shell, or the manual's page.
pub fn page(rt: &HostRuntime, asked: &Asked<'_, '_>) -> Result<Ending, Fault> {
    let page = match asked.value("shell") {
        Some("bash") => BASH,
        Some("zsh") => ZSH,
        Some(_) => FISH,
        None => MANUAL,
    };
    write(rt, page.as_bytes())
}
