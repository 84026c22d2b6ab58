//! What a command line is, for a person.
use crate::keep::kept_texts;
use crate::nothing::nothing_text;
use crate::options::push_options;
use crate::paint::{Codes, codes_of};
use scl_cl::{Cacheable, Compilation, CompilerArguments, Mem, ParsedArguments};
use scl_describe::Kept;
use scl_explain::{Answered, Case, Paint, cached_text, refusal_text, unrunnable_text};
use scl_hazards::Hazard;
use scl_key::made_beside;
use scl_reasons::sentence;
use scl_rows::Row;
use scl_shell::{shown, shown_command};
use std::alloc::Global;

/// A text that is written.
#[derive(Drop)]
struct Page {
    alloc: Global,
    codes: Codes,
    text: String,
}

/// The columns that a title takes at least, without what parts it from its text.
const TITLE: usize = 14;

impl Page {
    fn push_title(&mut self, title: &str) -> Mem<()> {
        let (begin, end) = (self.codes.title, self.codes.end);
        write!(self.text, "{begin}{title}:{end} ")?;
        for _ in title.len()..TITLE {
            self.text.push(' ')?;
        }
        Ok(())
    }

    fn line(&mut self, title: &str, text: &str) -> Mem<()> {
        self.push_title(title)?;
        self.text.push_str(text)?;
        self.text.push('\n')
    }

    fn path(&mut self, title: &str, path: &[u8], note: &str) -> Mem<()> {
        self.push_title(title)?;
        self.text.push_str(shown(self.alloc, path)?.as_str())?;
        self.text.push_str(note)?;
        self.text.push('\n')
    }

    fn paths(&mut self, title: &str, paths: &[Vec<u8>], note: &str) -> Mem<()> {
        for path in paths {
            self.path(title, path, note)?;
        }
        Ok(())
    }

    fn command(&mut self, title: &str, program: &[u8], words: &[Vec<u8>]) -> Mem<()> {
        let text = shown_command(self.alloc, program, words)?;
        self.line(title, text.as_str())
    }

    fn outcome(&mut self, colour: &str, text: &str) -> Mem<()> {
        let end = self.codes.end;
        write!(self.text, "{colour}{text}{end}\n")
    }
}

/// Whether a command can be run, and its outcome be kept.
fn push_compiled(page: &mut Page, program: &[u8], compilation: &Compilation) -> Mem<()> {
    let (good, bad) = (page.codes.good, page.codes.bad);
    if let Some(text) = unrunnable_text(page.alloc, program, &compilation.command.arguments)? {
        return page.outcome(bad, text.as_str());
    }
    let colour = match compilation.cacheable {
        Cacheable::Yes => good,
        Cacheable::No => bad,
    };
    page.outcome(colour, cached_text(compilation.cacheable))
}

fn push_outcome(page: &mut Page, case: &Case, answered: &Answered<'_>) -> Mem<()> {
    let bad = page.codes.bad;
    match &answered.description.answer {
        CompilerArguments::Ok(compilation) => push_compiled(page, &case.program, compilation),
        CompilerArguments::CannotCache(reason, more) => {
            let missing = &answered.missing_files;
            let text = refusal_text(page.alloc, reason, more.as_deref(), missing)?;
            page.outcome(bad, text.as_str())?;
            page.line("because", sentence(reason))
        }
        CompilerArguments::NotCompilation => {
            let text = nothing_text(page.alloc, &answered.description.options)?;
            page.outcome(bad, text.as_str())
        }
    }
}

/// Whether the outcome may be kept under a key, or why not.
fn push_kept(page: &mut Page, kept: &Kept) -> Mem<()> {
    for text in &kept_texts(page.alloc, kept)? {
        page.line("may be kept", text.as_str())?;
    }
    Ok(())
}

fn push_case(page: &mut Page, case: &Case) -> Mem<()> {
    page.line("compiler", case.compiler.name())?;
    page.path("directory", &case.cwd, "")
}

fn push_files(page: &mut Page, answered: &Answered<'_>) -> Mem<()> {
    page.paths("response file", &answered.response_files, "")?;
    page.paths(
        "response file",
        &answered.missing_files,
        " (no file is there)",
    )
}

fn push_outputs(page: &mut Page, compilation: &Compilation) -> Mem<()> {
    for (name, output) in compilation.parsed.outputs.iter() {
        let optional = if output.optional {
            ", may be missing"
        } else {
            ""
        };
        let note = format!(in page.alloc; " ({name}{optional})")?;
        page.path("output", &output.path, note.as_str())?;
    }
    Ok(())
}

/// The file of diagnostics that the command writes beside the outputs of its record.
fn push_diagnostics(page: &mut Page, parsed: &ParsedArguments) -> Mem<()> {
    for output in &made_beside(page.alloc, parsed)? {
        if output.name.as_slice() == b"dia".as_slice() {
            page.path("output", &output.path, " (dia)")?;
        }
    }
    Ok(())
}

/// The dependency file that the command writes, or that only the given command does.
fn push_dependencies(page: &mut Page, writes: Option<&[u8]>, parsed: &ParsedArguments) -> Mem<()> {
    if let Some(path) = writes {
        page.path("output", path, " (d)")?;
    }
    if let Some(path) = &parsed.depfile {
        page.path("dependency file of the given command", path, "")?;
    }
    Ok(())
}

fn push_record(page: &mut Page, writes: Option<&[u8]>, compilation: &Compilation) -> Mem<()> {
    let parsed = &compilation.parsed;
    let note = format!(in page.alloc; " ({:?})", parsed.language)?;
    page.path("input", &parsed.input, note.as_str())?;
    push_outputs(page, compilation)?;
    push_dependencies(page, writes, parsed)?;
    push_diagnostics(page, parsed)?;
    page.paths("hashed too", &parsed.extra_hash_files, "")?;
    if let Some(flag) = &parsed.too_hard_for_preprocessor_cache_mode {
        let flag = shown(page.alloc, flag)?;
        page.line("no direct mode", flag.as_str())?;
    }
    Ok(())
}

/// A hazard, and what happens.
fn hazard_text(alloc: Global, hazard: &Hazard<'_>) -> Mem<String> {
    let name = shown(alloc, hazard.name())?;
    let consequence = shown(alloc, hazard.consequence())?;
    format!(in alloc; "{name}: {consequence}")
}

fn push_hazards(page: &mut Page, hazards: &[Hazard<'_>]) -> Mem<()> {
    for hazard in hazards {
        let text = hazard_text(page.alloc, hazard)?;
        page.line("hazard", text.as_str())?;
    }
    Ok(())
}

fn push_commands(page: &mut Page, case: &Case, answered: &Answered<'_>) -> Mem<()> {
    let described = &answered.description;
    if let CompilerArguments::Ok(compilation) = &described.answer {
        push_record(page, described.writes.as_deref(), compilation)?;
        push_hazards(page, &described.told.hazards)?;
        page.command("command", &case.program, &compilation.command.arguments)?;
        for run in &described.runs {
            page.command("preprocessor", &case.program, run)?;
        }
    }
    Ok(())
}

/// The table of options, under its title.
fn push_rows(page: &mut Page, rows: &[Row]) -> Mem<()> {
    let (begin, end) = (page.codes.title, page.codes.end);
    write!(page.text, "{begin}options:{end}\n")?;
    push_options(page.alloc, &mut page.text, rows)
}

/// What a command line is, for a person.
pub fn explanation(
    alloc: Global,
    case: &Case,
    answered: &Answered<'_>,
    paint: Paint,
) -> Mem<String> {
    let mut page = Page {
        alloc,
        codes: codes_of(paint),
        text: String::new(alloc),
    };
    push_outcome(&mut page, case, answered)?;
    push_kept(&mut page, &answered.description.kept)?;
    push_case(&mut page, case)?;
    push_files(&mut page, answered)?;
    push_rows(&mut page, &answered.description.options)?;
    push_commands(&mut page, case, answered)?;
    let Page { text, .. } = page;
    Ok(text)
}
