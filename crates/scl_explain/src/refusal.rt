//! Why a command line can't be cached, in a few words.
use crate::answered::Answered;
use crate::case::Case;
use crate::nuls::unrunnable_text;
use crate::report::Report;
use scl_reader::{Compilation, CompilerArguments, Mem};
use scl_reasons::sentence;
use scl_shell::shown_briefly;
use scl_text::reasons::UNEXPANDED_FILE;
use scl_text::records::Cacheable;
use std::alloc::Global;

/// Says of the first path that no file is there, and how many others there are.
fn push_missing(alloc: Global, text: &mut String, paths: &[Vec<u8>]) -> Mem<()> {
    if let Some(path) = paths.first() {
        let path = shown_briefly(alloc, path)?;
        write!(text, ": no file at {path}")?;
    }
    if paths.len() > 1 {
        let others = paths.len() - 1;
        write!(text, " and at {others} more")?;
    }
    Ok(())
}

/// Why a command line can't be cached: the reason, the text beside it, and the response files that are not there, where the
/// reason is one of them. Of a long text the beginning is shown.
pub fn refusal_text(
    alloc: Global,
    reason: &str,
    more: Option<&str>,
    missing_files: &[Vec<u8>],
) -> Mem<String> {
    let mut text = format!(in alloc; "cannot be cached: {reason}")?;
    if let Some(more) = more {
        let more = shown_briefly(alloc, more.as_bytes())?;
        write!(text, ": {more}")?;
    }
    if reason == UNEXPANDED_FILE {
        push_missing(alloc, &mut text, missing_files)?;
    }
    Ok(text)
}

/// What becomes of the outcome of a compilation.
pub fn cached_text(cacheable: Cacheable) -> &'static str {
    match cacheable {
        Cacheable::Yes => "can be cached",
        Cacheable::No => "compiles, and may not be kept in the cache",
    }
}

fn command_line(alloc: Global, program: &[u8], compilation: &Compilation) -> Mem<Option<String>> {
    let (words, cacheable) = (&compilation.command.arguments, compilation.cacheable);
    if let Some(text) = unrunnable_text(alloc, program, words)? {
        return Ok(Some(text));
    }
    match cacheable {
        Cacheable::Yes => Ok(None),
        Cacheable::No => Ok(Some(String::from_str(alloc, cached_text(cacheable))?)),
    }
}

/// The line that says why there is no command, with a sentence for people, or why it can't be run, or that its outcome may not be
/// kept; none of any other command.
pub(crate) fn ending_line<R: Report>(
    alloc: Global,
    case: &Case,
    answered: &Answered<'_>,
    report: &R,
) -> Mem<Option<String>> {
    match &answered.description.answer {
        CompilerArguments::Ok(compilation) => command_line(alloc, &case.program, compilation),
        CompilerArguments::CannotCache(reason, more) => {
            let missing = &answered.missing_files;
            let mut text = refusal_text(alloc, reason, more.as_deref(), missing)?;
            let sentence = sentence(reason);
            write!(text, ": {sentence}")?;
            Ok(Some(text))
        }
        CompilerArguments::NotCompilation => Ok(Some(report.nothing(alloc, case, answered)?)),
    }
}
