//! Why an entry of a database can or can't be cached, for a person.
use crate::batch::Named;
use crate::digest::entry_line;
use crate::keep::kept_texts;
use scl_cl::{Compilation, CompilerArguments, Mem};
use scl_describe::Kept;
use scl_explain::{Answered, Case};
use scl_hazards::Hazard;
use scl_reasons::sentence;
use scl_shell::shown;
use std::alloc::Global;

fn push_line(text: &mut String, title: &str, said: &str) -> Mem<()> {
    write!(text, "    {title}: {said}\n")
}

/// Appends whether the outcome may be kept under a key, or why not.
fn push_kept(alloc: Global, text: &mut String, kept: &Kept) -> Mem<()> {
    for said in &kept_texts(alloc, kept)? {
        push_line(text, "may be kept", said.as_str())?;
    }
    Ok(())
}

fn push_hazards(alloc: Global, text: &mut String, hazards: &[Hazard<'_>]) -> Mem<()> {
    for hazard in hazards {
        let name = shown(alloc, hazard.name())?;
        let consequence = shown(alloc, hazard.consequence())?;
        push_line(text, name.as_str(), consequence.as_str())?;
    }
    Ok(())
}

fn push_files(alloc: Global, text: &mut String, compilation: &Compilation) -> Mem<()> {
    let parsed = &compilation.parsed;
    push_line(text, "input", shown(alloc, &parsed.input)?.as_str())?;
    for output in parsed.outputs.values() {
        push_line(text, "output", shown(alloc, &output.path)?.as_str())?;
    }
    Ok(())
}

/// An entry and its outcome in a line, and why it can or can't be cached.
pub(crate) fn why_text(
    alloc: Global,
    named: Named<'_>,
    case: &Case,
    answered: &Answered<'_>,
) -> Mem<String> {
    let mut text = entry_line(alloc, named, case, answered)?;
    let described = &answered.description;
    match &described.answer {
        CompilerArguments::Ok(compilation) => {
            push_hazards(alloc, &mut text, &described.told.hazards)?;
            push_kept(alloc, &mut text, &described.kept)?;
            push_files(alloc, &mut text, compilation)?;
        }
        CompilerArguments::CannotCache(reason, _) => {
            push_line(&mut text, "because", sentence(reason))?;
        }
        CompilerArguments::NotCompilation => {}
    }
    push_line(&mut text, "compiler", case.compiler.name())?;
    push_line(&mut text, "directory", shown(alloc, &case.cwd)?.as_str())?;
    Ok(text)
}
