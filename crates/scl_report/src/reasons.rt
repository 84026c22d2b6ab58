//! All reasons and hazards, as a page for people and as JSON.
use crate::document::{document_of, versioned};
use crate::json::tell_danger;
use crate::keep::{REASONS, UNKNOWN, sentence_of};
use scl_cl::Mem;
use scl_description::{RowList, tell_row};
use scl_hazards::{
    Catalogue, Compiler, Entry, Hazard, compiler_name, danger_name, hazard_of, is_of,
};
use scl_reasons::{Explanation, explanations};
use scl_shell::shown;
use std::alloc::Global;

/// The compilers of which something is known, in the order in which they are shown.
const COMPILERS: [Compiler; 6] = [
    Compiler::Gcc,
    Compiler::Clang,
    Compiler::ClangCl,
    Compiler::Cl,
    Compiler::Diab,
    Compiler::Tasking,
];

fn push_explanation(text: &mut String, explanation: &Explanation) -> Mem<()> {
    let (sentence, reasons) = explanation;
    for reason in *reasons {
        write!(text, "{reason}\n")?;
    }
    write!(text, "    {sentence}\n")
}

/// The compilers of which the entry speaks.
fn push_compilers(text: &mut String, entry: &Entry) -> Mem<()> {
    let mut before = "";
    for compiler in COMPILERS {
        if is_of(entry, compiler) {
            let name = compiler_name(compiler);
            write!(text, "{before}{name}")?;
            before = ", ";
        }
    }
    Ok(())
}

fn push_hazard(alloc: Global, text: &mut String, entry: &Entry, hazard: &Hazard<'_>) -> Mem<()> {
    let name = shown(alloc, hazard.name())?;
    let danger = danger_name(hazard.danger());
    write!(text, "{name} ({danger}; ")?;
    push_compilers(text, entry)?;
    let consequence = shown(alloc, hazard.consequence())?;
    write!(text, ")\n    {consequence}\n")
}

/// Appends the reasons why a command line can't be cached.
fn push_explanations(text: &mut String) -> Mem<()> {
    for explanation in explanations() {
        push_explanation(text, explanation)?;
    }
    Ok(())
}

/// Appends the reasons why nothing may be kept under a key.
fn push_verdicts(text: &mut String) -> Mem<()> {
    for reason in REASONS {
        let (name, sentence) = (reason.name(), sentence_of(reason));
        write!(text, "{name}\n    {sentence}\n")?;
    }
    write!(text, "unknown\n    {UNKNOWN}\n")
}

/// Appends the hazards of a catalogue. An entry without cases takes one away, so it is none.
fn push_hazards(alloc: Global, text: &mut String, catalogue: &Catalogue) -> Mem<()> {
    for entry in &catalogue.entries {
        if let Some(hazard) = hazard_of(entry)
            && !entry.cases.is_empty()
        {
            push_hazard(alloc, text, entry, &hazard)?;
        }
    }
    Ok(())
}

/// Each reason why a command line can't be cached, each why nothing may be kept under a key, and each hazard of a built command that
/// is known, with a sentence for people.
pub fn reasons_text(alloc: Global, catalogue: &Catalogue) -> Mem<String> {
    let mut text = String::from_str(alloc, "Reasons why a command line cannot be cached:\n")?;
    push_explanations(&mut text)?;
    text.push_str("\nReasons why nothing may be kept under a key:\n")?;
    push_verdicts(&mut text)?;
    text.push_str("\nHazards of built commands, with what differs:\n")?;
    push_hazards(alloc, &mut text, catalogue)?;
    Ok(text)
}

/// Tells the rows of the reasons why a command line can't be cached: each reason, and its sentence.
fn tell_explanation(rows: &mut RowList, explanation: &Explanation) -> Mem<()> {
    let (sentence, reasons) = explanation;
    for reason in *reasons {
        let fields = [reason.as_bytes(), sentence.as_bytes()];
        tell_row(rows, "reasons", &fields)?;
    }
    Ok(())
}

/// The names of the compilers of which the entry speaks.
fn compiler_names(alloc: Global, entry: &Entry) -> Mem<Vec<Vec<u8>>> {
    let mut names = Vec::new(alloc);
    for compiler in COMPILERS {
        if is_of(entry, compiler) {
            names.push(Vec::from_slice(alloc, compiler_name(compiler).as_bytes())?)?;
        }
    }
    Ok(names)
}

/// Tells the row of a hazard: its name, its danger, what happens, and the compilers.
fn tell_hazard(alloc: Global, rows: &mut RowList, entry: &Entry, hazard: &Hazard<'_>) -> Mem<()> {
    let danger = danger_name(hazard.danger()).as_bytes();
    let compilers = compiler_names(alloc, entry)?;
    tell_danger(
        rows,
        hazard.name(),
        danger,
        hazard.consequence(),
        &compilers,
    )
}

fn tell_hazards(alloc: Global, rows: &mut RowList, catalogue: &Catalogue) -> Mem<()> {
    for entry in &catalogue.entries {
        if let Some(hazard) = hazard_of(entry)
            && !entry.cases.is_empty()
        {
            tell_hazard(alloc, rows, entry, &hazard)?;
        }
    }
    Ok(())
}

/// Tells the rows of the reasons why nothing may be kept under a key.
fn tell_verdicts(rows: &mut RowList) -> Mem<()> {
    for reason in REASONS {
        let (name, sentence) = (reason.name(), sentence_of(reason));
        tell_row(rows, "keep", &[name.as_bytes(), sentence.as_bytes()])?;
    }
    tell_row(rows, "keep", &[b"unknown".as_slice(), UNKNOWN.as_bytes()])
}

/// The same as a document: the rows `reasons` and `keep`, and the hazards (docs/PROTOCOL.md, JSON).
pub fn reasons_json(alloc: Global, catalogue: &Catalogue) -> Mem<Vec<u8>> {
    let mut rows = versioned(alloc)?;
    for explanation in explanations() {
        tell_explanation(&mut rows, explanation)?;
    }
    tell_verdicts(&mut rows)?;
    tell_hazards(alloc, &mut rows, catalogue)?;
    document_of(alloc, &["version", "reasons", "keep", "danger"], &rows)
}
