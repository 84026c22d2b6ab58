//! The table of a command line's options, for a person.
use crate::table::Table;
use scl_cl::Mem;
use scl_rows::{Destination, Origin, Row};
use scl_shell::{shown, shown_words};
use scl_text::refusal::Refusal;
use std::alloc::Global;

/// The titles of the columns.
static TITLES: [&str; 4] = ["words", "flag", "value", "goes to"];

/// What becomes of an option that goes there.
pub(crate) fn fate(destination: Destination) -> &'static str {
    match destination {
        Destination::Dependency => "dependency words",
        Destination::Preprocessor => "preprocessor words",
        Destination::Common => "common words, hashed",
        Destination::Architecture => "architectures, hashed",
        Destination::Unhashed => "words that are not hashed",
        Destination::CompileFlag => "the compile flag",
        Destination::Language => "the language",
        Destination::Output => "the path of an output",
        Destination::DependencyFile => "the path of the dependency file",
        Destination::DependencyTarget => "the target of the dependency file",
        Destination::Input => "the input",
        Destination::Mark => "the mark before the input",
        Destination::Color => "the colour of messages",
        Destination::HandedOn => "the compiler proper",
        Destination::Ignored => "nothing is read of it",
        Destination::Refused => "refused",
    }
}

fn fate_text(alloc: Global, row: &Row) -> Mem<String> {
    let fate = fate(row.destination);
    match &row.refusal {
        Some(Refusal::CannotCache(reason, _)) => format!(in alloc; "{fate}: {reason}"),
        Some(Refusal::NotCompilation) => format!(in alloc; "{fate}: it compiles nothing"),
        None => String::from_str(alloc, fate),
    }
}

fn words_text(alloc: Global, row: &Row) -> Mem<String> {
    let words = if row.origin == Origin::Added {
        &row.printed
    } else {
        &row.given
    };
    let words = shown_words(alloc, words)?;
    match row.origin {
        Origin::Given => Ok(words),
        Origin::Xclang => format!(in alloc; "-Xclang: {words}"),
        Origin::ClangColon => format!(in alloc; "-clang: {words}"),
        Origin::Added => format!(in alloc; "added: {words}"),
    }
}

fn value_text(alloc: Global, row: &Row) -> Mem<String> {
    match &row.value {
        Some(value) => shown(alloc, value),
        None => Ok(String::new(alloc)),
    }
}

fn flag_text(alloc: Global, row: &Row) -> Mem<String> {
    String::from_str(alloc, row.flag.unwrap_or(""))
}

fn cells(alloc: Global, row: &Row) -> Mem<Vec<String>> {
    let mut cells = Vec::new(alloc);
    cells.push(words_text(alloc, row)?)?;
    cells.push(flag_text(alloc, row)?)?;
    cells.push(value_text(alloc, row)?)?;
    cells.push(fate_text(alloc, row)?)?;
    Ok(cells)
}

fn titles(alloc: Global) -> Mem<Vec<String>> {
    let mut cells = Vec::new(alloc);
    for title in TITLES {
        cells.push(String::from_str(alloc, title)?)?;
    }
    Ok(cells)
}

/// Writes the table of options.
pub(crate) fn push_options(alloc: Global, text: &mut String, rows: &[Row]) -> Mem<()> {
    let mut table = Table::new(alloc);
    table.push(titles(alloc)?)?;
    for row in rows {
        table.push(cells(alloc, row)?)?;
    }
    table.write(text)
}
