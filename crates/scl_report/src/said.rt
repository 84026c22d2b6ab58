//! What a catalogue says of a word of a command line.
use crate::table::Table;
use scl_catalogue::{Catalogue, Entry, Level, Marks, Seen, Standing, Tells};
use scl_catalogue_text::statement;
use scl_cl::{CommandLine, Compiler, Limits, Mem, Reading, TooManyWords, View};
use scl_describe::{catalogued, options_seen};
use scl_description::{RowList, tell_row};
use scl_shell::shown;
use std::alloc::Global;

/// A value for an option that lacks one.
const VALUE: &[u8] = b"x";

/// The word read alone, with a value behind it in case its option wants one.
fn read_alone(
    alloc: Global,
    compiler: Compiler,
    word: &[u8],
) -> Mem<Result<Reading, TooManyWords>> {
    let mut words = Vec::new(alloc);
    words.push(Vec::from_slice(alloc, word)?)?;
    words.push(Vec::from_slice(alloc, VALUE)?)?;
    let view = View::new(alloc);
    let line = CommandLine {
        words: &words,
        directory: b"",
        environment: &[],
        view: &view,
    };
    compiler.read(alloc, &line, Limits::standard())
}

/// The word as entries see it that speak of words of a key and of runs: as an option that no row fits.
fn word_seen(word: &[u8]) -> Seen<'_> {
    Seen {
        standing: Standing::Unknown,
        name: word,
        kind: &[],
        value: &[],
        marks: Marks {
            stays: false,
            is_apart: false,
            is_joined: false,
            is_delimiter_dropped: false,
            has_hidden_value: false,
        },
    }
}

/// Whether such an entry speaks of words, and not of options as they were read.
fn is_of_words(tells: &Tells) -> bool {
    match tells {
        Tells::Key(_) | Tells::Run(_) | Tells::Names(_) | Tells::Brings(_) => true,
        Tells::Hazard(_) | Tells::Effect(_, _) | Tells::Plain => false,
    }
}

/// Whether the entry speaks of the word, which was read as the first of these options, in some version of the compiler.
fn is_meant(entry: &Entry, compiler: Compiler, word: &[u8], options: &[Seen<'_>]) -> bool {
    let compiler = catalogued(compiler);
    let option = if is_of_words(&entry.tells) {
        None
    } else {
        options.first()
    };
    match option {
        Some(option) => entry.speaks_of(compiler, None, Level::Outer, option),
        None => entry.speaks_of(compiler, None, Level::Outer, &word_seen(word)),
    }
}

fn entries_among<'c>(
    alloc: Global,
    catalogue: &'c Catalogue,
    compiler: Compiler,
    word: &[u8],
    options: &[Seen<'_>],
) -> Mem<Vec<&'c Entry>> {
    let mut entries = Vec::new(alloc);
    for entry in &catalogue.entries {
        if is_meant(entry, compiler, word, options) {
            entries.push(entry)?;
        }
    }
    Ok(entries)
}

/// The entries of the catalogue that speak of the word, which was read so.
fn entries_by<'c>(
    alloc: Global,
    catalogue: &'c Catalogue,
    compiler: Compiler,
    word: &[u8],
    reading: &Reading,
) -> Mem<Vec<&'c Entry>> {
    let options = options_seen(alloc, reading)?;
    entries_among(alloc, catalogue, compiler, word, &options)
}

/// The entries of the catalogue that speak of the word in a command line of the compiler.
fn entries_of<'c>(
    alloc: Global,
    catalogue: &'c Catalogue,
    compiler: Compiler,
    word: &[u8],
) -> Mem<Vec<&'c Entry>> {
    match read_alone(alloc, compiler, word)? {
        Ok(reading) => entries_by(alloc, catalogue, compiler, word, &reading),
        Err(TooManyWords) => Ok(Vec::new(alloc)),
    }
}

/// What an entry states, its name and its sentence.
fn cells(alloc: Global, entry: &Entry) -> Mem<Vec<String>> {
    let statement = statement(alloc, &entry.tells)?;
    let mut cells = Vec::new(alloc);
    cells.push(shown(alloc, &statement)?)?;
    cells.push(shown(alloc, &entry.name)?)?;
    cells.push(shown(alloc, &entry.says)?)?;
    Ok(cells)
}

/// Appends what the catalogue says of the word, a line for each entry that speaks of it.
pub(crate) fn push_said(
    alloc: Global,
    text: &mut String,
    catalogue: &Catalogue,
    compiler: Compiler,
    word: &[u8],
) -> Mem<()> {
    let entries = entries_of(alloc, catalogue, compiler, word)?;
    if entries.is_empty() {
        return Ok(());
    }
    let mut table = Table::new(alloc);
    for entry in &entries {
        table.push(cells(alloc, entry)?)?;
    }
    let word = shown(alloc, word)?;
    write!(text, "the catalogue says of {word}:\n")?;
    table.write(text)
}

/// Tells the row of an entry: the word, the entry's name, what it states, and its sentence.
fn tell_entry<'t>(
    rows: &mut RowList,
    word: &'t [u8],
    entry: &'t Entry,
    statement: &'t [u8],
) -> Mem<()> {
    tell_row(
        rows,
        "catalogue",
        &[word, &entry.name, statement, &entry.says],
    )
}

/// Tells the same as `push_said`, a row for each entry.
pub(crate) fn tell_said(
    alloc: Global,
    rows: &mut RowList,
    catalogue: &Catalogue,
    compiler: Compiler,
    word: &[u8],
) -> Mem<()> {
    let entries = entries_of(alloc, catalogue, compiler, word)?;
    for entry in &entries {
        tell_entry(rows, word, entry, &statement(alloc, &entry.tells)?)?;
    }
    Ok(())
}
