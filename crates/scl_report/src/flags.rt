//! The flags of the compilers' tables, as a page for people and as JSON.
use crate::document::{document_of, versioned};
use crate::options::fate;
use crate::said::{push_said, tell_said};
use crate::table::Table;
use scl_cl::args::{ArgDisposition, ArgRow};
use scl_cl::{
    CommandLine, Compiler, Limits, Mem, TooManyWords, View, clang, diab, gcc, msvc, tasking_vx,
};
use scl_describe::{Catalogue, Destination, Row, rows_of};
use scl_description::{RowList, tell_row};
use scl_kinds::NamedKind;
use scl_shell::shown;
use std::alloc::Global;

/// The titles of the columns.
static TITLES: [&str; 4] = ["flag", "value", "kind", "goes to"];

/// The rows of which a document has members, also where there are none.
static MEMBERS: [&str; 4] = ["version", "flags", "words", "catalogue"];

/// Values by which it is tried where a flag goes: a name, a language, a choice.
static VALUES: [&str; 3] = ["x", "c", "always"];

/// The compilers whose tables are shown, one of each that share theirs.
static COMPILERS: [Compiler; 5] = [
    Compiler::Gcc,
    Compiler::Clang,
    Compiler::Cl,
    Compiler::Diab,
    Compiler::Tasking,
];

/// A flag of a table.
#[derive(Drop)]
struct Flag {
    name: &'static str,
    value: Option<ArgDisposition>,
    kind: &'static str,
}

/// The one of `COMPILERS` that has the compiler's tables.
fn told_as(compiler: Compiler) -> Compiler {
    match compiler {
        Compiler::Gcc | Compiler::Gxx => Compiler::Gcc,
        Compiler::Clang | Compiler::Clangxx => Compiler::Clang,
        Compiler::Cl | Compiler::ClangCl => Compiler::Cl,
        Compiler::Diab => Compiler::Diab,
        Compiler::Tasking => Compiler::Tasking,
    }
}

/// Whose the tables of such a compiler are.
fn title(compiler: Compiler) -> &'static str {
    match compiler {
        Compiler::Gcc | Compiler::Gxx => "gcc, g++",
        Compiler::Clang | Compiler::Clangxx => "clang, clang++: these, and all of gcc",
        Compiler::Cl | Compiler::ClangCl => "cl, clang-cl: each also with / in place of -",
        Compiler::Diab => "diab",
        Compiler::Tasking => "tasking",
    }
}

/// Appends the flags of a table's rows, of those that the word fits if there is one.
fn push_rows<K: Copy + Drop + NamedKind>(
    alloc: Global,
    flags: &mut Vec<Flag>,
    rows: &[ArgRow<K>],
    word: Option<&[u8]>,
) -> Mem<()> {
    for row in rows {
        if word.is_none_or(|word| row.fits(word)) {
            let value = match row {
                ArgRow::Flag(_, _) => None,
                ArgRow::TakeArg(_, _, disposition) => Some(*disposition),
            };
            flags.push(Flag {
                name: row.flag(),
                value,
                kind: row.kind().name(),
            })?;
        }
    }
    Ok(())
}

/// The flags of the compiler's own table; those that the word fits, if there is one.
fn flags_of(alloc: Global, compiler: Compiler, word: Option<&[u8]>) -> Mem<Vec<Flag>> {
    let mut flags = Vec::new(alloc);
    let has_slash = word.is_some_and(|word| word.starts_with(b"/"));
    match compiler {
        Compiler::Cl | Compiler::ClangCl if has_slash => {
            push_rows(alloc, &mut flags, msvc::SLASH_ARGS, word)?
        }
        Compiler::Gcc | Compiler::Gxx => push_rows(alloc, &mut flags, gcc::ARGS, word)?,
        Compiler::Clang | Compiler::Clangxx => push_rows(alloc, &mut flags, clang::ARGS, word)?,
        Compiler::Cl | Compiler::ClangCl => push_rows(alloc, &mut flags, msvc::ARGS, word)?,
        Compiler::Diab => push_rows(alloc, &mut flags, diab::ARGS, word)?,
        Compiler::Tasking => push_rows(alloc, &mut flags, tasking_vx::ARGS, word)?,
    }
    Ok(flags)
}

/// How a value stands after its flag.
fn value_text(alloc: Global, value: Option<ArgDisposition>) -> Mem<String> {
    let (text, delimiter) = match value {
        None => ("", None),
        Some(ArgDisposition::Separated) => ("next word", None),
        Some(ArgDisposition::CanBeConcatenated(delimiter)) => ("next word or joined", delimiter),
        Some(ArgDisposition::CanBeSeparated(delimiter)) => ("joined or next word", delimiter),
        Some(ArgDisposition::Concatenated(delimiter)) => ("joined", delimiter),
    };
    match delimiter {
        Some(byte) => {
            let delimiter = shown(alloc, &[byte])?;
            format!(in alloc; "{text}, after {delimiter}")
        }
        None => String::from_str(alloc, text),
    }
}

/// The words of the flag with a value.
fn words_of(alloc: Global, flag: &Flag, value: &str) -> Mem<Vec<Vec<u8>>> {
    let mut words = Vec::new(alloc);
    let mut word = Vec::from_slice(alloc, flag.name.as_bytes())?;
    match flag.value {
        None => words.push(word)?,
        Some(ArgDisposition::Separated | ArgDisposition::CanBeConcatenated(_)) => {
            words.push(word)?;
            words.push(Vec::from_slice(alloc, value.as_bytes())?)?;
        }
        Some(ArgDisposition::CanBeSeparated(delimiter) | ArgDisposition::Concatenated(delimiter)) =>
            {
                if let Some(byte) = delimiter {
                    word.push(byte)?;
                }
                word.extend_from_slice(value.as_bytes())?;
                words.push(word)?;
            }
    }
    Ok(words)
}

/// What becomes of each option of these words.
fn rows_read(alloc: Global, compiler: Compiler, words: &[Vec<u8>]) -> Mem<Vec<Row>> {
    let view = View::new(alloc);
    let line = CommandLine {
        words,
        directory: b"",
        environment: &[],
        view: &view,
    };
    match compiler.read(alloc, &line, Limits::standard())? {
        Ok(reading) => rows_of(alloc, &reading),
        Err(TooManyWords) => Ok(Vec::new(alloc)),
    }
}

/// Where the first of these words goes; to nothing if it is no option.
fn destination(alloc: Global, compiler: Compiler, words: &[Vec<u8>]) -> Mem<Destination> {
    let rows = rows_read(alloc, compiler, words)?;
    Ok(
        rows.first()
            .map_or(Destination::Ignored, |row| row.destination),
    )
}

/// Where a flag goes with the first of `VALUES` with which it is not refused.
fn place(alloc: Global, compiler: Compiler, flag: &Flag) -> Mem<Destination> {
    for value in VALUES {
        let words = words_of(alloc, flag, value)?;
        let place = destination(alloc, compiler, &words)?;
        if place != Destination::Refused {
            return Ok(place);
        }
    }
    Ok(Destination::Refused)
}

fn titles(alloc: Global) -> Mem<Vec<String>> {
    let mut cells = Vec::new(alloc);
    for title in TITLES {
        cells.push(String::from_str(alloc, title)?)?;
    }
    Ok(cells)
}

fn cells(alloc: Global, compiler: Compiler, flag: &Flag) -> Mem<Vec<String>> {
    let mut cells = Vec::new(alloc);
    let place = place(alloc, compiler, flag)?;
    cells.push(String::from_str(alloc, flag.name)?)?;
    cells.push(value_text(alloc, flag.value)?)?;
    cells.push(String::from_str(alloc, flag.kind)?)?;
    cells.push(String::from_str(alloc, fate(place))?)?;
    Ok(cells)
}

/// Appends flags of a compiler.
fn push_table(alloc: Global, text: &mut String, compiler: Compiler, flags: &[Flag]) -> Mem<()> {
    let mut table = Table::new(alloc);
    table.push(titles(alloc)?)?;
    for flag in flags {
        table.push(cells(alloc, compiler, flag)?)?;
    }
    let title = title(compiler);
    write!(text, "{title}:\n")?;
    table.write(text)
}

/// Where a word goes that no flag fits.
fn word_place(alloc: Global, compiler: Compiler, word: &[u8]) -> Mem<Destination> {
    let mut words = Vec::new(alloc);
    words.push(Vec::from_slice(alloc, word)?)?;
    destination(alloc, compiler, &words)
}

/// Appends what becomes of a word that no flag of the compiler fits.
fn push_unlisted(alloc: Global, text: &mut String, compiler: Compiler, word: &[u8]) -> Mem<()> {
    let place = word_place(alloc, compiler, word)?;
    let becomes = if place.is_list() {
        "is passed on as it stands"
    } else {
        "is no flag"
    };
    let (word, name, fate) = (shown(alloc, word)?, compiler.name(), fate(place));
    write!(
        text,
        "{word} {becomes}: {name}'s tables have only flags that matter. It goes to: {fate}\n"
    )
}

/// How long the longest name of flags is.
fn longest(flags: &[Flag]) -> usize {
    let mut most = 0usize;
    for flag in flags {
        most = most.max(flag.name.len());
    }
    most
}

/// Those whose names are so long.
fn with_length(alloc: Global, flags: Vec<Flag>, length: usize) -> Mem<Vec<Flag>> {
    let mut kept = Vec::new(alloc);
    for flag in flags {
        if flag.name.len() == length {
            kept.push(flag)?;
        }
    }
    Ok(kept)
}

/// The flags by which a word of the compiler is cut: of those that fit it in its own table, and for clang in that of gcc, the
/// longest.
fn fitting(alloc: Global, compiler: Compiler, word: &[u8]) -> Mem<Vec<Flag>> {
    let mut flags = flags_of(alloc, compiler, Some(word))?;
    if compiler == Compiler::Clang {
        push_rows(alloc, &mut flags, gcc::ARGS, Some(word))?;
    }
    let length = longest(&flags);
    with_length(alloc, flags, length)
}

/// Appends the flag of which a word of the compiler is, or what becomes of it if it is of none.
fn push_word(alloc: Global, text: &mut String, compiler: Compiler, word: &[u8]) -> Mem<()> {
    let flags = fitting(alloc, compiler, word)?;
    if flags.is_empty() {
        push_unlisted(alloc, text, compiler, word)
    } else {
        push_table(alloc, text, compiler, &flags)
    }
}

/// The compilers whose tables are meant: those of one, or all.
fn compilers_of(alloc: Global, compiler: Option<Compiler>) -> Mem<Vec<Compiler>> {
    let mut compilers = Vec::new(alloc);
    for one in COMPILERS {
        if compiler.is_none_or(|compiler| told_as(compiler) == one) {
            compilers.push(one)?;
        }
    }
    Ok(compilers)
}

/// The flags of the tables, of one compiler or of all: each with how its value stands, its kind, and where it goes.
pub fn flags_text(alloc: Global, compiler: Option<Compiler>) -> Mem<String> {
    let mut text = String::new(alloc);
    for compiler in &compilers_of(alloc, compiler)? {
        let flags = flags_of(alloc, *compiler, None)?;
        push_table(alloc, &mut text, *compiler, &flags)?;
    }
    Ok(text)
}

/// Of each word of the compiler the flag of which it is, or where it goes if it is of none; and what the catalogue says of it.
pub fn words_text(
    alloc: Global,
    catalogue: &Catalogue,
    compiler: Compiler,
    words: &[Vec<u8>],
) -> Mem<String> {
    let mut text = String::new(alloc);
    for word in words {
        push_word(alloc, &mut text, told_as(compiler), word)?;
        push_said(alloc, &mut text, catalogue, compiler, word)?;
    }
    Ok(text)
}

/// Tells the row of a flag: the compiler, the flag, how its value stands, its kind, and where it goes.
fn tell_flag(alloc: Global, rows: &mut RowList, compiler: Compiler, flag: &Flag) -> Mem<()> {
    let value = value_text(alloc, flag.value)?;
    let fields = [
        compiler.name().as_bytes(),
        flag.name.as_bytes(),
        value.as_bytes(),
        flag.kind.as_bytes(),
        place(alloc, compiler, flag)?.name().as_bytes(),
    ];
    tell_row(rows, "flags", &fields)
}

fn tell_flags(alloc: Global, rows: &mut RowList, compiler: Compiler, flags: &[Flag]) -> Mem<()> {
    for flag in flags {
        tell_flag(alloc, rows, compiler, flag)?;
    }
    Ok(())
}

/// Tells the row of a word: the compiler, the word, the flag of which it is, and where it goes.
fn tell_fit<'t>(
    rows: &mut RowList,
    compiler: &'t [u8],
    word: &'t [u8],
    flag: &'t [u8],
    place: &'t [u8],
) -> Mem<()> {
    tell_row(rows, "words", &[compiler, word, flag, place])
}

/// Tells the row of a word, with the empty flag if it is of none, and the rows of the flags that fit it.
fn tell_given(alloc: Global, rows: &mut RowList, compiler: Compiler, word: &[u8]) -> Mem<()> {
    let flags = fitting(alloc, compiler, word)?;
    let (name, place) = match flags.first() {
        Some(flag) => (flag.name, place(alloc, compiler, flag)?),
        None => ("", word_place(alloc, compiler, word)?),
    };
    let compiler_name = compiler.name().as_bytes();
    tell_fit(
        rows,
        compiler_name,
        word,
        name.as_bytes(),
        place.name().as_bytes(),
    )?;
    tell_flags(alloc, rows, compiler, &flags)
}

/// The same as `flags_text` as a document (docs/PROTOCOL.md, Documents).
pub fn flags_json(alloc: Global, compiler: Option<Compiler>) -> Mem<Vec<u8>> {
    let mut rows = versioned(alloc)?;
    for compiler in &compilers_of(alloc, compiler)? {
        let flags = flags_of(alloc, *compiler, None)?;
        tell_flags(alloc, &mut rows, *compiler, &flags)?;
    }
    document_of(alloc, &MEMBERS, &rows)
}

/// The same as `words_text` as such a document.
pub fn words_json(
    alloc: Global,
    catalogue: &Catalogue,
    compiler: Compiler,
    words: &[Vec<u8>],
) -> Mem<Vec<u8>> {
    let mut rows = versioned(alloc)?;
    for word in words {
        tell_given(alloc, &mut rows, told_as(compiler), word)?;
        tell_said(alloc, &mut rows, catalogue, compiler, word)?;
    }
    document_of(alloc, &MEMBERS, &rows)
}
