//! A source: its lines joined, and the files that it names.
ghost use Rattle.std.specs.Prelude.{◌≡◌, ◌++◌, IfOk, OnOk};
ghost use Rattle.std.specs.Option.{option_copied};
ghost use Rattle.scl_readings.specs.Markers.{past, skip};
ghost use Rattle.scl_values.specs.Words.{words_of};
ghost use Rattle.scl_patterns.specs.Assembled.{is_gap};
ghost use Rattle.scl_patterns.specs.Sources.{asked, first_line, joined, name_asked, name_at, named_behind, named_in, spliced, up_to};

use crate::assembled::{Class, run_length};
use crate::pattern::{after, behind};
use scl_readings::{cut_at, first_place};
use scl_values::Mem;
use std::alloc::Global;

// ---- lines that are joined

/// Appends what follows a backslash. Compilers join lines before they read words, so a word may go on behind one.
fn push_spliced(joined: &mut Vec<u8>, part: &[u8]) -> Mem<()>
    ensures { OnOk result (joined.new.items ≡ joined.old.items ++ spliced part.now) }
{
    match after(b"\n", &part[run_length(Class::Space, part)..]) {
        Some(line) => joined.extend_from_slice(line)?,
        None => {
            joined.push(b'\\')?;
            joined.extend_from_slice(part)?;
        }
    }
    Ok(())
}

/// A source as compilers read it: without each backslash at the end of a line, the blanks after it, and the line's end.
pub fn joined(alloc: Global, text: &[u8]) -> Mem<Vec<u8>>
    ensures { IfOk result (λ it. it.items ≡ joined text.now) }
{
    let Some((first, behind)) = cut_at(b'\\', text) else {
        return Ok(Vec::from_slice(alloc, text)?);
    };
    let mut joined = Vec::from_slice(alloc, first)?;
    let mut rest = behind;
    while let Some((part, behind)) = cut_at(b'\\', rest) {
        push_spliced(&mut joined, part)?;
        rest = behind;
    }
    push_spliced(&mut joined, rest)?;
    Ok(joined)
}

// ---- what is named

/// Compilers pass over more than blanks between the parts of a directive: also a NUL, and Clang spaces of Unicode.
pub(crate) fn skip_gap(text: &[u8]) -> &[u8]
    ensures { result.now ≡ skip is_gap text.now }
{
    &text[run_length(Class::Gap, text)..]
}

fn past<'a>(word: &[u8], text: &'a [u8]) -> &'a [u8]
    ensures { result.now ≡ past word.now text.now }
{
    match after(word, text) {
        Some(rest) => rest,
        None => text,
    }
}

/// What stands before the word.
fn up_to<'a>(word: &[u8], text: &'a [u8]) -> Option<&'a [u8]>
    ensures { option_copied result ≡ up_to word.now text.now }
{
    match first_place(word, text) {
        Some(at) => Some(&text[..at]),
        None => None,
    }
}

pub(crate) fn first_line(text: &[u8]) -> &[u8]
    ensures { result.now ≡ first_line text.now }
{
    match up_to(b"\n", text) {
        Some(line) => line,
        None => text,
    }
}

/// The name between `<` and `>`, or between quotes, on one line.
fn name_at(text: &[u8]) -> Option<&[u8]>
    ensures { option_copied result ≡ name_at text.now }
{
    match text {
        [b'<', rest @ ..] => up_to(b">", first_line(rest)),
        [b'"', rest @ ..] => up_to(b"\"", first_line(rest)),
        [_, ..] | [] => None,
    }
}

/// Behind a word that asks for a file: what stands where its name does.
pub(crate) fn asked(rest: &[u8]) -> &[u8]
    ensures { result.now ≡ asked rest.now }
{
    skip_gap(past(b"_next", rest))
}

/// The name there, perhaps in a parenthesis.
fn name_asked(rest: &[u8]) -> Option<&[u8]>
    ensures { option_copied result ≡ name_asked rest.now }
{
    name_at(skip_gap(past(b"(", asked(rest))))
}

/// Appends the names behind a word.
fn push_named(alloc: Global, names: &mut Vec<Vec<u8>>, word: &[u8], text: &[u8]) -> Mem<()>
    ensures { OnOk result (words_of names.new.items ≡ words_of names.old.items ++ named_behind word.now text.now) }
{
    let found = behind(alloc, word, text)?;
    for rest in &found {
        if let Some(name) = name_asked(rest) {
            names.push(Vec::from_slice(alloc, name)?)?;
        }
    }
    Ok(())
}

/// Each name of a file in a source whose lines are joined, first those behind `include`. Comments count too, and so do branches
/// that are not taken: which are taken, only a compiler knows.
pub fn named_in(alloc: Global, text: &[u8]) -> Mem<Vec<Vec<u8>>>
    ensures { IfOk result (λ names. words_of names.items ≡ named_in text.now) }
{
    let mut names = Vec::new(alloc);
    push_named(alloc, &mut names, b"include", text)?;
    push_named(alloc, &mut names, b"import", text)?;
    Ok(names)
}
