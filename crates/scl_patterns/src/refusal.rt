//! What in a text reads a file that nobody names.
ghost use Rattle.std.specs.Prelude.{◌≡◌, ◌<◌, length, map, IfOk};
ghost use Rattle.std.specs.List.{list_any};
ghost use Rattle.scl_key.specs.Keys.{assembler_reading, reading};
ghost use Rattle.scl_patterns.specs.Refusals.{begins_number, ends_there, has_directive, has_embed_line, has_operand, hides, is_bound, is_called, is_embed, is_free, is_made_up, is_pasted, is_raw, is_refused, reads, reads_at, reads_file, reads_in_assembler};
ghost use Rattle.scl_readings.specs.Lines.{lines};

use crate::assembled::{Class, assembled, is_in, run_length};
use crate::pattern::{after, behind, embeds, has_word, is_among, skip_blanks};
use memchr::memmem;
use scl_readings::cut_at;
use scl_values::Mem;
use std::alloc::Global;

/// What in a text reads a file that nobody names, or may.
const READING: &str =
    "(^|[^])A-Za-z0-9_.$]|\\\\[nt])\\.[Ii][Nn][Cc]([Bb][Ii][Nn]|[Ll][Uu][Dd][Ee])([^A-Za-z0-9_]|$)|^[ \t]*#[ \t]*embed|\\.[A-Za-z0-9_]*\\\\\\\\[A-Za-z0-9_(@]";

/// The same in assembler.
const ASSEMBLER_READING: &str =
    "(^|[^])A-Za-z0-9_.$]|\\\\[nt])\\.[Ii][Nn][Cc]([Bb][Ii][Nn]|[Ll][Uu][Dd][Ee])([^A-Za-z0-9_]|$)|\\.[A-Za-z0-9_]*\\\\[A-Za-z0-9_(@]";

fn reading() -> &'static str
    ensures { result.now ≡ reading }
{
    READING
}

fn assembler_reading() -> &'static str
    ensures { result.now ≡ assembler_reading }
{
    ASSEMBLER_READING
}

/// Before a dot: whether the dot begins no directive.
fn is_bound(byte: u8) -> bool
    ensures { result ≡ is_bound byte }
{
    is_in(Class::Name, byte) || is_among(byte, b"]).$")
}

/// Whether a directive may begin at the dot at this place.
fn is_free(text: &[u8], at: usize) -> bool
    requires { at < length text.now }
    ensures { result ≡ is_free text.now at }
{
    at == 0
        || !is_bound(text[at - 1])
        || text[..at].ends_with(b"\\n")
        || text[..at].ends_with(b"\\t")
}

fn ends_there(text: &[u8]) -> bool
    ensures { result ≡ ends_there text.now }
{
    match text {
        [byte, ..] => !is_in(Class::Name, *byte),
        [] => true,
    }
}

/// Whether the name is the word.
fn is_called(word: &[u8], name: &[u8]) -> bool
    ensures { result ≡ is_called word.now name.now }
{
    match after(word, name) {
        Some(rest) => ends_there(rest),
        None => false,
    }
}

/// Of the name after the dot: whether the directive reads a file.
fn reads_file(name: &[u8]) -> bool
    ensures { result ≡ reads_file name.now }
{
    is_called(b"incbin", name) || is_called(b"include", name)
}

fn is_pasted(text: &[u8]) -> bool
    ensures { result ≡ is_pasted text.now }
{
    match text {
        [byte, ..] => is_in(Class::Name, *byte) || *byte == b'(' || *byte == b'@',
        [] => false,
    }
}

/// Whether the name after the dot is made of pieces, as an argument of a macro after these marks.
fn is_made_up(marks: &[u8], name: &[u8]) -> bool
    ensures { result ≡ is_made_up marks.now name.now }
{
    match after(marks, &name[run_length(Class::Name, name)..]) {
        Some(rest) => is_pasted(rest),
        None => false,
    }
}

/// Whether a file may be read by what stands at the dot at this place.
fn reads_at(marks: &[u8], text: &[u8], at: usize) -> bool
    requires { at < length text.now }
    ensures { result ≡ reads_at marks.now text.now at }
{
    let name = &text[at + 1..];
    (is_free(text, at) && reads_file(name)) || is_made_up(marks, name)
}

#[tactic(auto, using(crate::proofs::PlaceLemmas::all_stand))]
fn has_directive(marks: &[u8], text: &[u8]) -> bool
    ensures { result ≡ has_directive marks.now text.now }
{
    for at in memmem::find_iter(text, b".") {
        if reads_at(marks, text, at) {
            return true;
        }
    }
    false
}

fn begins_number(text: &[u8]) -> bool
    ensures { result ≡ begins_number text.now }
{
    match text {
        [byte, ..] => (b'0' <= *byte && *byte <= b'9') || *byte == b'[',
        [] => false,
    }
}

/// Whether an operand may be any text.
fn has_operand(alloc: Global, text: &[u8]) -> Mem<bool>
    ensures { IfOk result (λ it. it ≡ has_operand text.now) }
{
    let found = behind(alloc, b"%c", text)?;
    for rest in &found {
        if begins_number(rest) {
            return Ok(true);
        }
    }
    Ok(false)
}

/// Whether a raw string stands on a line of an assembler statement.
fn is_raw(line: &[u8]) -> bool
    ensures { result ≡ is_raw line.now }
{
    has_word(b"R\"", line) && has_word(b"asm", line)
}

fn any_raw(text: &[u8]) -> bool
    ensures { result ≡ list_any is_raw (lines text.now) }
{
    let mut rest = text;
    while let Some((line, behind)) = cut_at(b'\n', rest) {
        if is_raw(line) {
            return true;
        }
        rest = behind;
    }
    is_raw(rest)
}

/// Whether a text has what hides a directive.
fn hides(alloc: Global, text: &[u8]) -> Mem<bool>
    ensures { IfOk result (λ it. it ≡ hides text.now) }
{
    Ok(has_word(b".altmacro", text) || has_operand(alloc, text)? || any_raw(text))
}

/// Whether a line puts the bytes of a file there.
fn is_embed(line: &[u8]) -> bool
    ensures { result ≡ is_embed line.now }
{
    match after(b"#", skip_blanks(line)) {
        Some(rest) => embeds(rest),
        None => false,
    }
}

fn has_embed_line(text: &[u8]) -> bool
    ensures { result ≡ has_embed_line text.now }
{
    let mut rest = text;
    while let Some((line, behind)) = cut_at(b'\n', rest) {
        if is_embed(line) {
            return true;
        }
        rest = behind;
    }
    is_embed(rest)
}

fn reads(alloc: Global, text: &[u8]) -> Mem<bool>
    ensures { IfOk result (λ it. it ≡ reads text.now) }
{
    if hides(alloc, text)? {
        return Ok(true);
    }
    let it = assembled(alloc, text)?;
    Ok(has_embed_line(&it) || has_directive(b"\\\\", &it))
}

fn reads_in_assembler(alloc: Global, text: &[u8]) -> Mem<bool>
    ensures { IfOk result (λ it. it ≡ reads_in_assembler text.now) }
{
    if hides(alloc, text)? {
        return Ok(true);
    }
    let it = assembled(alloc, text)?;
    Ok(has_directive(b"\\", &it))
}

fn any_reads(alloc: Global, texts: &[&[u8]]) -> Mem<bool>
    ensures { IfOk result (λ it. it ≡ list_any reads (map (λ text. text.now) texts.now)) }
{
    for text in texts {
        if reads(alloc, text)? {
            return Ok(true);
        }
    }
    Ok(false)
}

fn any_reads_in_assembler(alloc: Global, texts: &[&[u8]]) -> Mem<bool>
    ensures { IfOk result (λ it. it ≡ list_any reads_in_assembler (map (λ text. text.now) texts.now)) }
{
    for text in texts {
        if reads_in_assembler(alloc, text)? {
            return Ok(true);
        }
    }
    Ok(false)
}

/// Whether one of the texts has the pattern; none: it is not known.
pub fn is_refused(alloc: Global, pattern: &[u8], texts: &[&[u8]]) -> Mem<Option<bool>>
    ensures { IfOk result (λ it. it ≡ is_refused pattern.now (map (λ text. text.now) texts.now)) }
{
    if pattern == reading().as_bytes() {
        return Ok(Some(any_reads(alloc, texts)?));
    }
    if pattern == assembler_reading().as_bytes() {
        return Ok(Some(any_reads_in_assembler(alloc, texts)?));
    }
    Ok(None)
}
