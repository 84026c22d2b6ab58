//! The patterns of a key, and what they look for in a text.
ghost use Rattle.std.specs.Prelude.{◌≡◌, ◌==◌, ◌≤◌, length, map, IfOk};
ghost use Rattle.std.specs.List.{list_any, prefix_len};
ghost use Rattle.std.specs.Option.{option_and_then, option_copied};
ghost use Rattle.scl_key.specs.Keys.{clang_telling, telling};
ghost use Rattle.scl_readings.specs.Markers.{after, is_blank, skip};
ghost use Rattle.scl_readings.specs.Places.{has_word};
ghost use Rattle.scl_patterns.specs.Patterns.{after_blanks, behind, embeds, expands, goes_on, goes_on_spaced, has_clang_words, has_embed, has_error, has_place, has_pragma, has_words, is_shown, may_expand, names_error, other_than, tells, tells_clang};

use memchr::memmem;
use scl_readings::first_place;
use scl_values::Mem;
use std::alloc::Global;

/// What in a text says that a source has more than the text.
const TELLING: &str =
    "__builtin_(COLUMN|LINE|FILE|source_location)|diagnostic[ \t]+error|__has_embed|#[ \t]*embed";

/// The same for Clang.
const CLANG_TELLING: &str =
    "__builtin_(COLUMN|LINE|FILE|source_location|dump_struct)|__PRETTY_FUNCTION__|diagnostic[ \t]+error|__has_embed|#[ \t]*embed|#[ \t]*pragma[ \t]+([^GSpc \t]|p[^uo]|c[^l]|clang[ \t]+[^d \t]|GCC[ \t]+[^vdspew \t])";

fn telling() -> &'static str
    ensures { result.now ≡ telling }
{
    TELLING
}

fn clang_telling() -> &'static str
    ensures { result.now ≡ clang_telling }
{
    CLANG_TELLING
}

pub(crate) fn has_word(word: &[u8], text: &[u8]) -> bool
    ensures { result ≡ has_word word.now text.now }
{
    first_place(word, text).is_some()
}

/// What follows each place of a word.
#[tactic(auto, using(crate::proofs::PlaceLemmas::all_stand))]
pub(crate) fn behind<'a>(alloc: Global, word: &[u8], text: &'a [u8]) -> Mem<Vec<&'a [u8]>>
    ensures { IfOk result (λ found. map (λ rest. rest.now) found.items ≡ behind word.now text.now) }
{
    let mut found = Vec::new(alloc);
    for at in memmem::find_iter(text, word) {
        found.push(&text[at + word.len()..])?;
    }
    Ok(found)
}

fn blank_count(text: &[u8]) -> usize
    ensures count { result ≡ prefix_len is_blank text.now }
    ensures within { result ≤ length text.now }
{
    let mut count = 0;
    while count < text.len() && (text[count] == b' ' || text[count] == b'\t') {
        count += 1;
    }
    count
}

pub(crate) fn skip_blanks(text: &[u8]) -> &[u8]
    ensures { result.now ≡ skip is_blank text.now }
{
    &text[blank_count(text)..]
}

/// What follows the blanks, of which there is one at least.
fn after_blanks(text: &[u8]) -> Option<&[u8]>
    ensures { option_copied result ≡ after_blanks text.now }
{
    let count = blank_count(text);
    if count == 0 {
        None
    } else {
        Some(&text[count..])
    }
}

pub(crate) fn after<'a>(word: &[u8], text: &'a [u8]) -> Option<&'a [u8]>
    ensures { option_copied result ≡ after word.now text.now }
{
    if text.starts_with(word) {
        Some(&text[word.len()..])
    } else {
        None
    }
}

/// After `diagnostic`: whether a message becomes an error.
fn names_error(rest: &[u8]) -> bool
    ensures { result ≡ names_error rest.now }
{
    match after_blanks(rest) {
        Some(after) => after.starts_with(b"error"),
        None => false,
    }
}

fn has_error(alloc: Global, text: &[u8]) -> Mem<bool>
    ensures { IfOk result (λ it. it ≡ has_error text.now) }
{
    let found = behind(alloc, b"diagnostic", text)?;
    for rest in &found {
        if names_error(rest) {
            return Ok(true);
        }
    }
    Ok(false)
}

/// After `#`: whether the bytes of a file are put there.
pub(crate) fn embeds(rest: &[u8]) -> bool
    ensures { result ≡ embeds rest.now }
{
    skip_blanks(rest).starts_with(b"embed")
}

fn has_embed(alloc: Global, text: &[u8]) -> Mem<bool>
    ensures { IfOk result (λ it. it ≡ has_embed text.now) }
{
    let found = behind(alloc, b"#", text)?;
    for rest in &found {
        if embeds(rest) {
            return Ok(true);
        }
    }
    Ok(false)
}

/// Whether a text has the place of its code.
fn has_place(text: &[u8]) -> bool
    ensures { result ≡ has_place text.now }
{
    has_word(b"__builtin_COLUMN", text)
        || has_word(b"__builtin_LINE", text)
        || has_word(b"__builtin_FILE", text)
}

/// Whether it has that, or has it whole, or the bytes of a file.
fn has_words(text: &[u8]) -> bool
    ensures { result ≡ has_words text.now }
{
    has_place(text)
        || has_word(b"__builtin_source_location", text)
        || has_word(b"__has_embed", text)
}

fn tells(alloc: Global, text: &[u8]) -> Mem<bool>
    ensures { IfOk result (λ it. it ≡ tells text.now) }
{
    Ok(has_words(text) || has_error(alloc, text)? || has_embed(alloc, text)?)
}

pub(crate) fn is_among(byte: u8, known: &[u8]) -> bool
    ensures { result ≡ list_any (λ it. it == byte) known.now }
{
    for it in known {
        if *it == byte {
            return true;
        }
    }
    false
}

/// Whether there is a byte, and it is none of these.
pub(crate) fn other_than(known: &[u8], text: &[u8]) -> bool
    ensures { result ≡ other_than known.now text.now }
{
    match text {
        [byte, ..] => !is_among(*byte, known),
        [] => false,
    }
}

/// Whether after the word stands none of these.
fn goes_on(word: &[u8], known: &[u8], text: &[u8]) -> bool
    ensures { result ≡ goes_on word.now known.now text.now }
{
    match after(word, text) {
        Some(rest) => other_than(known, rest),
        None => false,
    }
}

/// What follows the word and blanks.
fn after_spaced<'a>(word: &[u8], text: &'a [u8]) -> Option<&'a [u8]>
    ensures { option_copied result ≡ option_and_then after_blanks (after word.now text.now) }
{
    after_blanks(after(word, text)?)
}

/// Whether after the word and blanks stands none of these.
fn goes_on_spaced(word: &[u8], known: &[u8], text: &[u8]) -> bool
    ensures { result ≡ goes_on_spaced word.now known.now text.now }
{
    match after_spaced(word, text) {
        Some(rest) => other_than(known, rest),
        None => false,
    }
}

/// Whether clang may expand macros in a pragma.
fn may_expand(pragma: &[u8]) -> bool
    ensures { result ≡ may_expand pragma.now }
{
    other_than(b"GSpc", pragma)
        || goes_on(b"p", b"uo", pragma)
        || goes_on(b"c", b"l", pragma)
        || goes_on_spaced(b"clang", b"d", pragma)
        || goes_on_spaced(b"GCC", b"vdspew", pragma)
}

/// After `#`: whether there is such a pragma.
fn expands(rest: &[u8]) -> bool
    ensures { result ≡ expands rest.now }
{
    match after_spaced(b"pragma", skip_blanks(rest)) {
        Some(pragma) => may_expand(pragma),
        None => false,
    }
}

fn has_pragma(alloc: Global, text: &[u8]) -> Mem<bool>
    ensures { IfOk result (λ it. it ≡ has_pragma text.now) }
{
    let found = behind(alloc, b"#", text)?;
    for rest in &found {
        if expands(rest) {
            return Ok(true);
        }
    }
    Ok(false)
}

fn has_clang_words(text: &[u8]) -> bool
    ensures { result ≡ has_clang_words text.now }
{
    has_word(b"__builtin_dump_struct", text) || has_word(b"__PRETTY_FUNCTION__", text)
}

fn tells_clang(alloc: Global, text: &[u8]) -> Mem<bool>
    ensures { IfOk result (λ it. it ≡ tells_clang text.now) }
{
    Ok(has_clang_words(text) || tells(alloc, text)? || has_pragma(alloc, text)?)
}

fn any_tells(alloc: Global, texts: &[&[u8]]) -> Mem<bool>
    ensures { IfOk result (λ it. it ≡ list_any tells (map (λ text. text.now) texts.now)) }
{
    for text in texts {
        if tells(alloc, text)? {
            return Ok(true);
        }
    }
    Ok(false)
}

fn any_tells_clang(alloc: Global, texts: &[&[u8]]) -> Mem<bool>
    ensures { IfOk result (λ it. it ≡ list_any tells_clang (map (λ text. text.now) texts.now)) }
{
    for text in texts {
        if tells_clang(alloc, text)? {
            return Ok(true);
        }
    }
    Ok(false)
}

/// Whether one of the texts has the pattern; none: it is not known.
pub fn is_shown(alloc: Global, pattern: &[u8], texts: &[&[u8]]) -> Mem<Option<bool>>
    ensures { IfOk result (λ it. it ≡ is_shown pattern.now (map (λ text. text.now) texts.now)) }
{
    if pattern == telling().as_bytes() {
        return Ok(Some(any_tells(alloc, texts)?));
    }
    if pattern == clang_telling().as_bytes() {
        return Ok(Some(any_tells_clang(alloc, texts)?));
    }
    Ok(None)
}
