//! Bytes made visible for people and terminals.
ghost use Rattle.std.specs.Prelude.{◌≡◌, ◌++◌, ◌∷◌, OnOk, IfOk, not, take};
ghost use Rattle.std.specs.List.{list_all, flat_map};
ghost use Rattle.std.specs.Str.{chars};
ghost use Rattle.std.specs.String.{string_bytes};
ghost use Rattle.scl_values.specs.Words.{words_of};
ghost use Rattle.scl_shell.specs.Shown.{is_hidden, is_ignorable, is_visible, octal, escaped, shown, shown_briefly, in_dollar_quotes, dollar_quoted, shown_word, shown_next, shown_text};

use crate::quote::push_quoted;
use scl_values::Mem;
use std::alloc::Global;
use std::str;

/// Whether a character turns or hides what is beside it, or is not seen: ends of lines and paragraphs, marks of direction and of
/// notes, and what Unicode names `Default_Ignorable_Code_Point`.
#[tactic(auto, unfolding(crate::specs::Shown::is_ignorable))]
fn is_ignorable(c: char) -> bool
    ensures { result ≡ is_ignorable c }
{
    matches!(
        c,
        '\u{ad}'
            | '\u{34f}'
            | '\u{61c}'
            | '\u{115f}'..='\u{1160}'
            | '\u{17b4}'..='\u{17b5}'
            | '\u{180b}'..='\u{180f}'
            | '\u{200b}'..='\u{200f}'
            | '\u{2028}'..='\u{202e}'
            | '\u{2060}'..='\u{206f}'
            | '\u{3164}'
            | '\u{fe00}'..='\u{fe0f}'
            | '\u{feff}'
            | '\u{ffa0}'
            | '\u{fff0}'..='\u{fffb}'
            | '\u{1bca0}'..='\u{1bca3}'
            | '\u{1d173}'..='\u{1d17a}'
            | '\u{e0000}'..='\u{e0fff}'
    )
}

/// Whether a terminal obeys a character, as it does controls (C0, DEL, C1), or the character turns or hides what is beside it, or
/// is not seen.
pub fn is_hidden(c: char) -> bool
    ensures { result ≡ is_hidden c }
{
    matches!(c, '\0'..='\u{1f}' | '\u{7f}'..='\u{9f}') || is_ignorable(c)
}

fn has_none_hidden(text: &str) -> bool
    ensures { result ≡ list_all (λ c. not (is_hidden c)) (chars text.now) }
{
    text.chars().all(|c| !is_hidden(c))
}

/// Whether bytes are shown unchanged: they are UTF-8 without hidden characters.
#[tactic(auto, using(crate::proofs::ShownLaws::text_rules))]
fn is_visible(bytes: &[u8]) -> bool
    ensures { result ≡ is_visible bytes.now }
{
    match str::from_utf8(bytes) {
        Ok(text) => has_none_hidden(text),
        Err(_) => false,
    }
}

fn push_octal(text: &mut Vec<u8>, byte: u8) -> Mem<()>
    ensures { OnOk result (text.new.items ≡ text.old.items ++ octal byte) }
{
    text.push(b'\\')?;
    text.push(b'0' + byte / 64 % 8)?;
    text.push(b'0' + byte / 8 % 8)?;
    text.push(b'0' + byte % 8)?;
    Ok(())
}

fn push_escaped(text: &mut Vec<u8>, byte: u8) -> Mem<()>
    ensures { OnOk result (text.new.items ≡ text.old.items ++ escaped byte) }
{
    if matches!(byte, b' '..=b'~') {
        Ok(text.push(byte)?)
    } else {
        push_octal(text, byte)
    }
}

fn push_all_escaped(text: &mut Vec<u8>, bytes: &[u8]) -> Mem<()>
    ensures { OnOk result (text.new.items ≡ text.old.items ++ flat_map escaped bytes.now) }
{
    for byte in bytes {
        push_escaped(text, *byte)?;
    }
    Ok(())
}

/// Appends bytes, made visible.
fn push_shown(text: &mut Vec<u8>, bytes: &[u8]) -> Mem<()>
    ensures { OnOk result (text.new.items ≡ text.old.items ++ shown bytes.now) }
{
    if is_visible(bytes) {
        text.extend_from_slice(bytes)
    } else {
        push_all_escaped(text, bytes)
    }
}

/// Bytes made visible. UTF-8 without hidden characters is unchanged; of any other bytes, each that is not from space to `~`
/// is written as a backslash and three octal digits. The text has no hidden character (`is_hidden`,
/// `laws::of_shown_bytes`).
#[tactic(auto, using(crate::proofs::ShownLaws::shown_whole))]
pub fn shown(alloc: Global, bytes: &[u8]) -> Mem<String>
    ensures { IfOk result (λ text. string_bytes text ≡ shown bytes.now) }
{
    let mut text = Vec::new(alloc);
    push_shown(&mut text, bytes)?;
    String::from_utf8_lossy(alloc, &text)
}

/// The most bytes of a text that a message repeats.
const MOST_REPEATED: usize = 200;

/// The first 200 bytes of a text that a message repeats, or all of it.
#[tactic(auto, using(std::proofs::lemmas::List::take_min))]
pub fn beginning(bytes: &[u8]) -> &[u8]
    ensures { result.now ≡ take 200 bytes.now }
{
    let count = MOST_REPEATED.min(bytes.len());
    &bytes[..count]
}

fn push_shown_briefly(text: &mut Vec<u8>, bytes: &[u8]) -> Mem<()>
    ensures { OnOk result (text.new.items ≡ text.old.items ++ shown_briefly bytes.now) }
{
    push_shown(text, beginning(bytes))?;
    if bytes.len() > MOST_REPEATED {
        text.extend_from_slice(b"..")?;
    }
    Ok(())
}

/// Bytes made visible (`shown`) in a message, which repeats at most 200 bytes of a text: of a longer one the first 200 and
/// `..`.
#[tactic(auto, using(crate::proofs::ShownLaws::shown_briefly_whole))]
pub fn shown_briefly(alloc: Global, bytes: &[u8]) -> Mem<String>
    ensures { IfOk result (λ text. string_bytes text ≡ shown_briefly bytes.now) }
{
    let mut text = Vec::new(alloc);
    push_shown_briefly(&mut text, bytes)?;
    String::from_utf8_lossy(alloc, &text)
}

fn push_in_dollar_quotes(text: &mut Vec<u8>, byte: u8) -> Mem<()>
    ensures { OnOk result (text.new.items ≡ text.old.items ++ in_dollar_quotes byte) }
{
    if matches!(byte, b'\'' | b'\\') {
        text.push(b'\\')?;
        Ok(text.push(byte)?)
    } else {
        push_escaped(text, byte)
    }
}

fn push_dollar_quoted(text: &mut Vec<u8>, word: &[u8]) -> Mem<()>
    ensures { OnOk result (text.new.items ≡ text.old.items ++ dollar_quoted word.now) }
{
    text.push(b'$')?;
    text.push(b'\'')?;
    for byte in word {
        push_in_dollar_quotes(text, *byte)?;
    }
    text.push(b'\'')?;
    Ok(())
}

fn push_shown_word(text: &mut Vec<u8>, word: &[u8]) -> Mem<()>
    ensures { OnOk result (text.new.items ≡ text.old.items ++ shown_word word.now) }
{
    if is_visible(word) {
        push_quoted(text, word)
    } else {
        push_dollar_quoted(text, word)
    }
}

/// Appends a space and a word.
fn push_shown_next(text: &mut Vec<u8>, word: &[u8]) -> Mem<()>
    ensures { OnOk result (text.new.items ≡ text.old.items ++ shown_next word.now) }
{
    text.push(b' ')?;
    push_shown_word(text, word)
}

fn shown_bytes(alloc: Global, program: &[u8], words: &[Vec<u8>]) -> Mem<Vec<u8>>
    ensures { IfOk result (λ text. text.items ≡ shown_text (program.now ∷ words_of words.now)) }
{
    let mut text = Vec::new(alloc);
    push_shown_word(&mut text, program)?;
    for word in words {
        push_shown_next(&mut text, word)?;
    }
    Ok(text)
}

/// A program and its words for a terminal, separated by spaces. A word that is visible is quoted for any shell; any other is
/// in `$'..'`, which bash, zsh and ksh read back, but dash does not (`laws::of_dollar_quotes`).
#[tactic(auto, using(crate::proofs::ShownLaws::shown_command_whole))]
pub fn shown_command(alloc: Global, program: &[u8], words: &[Vec<u8>]) -> Mem<String>
    ensures { IfOk result (λ text. string_bytes text ≡ shown_text (program.now ∷ words_of words.now)) }
{
    let text = shown_bytes(alloc, program, words)?;
    String::from_utf8_lossy(alloc, &text)
}

/// Words for a terminal (`shown_command`).
pub fn shown_words(alloc: Global, words: &[Vec<u8>]) -> Mem<String>
    ensures { IfOk result (λ text. string_bytes text ≡ shown_text (words_of words.now)) }
{
    match words.split_first() {
        Some((program, others)) => shown_command(alloc, program, others),
        None => Ok(String::new(alloc)),
    }
}
