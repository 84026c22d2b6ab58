//! Words quoted for a shell.
ghost use Rattle.std.specs.Prelude.{◌≡◌, ◌++◌, ◌∷◌, OnOk, IfOk};
ghost use Rattle.std.specs.List.{list_all};
ghost use Rattle.scl_values.specs.Words.{words_of};
ghost use Rattle.scl_shell.specs.Quoted.{is_plain, is_bare, in_quotes, in_single_quotes, quoted, quoted_next, quoted_text};

use scl_values::Mem;
use std::alloc::Global;

/// Whether a byte has no special meaning anywhere in a shell's text.
fn is_plain(byte: u8) -> bool
    ensures { result ≡ is_plain byte }
{
    matches!(byte, b'a'..=b'z' | b'A'..=b'Z' | b'0'..=b'9')
        || matches!(
            byte,
            b'-' | b'_' | b'.' | b'/' | b'=' | b'+' | b',' | b':' | b'@' | b'%'
        )
}

fn all_plain(word: &[u8]) -> bool
    ensures { result ≡ list_all is_plain word.now }
{
    word.iter().all(|byte| is_plain(*byte))
}

fn is_bare(word: &[u8]) -> bool
    ensures { result ≡ is_bare word.now }
{
    !word.is_empty() && !word.starts_with(b"=") && all_plain(word)
}

fn push_in_quotes(text: &mut Vec<u8>, byte: u8) -> Mem<()>
    ensures { OnOk result (text.new.items ≡ text.old.items ++ in_quotes byte) }
{
    if byte == b'\'' {
        text.extend_from_slice(b"'\\''")
    } else {
        Ok(text.push(byte)?)
    }
}

fn push_single_quoted(text: &mut Vec<u8>, word: &[u8]) -> Mem<()>
    ensures { OnOk result (text.new.items ≡ text.old.items ++ in_single_quotes word.now) }
{
    text.push(b'\'')?;
    for byte in word {
        push_in_quotes(text, *byte)?;
    }
    text.push(b'\'')?;
    Ok(())
}

/// Appends a word so that a shell reads it back: unchanged if no byte of it has a special meaning anywhere, else in single
/// quotes.
pub fn push_quoted(text: &mut Vec<u8>, word: &[u8]) -> Mem<()>
    ensures { OnOk result (text.new.items ≡ text.old.items ++ quoted word.now) }
{
    if is_bare(word) {
        text.extend_from_slice(word)
    } else {
        push_single_quoted(text, word)
    }
}

/// Appends a space and a word.
fn push_next(text: &mut Vec<u8>, word: &[u8]) -> Mem<()>
    ensures { OnOk result (text.new.items ≡ text.old.items ++ quoted_next word.now) }
{
    text.push(b' ')?;
    push_quoted(text, word)
}

/// A program and its words, quoted for a shell, separated by spaces: `shell_words` of the text gives these words
/// (`laws::of_quoted_words`).
pub fn quoted_command(alloc: Global, program: &[u8], words: &[Vec<u8>]) -> Mem<Vec<u8>>
    ensures { IfOk result (λ text. text.items ≡ quoted_text (program.now ∷ words_of words.now)) }
{
    let mut text = Vec::new(alloc);
    push_quoted(&mut text, program)?;
    for word in words {
        push_next(&mut text, word)?;
    }
    Ok(text)
}
