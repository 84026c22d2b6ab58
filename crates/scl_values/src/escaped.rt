//! Words in messages.
ghost use Rattle.std.specs.Prelude.{◌≡◌, ◌++◌, IfOk, OnOk, Some};
ghost use Rattle.std.specs.String.{string_bytes};
ghost use Rattle.scl_values.specs.Words.{words_of};
ghost use Rattle.scl_values.specs.Escaped.{escape, escaped, quoted, quoted_behind, quoted_list};

use crate::memory::Mem;
use std::alloc::Global;
use std::fmt;

#[derive(Drop)]
struct EscapedByte(u8);

impl fmt::Display for EscapedByte {
    ghost output = { λ byte. Some (escape byte.0) };

    #[tactic(auto, using(crate::proofs::EscapedLemmas::escape_hexadecimal))]
    fn fmt<W: fmt::Write>(&self, f: &mut fmt::Formatter<W>) -> fmt::Result {
        let byte = self.0;
        if 0x21 <= byte && byte <= 0x7E && byte != b'\\' {
            f.write_char(char::from(byte))
        } else {
            write!(f, "\\x{byte:02x}")
        }
    }
}

/// A word in a message. Bytes from 21 to 7E (hexadecimal), except the backslash, are written as they are, any other byte as
/// `\x` and two digits (docs/RULES.md, Messages).
#[derive(Drop)]
pub struct Escaped<'a>(pub &'a [u8]);

impl fmt::Display for Escaped<'_> {
    ghost output = { λ word. Some (escaped word.0.now) };

    fn fmt<W: fmt::Write>(&self, f: &mut fmt::Formatter<W>) -> fmt::Result {
        for byte in self.0 {
            EscapedByte(*byte).fmt(f)?;
        }
        Ok(())
    }
}

/// The word, escaped, in double quotes (docs/RULES.md, Messages).
pub fn quote_word(alloc: Global, word: &[u8]) -> Mem<String>
    ensures { IfOk result (λ text. string_bytes text ≡ quoted word.now) }
{
    format!(in alloc; "\"{}\"", Escaped(word))
}

/// Appends a comma, a space, and the escaped word in double quotes, for each word.
fn push_behind(alloc: Global, text: &mut String, words: &[Vec<u8>]) -> Mem<()>
    ensures { OnOk result (string_bytes text.new ≡ string_bytes text.old ++ quoted_behind (words_of words.now)) }
{
    for word in words {
        text.push_str(", ")?;
        text.push_str(quote_word(alloc, word.as_slice())?.as_str())?;
    }
    Ok(())
}

/// The list of the words, each escaped and in double quotes: separated by `, `, in brackets.
pub fn quote_list(alloc: Global, words: &[Vec<u8>]) -> Mem<String>
    ensures { IfOk result (λ text. string_bytes text ≡ quoted_list (words_of words.now)) }
{
    let mut text = String::from_str(alloc, "[")?;
    if let Some((first, others)) = words.split_first() {
        text.push_str(quote_word(alloc, first.as_slice())?.as_str())?;
        push_behind(alloc, &mut text, others)?;
    }
    text.push_str("]")?;
    Ok(text)
}
