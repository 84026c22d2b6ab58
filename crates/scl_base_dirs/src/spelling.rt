//! How paths are spelled.
ghost use Rattle.std.specs.Prelude.{◌≡◌, ◌++◌, IfOk, OnOk, map};
ghost use Rattle.scl_values.specs.Words.{words_of};
ghost use Rattle.scl_base_dirs.specs.Bases.{octal, quote_other, quote_byte, quoted};

use scl_values::Mem;
use std::alloc::Global;

/// Where a path stands.
#[derive(Clone, Copy, Debug, PartialEq, Eq)]
pub enum Spelling {
    /// In a word, as it is.
    Word,
    /// In the quoted name of a line marker.
    Quoted,
}

/// How a compiler quotes names in line markers.
#[derive(Clone, Copy, Debug, PartialEq, Eq)]
pub enum Quoting {
    /// With a backslash before each quote and backslash, and `\n` for a line feed.
    Gcc,
    /// The same, with `\t` for a tab, and octal digits for each other byte that is not from a space to `~`.
    Clang,
}

fn push_octal(text: &mut Vec<u8>, byte: u8) -> Mem<()>
    ensures { OnOk result (text.new.items ≡ text.old.items ++ octal byte) }
{
    text.push(b'\\')?;
    text.push(b'0' + byte / 64 % 8)?;
    text.push(b'0' + byte / 8 % 8)?;
    text.push(b'0' + byte % 8)?;
    Ok(())
}

fn push_other(text: &mut Vec<u8>, quoting: Quoting, byte: u8) -> Mem<()>
    ensures { OnOk result (text.new.items ≡ text.old.items ++ quote_other quoting byte) }
{
    match quoting {
        Quoting::Gcc => Ok(text.push(byte)?),
        Quoting::Clang => {
            if byte == b'\t' {
                text.extend_from_slice(b"\\t")
            } else if matches!(byte, b' '..=b'~') {
                Ok(text.push(byte)?)
            } else {
                push_octal(text, byte)
            }
        }
    }
}

fn push_quoted_byte(text: &mut Vec<u8>, quoting: Quoting, byte: u8) -> Mem<()>
    ensures { OnOk result (text.new.items ≡ text.old.items ++ quote_byte quoting byte) }
{
    if byte == b'"' || byte == b'\\' {
        text.push(b'\\')?;
        Ok(text.push(byte)?)
    } else if byte == b'\n' {
        text.extend_from_slice(b"\\n")
    } else {
        push_other(text, quoting, byte)
    }
}

/// A directory as the names in line markers have it.
fn quote(alloc: Global, quoting: Quoting, dir: &[u8]) -> Mem<Vec<u8>>
    ensures { IfOk result (λ text. text.items ≡ quoted quoting dir.now) }
{
    let mut text = Vec::new(alloc);
    for byte in dir {
        push_quoted_byte(&mut text, quoting, *byte)?;
    }
    Ok(text)
}

/// The directories as the names in line markers have them.
pub fn quoted_dirs(alloc: Global, quoting: Quoting, dirs: &[Vec<u8>]) -> Mem<Vec<Vec<u8>>>
    ensures { IfOk result (λ texts. words_of texts.items ≡ map (quoted quoting) (words_of dirs.now)) }
{
    let mut texts = Vec::new(alloc);
    for dir in dirs {
        texts.push(quote(alloc, quoting, dir)?)?;
    }
    Ok(texts)
}
