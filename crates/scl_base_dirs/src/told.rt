//! Paths and words told by their bases.
ghost use Rattle.std.specs.Prelude.{◌≡◌, ◌++◌, ◌≤◌, IfOk, OnOk, length};
ghost use Rattle.scl_values.specs.Words.{words_of};
ghost use Rattle.scl_base_dirs.specs.Told.{told_byte, told_text, told_base, told_path, told_list, told_word};

use crate::base::base_of;
use crate::cut::cut_at;
use crate::spelling::Spelling;
use scl_values::Mem;
use std::alloc::Global;

fn push_byte(told: &mut Vec<u8>, byte: u8) -> Mem<()>
    ensures { OnOk result (told.new.items ≡ told.old.items ++ told_byte byte) }
{
    if byte == 0 {
        told.push(0)?;
    }
    told.push(byte)?;
    Ok(())
}

/// Appends a text with each NUL doubled.
fn push_text(told: &mut Vec<u8>, text: &[u8]) -> Mem<()>
    ensures { OnOk result (told.new.items ≡ told.old.items ++ told_text text.now) }
{
    for byte in text {
        push_byte(told, *byte)?;
    }
    Ok(())
}

/// Appends the base with a number.
fn push_base(alloc: Global, told: &mut Vec<u8>, number: usize) -> Mem<()>
    ensures { OnOk result (told.new.items ≡ told.old.items ++ told_base number) }
{
    told.push(0)?;
    told.extend_from_slice(format!(in alloc; "<base{number}>")?.as_bytes())
}

/// Appends a path, told by its base.
pub(crate) fn push_path(
    alloc: Global,
    told: &mut Vec<u8>,
    spelling: Spelling,
    dirs: &[Vec<u8>],
    path: &[u8],
) -> Mem<()>
    ensures { OnOk result (told.new.items ≡ told.old.items ++ told_path spelling (words_of dirs.now) path.now) }
{
    match base_of(spelling, dirs, path) {
        None => push_text(told, path),
        Some(base) => {
            push_base(alloc, told, base.number)?;
            push_text(told, &path[base.dir.len()..])
        }
    }
}

/// Appends a list of paths with `separator` between them, each told by its base.
#[tactic(auto, using(crate::proofs::ToldLemmas::list_rules))]
fn push_list(
    alloc: Global,
    told: &mut Vec<u8>,
    dirs: &[Vec<u8>],
    separator: u8,
    value: &[u8],
) -> Mem<()>
    ensures { OnOk result (told.new.items ≡ told.old.items ++ told_list (words_of dirs.now) separator value.now) }
{
    let mut rest = value;
    while let Some((path, behind)) = cut_at(separator, rest) {
        push_path(alloc, told, Spelling::Word, dirs, path)?;
        told.push(separator)?;
        rest = behind;
    }
    push_path(alloc, told, Spelling::Word, dirs, rest)?;
    Ok(())
}

/// A path, told by its base: the base's number, and what follows its directory. `laws::of_bases` says that no two paths are
/// told alike, and that paths that differ in their base alone are.
pub fn map_path(alloc: Global, spelling: Spelling, dirs: &[Vec<u8>], path: &[u8]) -> Mem<Vec<u8>>
    ensures { IfOk result (λ told. told.items ≡ told_path spelling (words_of dirs.now) path.now) }
{
    let mut told = Vec::new(alloc);
    push_path(alloc, &mut told, spelling, dirs, path)?;
    Ok(told)
}

/// A word whose value begins at `at` and is a path, or a list of paths with `separator` between them. What is before the value
/// stands as it is.
pub fn map_word(
    alloc: Global,
    dirs: &[Vec<u8>],
    at: usize,
    separator: Option<u8>,
    word: &[u8],
) -> Mem<Vec<u8>>
    requires { at ≤ length word.now }
    ensures { IfOk result (λ told. told.items ≡ told_word (words_of dirs.now) at separator word.now) }
{
    let mut told = Vec::new(alloc);
    push_text(&mut told, &word[..at])?;
    let value = &word[at..];
    match separator {
        None => push_path(alloc, &mut told, Spelling::Word, dirs, value)?,
        Some(separator) => push_list(alloc, &mut told, dirs, separator, value)?,
    }
    Ok(told)
}
