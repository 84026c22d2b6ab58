//! The base directory that a path is below.
ghost use Rattle.std.specs.Prelude.{◌≡◌, ◌+◌, IfOk, Some, length, map};
ghost use Rattle.std.specs.List.{suffix_len};
ghost use Rattle.std.specs.Option.{option_map};
ghost use Rattle.scl_values.specs.Words.{words_of};
ghost use Rattle.scl_base_dirs.specs.Bases.{is_separator, trimmed, ends_component, fits, placed, longer, base_of};

use crate::spelling::Spelling;
use scl_values::Mem;
use std::alloc::Global;

fn is_separator(byte: u8) -> bool
    ensures { result ≡ is_separator byte }
{
    byte == b'/' || byte == b'\\'
}

/// The length of a path without the separators at its end.
fn trimmed_len(dir: &[u8]) -> usize
    ensures { result + suffix_len is_separator dir.now ≡ length dir.now }
{
    let mut end = dir.len();
    while end > 0 && is_separator(dir[end - 1]) {
        end -= 1;
    }
    end
}

/// The directories, each without the separators at its end. The root becomes empty, and no path is below it.
pub fn base_dirs(alloc: Global, dirs: &[Vec<u8>]) -> Mem<Vec<Vec<u8>>>
    ensures { IfOk result (λ bases. words_of bases.items ≡ map trimmed (words_of dirs.now)) }
{
    let mut bases = Vec::new(alloc);
    for dir in dirs {
        let end = trimmed_len(dir);
        bases.push(Vec::from_slice(alloc, &dir[..end])?)?;
    }
    Ok(bases)
}

/// Whether a component of a path ends where the rest begins.
fn ends_component(spelling: Spelling, rest: &[u8]) -> bool
    ensures { result ≡ ends_component spelling rest.now }
{
    match spelling {
        Spelling::Word => rest.is_empty() || rest.starts_with(b"/") || rest.starts_with(b"\\"),
        Spelling::Quoted => {
            rest.starts_with(b"\"") || rest.starts_with(b"/") || rest.starts_with(b"\\\\")
        }
    }
}

fn fits(spelling: Spelling, dir: &[u8], path: &[u8]) -> bool
    ensures { result ≡ fits spelling dir.now path.now }
{
    !dir.is_empty() && path.starts_with(dir) && ends_component(spelling, &path[dir.len()..])
}

/// A base directory, and its index among the base directories.
#[derive(Clone, Copy, Debug)]
pub struct Base<'a> {
    /// The index, from 0.
    pub number: usize,
    /// The directory.
    pub dir: &'a [u8],
}

/// Of two bases the one with the longer directory; of equally long ones the first.
fn longer<'a>(found: Option<Base<'a>>, other: Base<'a>) -> Base<'a>
    ensures { Some (placed result.number result.dir.now) ≡ longer (option_map (λ base. placed base.number base.dir.now) found.entry) (Some (placed other.entry.number other.entry.dir.now)) }
{
    match found {
        Some(base) if base.dir.len() >= other.dir.len() => base,
        _ => other,
    }
}

/// The base of a path: of the directories that it is or is below, the longest; of equal ones the first. A directory counts only
/// if a component ends where it does: `/wx` is not below `/w`.
#[tactic(auto, using(crate::proofs::BaseLemmas::base_rules))]
pub fn base_of<'a>(spelling: Spelling, dirs: &'a [Vec<u8>], path: &[u8]) -> Option<Base<'a>>
    ensures { option_map (λ base. placed base.number base.dir.now) result ≡ base_of spelling (words_of dirs.now) path.now }
{
    let mut found = None;
    let mut number = 0;
    for dir in dirs {
        if fits(spelling, dir, path) {
            found = Some(longer(found, Base { number, dir }));
        }
        number += 1;
    }
    found
}
