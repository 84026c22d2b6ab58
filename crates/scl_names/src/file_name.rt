//! The name of a program, from its path.
ghost use Rattle.std.specs.Prelude.{◌≡◌, ◌+◌, ◌||◌, ◌==◌, IfOk, length, not, nat_eq, codes};
ghost use Rattle.std.specs.List.{suffix_len, list_all, list_any, ends_with};
ghost use Rattle.scl_names.specs.FileNames.{is_at, is_digit, is_version, file_name_of, without_exe, without_number, is_variant, is_ending, without_ending, stem_of};

use scl_reader::Mem;
use std::alloc::Global;

/// The bytes that separate parts of a name.
#[derive(Clone, Copy)]
pub(crate) enum Mark {
    /// `/` and `\`, between the folders of a path.
    Separator,
    /// `-`, before a version or a variant.
    Dash,
    /// All but digits.
    NoDigit,
}

impl Mark {
    fn is_at(self, byte: u8) -> bool
        ensures { result ≡ is_at self byte }
    {
        match self {
            Mark::Separator => byte == b'/' || byte == b'\\',
            Mark::Dash => byte == b'-',
            Mark::NoDigit => !is_digit(byte),
        }
    }
}

/// The position after the last mark; 0 if there is none.
fn behind_last(mark: Mark, text: &[u8]) -> usize
    ensures { result + suffix_len (λ byte. not (is_at mark byte)) text.now ≡ length text.now }
{
    let mut at = text.len();
    while at > 0 && !mark.is_at(text[at - 1]) {
        at -= 1;
    }
    at
}

fn file_name_of(path: &[u8]) -> &[u8]
    ensures { result.now ≡ file_name_of path.now }
{
    &path[behind_last(Mark::Separator, path)..]
}

pub(crate) fn is_digit(byte: u8) -> bool
    ensures { result ≡ is_digit byte }
{
    matches!(byte, b'0'..=b'9')
}

fn has_digit(text: &[u8]) -> bool
    ensures { result ≡ list_any is_digit text.now }
{
    text.iter().any(|byte| is_digit(*byte))
}

fn has_digits_and_dots_alone(text: &[u8]) -> bool
    ensures { result ≡ list_all (λ byte. is_digit byte || byte == 46) text.now }
{
    text.iter().all(|byte| is_digit(*byte) || *byte == b'.')
}

fn is_version(text: &[u8]) -> bool
    ensures { result ≡ is_version text.now }
{
    has_digit(text) && has_digits_and_dots_alone(text)
}

/// A name without the digits at its end.
pub(crate) fn without_number(name: &[u8]) -> &[u8]
    ensures { result.now ≡ without_number name.now }
{
    &name[..behind_last(Mark::NoDigit, name)]
}

/// Whether it says how a compiler was built: the threads of MinGW, or by MacPorts.
fn is_variant(text: &[u8]) -> bool
    ensures { result ≡ is_variant text.now }
{
    text == b"posix".as_slice() || text == b"win32".as_slice() || text == b"mp".as_slice()
}

fn is_ending(text: &[u8]) -> bool
    ensures { result ≡ is_ending text.now }
{
    is_version(text) || is_variant(text)
}

fn without_ending(name: &[u8]) -> &[u8]
    ensures { result.now ≡ without_ending name.now }
{
    let at = behind_last(Mark::Dash, name);
    if at > 0 && is_ending(&name[at..]) {
        &name[..at - 1]
    } else {
        name
    }
}

fn has_exe(name: &[u8]) -> bool
    ensures { result ≡ ends_with nat_eq name.now (codes ".exe") }
{
    name.ends_with(b".exe")
}

fn without_exe(alloc: Global, name: &[u8]) -> Mem<Vec<u8>>
    ensures { IfOk result (λ stem. stem.items ≡ without_exe name.now) }
{
    let mut lower = name.to_ascii_lowercase(alloc)?;
    if has_exe(&lower) {
        lower.truncate(lower.len() - 4);
        Ok(lower)
    } else {
        Vec::from_slice(alloc, name)
    }
}

/// A name without its version or variant, if it has one.
fn cut_ending(mut name: Vec<u8>) -> Vec<u8>
    ensures { result.items ≡ without_ending name.items }
{
    let length = without_ending(&name).len();
    name.truncate(length);
    name
}

/// The name of a program, by its path: without folders, without `.exe` (in any case; then in lower case), and without version
/// and variant.
pub(crate) fn stem_of(alloc: Global, program: &[u8]) -> Mem<Vec<u8>>
    ensures { IfOk result (λ stem. stem.items ≡ stem_of program.now) }
{
    let name = without_exe(alloc, file_name_of(program))?;
    Ok(cut_ending(cut_ending(name)))
}
