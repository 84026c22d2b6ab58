//! Which file a word names, and the words of a response file.
ghost use Rattle.std.specs.Prelude.{◌≡◌, IfOk};
ghost use Rattle.std.specs.Option.{option_map, option_copied};
ghost use Rattle.scl_values.specs.Words.{words_of};
ghost use Rattle.scl_files.specs.ResponseFiles.{file_name_in, named, arguments};

use crate::decode::{read_text, utf8_text};
use crate::diab_text::split_diab;
use crate::expand::ExpansionKind;
use crate::gnu_text::split_gnu_response_file_args;
use crate::msvc_text::msvc_words;
use crate::path::join;
use scl_values::Mem;
use std::alloc::Global;

/// The name of the file that a word names.
pub(crate) fn file_name_in(kind: ExpansionKind, word: &[u8]) -> Option<&[u8]>
    ensures { option_copied result ≡ file_name_in kind word.now }
{
    match kind {
        ExpansionKind::Gnu | ExpansionKind::Msvc => word.strip_prefix(b"@"),
        ExpansionKind::Diab => {
            let name = word.strip_prefix(b"-@")?;
            if matches!(name, [b'E' | b'O' | b'@', ..]) {
                None
            } else {
                Some(name)
            }
        }
    }
}

/// The path, from the directory, of the file that a word names, if it names one.
#[tactic(auto, unfolding(crate::specs::ResponseFiles::named))]
pub fn named(
    alloc: Global,
    kind: ExpansionKind,
    directory: &[u8],
    word: &[u8],
) -> Mem<Option<Vec<u8>>>
    ensures { IfOk result (λ path. option_map (λ p. p.items) path ≡ named kind directory.now word.now) }
{
    match file_name_in(kind, word) {
        Some(name) => Ok(Some(join(alloc, directory, name)?)),
        None => Ok(None),
    }
}

#[tactic(auto, unfolding(crate::specs::ResponseFiles::arguments))]
fn gnu_arguments(alloc: Global, bytes: &[u8]) -> Mem<Option<Vec<Vec<u8>>>>
    ensures { IfOk result (λ words. option_map (λ w. words_of w.items) words ≡ arguments ExpansionKind.Gnu bytes.now) }
{
    match utf8_text(bytes) {
        Some(text) => Ok(Some(split_gnu_response_file_args(alloc, text)?)),
        None => Ok(None),
    }
}

#[tactic(auto, unfolding(crate::specs::ResponseFiles::arguments))]
fn msvc_arguments(alloc: Global, bytes: &[u8]) -> Mem<Option<Vec<Vec<u8>>>>
    ensures { IfOk result (λ words. option_map (λ w. words_of w.items) words ≡ arguments ExpansionKind.Msvc bytes.now) }
{
    match read_text(alloc, bytes)? {
        Some(text) => Ok(Some(msvc_words(alloc, &text)?)),
        None => Ok(None),
    }
}

#[tactic(auto, unfolding(crate::specs::ResponseFiles::arguments))]
fn diab_arguments(alloc: Global, bytes: &[u8]) -> Mem<Option<Vec<Vec<u8>>>>
    ensures { IfOk result (λ words. option_map (λ w. words_of w.items) words ≡ arguments ExpansionKind.Diab bytes.now) }
{
    match utf8_text(bytes) {
        Some(text) => split_diab(alloc, text),
        None => Ok(None),
    }
}

/// The words in a file's bytes, if these are a text that can be read.
pub fn arguments(alloc: Global, kind: ExpansionKind, bytes: &[u8]) -> Mem<Option<Vec<Vec<u8>>>>
    ensures { IfOk result (λ words. option_map (λ w. words_of w.items) words ≡ arguments kind bytes.now) }
{
    match kind {
        ExpansionKind::Gnu => gnu_arguments(alloc, bytes),
        ExpansionKind::Msvc => msvc_arguments(alloc, bytes),
        ExpansionKind::Diab => diab_arguments(alloc, bytes),
    }
}
