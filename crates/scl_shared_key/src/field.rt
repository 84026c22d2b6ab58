//! Fields of rows, told by base directories.
ghost use Rattle.std.specs.Prelude.{◌≡◌, ◌≤◌, length, IfOk};
ghost use Rattle.scl_values.specs.Words.{words_of};
ghost use Rattle.scl_shared_key.specs.Fields.{flag_length, flags, flags_of, told_field, value_at};

use scl_base_dirs::map_word;
use scl_values::Mem;
use std::alloc::Global;

/// Flags that may have a path directly behind them.
static FLAGS: [&'static str; 12] = [
    "-I",
    "-iquote",
    "-isystem",
    "-idirafter",
    "-include",
    "-imacros",
    "-L",
    "-B",
    "-o",
    "-MF",
    "-MT",
    "-MQ",
];

#[tactic(auto, unfolding(crate::specs::Fields::flags))]
fn flags() -> &'static [&'static str]
    ensures { flags_of result.now ≡ flags }
{
    &FLAGS
}

/// The length of the first flag with which the word begins.
fn flag_length(texts: &[&'static str], word: &[u8]) -> usize
    ensures first { result ≡ flag_length (flags_of texts.now) word.now }
    ensures within { result ≤ length word.now }
{
    for text in texts {
        if word.starts_with(text.as_bytes()) {
            return text.len();
        }
    }
    0
}

/// Where the value of a word begins.
fn value_at(word: &[u8]) -> usize
    ensures first { result ≡ value_at word.now }
    ensures within { result ≤ length word.now }
{
    flag_length(flags(), word)
}

/// A field of a row, told: the paths behind its flag, if it begins with one, and behind each `=`.
pub fn told_field(alloc: Global, dirs: &[Vec<u8>], field: &[u8]) -> Mem<Vec<u8>>
    ensures { IfOk result (λ told. told.items ≡ told_field (words_of dirs.now) field.now) }
{
    map_word(alloc, dirs, value_at(field), Some(b'='), field)
}
