//! Programs that run the compiler named by a later word.
ghost use Rattle.std.specs.Prelude.{◌≡◌, ◌<◌, ◌==◌, IfOk, IfSome, length, map, position};
ghost use Rattle.std.specs.List.{list_all};
ghost use Rattle.std.specs.Option.{option_copied, option_map};
ghost use Rattle.scl_values.specs.Words.{words_of};
ghost use Rattle.scl_names.specs.Launchers.{launchers, launcher_named, is_one_of, is_in_name, is_name, is_text, assignment_at, is_assignment, behind_option, behind_value, behind_word, launcher_in, program_at, program_behind, standing_of, step, with_words};
ghost use Rattle.scl_names.specs.LaunchersGiven.{front_by};

use crate::file_name::{is_digit, stem_of};
use crate::options::standing_of;
use scl_reader::Mem;
use std::alloc::Global;

/// Programs that run the compiler named by a later word.
static LAUNCHERS: &[&str] = &[
    "ccache",
    "sccache",
    "distcc",
    "icecc",
    "recc",
    "buildcache",
    "env",
    "nice",
    "time",
];

fn launchers() -> &'static [&'static str]
    ensures { map (λ text. text.now) result.now ≡ launchers }
{
    LAUNCHERS
}

fn is_text(text: &str, stem: &[u8]) -> bool
    ensures { result ≡ is_text stem.now text.now }
{
    text.as_bytes() == stem
}

/// The launcher of this name, if it is one.
fn launcher_named(stem: &[u8]) -> Option<&'static str>
    ensures { option_copied result ≡ launcher_named stem.now }
{
    let all = launchers();
    for text in all {
        if is_text(text, stem) {
            return Some(*text);
        }
    }
    None
}

/// Whether this is one of the names.
fn is_among(names: &[Vec<u8>], stem: &[u8]) -> bool
    ensures { result ≡ is_one_of (words_of names.now) stem.now }
{
    for name in names {
        if name.as_slice() == stem {
            return true;
        }
    }
    false
}

/// The launcher of this name, if it is one, or `""` where it is one of further names.
fn launcher_in(more: &[Vec<u8>], stem: &[u8]) -> Option<&'static str>
    ensures { option_copied result ≡ launcher_in (words_of more.now) stem.now }
{
    match launcher_named(stem) {
        Some(launcher) => Some(launcher),
        None if is_among(more, stem) => Some(""),
        None => None,
    }
}

fn is_in_name(byte: u8) -> bool
    ensures { result ≡ is_in_name byte }
{
    matches!(byte, b'a'..=b'z' | b'A'..=b'Z' | b'0'..=b'9' | b'_')
}

fn all_in_name(text: &[u8]) -> bool
    ensures { result ≡ list_all is_in_name text.now }
{
    text.iter().all(|byte| is_in_name(*byte))
}

fn is_name(text: &[u8]) -> bool
    ensures { result ≡ is_name text.now }
{
    !text.is_empty() && !is_digit(text[0]) && all_in_name(text)
}

fn equals_at(word: &[u8]) -> Option<usize>
    ensures at { result ≡ position (λ byte. byte == 61) word.now }
    ensures within { IfSome result (λ at. at < length word.now) }
{
    word.iter().position(|byte| *byte == b'=')
}

/// The position of the `=` of a word that assigns a variable: `NAME=..`, where NAME has letters, digits and `_`, and no digit
/// first.
pub fn assignment_at(word: &[u8]) -> Option<usize>
    ensures at { result ≡ assignment_at word.now }
    ensures within { IfSome result (λ at. at < length word.now) }
{
    if let Some(at) = equals_at(word) {
        if is_name(&word[..at]) {
            return Some(at);
        }
    }
    None
}

fn is_assignment(word: &[u8]) -> bool
    ensures { result ≡ is_assignment word.now }
{
    assignment_at(word).is_some()
}

/// Whether a compiler takes words of this variable.
fn has_words(name: &[u8]) -> bool
    ensures { result ≡ is_one_of with_words name.now }
{
    name == b"CL".as_slice() || name == b"_CL_".as_slice()
}

/// What stands before a program: the last launcher, if there is one, and whether its last option takes the next word.
#[derive(Clone, Copy)]
pub(crate) struct Launched {
    launcher: &'static str,
    awaits_value: bool,
}

impl Launched {
    /// With a value that is awaited.
    fn with_value(self, word: &[u8]) -> Option<Launched>
        ensures { option_map front_by result ≡ behind_value (front_by self) word.now }
    {
        if has_words(word) {
            return None;
        }
        Some(Launched {
            launcher: self.launcher,
            awaits_value: false,
        })
    }

    /// With an option of the last launcher.
    fn with_option(self, word: &[u8]) -> Option<Launched>
        ensures { option_map front_by result ≡ behind_option (front_by self) (standing_of self.launcher.now word.now) }
    {
        match standing_of(self.launcher, word) {
            Some(standing) => Some(Launched {
                launcher: self.launcher,
                awaits_value: standing.takes_next(),
            }),
            None => None,
        }
    }

    /// With a word that is no value, whose name is this.
    fn with_word(self, more: &[Vec<u8>], word: &[u8], stem: &[u8]) -> Option<Launched>
        ensures { option_map front_by result ≡ behind_word (words_of more.now) (front_by self) word.now stem.now }
    {
        if is_assignment(word) {
            return Some(self);
        }
        match launcher_in(more, stem) {
            Some(launcher) => Some(Launched {
                launcher,
                awaits_value: false,
            }),
            None => self.with_option(word),
        }
    }

    /// With one more word, if that may stand before a program.
    fn step(self, alloc: Global, more: &[Vec<u8>], word: &[u8]) -> Mem<Option<Launched>>
        ensures { IfOk result (λ next. option_map front_by next ≡ step (words_of more.now) (front_by self) word.now) }
    {
        if self.awaits_value {
            return Ok(self.with_value(word));
        }
        let stem = stem_of(alloc, word)?;
        Ok(self.with_word(more, word, &stem))
    }
}

/// The index of the program in a command line: the first word that is no launcher, no option of a launcher and no assignment
/// (`assignment_at`). Launchers are `ccache`, `sccache`, `distcc`, `icecc`, `recc`, `buildcache`, `env`, `nice` and `time`, by the
/// same rules of names as a compiler. An option that takes `CL` or `_CL_` away is none, since a compiler takes words of them.
pub fn program_at(alloc: Global, words: &[Vec<u8>]) -> Mem<Option<usize>>
    ensures { IfOk result (λ at. at ≡ program_at (words_of words.now)) }
{
    program_behind(alloc, &[], words)
}

/// The same, where programs of further names are launchers too. They have no options.
pub fn program_behind(alloc: Global, more: &[Vec<u8>], words: &[Vec<u8>]) -> Mem<Option<usize>>
    ensures { IfOk result (λ at. at ≡ program_behind (words_of more.now) (words_of words.now)) }
{
    let mut launched = Launched {
        launcher: "",
        awaits_value: false,
    };
    for (at, word) in words.iter().enumerate() {
        match launched.step(alloc, more, word)? {
            Some(next) => launched = next,
            None => return Ok(Some(at)),
        }
    }
    Ok(None)
}
