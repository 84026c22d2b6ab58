//! Words that make the preprocessor write a file.
ghost use Rattle.std.specs.Prelude.{◌≡◌, IfOk, drop};
ghost use Rattle.std.specs.Str.{is_utf8};
ghost use Rattle.scl_values.specs.Words.{words_of};
ghost use Rattle.scl_gnu.specs.OutputFiles.{asks_for_rules, is_diagnostics, is_preprocessor_flag, some_asks, has_value, hands_on_rules, value_count, flag_count, file_count, without_output_files};

use scl_args::Mem;
use scl_text::command::push_word;
use std::alloc::Global;

/// The flag in front of a word for the preprocessor.
const PREPROCESSOR_FLAG: &[u8] = b"-Xpreprocessor";

/// The flag whose value is a file of diagnostics.
const DIAGNOSTICS: &[u8] = b"--serialize-diagnostics";

#[tactic(auto, using(scl_gnu_reading::proofs::InnerLemmas::text_rules))]
fn is_text(word: &[u8]) -> bool
    ensures { result ≡ is_utf8 word.now }
{
    str::from_utf8(word).is_ok()
}

#[tactic(auto, unfolding(crate::specs::OutputFiles::asks_for_rules))]
fn asks_for_rules(text: &[u8]) -> bool
    ensures { result ≡ asks_for_rules text.now }
{
    text.starts_with(b"-M")
}

#[tactic(auto, unfolding(crate::specs::OutputFiles::has_value))]
fn has_value(flag: &[u8]) -> bool
    ensures { result ≡ has_value flag.now }
{
    matches!(flag, b"-MF" | b"-MT" | b"-MQ")
}

/// Whether one of the texts between commas requests rules.
fn some_asks(texts: &[u8]) -> bool
    ensures { result ≡ some_asks texts.now }
{
    texts
        .split(|byte| *byte == b',')
        .any(|text| asks_for_rules(text))
}

#[tactic(auto, unfolding(crate::specs::OutputFiles::hands_on_rules))]
fn hands_on_rules(word: &[u8]) -> bool
    ensures { result ≡ hands_on_rules word.now }
{
    if !is_text(word) {
        return false;
    }
    match word.strip_prefix(b"-Wp,") {
        Some(texts) => some_asks(texts),
        None => false,
    }
}

#[tactic(auto, unfolding(crate::specs::OutputFiles::is_preprocessor_flag))]
fn is_preprocessor_flag(word: &[u8]) -> bool
    ensures { result ≡ is_preprocessor_flag word.now }
{
    word == PREPROCESSOR_FLAG
}

#[tactic(auto, unfolding(crate::specs::OutputFiles::is_diagnostics))]
fn is_diagnostics(word: &[u8]) -> bool
    ensures { result ≡ is_diagnostics word.now }
{
    word == DIAGNOSTICS
}

fn value_count(flag: &[u8], words: &[Vec<u8>]) -> usize
    ensures { result ≡ value_count flag.now (words_of words.now) }
{
    let [word, ..] = words else {
        return 0;
    };
    if has_value(flag) && is_preprocessor_flag(word) {
        2
    } else {
        0
    }
}

fn flag_count(words: &[Vec<u8>]) -> usize
    ensures { result ≡ flag_count (words_of words.now) }
{
    let [flag, rest @ ..] = words else {
        return 0;
    };
    if is_text(flag) && asks_for_rules(flag) {
        2 + value_count(flag, rest)
    } else {
        0
    }
}

/// The number of words at the front that make the preprocessor write one file.
#[tactic(auto, unfolding(crate::specs::OutputFiles::file_count))]
fn file_count(words: &[Vec<u8>]) -> usize
    ensures { result ≡ file_count (words_of words.now) }
{
    let [word, rest @ ..] = words else {
        return 0;
    };
    if is_diagnostics(word) {
        return 2;
    }
    if is_preprocessor_flag(word) {
        return flag_count(rest);
    }
    if hands_on_rules(word) { 1 } else { 0 }
}

/// The words after the first `count`.
fn behind(words: &[Vec<u8>], count: usize) -> &[Vec<u8>]
    ensures { result.now ≡ drop count words.now }
{
    words.get(count..).unwrap_or(&[])
}

/// The words, of the preprocessor or common ones, without those that make the preprocessor write a file (docs/RULES.md,
/// Preprocessing).
#[tactic(auto, using(crate::proofs::OutputFileLemmas::left_first))]
pub fn without_output_files(alloc: Global, words: &[Vec<u8>]) -> Mem<Vec<Vec<u8>>>
    ensures { IfOk result (λ kept. words_of kept.items ≡ without_output_files (words_of words.now)) }
{
    let mut kept = Vec::new(alloc);
    let mut rest = words;
    while let [word, ..] = rest {
        let dropped = file_count(rest);
        if dropped == 0 {
            push_word(alloc, &mut kept, word)?;
            rest = behind(rest, 1);
        } else {
            rest = behind(rest, dropped);
        }
    }
    Ok(kept)
}
