//! The arguments of Diab options files.
ghost use Rattle.std.specs.Prelude.{◌≡◌, IfOk};
ghost use Rattle.std.specs.List.{list_any};
ghost use Rattle.std.specs.Option.{option_map};
ghost use Rattle.std.specs.Str.{chars};
ghost use Rattle.scl_values.specs.Words.{words_of};
ghost use Rattle.scl_files.specs.DiabText.{is_quote, diab_arguments};

use scl_values::Mem;
use std::alloc::Global;

fn has_quote(text: &str) -> bool
    ensures { result ≡ list_any is_quote (chars text.now) }
{
    text.chars().any(|c| c == '\'' || c == '"')
}

/// The arguments of a Diab options file's text, each in UTF-8: the stretches between white space. None if the text has a
/// quote of either kind (docs/RULES.md, Diab text).
#[tactic(auto, using(crate::proofs::DiabLemmas::argument_rules))]
pub fn split_diab(alloc: Global, text: &str) -> Mem<Option<Vec<Vec<u8>>>>
    ensures { IfOk result (λ o. option_map (λ v. words_of v.items) o ≡ diab_arguments (chars text.now)) }
{
    if has_quote(text) {
        return Ok(None);
    }
    let mut words = Vec::new(alloc);
    for word in text.split_whitespace() {
        words.push(Vec::from_slice(alloc, word.as_bytes())?)?;
    }
    Ok(Some(words))
}
