//! Which inner options prevent caching.
ghost use Rattle.std.specs.Prelude.{◌≡◌, IfOk, Some, map};
ghost use Rattle.std.specs.Option.{option_map};
ghost use Rattle.scl_args.specs.Options.{last};
ghost use Rattle.scl_values.specs.Seen.{seen};
ghost use Rattle.scl_text.specs.Refusals.{verdict_of};
ghost use Rattle.scl_gnu_reading.specs.Data.{kind_of, word_of};
ghost use Rattle.scl_gnu_reading.specs.Inners.{raw_verdict, takes_raw, text_or_empty, word_refusal};

use super::place::inner_place_of_kind;
use crate::gcc::data::ArgData;
use crate::gcc::judge::judge_flag;
use scl_args::{Argument, Mem, ReadArg, last_option};
use scl_text::Judge;
use scl_text::refusal::Refusal;
use std::alloc::Global;

/// The word; the empty text if it is not UTF-8.
#[tactic(auto, using(crate::proofs::InnerLemmas::text_rules))]
fn text_or_empty(word: &[u8]) -> &str
    ensures { result.now ≡ text_or_empty word.now }
{
    match str::from_utf8(word) {
        Ok(text) => text,
        Err(_) => "",
    }
}

/// The refusal for this reason, with the word beside it; the empty text if the word is not UTF-8.
fn refuse_word(alloc: Global, reason: &'static str, word: &[u8]) -> Mem<Refusal>
    ensures { IfOk result (λ refusal. Some (verdict_of refusal) ≡ word_refusal reason.now word.now) }
{
    let text = String::from_str(alloc, text_or_empty(word))?;
    Ok(Refusal::CannotCache(reason, Some(text)))
}

/// Whether a raw word may follow these options: it is an argument of the plugin that the last one names.
fn takes_raw(before: &[Argument<ArgData>]) -> bool
    ensures { result ≡ takes_raw (last (map (seen kind_of word_of) before.now)) }
{
    match last_option(before) {
        Some(option) => option.flag() == "-plugin-arg",
        None => false,
    }
}

fn judge_raw(alloc: Global, is_taken: bool, word: &[u8]) -> Mem<Option<Refusal>>
    ensures { IfOk result (λ refusal. option_map verdict_of refusal ≡ raw_verdict is_taken word.now) }
{
    if is_taken {
        return Ok(None);
    }
    let reason = "Can't handle Raw arguments with -Xclang";
    Ok(Some(refuse_word(alloc, reason, word)?))
}

/// The judge of inner options.
#[derive(Clone, Copy)]
pub struct ByInnerVerdict;

impl Judge<ArgData> for ByInnerVerdict {
    ghost use Rattle.scl_gnu_reading.specs.Inners.{inner_verdict};

    ghost verdict = { λ _. inner_verdict };

    fn judge(
        &self,
        alloc: Global,
        before: &[Argument<ArgData>],
        option: &Argument<ArgData>,
    ) -> Mem<Option<Refusal>> {
        match option {
            Argument::Raw(word) => judge_raw(alloc, takes_raw(before), word),
            Argument::UnknownFlag(word) => {
                let reason = "Can't handle UnknownFlag arguments with -Xclang";
                Ok(Some(refuse_word(alloc, reason, word)?))
            }
            Argument::Flag(flag, value) | Argument::WithValue(flag, value, _) => {
                Ok(judge_flag(inner_place_of_kind(value.kind()), flag))
            }
        }
    }
}
