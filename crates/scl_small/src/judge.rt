//! What a compiler says of its options.
ghost use Rattle.std.specs.Prelude.{◌≡◌, ℕ, List, Option};
ghost use Rattle.std.specs.Option.{option_map};
ghost use Rattle.scl_values.specs.Seen.{Seen, seen};
ghost use Rattle.scl_text.specs.Records.{Verdict};
ghost use Rattle.scl_text.specs.Refusals.{verdict_of};

use crate::place::Placed;
use scl_args::Argument;
use scl_text::refusal::Refusal;
use scl_text::{Judge, Mem};
use std::alloc::Global;

/// What a compiler says of options of these values.
pub trait Rules: Placed {
    /// The verdict of one option.
    ghost verdict: { Seen Self.Kind → Option Verdict };

    /// The flag in the command, by the last flag that requests a compilation.
    ghost compile_flag_for: { List ℕ → List ℕ };

    /// The refusal of one option, if it is refused.
    fn judge(option: &Argument<Self>) -> Option<Refusal>
        ensures { option_map verdict_of result ≡ verdict (seen Self.kind_of Self.word_of option.now) };

    /// The flag in the command, if this is the last flag that requests a compilation.
    fn compile_flag(flag: &'static str) -> &'static str
        ensures { result.now ≡ compile_flag_for flag.now };
}

/// The judge of each option by itself.
#[derive(Clone, Copy, Debug)]
pub struct ByRules;

impl<T: Rules> Judge<T> for ByRules {
    ghost verdict = { λ _ before. T.verdict };

    fn judge(
        &self,
        _alloc: Global,
        _before: &[Argument<T>],
        option: &Argument<T>,
    ) -> Mem<Option<Refusal>> {
        Ok(T::judge(option))
    }
}
