//! Which inner options prevent caching.
use super::place::inner_place_of_kind;
use crate::msvc::judge::judge_flag;
use scl_args::{Argument, Mem, ReadArg};
use scl_gnu_reading::gcc::ArgData;
use scl_text::Judge;
use scl_text::refusal::Refusal;
use std::alloc::Global;

/// The judge of inner options.
#[derive(Clone, Copy)]
pub struct ByInnerVerdict;

impl Judge<ArgData> for ByInnerVerdict {
    ghost use Rattle.scl_msvc_reading.specs.Inners.{inner_verdict};

    ghost verdict = { λ _. inner_verdict };

    fn judge(
        &self,
        _alloc: Global,
        _before: &[Argument<ArgData>],
        option: &Argument<ArgData>,
    ) -> Mem<Option<Refusal>> {
        match option {
            Argument::Raw(_) | Argument::UnknownFlag(_) => Ok(None),
            Argument::Flag(flag, value) | Argument::WithValue(flag, value, _) => {
                Ok(judge_flag(inner_place_of_kind(value.kind()), flag))
            }
        }
    }
}
