//! TaskingVX's verdict of one option, and the flag in its command.
use super::data::ArgData;
use crate::judge::Rules;
use crate::place::refuse_by_place;
use scl_args::Argument;
use scl_text::refusal::Refusal;

impl Rules for ArgData {
    ghost use Rattle.std.specs.Prelude.{codes};
    ghost use Rattle.scl_small.specs.TaskingReading.{verdict};

    ghost verdict = { verdict };

    ghost compile_flag_for = { λ _. codes "-c" };

    fn judge(option: &Argument<ArgData>) -> Option<Refusal> {
        refuse_by_place(option)
    }

    fn compile_flag(_flag: &'static str) -> &'static str {
        "-c"
    }
}
