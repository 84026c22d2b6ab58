//! The inputs of a command line.
use super::data::ArgData;
use scl_args::{Argument, Test, is_dashes};

/// The words that are no options, except `--`.
pub(crate) struct Inputs;

impl Test<ArgData> for Inputs {
    ghost use Rattle.scl_gnu_reading.specs.Kinds.{is_input};

    ghost passes = { λ _. is_input };

    fn passes(&self, option: &Argument<ArgData>) -> bool {
        match option {
            Argument::Raw(_) => !is_dashes(option),
            Argument::UnknownFlag(_) | Argument::Flag(_, _) | Argument::WithValue(_, _, _) => false,
        }
    }
}
