//! Diab's verdict of one option, and the flag in its command.
use super::data::ArgData;
use crate::judge::Rules;
use crate::place::refuse_by_place;
use scl_args::{Argument, names_file};
use scl_text::reasons::UNEXPANDED_FILE;
use scl_text::refusal::Refusal;

impl Rules for ArgData {
    ghost use Rattle.scl_small.specs.DiabReading.{verdict};

    ghost verdict = { verdict };

    ghost compile_flag_for = { λ flag. flag };

    fn judge(option: &Argument<ArgData>) -> Option<Refusal> {
        if names_file(option) {
            return Some(Refusal::CannotCache(UNEXPANDED_FILE, None));
        }
        refuse_by_place(option)
    }

    fn compile_flag(flag: &'static str) -> &'static str {
        flag
    }
}
