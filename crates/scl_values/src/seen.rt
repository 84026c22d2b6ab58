//! What readings see of an option.
ghost use Rattle.std.specs.Prelude.{◌≡◌};
ghost use Rattle.scl_values.specs.Seen.{seen, flag_of, text_of};

use crate::argument::Argument;
use crate::held::ReadArg;
use crate::value::ArgumentValue;

impl<T: ArgumentValue> Argument<T> {
    /// The flag; empty if the option has none.
    pub fn flag(&self) -> &'static str
        ensures { result.now ≡ flag_of (seen T.kind_of T.word_of self.now) }
    {
        match self {
            Argument::Raw(_) | Argument::UnknownFlag(_) => "",
            Argument::Flag(flag, _) | Argument::WithValue(flag, _, _) => flag,
        }
    }

    /// The option's word if it has no flag, else its value's word.
    pub fn text(&self) -> &[u8]
    where
        T: ReadArg,
        ensures { result.now ≡ text_of (seen T.kind_of T.word_of self.now) }
    {
        match self {
            Argument::Raw(word) | Argument::UnknownFlag(word) => word,
            Argument::Flag(_, value) | Argument::WithValue(_, value, _) => value.word(),
        }
    }
}
