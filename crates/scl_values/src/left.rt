//! What a printer of an option still has to print.
use crate::argument::Argument;

#[derive(Drop)]
pub(crate) enum Left<'a, T> {
    /// The whole option.
    Whole(&'a Argument<T>),
    /// The value, in a word of its own after the flag.
    Value(&'a T),
    Nothing,
}
