//! Errors of words, options and values.
use crate::escaped::Escaped;
use std::alloc::{AllocError, AllocFailed};
use thiserror::Error;

/// An error of cutting words into options, or of making a value from a word (docs/RULES.md, Texts).
#[derive(Debug, PartialEq, Eq, Drop, Error)]
pub enum ArgParseError {
    /// The last flag has no value.
    #[error("Unexpected end of args")]
    UnexpectedEndOfArgs,
    /// This word must be text, and is not UTF-8.
    #[error("String \"{}\" contained invalid unicode", Escaped(.0))]
    InvalidUnicode(Vec<u8>),
    /// No value can be made from a word, and why.
    #[error("Arg-specific parsing failed: {0}")]
    Other(&'static str),
    /// A memory allocation failed.
    #[error("out of memory")]
    Memory,
}

impl<T: Drop> From<AllocFailed<T>> for ArgParseError {
    ghost use Rattle.std.specs.Prelude.{◌≡◌};
    ghost use Rattle.scl_values.specs.declared.error.ArgParseError.TheVariants.{Memory};

    ghost from_gives = { λ _ e. e ≡ Memory };

    fn from(_: AllocFailed<T>) -> ArgParseError {
        ArgParseError::from(AllocError)
    }
}

impl From<AllocError> for ArgParseError {
    ghost use Rattle.std.specs.Prelude.{◌≡◌};
    ghost use Rattle.scl_values.specs.declared.error.ArgParseError.TheVariants.{Memory};

    ghost from_gives = { λ _ e. e ≡ Memory };

    fn from(_error: AllocError) -> ArgParseError {
        ArgParseError::Memory
    }
}

/// What was made from words (an option, a value, texts), or why it could not be made.
pub type ArgParseResult<T> = Result<T, ArgParseError>;

/// An error of printing an option as texts (docs/RULES.md, Texts).
#[derive(Debug, PartialEq, Eq, Drop, Error)]
pub enum ArgToStringError {
    /// The closure gave no text for this path.
    #[error("Path \"{}\" could not be transformed", Escaped(.0))]
    FailedPathTransform(Vec<u8>),
    /// This word is not UTF-8.
    #[error("String \"{}\" contained invalid unicode", Escaped(.0))]
    InvalidUnicode(Vec<u8>),
    /// A memory allocation failed.
    #[error("out of memory")]
    Memory,
}

impl<T: Drop> From<AllocFailed<T>> for ArgToStringError {
    ghost use Rattle.std.specs.Prelude.{◌≡◌};
    ghost use Rattle.scl_values.specs.declared.error.ArgToStringError.TheVariants.{Memory};

    ghost from_gives = { λ _ e. e ≡ Memory };

    fn from(_: AllocFailed<T>) -> ArgToStringError {
        ArgToStringError::from(AllocError)
    }
}

impl From<AllocError> for ArgToStringError {
    ghost use Rattle.std.specs.Prelude.{◌≡◌};
    ghost use Rattle.scl_values.specs.declared.error.ArgToStringError.TheVariants.{Memory};

    ghost from_gives = { λ _ e. e ≡ Memory };

    fn from(_error: AllocError) -> ArgToStringError {
        ArgToStringError::Memory
    }
}

/// The text of a word of an option, or why there is none.
pub type ArgToStringResult = Result<String, ArgToStringError>;
