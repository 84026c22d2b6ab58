//! The reasons of refusals that several compilers share (docs/RULES.md, Readings).

/// A value names a response file that was not expanded.
pub const UNEXPANDED_FILE: &str = "@";

/// The value of an either row is empty.
pub const EMPTY_VALUE: &str = "empty value";

/// The words can't be cut.
pub const ARGUMENT_PARSE: &str = "argument parse";

/// The text beside `ARGUMENT_PARSE`: that of `ArgParseError::UnexpectedEndOfArgs`.
pub const UNEXPECTED_END: &str = "Unexpected end of args";

/// There are several inputs.
pub const MULTIPLE_INPUT_FILES: &str = "multiple input files";

/// There is no input.
pub const NO_INPUT_FILE: &str = "no input file";

/// The input's language is unknown.
pub const UNKNOWN_SOURCE_LANGUAGE: &str = "unknown source language";

/// The input has no file name.
pub const INVALID_INPUT_FILE: &str = "invalid input file";
