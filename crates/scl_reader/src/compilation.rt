//! What a command line that can be compiled is answered.
use scl_text::records::{Cacheable, ParsedArguments, SingleCompileCommand};

/// A command line that was read, the command to run in its place, and whether its outcome may be
/// kept (docs/RULES.md, Answers).
#[derive(Debug, PartialEq, Eq, Drop)]
pub struct Compilation {
    /// What was read.
    pub parsed: ParsedArguments,
    /// The command to run.
    pub command: SingleCompileCommand,
    /// Whether its outcome may be kept in the cache.
    pub cacheable: Cacheable,
}
