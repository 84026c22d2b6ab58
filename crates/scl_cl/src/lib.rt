//! Requests to the compilers, as bytes: their grammar, the text of an answer, and the program over any reader and writer
//! (`run`). The answers themselves are in `scl_reader`, which is re-exported here.
#![tactic(auto)]

mod answer;
mod batch;
mod draft;
mod keyword;
pub mod laws;
mod outcome;
mod program;
mod request;
mod saying;
mod service;
mod transfer;

pub use answer::answer_text;
pub use batch::serve_each;
pub use outcome::Outcome;
pub use program::{Commands, run};
pub use request::{NoLines, Request, TakesLines, read_lines, read_request};
pub use scl_args as args;
pub use scl_args::Counted;
pub use scl_gnu::{clang, gcc};
pub use scl_msvc::msvc;
pub use scl_reader::{
    CommandLine, Compilation, Compiler, LackedFile, Limits, Questions, Reading, RunOptions,
};
pub use scl_small::{diab, tasking_vx};
pub use scl_text as text;
pub use scl_text::language::Language;
pub use scl_text::records::{
    ArtifactDescriptor, CCompilerKind, Cacheable, ColorMode, CommandError, CompilerArguments,
    ParsedArguments, SingleCompileCommand,
};
pub use scl_text::{CCompilerImpl, Mem, TooManyWords, View, path};
pub use service::{Service, serve};
