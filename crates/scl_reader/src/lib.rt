//! A command line of any compiler that is served, gcc, g++, clang, clang++, cl, clang-cl, diab or tasking, is read once
//! (`Compiler::read`), and all that is said of it is a function of its reading: its record, its answer, its questions.
#![tactic(auto)]

mod apple;
mod ask;
mod command_line;
mod compilation;
mod compile;
mod compiler;
pub mod laws;
mod precompiled;
mod questions;
mod read;
mod reading;
mod runs;
mod within;

pub use apple::is_apple;
pub use command_line::CommandLine;
pub use compilation::Compilation;
pub use compiler::Compiler;
pub use questions::Questions;
pub use reading::{LackedFile, Reading};
pub use runs::RunOptions;
pub use scl_text::records::{CompilerArguments, ParsedArguments};
pub use scl_text::{Limits, Mem, TooManyWords, View};
