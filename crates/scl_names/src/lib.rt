//! The compiler of a program by its name, and the program of a command line.
#![tactic(auto)]

mod compilers;
mod file_name;
mod launchers;
mod options;

pub use compilers::compiler_of;
pub use launchers::{assignment_at, program_at, program_behind};
