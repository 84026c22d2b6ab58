//! TaskingVX.

mod args;
mod compiler;
mod data;
mod judge;
mod parse;
mod place;

pub use crate::command::{generate_compile_commands, generate_compile_commands_owned};
pub use args::{ARGS, table};
pub use compiler::TaskingVX;
pub use data::{ArgData, Kind};
pub use parse::{parse_arguments, parse_arguments_owned};
