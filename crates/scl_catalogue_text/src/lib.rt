//! The text of a catalogue: what a text says, and which of its lines is wrong.
#![tactic(auto)]

mod cut;
mod file;
mod mistake;
mod names;
mod read_case;
mod read_catalogue;
mod read_condition;
mod read_line;
mod read_test;
mod read_text;
mod stated;

pub use mistake::{BadLine, Mistake, ReadError};
pub use read_case::version;
pub use read_catalogue::read;
pub use stated::statement;
