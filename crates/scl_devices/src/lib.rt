//! Readers and writers that count failures, readers and writers that fail on purpose, and writing a whole text.
#![tactic(auto)]

mod counted;
mod failing;
mod write;

pub use counted::Counted;
pub use failing::{FailingReader, FailingWriter};
pub use write::{WriteFault, write_whole};
