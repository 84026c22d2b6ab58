//! A command line of Windows read byte by byte, without memory.
#![tactic(auto)]

mod reader;

pub use reader::{Gaps, Mark, Reader, Step};
