//! Words cut into options by the rows of tables.
#![tactic(auto)]

mod iter;
mod piece;
mod shrinking;
mod words;

pub use iter::ArgsIter;
pub use shrinking::ShrinkingIter;
pub use words::{CutWords, cut_options, cut_words};
