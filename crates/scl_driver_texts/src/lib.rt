//! How the drivers of gcc, clang and clang-cl split the texts of response files, and which texts they split differently than
//! the rules.
#![tactic(auto)]

mod gnu_words;
pub mod laws;
mod otherwise;
mod splitter;
mod windows_words;
mod words;

pub use otherwise::{is_split_otherwise, splits_otherwise};
pub use splitter::{Splitter, split};
