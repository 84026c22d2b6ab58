//! Reading the words of Gcc and Clang into a record.
#![tactic(auto)]

pub mod clang;
pub mod gcc;
pub mod laws;
