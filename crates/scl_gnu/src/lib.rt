//! The command lines of Gcc and Clang.
#![tactic(auto)]

pub mod clang;
pub mod gcc;
pub mod laws;
