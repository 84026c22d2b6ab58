//! The command lines of Msvc's cl and of clang-cl.
#![tactic(auto)]

pub mod laws;
pub mod msvc;
