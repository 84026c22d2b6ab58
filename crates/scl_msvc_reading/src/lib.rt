//! Reading the words of Msvc's cl and of clang-cl into a record.
#![tactic(auto)]

pub mod laws;
pub mod msvc;
