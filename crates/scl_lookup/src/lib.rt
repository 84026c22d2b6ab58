//! A lookup: questions until there is a key.
#![tactic(auto)]

pub mod laws;
