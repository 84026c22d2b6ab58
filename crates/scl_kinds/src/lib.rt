//! The names of kinds of options.
#![tactic(auto)]

mod kind_names;

pub use kind_names::NamedKind;
