//! Requests of each kind, distinguished by their first line (docs/PROTOCOL.md, A request).
#![tactic(auto)]

mod depfile;
mod joining;
pub mod laws;
mod making;
mod mapping;
mod naming;
mod requests;

pub use requests::{Kind, Requests, asks_description};
