//! The rounds of a lookup: what a key asks of a machine, and its rows by the answers.
#![tactic(auto)]

mod answer;
mod file;
mod header;
mod key;
pub mod laws;
mod listing;
mod next;
mod plan;
mod question;
mod row;
mod run;
mod search;
mod shown;
mod vain;

pub use key::Key;
pub use next::{Next, look_up};
