//! The patterns of a key: whether texts have what one looks for.
#![tactic(auto)]

mod assembled;
mod pattern;
mod refusal;
mod source;
mod unseen;

pub use pattern::is_shown;
pub use refusal::is_refused;
pub use source::{joined, named_in};
pub use unseen::reads_unseen;
