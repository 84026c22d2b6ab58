//! The key of a command line: what a cache hashes as it stands, and what it asks and hashes.
#![tactic(auto)]

mod direct;
mod doings;
mod effect;
mod family;
mod given;
mod key;
mod known;
pub mod laws;
mod made;
mod no_key;
mod part;
mod reads;
mod runs;
mod told;

pub use direct::{Direct, tell_directs};
pub use doings::with_effects;
pub use family::{is_clang, is_gcc};
pub use key::{Keeping, Key, key_of};
pub use made::made_beside;
pub use no_key::{NoKey, Reason, tell_no_rows};
pub use part::{Ask, Output, Part, tell_key};
pub use told::{Line, RunWords};
