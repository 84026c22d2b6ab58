//! What a compiler reads, writes, asks and loads beside what a record names, and whether that is known of each option.
#![tactic(auto)]

mod effect;
mod file;
mod known;
mod told;

pub use effect::Effect;
pub use known::unknown_of;
pub use told::effects_among;
