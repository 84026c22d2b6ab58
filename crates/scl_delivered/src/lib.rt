//! Keys as they are delivered: macros that the runs show stand at their end, and their words are told by base directories.
#![tactic(auto)]

mod delivered;
pub mod laws;
mod macros;
mod object;
mod rows;
mod told;

pub use delivered::{Delivered, Delivery, deliver};
