//! A lookup as text: the answers that lines of a request tell, and what a caller is told to look up next.
#![tactic(auto)]

pub mod laws;
mod looking;
mod name;
mod next;
mod reply;
mod row;
mod talk;

pub use looking::looked_up;
pub use name::{RELEASE, RULES};
