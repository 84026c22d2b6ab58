//! The texts of the help of `scl`, and the completions and the manual's page that are made of them and of the options' rows.
#![tactic(auto)]

mod pages;
mod parts;

pub use pages::{BASH, FISH, MANUAL, ZSH};
pub use parts::{ABOUT, PARTS, Part, STATUSES, VERSION};
