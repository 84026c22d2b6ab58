//! The command lines of the compilers Diab and TaskingVX.
#![tactic(auto)]

mod command;
pub mod diab;
mod fixed_tests;
mod judge;
pub mod laws;
mod parse;
mod place;
mod preprocess;
mod reading;
mod record;
pub mod tasking_vx;

pub use judge::{ByRules, Rules};
pub use place::{Place, Placed, place_of};
pub use reading::SmallReading;
