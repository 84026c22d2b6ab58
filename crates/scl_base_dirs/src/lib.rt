//! Base directories, and paths below them told without their place on the machine.
#![tactic(auto)]

mod base;
mod cut;
pub mod laws;
mod marker;
mod run;
mod spelling;
mod told;

pub use base::{Base, base_dirs, base_of};
pub use run::{RunMapper, map_pieces, map_run};
pub use spelling::{Quoting, Spelling, quoted_dirs};
pub use told::{map_path, map_word};
