//! What a catalogue says of command lines, as they were read: what a compiler does differently with the built command than with
//! the given one, and what it reads, writes, asks and loads.
#![tactic(auto)]

mod clang_cl;
mod delimiter;
mod gnu;
mod hazard;
mod known;
mod language;
mod names;
mod seen;
mod small;
mod targets;
mod told;

pub use clang_cl::msvc_told;
pub use gnu::gnu_told;
pub use hazard::{Hazard, hazard_of};
pub use known::Known;
pub use names::{compiler_name, danger_name, is_of};
pub use scl_catalogue::{Catalogue, Compiler, Danger, Entry, Verb, Version};
pub use scl_effects::Effect;
pub use seen::{Kinded, line_seen};
pub use small::{diab_told, tasking_told};
pub use told::Told;
