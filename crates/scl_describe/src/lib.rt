//! Descriptions: an answer's lines, and after them rows of what was read.
#![tactic(auto)]

mod dependency_file;
mod described;
mod descriptions;
mod found;
mod keeping;
mod known;
pub mod laws;
mod option_lines;
mod settings;
mod wants;

pub use described::{Description, too_many_words};
pub use descriptions::{Descriptions, describe};
pub use found::{options_seen, rows_of};
pub use keeping::{Kept, concerns_files};
pub use known::catalogued;
pub use scl_hazards::{Catalogue, Danger, Effect, Entry, Hazard, Told, Verb, danger_name};
pub use scl_rows::{Destination, Origin, Row};
pub use settings::{Settings, base_in, number_of};
pub use wants::Wants;
