//! What a cache reads in texts that compilers and sources have: lines, names in line markers, words, folders.
#![tactic(auto)]

mod cut;
mod files;
mod folder;
mod lines;
mod markers;
mod name;
mod quoted;

pub use cut::{cut_at, first_place, first_word};
pub use files::{Named, files_in};
pub use folder::{between, folders};
pub use lines::{leading_lines, lines_after};
pub use markers::{Marker, loaded_name, marker_of};
pub use name::names;
pub use quoted::{closing_at, unquoted};
