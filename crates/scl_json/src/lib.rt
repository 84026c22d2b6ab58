//! Descriptions as JSON: an object with a member for each row.
#![tactic(auto)]

mod json;
pub mod laws;
mod members;
mod text;
mod value;

pub use json::{json_of, push_json};
