//! The questions of a lookup, the answers of a caller, and the text that is hashed.
#![tactic(auto)]

mod answer;
pub mod laws;
mod question;
mod reply;
mod round;
mod row;
mod told;

pub use answer::{Answer, Program, Standing, Written};
pub use question::{Language, Question};
pub use reply::{program, real, standing, value};
pub use round::{Round, answer_to, ask, round_so_far};
pub use row::{Field, push_text};
pub use told::{file_told, maybe_told, program_told, regular_told, unset_told, value_told};
