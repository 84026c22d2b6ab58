//! Descriptions: rows of escaped fields, and the record of a command line as such rows. Requests and answers use these lines
//! and fields too.
#![tactic(auto)]

mod cut;
mod field;
pub mod laws;
mod list;
mod names;
mod record;
mod row;
mod taker;

pub use cut::{cut_at, next_line};
pub use field::{push_field, read_field, read_two_fields};
pub use list::RowList;
pub use names::{Part, part_of};
pub use record::tell_record;
pub use row::{push_word, push_yes};
pub use taker::{TakesRows, tell_maybe, tell_row, tell_row_of, tell_word, tell_words, tell_yes};
