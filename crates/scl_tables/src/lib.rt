//! Flag tables, their prefix trees, and the search for the row that owns a word.
#![tactic(auto)]

mod nodes;
mod rows;
mod search;
mod table;
mod tables;
mod tree;

pub use nodes::Node;
pub use rows::{FlagTable, FlagTree, Probes, RowStore, SearchableArgInfo, looks};
pub use tables::Tables;
