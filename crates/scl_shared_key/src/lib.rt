//! Keys that are one in every checkout: what an object names of the place where it is made, and fields told by base directories.
#![tactic(auto)]

mod field;
mod judge;
pub mod laws;
mod maps;
mod naming;
mod object;
mod said;
mod usual;

pub use field::told_field;
pub use judge::verdict;
pub use object::{Object, is_macro};
pub use said::{InObject, Verdict};
