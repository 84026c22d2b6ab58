//! The rows of a command line that was read: what became of each option, whether the line is refused or not.
#![tactic(auto)]

mod added;
mod destination;
mod gnu;
pub mod laws;
mod line;
mod msvc;
mod origin;
mod row;
mod small;
mod ways;

pub use destination::Destination;
pub use gnu::gnu_rows;
pub use msvc::msvc_rows;
pub use origin::Origin;
pub use row::{Row, refused_at};
pub use small::small_rows;
