//! A catalogue of what is known of compilers: its form, and which of its entries a command line has.
#![tactic(auto)]

mod case;
mod catalogue;
mod condition;
mod copy;
mod entry;
mod keys;
pub mod laws;
mod line;
mod lookup;
mod numbers;
mod over;
mod relation;
mod seen;
mod speaking;
mod test;
mod text;

pub use case::{Case, Compiler, Served, Version, serves};
pub use catalogue::Catalogue;
pub use condition::{Condition, Fact, Place, Question};
pub use entry::{Brings, Danger, Doing, Entry, Naming, Tells, Verb};
pub use line::{Facts, Line};
pub use lookup::{Brought, Lexicon};
pub use numbers::Numbers;
pub use relation::Relation;
pub use seen::{Mark, Marks, Seen, Standing};
pub use speaking::Level;
pub use test::{Class, Demand, Group, Test};
pub use text::{Cut, How, Patterns, Text, behind_equals, holds};
