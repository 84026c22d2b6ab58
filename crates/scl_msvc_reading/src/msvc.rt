//! The tables of Msvc's cl and of clang-cl, and the parser of words that are cut by them.

mod args;
mod data;
mod fixed_tests;
mod hash_files;
mod inner;
mod inputs;
mod judge;
mod outputs;
mod parse;
mod place;
mod reading;
mod record;

pub use args::{ARGS, SLASH_ARGS, slash_table, table, trees};
pub use data::{ArgData, Kind};
pub use inner::{ByInnerVerdict, inner_place_of};
pub use judge::ByVerdict;
pub use parse::{parse_arguments, parse_arguments_by, parse_arguments_owned};
pub use place::{ExternalIncludesApart, Place, place_of};
pub use reading::MsvcReading;
