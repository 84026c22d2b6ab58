//! Gcc's table, and the parser of words that are cut by it or by other tables of the same kinds.

mod added_words;
mod args;
mod data;
mod fixed_tests;
mod hash_files;
mod hash_paths;
mod inner;
mod inputs;
mod judge;
mod outputs;
mod parse;
mod place;
mod reading;
mod record;
mod switches;

pub use args::{ARCH_FLAG, ARGS, table};
pub use data::{ArgData, Kind};
pub use fixed_tests::{Finding, apply_fixed_tests};
pub use hash_files::{HashRole, NamesHashed, push_hashed};
pub use hash_paths::{module_file_path, resolve_profile_use_path};
pub use inner::{ByInnerVerdict, inner_place_of, read_inner, read_inner_line};
pub use judge::ByVerdict;
pub use parse::{parse_arguments, parse_arguments_owned};
pub use place::{Place, place_of};
pub use reading::GnuReading;
pub use record::needs_target;
