//! The command lines of Clang.

mod compiler;
mod preprocess;
mod version;

pub use compiler::{Clang, language_to_clang_arg};
pub use scl_gnu_reading::clang::{ARGS, table, trees};
pub use scl_gnu_reading::gcc::{ArgData, Kind, resolve_profile_use_path};
