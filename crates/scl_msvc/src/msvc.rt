//! The command lines of Msvc's cl and of clang-cl.

mod command;
mod compiler;
mod depfile;
mod environment;
mod preprocess;
mod reading;
mod words;

pub use command::{generate_compile_commands, generate_compile_commands_owned};
pub use compiler::{Msvc, parse_surrounded};
pub use depfile::{DepfileError, DepfileText, depfile_text, write_depfile};
pub use environment::{surroundings, without_cl_env_vars};
pub use reading::read_surrounded;
pub use scl_args::WriteFault;
pub use scl_msvc_reading::msvc::{
    ARGS, ArgData, Kind, SLASH_ARGS, parse_arguments, parse_arguments_by, parse_arguments_owned,
    slash_table, table, trees,
};
pub use scl_text::MsvcExpand as ExpandIncludeFile;
