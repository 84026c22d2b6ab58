//! The command lines of Gcc, and what Clang shares with it.

mod command;
mod compiler;
mod output_files;
mod preprocess;
mod runs;
mod words;

pub use command::{
    generate_compile_commands, generate_compile_commands_owned, language_to_gcc_arg,
};
pub use compiler::Gcc;
pub use output_files::without_output_files;
pub(crate) use preprocess::linemarker_flags;
pub use preprocess::preprocess_passes;
pub use runs::join_passes;
pub use scl_gnu_reading::gcc::{
    ARCH_FLAG, ARGS, ArgData, HashRole, Kind, NamesHashed, module_file_path, parse_arguments,
    parse_arguments_owned, push_hashed, read_inner, resolve_profile_use_path, table,
};
pub use scl_text::GnuExpand as ExpandIncludeFile;
