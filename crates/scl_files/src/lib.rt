//! Paths, views of files, the texts of response files, and the expansion of such files.
#![tactic(auto)]

mod decode;
mod diab_text;
pub mod expand;
mod expand_iterators;
mod expansion;
mod gnu_text;
pub mod laws;
mod line;
mod msvc_text;
pub mod path;
mod path_map;
pub mod response_file;
mod sourced;
mod texts;
pub mod view;
mod wanted;

pub use decode::{from_local_codepage, read_text};
pub use diab_text::split_diab;
pub use expand::{
    ExpandAtArgs, ExpansionKind, GnuExpand, Limits, MsvcExpand, TooManyWords, expand_all,
    expand_words,
};
pub use gnu_text::split_gnu_response_file_args;
pub use line::{Expanded, expand_line, standing_line};
pub use msvc_text::{SplitMsvcResponseFileArgs, msvc_words};
pub use scl_values::Mem;
pub use sourced::{Sourced, behind, first_at};
pub use view::View;
