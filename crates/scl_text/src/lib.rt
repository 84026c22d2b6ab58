//! Languages, records, refusals and commands; and the paths, files and response files that they use.
#![tactic(auto)]

mod archs;
pub mod command;
pub mod compiler;
mod copies;
mod judge;
mod judged_words;
pub mod language;
pub mod laws;
mod line;
pub mod outputs;
mod read_line;
pub mod reasons;
pub mod records;
pub mod refusal;
pub mod stop;

pub use compiler::CCompilerImpl;
pub use judge::{Judge, judge_all, refusal_of};
pub use judged_words::{cut_line, judge_cut, judge_words};
pub use language::Language;
pub use line::{Dangling, Line, word_count};
pub use read_line::ReadLine;
pub use records::{CommandError, CompilerArguments, ParsedArguments};
pub use scl_files::{
    ExpandAtArgs, Expanded, ExpansionKind, GnuExpand, Limits, Mem, MsvcExpand, Sourced,
    SplitMsvcResponseFileArgs, TooManyWords, View, expand, expand_all, expand_line, expand_words,
    from_local_codepage, msvc_words, path, read_text, split_diab, split_gnu_response_file_args,
    standing_line, view,
};
pub use stop::Stop;
