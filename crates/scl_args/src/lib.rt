//! Arguments of command lines: flag tables, cutting words into options, filters over options, and printing.
#![tactic(auto)]

mod empties;
mod finished;
pub mod laws;
mod lists;
mod options;
mod wrapped;

pub use empties::has_empty_value;
pub use finished::Options;
pub use lists::{ShortFlagsJoined, Sides, push_option};
pub use options::{OfKinds, Test, is_dashes, last_option, last_text, names_file, texts};
pub use scl_cutting::{ArgsIter, CutWords, cut_options, cut_words};
pub use scl_devices::{Counted, FailingReader, FailingWriter, WriteFault, write_whole};
pub use scl_tables::{FlagTable, FlagTree, Probes, RowStore, SearchableArgInfo, Tables, looks};
pub use scl_values::{
    ArgDisposition, ArgInfo, ArgParseError, ArgParseResult, ArgRow, ArgToStringError,
    ArgToStringResult, Argument, ArgumentValue, Delimiter, Escaped, ExactArg, FromArg, Held,
    IntoArg, Iter, IterStrings, Mem, NormalizedDisposition, PathArg, ReadArg, quote_list,
    quote_word, shapes, split_os_string_arg, without_value,
};
pub use wrapped::{WrappedApart, WrappedJoined, Wrapper};
