//! Rows, options and their values, and how options are printed.
#![tactic(auto)]

mod argument;
mod error;
mod escaped;
mod held;
mod kinds;
mod left;
mod memory;
mod rows;
mod seen;
pub mod shapes;
mod spell;
mod split;
mod strings;
mod value;

pub use argument::{ArgDisposition, ArgInfo, ArgRow, Argument, Delimiter, NormalizedDisposition};
pub use error::{ArgParseError, ArgParseResult, ArgToStringError, ArgToStringResult};
pub use escaped::{Escaped, quote_list, quote_word};
pub use held::{Held, ReadArg, without_value};
pub use memory::Mem;
pub use spell::{Iter, join_value, join_word};
pub use split::split_os_string_arg;
pub use strings::IterStrings;
pub use value::{ArgumentValue, ExactArg, FromArg, IntoArg, PathArg};
