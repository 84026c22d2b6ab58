//! The words of a POSIX shell's text without expansions, and words quoted for a shell.
#![tactic(auto)]

pub mod laws;
mod operators;
mod quote;
mod split;
mod visible;
mod windows;

pub use operators::operator_at;
pub use quote::{push_quoted, quoted_command};
pub use split::{ShellError, shell_words};
pub use visible::{beginning, is_hidden, shown, shown_briefly, shown_command, shown_words};
pub use windows::{WindowsError, windows_words};
