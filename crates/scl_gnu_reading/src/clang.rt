//! Clang's table, and the trees of Gcc's and Clang's.

mod args;

pub use args::{ARGS, table, trees};
