//! Inner command lines: words for clang, each after `-Xclang` or joined to `-clang:`.

mod judge;
mod options;
mod place;
mod words;

pub use judge::ByInnerVerdict;
pub(crate) use options::{InnerOptions, both_inner};
pub use place::inner_place_of;
pub(crate) use words::push_inner;
