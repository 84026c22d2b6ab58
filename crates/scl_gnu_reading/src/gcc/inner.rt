//! Inner command lines: words for the compiler proper, each after `-Xclang`.

mod judge;
mod line;
mod options;
mod place;
mod words;

pub use judge::ByInnerVerdict;
pub use line::read_inner_line;
pub use options::read_inner;
pub use place::inner_place_of;
pub(crate) use words::push_inner;
