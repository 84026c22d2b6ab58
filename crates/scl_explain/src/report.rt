//! What writes answers.
use crate::answered::Answered;
use crate::case::Case;
use crate::reply::Form;
use scl_describe::Catalogue;
use scl_reader::Mem;
use std::alloc::Global;

/// What a command line is answered by, and what writes the answer.
#[derive(Drop)]
pub struct Means<'a, D, R> {
    /// The files.
    pub disk: D,
    /// What is known of compilers.
    pub catalogue: &'a Catalogue,
    /// What writes the answer.
    pub report: R,
}

/// What writes answers.
pub trait Report {
    /// What a command line is.
    fn explanation(
        &self,
        alloc: Global,
        case: &Case,
        answered: &Answered<'_>,
        form: Form,
    ) -> Mem<String>;

    /// That a command line compiles nothing, and why.
    fn nothing(&self, alloc: Global, case: &Case, answered: &Answered<'_>) -> Mem<String>;

    /// The hazards of a command line, for machines.
    fn hazards(&self, alloc: Global, case: &Case, answered: &Answered<'_>) -> Mem<String>;
}
