//! The result of calls that allocate memory.
use std::alloc::AllocError;

/// What a call gives whose only error is a refused memory allocation. Each call that returns `Mem` fails only then, so its
/// documentation does not repeat that.
pub type Mem<T> = Result<T, AllocError>;
