//! The statuses that the calls end with, as `capi/scl.h` has them.

/// What was requested was given.
pub(crate) const TOLD: i32 = 0;

/// The memory that was passed is too short.
pub(crate) const TOO_SHORT: i32 = 1;

/// The request has a bad line.
pub(crate) const BAD: i32 = 2;

/// Out of memory.
pub(crate) const NO_MEMORY: i32 = 3;

// (4 is the header's own: a description says `too-many-words`)

/// The request's bad line is a setting that is not known.
pub(crate) const NEWER: i32 = 5;

/// A line of the catalogue is wrong.
pub(crate) const BAD_CATALOGUE: i32 = 6;
