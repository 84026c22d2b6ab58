//! How a run ends.

use std::fmt;

/// How a run ended (docs/RULES.md, Outcomes). As text it is `answered`, or the line that the program prints to standard
/// error.
#[derive(Debug, Clone, Copy, PartialEq, Eq)]
pub enum Outcome {
    /// The whole answer was written.
    Answered,
    /// The line with this number, counted from 1, breaks a rule; nothing was written.
    BadLine(u64),
    /// A memory allocation failed; nothing was written.
    OutOfMemory,
    /// A read failed, or 2^40 reads gave bytes without reaching the end; nothing was written.
    ReadFailed,
    /// The writer failed; a prefix of the answer was written.
    WriteFailed,
}

impl Outcome {
    ghost use Rattle.std.specs.Prelude.{◌≡◌};
    ghost use Rattle.scl_cl.specs.Outcomes.{status_of};

    /// The exit status of the program: 0 if it answered, 2 for a bad line, 3 if memory ran out, 4 if a read or a write failed
    /// (docs/RULES.md, The program).
    pub fn status(self) -> u8
        ensures { result ≡ status_of self }
    {
        match self {
            Outcome::Answered => 0,
            Outcome::BadLine(_) => 2,
            Outcome::OutOfMemory => 3,
            Outcome::ReadFailed | Outcome::WriteFailed => 4,
        }
    }
}

impl fmt::Display for Outcome {
    ghost use Rattle.std.specs.Prelude.{Some};
    ghost use Rattle.scl_cl.specs.Outcomes.{told_of};

    ghost output = { λ outcome. Some (told_of outcome) };

    fn fmt<W: fmt::Write>(&self, f: &mut fmt::Formatter<W>) -> fmt::Result {
        match self {
            Outcome::Answered => write!(f, "answered"),
            Outcome::BadLine(number) => write!(f, "bad line {number}"),
            Outcome::OutOfMemory => write!(f, "out of memory"),
            Outcome::ReadFailed => write!(f, "read failed"),
            Outcome::WriteFailed => write!(f, "write failed"),
        }
    }
}
