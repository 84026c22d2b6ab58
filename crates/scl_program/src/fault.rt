//! Why the program does not answer.
use crate::file::name_of;
use scl_explain::Ending;
use std::alloc::{AllocError, AllocFailed};
use std::fmt::Display;
use std::io::{self, ErrorKind};
use thiserror::Error;

/// Why the program does not answer.
#[derive(Debug, Drop, Error)]
pub enum Fault {
    /// Out of memory.
    #[error("out of memory")]
    Memory,
    /// The answer can't be written.
    #[error("the answer cannot be written: {0}")]
    Output(io::Error),
    /// A file, or what else is read from the system, can't be read.
    #[error("{0}")]
    Input(String),
}

impl Fault {
    /// How the program ends.
    pub fn ending(&self) -> Ending {
        match self {
            Fault::Memory => Ending::OutOfMemory,
            Fault::Output(_) | Fault::Input(_) => Ending::FileFailed,
        }
    }

    /// That a file, or standard input, can't be read, or that there was no memory for it.
    pub fn of_input(rt: &HostRuntime, path: &str, error: &io::Error) -> Result<Fault, Fault> {
        if error.kind() == ErrorKind::OutOfMemory {
            return Ok(Fault::Memory);
        }
        let name = name_of(rt, path)?;
        Ok(Fault::Input(format!(in rt.alloc(); "{name}: {error}")?))
    }

    /// Whether nobody reads the answer any more: then nothing is said.
    pub fn is_closed(&self) -> bool {
        match self {
            Fault::Output(error) => error.kind() == ErrorKind::BrokenPipe,
            Fault::Memory | Fault::Input(_) => false,
        }
    }

    /// That the answer can't be written, or that there was no memory for it.
    pub fn of_output(error: io::Error) -> Fault {
        if error.kind() == ErrorKind::OutOfMemory {
            Fault::Memory
        } else {
            Fault::Output(error)
        }
    }
}

/// Reports a line on standard error. Where that takes nothing, only the status says so.
pub fn warn<L: Display>(rt: &HostRuntime, line: &L) {
    let _ = eprintln!(rt; "scl: {line}");
}

impl From<AllocError> for Fault {
    fn from(_: AllocError) -> Fault {
        Fault::Memory
    }
}

impl<T: Drop> From<AllocFailed<T>> for Fault {
    fn from(_: AllocFailed<T>) -> Fault {
        Fault::Memory
    }
}
