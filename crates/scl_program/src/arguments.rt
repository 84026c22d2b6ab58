//! What the system passes to the program, as bytes.
use crate::fault::Fault;
use std::alloc::{AllocError, Global};
use std::env::{Env, FillError};

/// What the system passes.
#[derive(Clone, Copy)]
enum Source<'a> {
    Argument(usize),
    Variable(&'a str),
}

fn fill(rt: &HostRuntime, source: Source<'_>, buffer: &mut [u8]) -> Result<usize, FillError> {
    match source {
        Source::Argument(at) => rt.arg(at, buffer),
        Source::Variable(name) => rt.var(name, buffer),
    }
}

fn too_long(alloc: Global, source: Source<'_>) -> Result<Fault, AllocError> {
    let text = match source {
        Source::Argument(at) => format!(in alloc; "argument {at} is too long")?,
        Source::Variable(name) => format!(in alloc; "the variable {name} is too long")?,
    };
    Ok(Fault::Input(text))
}

/// What the system passes, if it has it: read into buffers of 2^8 to 2^22 bytes, which is more than a Linux kernel takes.
fn bytes_of(rt: &HostRuntime, source: Source<'_>) -> Result<Option<Vec<u8>>, Fault> {
    let alloc = rt.alloc();
    for power in 8u32..23 {
        let mut buffer = vec![in alloc; 0u8; 1usize << power]?;
        match fill(rt, source, &mut buffer) {
            Ok(length) => {
                buffer.truncate(length);
                return Ok(Some(buffer));
            }
            Err(FillError::NotPresent) => return Ok(None),
            Err(FillError::TooLong) => {}
        }
    }
    Err(too_long(alloc, source)?)
}

/// All arguments after the program's name.
pub fn raw_arguments(rt: &HostRuntime) -> Result<Vec<Vec<u8>>, Fault> {
    let alloc = rt.alloc();
    let mut all = Vec::new(alloc);
    for at in 1..usize::MAX {
        match bytes_of(rt, Source::Argument(at))? {
            Some(word) => all.push(word)?,
            None => break,
        }
    }
    Ok(all)
}

/// How many bytes Linux gives the path of a directory that a program runs in, at most.
const LONGEST_PATH: usize = 4096;

/// The directory that the program runs in.
pub fn working_directory(rt: &HostRuntime) -> Result<Vec<u8>, Fault> {
    let alloc = rt.alloc();
    let mut buffer = vec![in alloc; 0u8; LONGEST_PATH]?;
    match rt.current_dir(&mut buffer) {
        Ok(length) => {
            buffer.truncate(length);
            Ok(buffer)
        }
        Err(error) => Err(Fault::Input(format!(in alloc; "the working directory: {error}")?)),
    }
}

/// The variables of the environment of which a compiler takes words, for any of them.
pub fn variables(rt: &HostRuntime) -> Result<Vec<(Vec<u8>, Vec<u8>)>, Fault> {
    let alloc = rt.alloc();
    let mut pairs = Vec::new(alloc);
    for name in ["CL", "_CL_"] {
        if let Some(value) = bytes_of(rt, Source::Variable(name))? {
            pairs.push((Vec::from_slice(alloc, name.as_bytes())?, value))?;
        }
    }
    Ok(pairs)
}
