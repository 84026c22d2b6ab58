//! Files that are named as words of the program.
use crate::disk::SystemDisk;
use crate::fault::Fault;
use scl_load::Disk;
use scl_shell::shown_briefly;
use std::fs;
use std::io::{self, Read};

fn bytes_of(rt: &HostRuntime, path: &str) -> io::Result<Vec<u8>> {
    if path == "-" {
        let mut bytes = Vec::new(rt.alloc());
        rt.stdin().read_to_end(&mut bytes)?;
        return Ok(bytes);
    }
    fs::read(rt, path)
}

/// A file's path, as messages name it; `-` is standard input.
pub fn name_of(rt: &HostRuntime, path: &str) -> Result<String, Fault> {
    let alloc = rt.alloc();
    match path {
        "-" => Ok(String::from_str(alloc, "standard input")?),
        "" => Ok(String::from_str(alloc, "''")?),
        _ => Ok(shown_briefly(alloc, path.as_bytes())?),
    }
}

/// The bytes of a file; `-` is standard input.
pub fn read_file(rt: &HostRuntime, path: &str) -> Result<Vec<u8>, Fault> {
    match bytes_of(rt, path) {
        Ok(bytes) => Ok(bytes),
        Err(error) => Err(Fault::of_input(rt, path, &error)?),
    }
}

/// The bytes of a regular file, which is read as a response file is; `-` is standard input.
pub fn read_regular_file(rt: &HostRuntime, path: &str) -> Result<Vec<u8>, Fault> {
    if path == "-" {
        return read_file(rt, path);
    }
    let disk = SystemDisk::new(rt);
    match disk.file(rt.alloc(), path.as_bytes())? {
        Ok(Some(bytes)) => Ok(bytes),
        Ok(None) => read_file(rt, path),
        Err(error) => Err(Fault::Input(format!(in rt.alloc(); "{error}")?)),
    }
}
