//! The system's files as a disk.
use scl_cl::Mem;
use scl_load::Disk;
use scl_shell::shown_briefly;
use std::alloc::{AllocError, Global};
use std::cell::Cell;
use std::fs::{File, Metadata};
use std::io::{self, ErrorKind, Read};
use std::os::unix::fs::MetadataExt;
use std::rt::Files;
use std::str;
use thiserror::Error;

/// The system's files, as one command line reads them.
#[derive(Drop)]
pub struct SystemDisk<'a> {
    rt: &'a HostRuntime,
    left: Cell<u64>,
}

/// That a file can't be read.
#[derive(Debug, Drop, Error)]
#[error("{path}: {reason}")]
pub struct Unreadable {
    path: String,
    reason: String,
}

/// Whether nothing stands at a path of which this is said, which may be too long or hold a NUL.
fn is_absent(error: &io::Error) -> bool {
    matches!(
        error.kind(),
        ErrorKind::NotFound
            | ErrorKind::NotADirectory
            | ErrorKind::InvalidFilename
            | ErrorKind::InvalidInput
    )
}

fn not_read(alloc: Global, path: &[u8], reason: String) -> Mem<Unreadable> {
    Ok(Unreadable {
        path: shown_briefly(alloc, path)?,
        reason,
    })
}

fn failed(alloc: Global, path: &[u8], error: &io::Error) -> Mem<Unreadable> {
    not_read(alloc, path, format!(in alloc; "{error}")?)
}

/// What stands at a path.
#[derive(Clone, Copy)]
enum Standing {
    Nothing,
    File,
    /// A regular file without a byte.
    Empty,
    /// A file whose size the system does not report, as those of `/proc`.
    Unsized,
    Directory,
    Other,
}

/// The most bytes of the response files that a command line reads, all together.
const MOST_BYTES: u64 = 1 << 26;

/// What a regular file of this kind is. No file of no size is opened, since reads of those of `/proc` may wait for ever.
fn file_standing(rt: &HostRuntime, metadata: &Metadata) -> io::Result<Standing> {
    if metadata.len() > 0 {
        return Ok(Standing::File);
    }
    match rt.metadata("/proc") {
        Ok(proc) if proc.dev() == metadata.dev() => Ok(Standing::Unsized),
        Ok(_) => Ok(Standing::Empty),
        Err(error) if is_absent(&error) => Ok(Standing::Empty),
        Err(error) => Err(error),
    }
}

/// All bytes of a file, or of a longer one some more than are read.
fn read_bytes(rt: &HostRuntime, path: &str) -> io::Result<Vec<u8>> {
    let mut bytes = Vec::new(rt.alloc());
    let mut file = File::open(rt, path)?.take(MOST_BYTES + 1);
    file.read_to_end(&mut bytes)?;
    Ok(bytes)
}

fn standing_at(rt: &HostRuntime, path: &str) -> io::Result<Standing> {
    match rt.metadata(path) {
        Ok(metadata) if metadata.is_file() => file_standing(rt, &metadata),
        Ok(metadata) if metadata.is_dir() => Ok(Standing::Directory),
        Ok(_) => Ok(Standing::Other),
        Err(error) if is_absent(&error) => Ok(Standing::Nothing),
        Err(error) => Err(error),
    }
}

/// The text of a path, as the system is given it.
fn text_of<'a>(alloc: Global, path: &'a [u8]) -> Mem<Result<&'a str, Unreadable>> {
    match str::from_utf8(path) {
        Ok(text) => Ok(Ok(text)),
        Err(_) => {
            let reason = String::from_str(alloc, "its name is no UTF-8")?;
            Ok(Err(not_read(alloc, path, reason)?))
        }
    }
}

impl<'a> SystemDisk<'a> {
    /// The files of the system, of which nothing is read.
    pub fn new(rt: &'a HostRuntime) -> SystemDisk<'a> {
        SystemDisk {
            rt,
            left: Cell::new(MOST_BYTES),
        }
    }

    /// Counts bytes that were read; whether so many may be.
    fn count(&self, bytes: &[u8]) -> bool {
        match self.left.get().checked_sub(bytes.len() as u64) {
            Some(left) => {
                self.left.set(left);
                true
            }
            None => false,
        }
    }

    fn standing(&self, alloc: Global, path: &[u8]) -> Mem<Result<Standing, Unreadable>> {
        let text = match text_of(alloc, path)? {
            Ok(text) => text,
            Err(error) => return Ok(Err(error)),
        };
        match standing_at(self.rt, text) {
            Ok(standing) => Ok(Ok(standing)),
            Err(error) => Ok(Err(failed(alloc, path, &error)?)),
        }
    }

    fn bytes(&self, alloc: Global, path: &[u8]) -> Mem<Result<Vec<u8>, Unreadable>> {
        let text = match text_of(alloc, path)? {
            Ok(text) => text,
            Err(error) => return Ok(Err(error)),
        };
        match read_bytes(self.rt, text) {
            Ok(bytes) if !self.count(&bytes) => {
                let reason = format!(in alloc;
                    "with the response files before it, it has more than {MOST_BYTES} bytes"
                )?;
                Ok(Err(not_read(alloc, path, reason)?))
            }
            Ok(bytes) => Ok(Ok(bytes)),
            Err(error) if error.kind() == ErrorKind::OutOfMemory => Err(AllocError),
            Err(error) => Ok(Err(failed(alloc, path, &error)?)),
        }
    }
}

impl<'a> Disk for SystemDisk<'a> {
    type Error = Unreadable;

    ghost holds = { λ _ _. ⊥ };

    ghost fails = { λ _ _. Unit {0} };

    fn file(&self, alloc: Global, path: &[u8]) -> Mem<Result<Option<Vec<u8>>, Unreadable>> {
        match self.standing(alloc, path)? {
            Ok(Standing::File) => match self.bytes(alloc, path)? {
                Ok(bytes) => Ok(Ok(Some(bytes))),
                Err(error) => Ok(Err(error)),
            },
            Ok(Standing::Empty) => Ok(Ok(Some(Vec::new(alloc)))),
            Ok(Standing::Nothing | Standing::Directory) => Ok(Ok(None)),
            Ok(Standing::Unsized) => {
                let reason = String::from_str(alloc, "the system does not say how large it is")?;
                Ok(Err(not_read(alloc, path, reason)?))
            }
            Ok(Standing::Other) => {
                let reason = String::from_str(alloc, "it is no regular file")?;
                Ok(Err(not_read(alloc, path, reason)?))
            }
            Err(error) => Ok(Err(error)),
        }
    }

    fn is_dir(&self, alloc: Global, path: &[u8]) -> Mem<Result<bool, Unreadable>> {
        match self.standing(alloc, path)? {
            Ok(standing) => Ok(Ok(matches!(standing, Standing::Directory))),
            Err(error) => Ok(Err(error)),
        }
    }

    fn exists(&self, alloc: Global, path: &[u8]) -> Mem<Result<bool, Unreadable>> {
        match self.standing(alloc, path)? {
            Ok(standing) => Ok(Ok(!matches!(standing, Standing::Nothing))),
            Err(error) => Ok(Err(error)),
        }
    }
}
