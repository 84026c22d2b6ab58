//! A disk in memory.
ghost use Rattle.std.specs.Prelude.{◌≡◌, IsTrue, IsSome};
ghost use Rattle.scl_load.specs.MemoryDisks.{is_broken};

use crate::disk::Disk;
use scl_text::{Mem, View};
use std::alloc::Global;
use std::fmt;

/// A disk in memory, with what its view has.
#[derive(Drop)]
pub struct MemoryDisk {
    /// What it has.
    pub view: View,
    /// A path at which each read fails, compared byte by byte.
    pub broken: Option<Vec<u8>>,
}

/// There was a read at the broken path.
#[derive(Debug, Clone, Copy, PartialEq, Eq)]
pub struct Broken;

impl fmt::Display for Broken {
    fn fmt<W: fmt::Write>(&self, f: &mut fmt::Formatter<W>) -> fmt::Result {
        f.write_str("a read failed")
    }
}

impl MemoryDisk {
    fn is_broken(&self, path: &[u8]) -> bool
        ensures path { result ≡ is_broken self.now.broken path.now }
        ensures some { IsTrue result → IsSome self.now.broken }
    {
        match &self.broken {
            Some(broken) => broken.as_slice() == path,
            None => false,
        }
    }
}

impl Disk for MemoryDisk {
    ghost use Rattle.std.specs.Prelude.{◌≡◌, IfOk, IfErr, is_ok, not};
    ghost use Rattle.std.specs.Option.{option_map};
    ghost use Rattle.scl_files.specs.Views.{Viewed, bytes_at, is_directory, exists};
    ghost use Rattle.scl_load.specs.MemoryDisks.{is_broken};

    type Error = Broken;

    ghost holds = { λ disk held. disk.view ≡ held };

    ghost fails = { λ disk _. IsSome disk.broken };

    fn file(&self, alloc: Global, path: &[u8]) -> Mem<Result<Option<Vec<u8>>, Broken>>
        ensures found { IfOk result (λ read. IfOk read (λ found. (disk : Viewed) → self.now.view ≡ disk → option_map (λ bytes. bytes.items) found ≡ bytes_at path.now disk.files)) }
        ensures error { IfOk result (λ read. IfErr read (λ error. IsSome self.now.broken)) }
        ensures broken { IfOk result (λ read. is_ok read ≡ not (is_broken self.now.broken path.now)) }
    {
        if self.is_broken(path) {
            return Ok(Err(Broken));
        }
        match self.view.file(path) {
            Some(bytes) => Ok(Ok(Some(Vec::from_slice(alloc, bytes)?))),
            None => Ok(Ok(None)),
        }
    }

    fn is_dir(&self, _alloc: Global, path: &[u8]) -> Mem<Result<bool, Broken>>
        ensures found { IfOk result (λ read. IfOk read (λ found. (disk : Viewed) → self.now.view ≡ disk → found ≡ is_directory path.now disk)) }
        ensures error { IfOk result (λ read. IfErr read (λ error. IsSome self.now.broken)) }
        ensures broken { IfOk result (λ read. is_ok read ≡ not (is_broken self.now.broken path.now)) }
    {
        if self.is_broken(path) {
            return Ok(Err(Broken));
        }
        Ok(Ok(self.view.is_dir(path)))
    }

    fn exists(&self, _alloc: Global, path: &[u8]) -> Mem<Result<bool, Broken>>
        ensures found { IfOk result (λ read. IfOk read (λ found. (disk : Viewed) → self.now.view ≡ disk → found ≡ exists path.now disk)) }
        ensures error { IfOk result (λ read. IfErr read (λ error. IsSome self.now.broken)) }
        ensures broken { IfOk result (λ read. is_ok read ≡ not (is_broken self.now.broken path.now)) }
    {
        if self.is_broken(path) {
            return Ok(Err(Broken));
        }
        Ok(Ok(self.view.exists(path)))
    }
}
