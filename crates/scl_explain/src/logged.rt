//! A disk that notes which files were looked for.
ghost use Rattle.std.specs.Prelude.{◌≡◌};

use scl_load::Disk;
use scl_reader::Mem;
use std::alloc::Global;
use std::cell::Cell;
use std::collections::BTreeSet;

/// Paths, each once, in the order in which they were noted.
#[derive(Drop)]
struct Noted {
    paths: Vec<Vec<u8>>,
    known: BTreeSet<Vec<u8>>,
}

impl Noted {
    fn new(alloc: Global) -> Noted {
        Noted {
            paths: Vec::new(alloc),
            known: BTreeSet::new(alloc),
        }
    }

    /// With one more, if it was not noted.
    fn with(mut self, alloc: Global, path: &[u8]) -> Mem<Noted> {
        if self.known.insert(Vec::from_slice(alloc, path)?)? {
            self.paths.push(Vec::from_slice(alloc, path)?)?;
        }
        Ok(self)
    }
}

/// A disk that notes which files were looked for.
pub(crate) struct Logged<'a, D> {
    disk: &'a D,
    files: Cell<Noted>,
}

impl<'a, D> Drop for Logged<'a, D> {
    fn drop(self) {
        let Logged { disk: _, files: _ } = self;
    }
}

impl<'a, D> Logged<'a, D> {
    pub(crate) fn new(alloc: Global, disk: &'a D) -> Logged<'a, D>
        ensures { result.disk.now ≡ disk.now }
    {
        Logged {
            disk,
            files: Cell::new(Noted::new(alloc)),
        }
    }

    /// The paths of the files that were looked for, each once.
    pub(crate) fn into_paths(self) -> Vec<Vec<u8>> {
        let Logged { disk: _, files } = self;
        files.into_inner().paths
    }
}

impl<'a, D: Disk> Disk for Logged<'a, D> {
    type Error = D::Error;

    ghost holds = { λ logged held. D.holds logged.disk.now held };

    ghost fails = { λ logged error. D.fails logged.disk.now error };

    fn file(&self, alloc: Global, path: &[u8]) -> Mem<Result<Option<Vec<u8>>, D::Error>> {
        let noted = self.files.replace(Noted::new(alloc));
        self.files.set(noted.with(alloc, path)?);
        self.disk.file(alloc, path)
    }

    fn is_dir(&self, alloc: Global, path: &[u8]) -> Mem<Result<bool, D::Error>> {
        self.disk.is_dir(alloc, path)
    }

    fn exists(&self, alloc: Global, path: &[u8]) -> Mem<Result<bool, D::Error>> {
        self.disk.exists(alloc, path)
    }
}
