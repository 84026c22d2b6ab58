//! Disks: what there is at paths.
use scl_text::Mem;
use std::alloc::Global;

/// A disk that is queried for what there is at paths. Each read may fail with an error of the disk's own.
pub trait Disk {
    ghost use Rattle.std.specs.Prelude.{◌≡◌, IfOk, IfErr};
    ghost use Rattle.std.specs.Option.{option_map};
    ghost use Rattle.scl_files.specs.Views.{Viewed, bytes_at, is_directory, exists};

    /// Why a read fails.
    type Error: Drop;

    /// The disk is known to have this. Nothing is proved of a disk of which nothing is known.
    ghost holds: { Self → Viewed → Type 0 };

    /// The disk may fail with this error.
    ghost fails: { Self → Self.Error → Type 0 };

    /// The bytes of the file at a path, if there is one.
    fn file(&self, alloc: Global, path: &[u8]) -> Mem<Result<Option<Vec<u8>>, Self::Error>>
        ensures found { IfOk result (λ read. IfOk read (λ found. (disk : Viewed) → holds self.now disk → option_map (λ bytes. bytes.items) found ≡ bytes_at path.now disk.files)) }
        ensures error { IfOk result (λ read. IfErr read (λ error. fails self.now error)) };

    /// Whether there is a directory at a path.
    fn is_dir(&self, alloc: Global, path: &[u8]) -> Mem<Result<bool, Self::Error>>
        ensures found { IfOk result (λ read. IfOk read (λ found. (disk : Viewed) → holds self.now disk → found ≡ is_directory path.now disk)) }
        ensures error { IfOk result (λ read. IfErr read (λ error. fails self.now error)) };

    /// Whether there is anything at a path.
    fn exists(&self, alloc: Global, path: &[u8]) -> Mem<Result<bool, Self::Error>>
        ensures found { IfOk result (λ read. IfOk read (λ found. (disk : Viewed) → holds self.now disk → found ≡ exists path.now disk)) }
        ensures error { IfOk result (λ read. IfErr read (λ error. fails self.now error)) };
}
