//! What command lines may ask of files.
ghost use Rattle.std.specs.Prelude.{List, OnOk, OnErr, if◌then◌else◌, Some, ◌≡◌, ℕ, ◌∷◌, true};
ghost use Rattle.std.specs.Option.{option_copied};
ghost use Rattle.scl_files.specs.Paths.{same_path};
ghost use Rattle.scl_files.specs.Views.{empty_view, put_file, bytes_at, is_among, is_directory, exists};

use crate::path_map::PathMap;
use scl_values::Mem;
use std::alloc::Global;
use std::marker::Model;

/// The files, directories and other paths that a command line may ask for, and whether it may name several architectures.
/// Paths are compared by their components (docs/RULES.md, View).
#[derive(Drop)]
pub struct View {
    files: PathMap<Vec<u8>>,
    directories: PathMap<()>,
    existing: PathMap<()>,
    multiarch: bool,
}

impl Model for View {
    ghost use Rattle.scl_files.specs.Views.{Viewed, file_of, entry_path};
    ghost use Rattle.std.specs.Prelude.{map};

    ghost Value = { Viewed };

    ghost view = { λ v. record {
      files = map file_of v.files;
      directories = map entry_path v.directories;
      existing = map entry_path v.existing;
      is_multiarch = v.multiarch;
    } };
}

impl View {
    /// A view without files, in which several architectures are not allowed (docs/RULES.md, View).
    pub fn new(alloc: Global) -> View
        ensures { result ≡ empty_view }
    {
        View {
            files: PathMap::new(alloc),
            directories: PathMap::new(alloc),
            existing: PathMap::new(alloc),
            multiarch: false,
        }
    }

    /// Adds a file. It replaces, and frees, an earlier one at the path. If an allocation fails, the view is unchanged
    /// (docs/RULES.md, View).
    pub fn add_file(&mut self, path: Vec<u8>, bytes: Vec<u8>) -> Mem<()>
        ensures ok { OnOk result (self.new ≡ record self.old { files = put_file (record { path = path.items; bytes = bytes.items }) self.old.files }) }
        ensures found { OnOk result ((other : List ℕ) → bytes_at other self.new.files ≡ (if same_path path.items other then Some bytes.items else bytes_at other self.old.files)) }
        ensures err { OnErr result (self.new ≡ self.old) }
    {
        self.files.put(path, bytes)
    }

    /// Adds a directory. If an allocation fails, the view is unchanged (docs/RULES.md, View).
    pub fn add_dir(&mut self, path: Vec<u8>) -> Mem<()>
        ensures ok { OnOk result (self.new ≡ record self.old { directories = path.items ∷ self.old.directories }) }
        ensures found { OnOk result ((other : List ℕ) → is_directory other self.new ≡ (if same_path path.items other then true else is_directory other self.old)) }
        ensures err { OnErr result (self.new ≡ self.old) }
    {
        self.directories.add(path, ())
    }

    /// Adds a path that exists. If an allocation fails, the view is unchanged (docs/RULES.md, View).
    pub fn add_existing(&mut self, path: Vec<u8>) -> Mem<()>
        ensures ok { OnOk result (self.new ≡ record self.old { existing = path.items ∷ self.old.existing }) }
        ensures found { OnOk result ((other : List ℕ) → exists other self.new ≡ (if same_path path.items other then true else exists other self.old)) }
        ensures err { OnErr result (self.new ≡ self.old) }
    {
        self.existing.add(path, ())
    }

    /// Sets whether a command line may name several architectures (docs/RULES.md, View).
    pub fn set_multiarch(&mut self, multiarch: bool)
        ensures { self.new ≡ record self.old { is_multiarch = multiarch } }
    {
        self.multiarch = multiarch;
    }

    /// The bytes of the file at the path, if there is one (docs/RULES.md, View).
    pub fn file(&self, path: &[u8]) -> Option<&[u8]>
        ensures { option_copied result ≡ bytes_at path.now self.now.files }
    {
        let bytes = self.files.get(path)?;
        Some(bytes)
    }

    /// Whether there is a directory at the path (docs/RULES.md, View).
    pub fn is_dir(&self, path: &[u8]) -> bool
        ensures { result ≡ is_directory path.now self.now }
    {
        self.directories.contains(path)
    }

    fn was_added(&self, path: &[u8]) -> bool
        ensures { result ≡ is_among path.now self.now.existing }
    {
        self.existing.contains(path)
    }

    /// Whether there is a file or a directory at the path, or it was added as existing
    /// (docs/RULES.md, View).
    pub fn exists(&self, path: &[u8]) -> bool
        ensures { result ≡ exists path.now self.now }
    {
        self.file(path).is_some() || self.is_dir(path) || self.was_added(path)
    }

    /// Whether a command line may name several architectures (docs/RULES.md, View).
    pub fn multiarch(&self) -> bool
        ensures { result ≡ self.now.is_multiarch }
    {
        self.multiarch
    }
}
