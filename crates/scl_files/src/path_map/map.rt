//! Maps from paths to values, in which values are added and taken.
ghost use Rattle.std.specs.Prelude.{OnOk, OnErr, MatchOption, ◌≡◌, ◌∷◌, [], is_some, IsTrue, ◌↔◌};
ghost use Rattle.std.specs.Option.{option_copied};
ghost use Rattle.scl_files.specs.PathMaps.{value_at, put_at};

use super::entry::Entry;
use super::links::{lead_back, place_of};
use super::tree::PathTree;
use scl_values::Mem;
use std::alloc::{AllocError, Global};
use std::collections::BTreeMap;
use std::marker::Model;

/// Values by paths; of one path the value added last counts. The entries are in the order of adding; `newest` gives the index
/// of the newest entry at a node of the tree.
#[derive(Drop)]
pub(crate) struct PathMap<T> {
    entries: Vec<Entry<T>>,
    tree: PathTree,
    newest: BTreeMap<usize, usize>,
}

impl<T> Model for PathMap<T> {
    ghost use Rattle.std.specs.Prelude.{List, ℕ};

    ghost Value = { List (List ℕ × T) };

    ghost use Rattle.scl_files.specs.PathEntries.{shown, IsLinked};

    ghost view = { λ m. shown m.entries.items };

    ghost invariant = { λ m. IsLinked m.entries.items m.tree m.newest };
}

impl<T> PathMap<T> {
    pub(crate) fn new(alloc: Global) -> PathMap<T>
        ensures { result ≡ [] }
    {
        PathMap {
            entries: Vec::new(alloc),
            tree: PathTree::new(alloc),
            newest: BTreeMap::new(alloc),
        }
    }

    pub(crate) fn is_empty(&self) -> bool
        ensures { IsTrue result ↔ (self.now ≡ []) }
    {
        self.entries.is_empty()
    }

    /// The value that was added last at the path.
    pub(crate) fn get(&self, path: &[u8]) -> Option<&T>
        ensures { option_copied result ≡ value_at path.now self.now }
    {
        let at = place_of(&self.entries, &self.tree, &self.newest, path)?;
        Some(&self.entries[at].value)
    }

    /// Whether a value was added at the path.
    pub(crate) fn contains(&self, path: &[u8]) -> bool
        ensures { result ≡ is_some (value_at path.now self.now) }
    {
        self.get(path).is_some()
    }

    /// Adds a value at the path; those added before are kept below it.
    pub(crate) fn add(&mut self, path: Vec<u8>, value: T) -> Mem<()>
    where
        T: Drop,
        ensures ok { OnOk result (self.new ≡ record { 0 = path.items; 1 = value } ∷ self.old) }
        ensures err { OnErr result (self.new ≡ self.old) }
    {
        let node = self.tree.reach(&path)?;
        let at = self.entries.len();
        let older = self.newest.get(&node).copied();
        self.entries.push(Entry {
            path,
            value,
            node,
            older,
        })?;
        match self.newest.insert(node, at) {
            Ok(_) => Ok(()),
            Err(_) => {
                self.entries.pop();
                Err(AllocError)
            }
        }
    }

    /// Adds a value, or replaces the one that was added last at the path.
    pub(crate) fn put(&mut self, path: Vec<u8>, value: T) -> Mem<()>
    where
        T: Drop,
        ensures ok { OnOk result (self.new ≡ put_at path.items value self.old) }
        ensures err { OnErr result (self.new ≡ self.old) }
    {
        match place_of(&self.entries, &self.tree, &self.newest, &path) {
            Some(at) => {
                self.entries[at].value = value;
                Ok(())
            }
            None => self.add(path, value),
        }
    }

    /// Removes the value that was added last, with its path.
    pub(crate) fn pop(&mut self) -> Option<(Vec<u8>, T)>
        ensures { MatchOption result ((self.old ≡ []) × (self.new ≡ [])) (λ e. self.old ≡ record { 0 = e.0.items; 1 = e.1 } ∷ self.new) }
    {
        let Entry {
            path,
            value,
            node,
            older,
        } = self.entries.pop()?;
        lead_back(&mut self.newest, node, older);
        Some((path, value))
    }
}
