//! A tree of folders and files by their names.
ghost use Rattle.std.specs.Prelude.{◌≡◌, ◌≤◌, Some, IfOk};
ghost use Rattle.std.specs.BTreeMap.{btree_map_len};
ghost use Rattle.scl_files.specs.PathTrees.{IsTree, Keeps, name_number, child, node_at};

use crate::path::{Places, start};
use scl_values::Mem;
use std::alloc::Global;
use std::collections::BTreeMap;

/// The nodes of paths, by their starts and names: two paths have the same node if they have the same components. Each name is
/// stored once and has a number; a step from a node is by such a number. Node 0 is the node of no part.
#[derive(Drop)]
pub(super) struct PathTree {
    alloc: Global,
    numbers: BTreeMap<Vec<u8>, usize>,
    children: BTreeMap<(usize, usize), usize>,
}

impl PathTree {
    /// A tree without nodes; it allocates nothing yet.
    pub(super) fn new(alloc: Global) -> PathTree
        ensures { IsTree result }
    {
        PathTree {
            alloc,
            numbers: BTreeMap::new(alloc),
            children: BTreeMap::new(alloc),
        }
    }

    fn child(&self, node: usize, name: &[u8]) -> Option<usize>
        ensures { result ≡ child self.now name.now node }
    {
        let number = self.numbers.get(name)?;
        self.children.get(&(node, *number)).copied()
    }

    /// The node of the path, if there is one.
    #[tactic(auto, using(crate::proofs::PathTreeLemmas::led_nowhere))]
    pub(super) fn find(&self, path: &[u8]) -> Option<usize>
        ensures { result ≡ node_at path.now self.now }
    {
        let mut node = self.child(0, start(path))?;
        for place in Places::new(path) {
            node = self.child(node, place.name)?;
        }
        Some(node)
    }

    /// The number of a name; a new name gets the next one.
    fn number(&mut self, name: &[u8]) -> Mem<usize>
        requires { IsTree self.old }
        ensures tree { IsTree self.new }
        ensures keeps { Keeps self.old self.new }
        ensures children { self.new.children ≡ self.old.children }
        ensures number { IfOk result (λ number. name_number name.now self.new ≡ Some number) }
    {
        if let Some(number) = self.numbers.get(name) {
            return Ok(*number);
        }
        let number = self.numbers.len();
        let name = Vec::from_slice(self.alloc, name)?;
        self.numbers.insert(name, number)?;
        Ok(number)
    }

    /// The child by a name; it is made if there is none.
    fn grow(&mut self, node: usize, name: &[u8]) -> Mem<usize>
        requires { IsTree self.old × (node ≤ btree_map_len self.old.children) }
        ensures tree { IsTree self.new }
        ensures keeps { Keeps self.old self.new }
        ensures within { IfOk result (λ to. to ≤ btree_map_len self.new.children) }
        ensures child { IfOk result (λ to. child self.new name.now node ≡ Some to) }
    {
        let number = self.number(name)?;
        if let Some(child) = self.children.get(&(node, number)) {
            return Ok(*child);
        }
        let child = self.children.len() + 1;
        self.children.insert((node, number), child)?;
        Ok(child)
    }

    /// The node of the path; it is made if there is none. If an allocation fails, each path that had a node has the same one.
    pub(super) fn reach(&mut self, path: &[u8]) -> Mem<usize>
        requires { IsTree self.old }
        ensures tree { IsTree self.new }
        ensures keeps { Keeps self.old self.new }
        ensures node { IfOk result (λ node. node_at path.now self.new ≡ Some node) }
    {
        let mut node = self.grow(0, start(path))?;
        for place in Places::new(path) {
            node = self.grow(node, place.name)?;
        }
        Ok(node)
    }
}
