//! The entries at a path, newest first.
ghost use Rattle.std.specs.Prelude.{◌≡◌, ℕ, length, IsSome, if◌then◌else◌};
ghost use Rattle.std.specs.BTreeMap.{get};
ghost use Rattle.std.specs.Ordering.{nat_cmp, is_eq};
ghost use Rattle.scl_files.specs.PathEntries.{IsLinked, place_at};

use super::entry::Entry;
use super::tree::PathTree;
use std::collections::BTreeMap;

/// The index of the newest entry at the path.
pub(super) fn place_of<T>(
    entries: &[Entry<T>],
    tree: &PathTree,
    newest: &BTreeMap<usize, usize>,
    path: &[u8],
) -> Option<usize>
    requires { IsLinked entries.now tree.now newest.now }
    ensures { result ≡ place_at path.now entries.now (length entries.now) }
{
    let node = tree.find(path)?;
    newest.get(&node).copied()
}

/// Makes an older entry the newest of a node, or leaves the node without entries.
pub(super) fn lead_back(newest: &mut BTreeMap<usize, usize>, node: usize, older: Option<usize>)
    requires { IsSome (get nat_cmp newest.old node) }
    ensures { (q : ℕ) → get nat_cmp newest.new q ≡ (if is_eq (nat_cmp node q) then older else get nat_cmp newest.old q) }
{
    match older {
        Some(at) => match newest.insert(node, at) {
            Ok(_) => {}
            Err(_) => unreachable!(),
        },
        None => {
            newest.remove(&node);
        }
    }
}
