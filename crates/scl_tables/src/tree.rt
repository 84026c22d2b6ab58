//! The search in a prefix tree.
ghost use Rattle.std.specs.Prelude.{◌≡◌, ◌+◌, ◌-◌, ◌*◌, ◌<◌, ◌≤◌, [], ◌∷◌, length, MatchOption, OnSome, true, false};
ghost use Rattle.scl_values.specs.Row.{row_of, row_at};
ghost use Rattle.scl_values.specs.Tables.{owner};
ghost use Rattle.scl_tables.specs.Trees.{Leads, OwnFits, NoneFits, ChildrenRise, NoChild, IsChild};
ghost use Rattle.scl_tables.specs.Probes.{bits, CountsUpTo, Rises};

use crate::nodes::Node;
use crate::rows::{FlagTree, NodeStore, Probes, RowStore, SearchableArgInfo};
use scl_values::{ArgInfo, ArgRow, ArgumentValue};
use std::cmp::Ordering;

/// The child for a byte, by binary search.
fn child_for<'n>(
    nodes: &NodeStore<'n>,
    parent: &Node,
    byte: u8,
    probes: &mut Probes,
) -> Option<&'n Node>
    requires within { parent.now.end_child ≤ length nodes.now }
    requires rise { ChildrenRise nodes.now parent.now }
    ensures child { MatchOption result (NoChild nodes.now parent.now byte) (λ child. IsChild nodes.now parent.now byte child.now) }
    ensures count { CountsUpTo probes.old probes.new (bits (parent.now.end_child - parent.now.first_child)) }
{
    let mut low = parent.first_child;
    let mut high = parent.end_child;
    while low < high {
        let middle = low + (high - low) / 2;
        let child = nodes.look(middle, probes);
        match child.byte.cmp(&byte) {
            Ordering::Less => low = middle + 1,
            Ordering::Equal => return Some(child),
            Ordering::Greater => high = middle,
        }
    }
    None
}

/// The node's own row, if it has one and the row fits the word.
fn own_fit<'a, K>(
    rows: &RowStore<'a, K>,
    node: &Node,
    word: &[u8],
    probes: &mut Probes,
) -> Option<&'a ArgRow<K>>
    requires { node.now.has_row ≡ true → node.now.first_row < length rows.now }
    ensures row { MatchOption result (NoneFits rows.now node.now word.now) (λ row. OwnFits rows.now node.now word.now (row_of row.now)) }
    ensures count { CountsUpTo probes.old probes.new 1 }
    ensures free { node.now.has_row ≡ false → probes.new ≡ probes.old }
{
    if !node.has_row {
        return None;
    }
    let row = rows.look(node.first_row, probes);
    if row.fits(word) { Some(row) } else { None }
}

/// The longest row that fits a word: the last one met on the way of the word's bytes.
fn deepest_fit<'a, K>(
    rows: &RowStore<'a, K>,
    nodes: &NodeStore<'_>,
    word: &[u8],
    probes: &mut Probes,
) -> Option<&'a ArgRow<K>>
    requires { Leads rows.now nodes.now }
    ensures owner { row_at result ≡ owner rows.now word.now }
    ensures count { CountsUpTo probes.old probes.new ((length word.now + 1) * (bits (length rows.now) + 1)) }
    ensures rises { OnSome result (Rises probes.old probes.new) }
{
    let mut node = nodes.look(0, probes);
    let mut found = own_fit(rows, node, word, probes);
    while node.depth < word.len() {
        let Some(child) = child_for(nodes, node, word[node.depth], probes) else {
            return found;
        };
        node = child;
        if let Some(row) = own_fit(rows, node, word, probes) {
            found = Some(row);
        }
    }
    found
}

impl<'a, T: ArgumentValue> SearchableArgInfo<T> for FlagTree<'a, T> {
    ghost tables = { λ tree. tree ∷ [] };

    #[tactic(auto, using(crate::proofs::TablesLemmas::owner_finds_ascii_delimiter))]
    fn search_counted(&self, key: &[u8], probes: &mut Probes) -> Option<&ArgInfo<T>> {
        let (rows, nodes) = self.stores();
        deepest_fit(rows, &nodes, key, probes)
    }
}
