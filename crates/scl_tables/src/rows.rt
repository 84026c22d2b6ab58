//! Rows that are read one by one, and the count of looks.
ghost use Rattle.std.specs.Prelude.{◌≡◌, ℕ, ◌<◌, ◌≤◌, List, map, length, is_some, true, IsTrue, IfOk, IfSome, OnSome, ◌↔◌, slice_index_or};
ghost use Rattle.scl_values.specs.Row.{Row, row_of, row_at};
ghost use Rattle.scl_values.specs.Tables.{is_table, owner_in, finds_ascii_delimiter};
ghost use Rattle.scl_tables.specs.Checked.{is_tree};
ghost use Rattle.scl_tables.specs.Trees.{Leads};
ghost use Rattle.scl_tables.specs.declared.nodes.Node.{Node};
ghost use Rattle.scl_tables.specs.Probes.{looks_in, CountsUpTo, Rises};

use crate::nodes::{Node, Nodes, lent_or_built};
use scl_values::{ArgInfo, ArgRow, ArgumentValue, Mem};
use std::alloc::Global;
use std::cmp::Ordering;
use std::marker::Model;

/// A count of looks at rows. It stops at its greatest value and can't be copied or reset; only this module makes one
/// (docs/RULES.md, Looks).
#[derive(Drop)]
pub struct Probes {
    looks: u64,
}

impl Model for Probes {
    ghost use Rattle.std.specs.Prelude.{ℕ};

    ghost Value = { ℕ };

    ghost view = { λ p. p.looks };
}

impl Probes {
    fn new() -> Probes
        ensures { result ≡ 0 }
    {
        Probes { looks: 0 }
    }
}

/// Reads an item and counts the read.
fn read<'s, X>(items: &'s [X], index: usize, probes: &mut Probes) -> &'s X
    requires { index < length items.now }
    ensures item { (other : X) → slice_index_or items.now index other ≡ result.now }
    ensures count { CountsUpTo probes.old probes.new 1 }
    ensures rises { Rises probes.old probes.new }
{
    probes.looks = probes.looks.saturating_add(1);
    &items[index]
}

/// Rows that are read one at a time; each read is counted (docs/RULES.md, Looks).
#[derive(Drop)]
pub struct RowStore<'a, K> {
    rows: &'a [ArgRow<K>],
}

impl<'a, K> Model for RowStore<'a, K> {
    ghost use Rattle.std.specs.Prelude.{List, map};
    ghost use Rattle.scl_values.specs.Row.{Row, row_of};

    ghost Value = { List (Row K) };

    ghost view = { λ s. map row_of s.rows.now };
}

impl<'a, K> RowStore<'a, K> {
    /// The number of rows.
    pub fn len(&self) -> usize
        ensures { result ≡ length self.now }
    {
        self.rows.len()
    }

    /// Whether there are no rows.
    pub fn is_empty(&self) -> bool
        ensures { IsTrue result ↔ (length self.now ≡ 0) }
    {
        self.rows.is_empty()
    }

    /// Reads the row at an index from 0, and counts the read.
    pub fn look(&self, index: usize, probes: &mut Probes) -> &'a ArgRow<K>
        requires { index < length self.now }
        ensures row { (other : Row K) → slice_index_or self.now index other ≡ row_of result.now }
        ensures count { CountsUpTo probes.old probes.new 1 }
        ensures rises { Rises probes.old probes.new }
    {
        read(self.rows, index, probes)
    }
}

/// A table: rows for values of type `T`, whose flags rise strictly by bytes and whose delimiters are below 128
/// (docs/RULES.md, Rows and tables). It carries the nodes of its prefix tree if they are written beside the rows.
#[derive(Drop)]
pub struct FlagTable<'a, T: ArgumentValue> {
    store: RowStore<'a, T::Kind>,
    nodes: &'a [Node],
}

impl<'a, T: ArgumentValue> Model for FlagTable<'a, T> {
    ghost use Rattle.std.specs.Prelude.{List, IsTrue};
    ghost use Rattle.scl_values.specs.Row.{Row};
    ghost use Rattle.scl_values.specs.Tables.{is_table};
    ghost use Rattle.scl_tables.specs.Trees.{Lead};

    ghost Value = { List (Row T.Kind) };

    ghost view = { λ t. t.store };

    ghost invariant = { λ t. IsTrue (is_table t.store) × Lead t.store t.nodes.now };
}

fn is_table<K>(rows: &[ArgRow<K>]) -> bool
    ensures { result ≡ is_table (map row_of rows.now) }
{
    for i in 0..rows.len() {
        if !rows[i].has_ascii_delimiter() {
            return false;
        }
        if i + 1 < rows.len()
            && rows[i].flag().as_bytes().cmp(rows[i + 1].flag().as_bytes()) != Ordering::Less
        {
            return false;
        }
    }
    true
}

impl<'a, T: ArgumentValue> FlagTable<'a, T> {
    /// The table of these rows; `None` if their flags do not rise strictly by bytes or a delimiter is 128 or more.
    pub fn new(rows: &'a [ArgInfo<T>]) -> Option<FlagTable<'a, T>>
        ensures valid { is_some result ≡ is_table (map row_of rows.now) }
        ensures rows { IfSome result (λ table. table ≡ map row_of rows.now) }
    {
        if is_table(rows) {
            Some(FlagTable {
                store: RowStore { rows },
                nodes: &[],
            })
        } else {
            None
        }
    }

    /// The table of these rows, with the nodes of their prefix tree (docs/RULES.md, Rows and tables). The caller's proof
    /// checks both; nothing is checked at run time.
    #[tactic(auto, using(crate::proofs::CheckedLemmas::tree_leads))]
    pub fn with_nodes(rows: &'a [ArgInfo<T>], nodes: &'a [Node]) -> FlagTable<'a, T>
        requires table { is_table (map row_of rows.now) ≡ true }
        requires tree { is_tree (map row_of rows.now) nodes.now ≡ true }
        ensures { result ≡ map row_of rows.now }
    {
        FlagTable {
            store: RowStore { rows },
            nodes,
        }
    }

    /// The rows of the table.
    pub fn store(&self) -> &RowStore<'a, T::Kind>
        ensures same { result.now ≡ self.now }
        ensures valid { IsTrue (is_table self.now) }
    {
        &self.store
    }
}

/// Nodes of a prefix tree that are read one at a time; each read is counted (docs/RULES.md, Looks).
#[derive(Drop)]
pub(crate) struct NodeStore<'n> {
    nodes: &'n [Node],
}

impl<'n> Model for NodeStore<'n> {
    ghost use Rattle.std.specs.Prelude.{List};
    ghost use Rattle.scl_tables.specs.declared.nodes.Node.{Node};

    ghost Value = { List Node };

    ghost view = { λ s. s.nodes.now };
}

impl<'n> NodeStore<'n> {
    /// Reads the node at an index from 0, and counts the read.
    pub(crate) fn look(&self, index: usize, probes: &mut Probes) -> &'n Node
        requires { index < length self.now }
        ensures node { (other : Node) → slice_index_or self.now index other ≡ result.now }
        ensures count { CountsUpTo probes.old probes.new 1 }
        ensures rises { Rises probes.old probes.new }
    {
        read(self.nodes, index, probes)
    }
}

/// A table's rows as a prefix tree: each edge begins with a byte, and children are in the order of these bytes
/// (docs/RULES.md, Looks).
#[derive(Drop)]
pub struct FlagTree<'a, T: ArgumentValue> {
    store: RowStore<'a, T::Kind>,
    nodes: Nodes<'a>,
}

impl<'a, T: ArgumentValue> Model for FlagTree<'a, T> {
    ghost use Rattle.std.specs.Prelude.{List, IsTrue};
    ghost use Rattle.scl_values.specs.Row.{Row};
    ghost use Rattle.scl_values.specs.Tables.{is_table};
    ghost use Rattle.scl_tables.specs.Trees.{Leads};
    ghost use Rattle.scl_tables.specs.Lent.{nodes_in};

    ghost Value = { List (Row T.Kind) };

    ghost view = { λ t. t.store };

    ghost invariant = { λ t. IsTrue (is_table t.store) × Leads t.store (nodes_in t.nodes) };
}

impl<'a, T: ArgumentValue> FlagTree<'a, T> {
    /// The tree of a table's rows: of the nodes that the table carries, without allocation, or else of built ones.
    pub fn build(alloc: Global, table: &FlagTable<'a, T>) -> Mem<FlagTree<'a, T>>
        ensures rows { IfOk result (λ tree. tree ≡ table.now) }
    {
        let rows = table.store.rows;
        let nodes = lent_or_built(alloc, rows, table.nodes)?;
        Ok(FlagTree {
            store: RowStore { rows },
            nodes,
        })
    }

    /// The tree of these rows and the nodes beside them. The caller's proof checks both; nothing is checked at run time, and
    /// nothing is allocated.
    #[tactic(auto, using(crate::proofs::CheckedLemmas::leads))]
    pub fn with_nodes(rows: &'a [ArgInfo<T>], nodes: &'a [Node]) -> FlagTree<'a, T>
        requires table { is_table (map row_of rows.now) ≡ true }
        requires tree { is_tree (map row_of rows.now) nodes.now ≡ true }
        ensures { result ≡ map row_of rows.now }
    {
        FlagTree {
            store: RowStore { rows },
            nodes: Nodes::Lent(nodes),
        }
    }

    /// The tree's rows and its nodes.
    pub(crate) fn stores(&self) -> (&RowStore<'a, T::Kind>, NodeStore<'_>)
        ensures rows { result.0.now ≡ self.now }
        ensures nodes { Leads self.now result.1 }
        ensures valid { IsTrue (is_table self.now) }
    {
        let nodes = self.nodes.as_slice();
        (&self.store, NodeStore { nodes })
    }
}

/// Something in which words are looked up: one table or several (docs/RULES.md, Owners).
pub trait SearchableArgInfo<T: ArgumentValue> {
    ghost tables: { Self → List (List (Row T.Kind)) };

    /// The row with the longest flag that fits the key, and of equally long flags the last table's; `None` only if no row
    /// fits. The row has no delimiter, or one below 128. The looks are added to the count (docs/RULES.md, Looks).
    fn search_counted(&self, key: &[u8], probes: &mut Probes) -> Option<&ArgInfo<T>>
        ensures owner { row_at result ≡ owner_in (tables self.now) key.now }
        ensures delimiter { finds_ascii_delimiter (row_at result) ≡ true }
        ensures count { CountsUpTo probes.old probes.new (looks_in (tables self.now) key.now) }
        ensures rises { OnSome result (Rises probes.old probes.new) };

    /// The row with the longest flag that fits the key, and of equally long flags the last table's; `None` only if no row
    /// fits (docs/RULES.md, Owners). The row has no delimiter, or one below 128.
    final fn search(&self, key: &[u8]) -> Option<&ArgInfo<T>>
        ensures owner { row_at result ≡ owner_in (tables self.now) key.now }
        ensures delimiter { finds_ascii_delimiter (row_at result) ≡ true }
    {
        let mut probes = Probes::new();
        self.search_counted(key, &mut probes)
    }

    /// Whether the tables are valid: always true, because no others can be made.
    final fn check(&self) -> bool
        ensures { IsTrue result }
    {
        true
    }
}

/// The number of looks of a search for the key: at least one if it finds a row, and never more than the limit (docs/RULES.md,
/// Looks).
pub fn looks<T: ArgumentValue, S: SearchableArgInfo<T>>(table: &S, key: &[u8]) -> u64
    ensures bound { result ≤ looks_in (S.tables table.now) key.now }
    ensures some { OnSome (owner_in (S.tables table.now) key.now) (0 < result) }
{
    let mut probes = Probes::new();
    let _row = table.search_counted(key, &mut probes);
    probes.looks
}
