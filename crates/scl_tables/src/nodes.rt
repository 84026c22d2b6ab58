//! Making the nodes of a prefix tree from a table's rows.
ghost use Rattle.std.specs.Prelude.{◌≡◌, ℕ, ◌+◌, ◌<◌, ◌≤◌, ◌≢◌, ◌^◌, map, length, true, false, IsTrue, IfOk, slice_index, slice_index_or};
ghost use Rattle.scl_values.specs.Row.{Row, row_of};
ghost use Rattle.scl_values.specs.Tables.{is_table};
ghost use Rattle.scl_tables.specs.Trees.{group_of, RiseBehind, RiseIn, IsBare, IsNode, IsTree, Grows, Lead, Leads};
ghost use Rattle.scl_tables.specs.Lent.{nodes_in, GivesLent};

use scl_values::{ArgRow, Mem};
use std::alloc::Global;

/// A node of a prefix tree. The flags of its rows begin with the bytes on the way to it; if it has two rows or more, they
/// share no further byte.
#[derive(Clone, Copy, Debug)]
pub struct Node {
    /// The first byte on the way from its parent.
    pub byte: u8,
    /// Whether its first row belongs to the node itself and not to a child.
    pub has_row: bool,
    /// The number of bytes on the way from the root.
    pub depth: usize,
    /// The index of its first row.
    pub first_row: usize,
    /// The index after its last row.
    pub end_row: usize,
    /// The index of its first child.
    pub first_child: usize,
    /// The index after its last child.
    pub end_child: usize,
}

/// Nodes: of each the byte, whether it has a row of its own, the depth, the rows and the children.
#[macro_export]
macro_rules! nodes {
    ($($byte:literal $has_row:literal $depth:literal $first_row:literal $end_row:literal $first_child:literal $end_child:literal),* $(,)?) => {
        [$($crate::Node { byte: $byte, has_row: $has_row, depth: $depth, first_row: $first_row, end_row: $end_row, first_child: $first_child, end_child: $end_child }),*]
    };
}

/// The nodes of a tree: written beside a table's rows, or built.
#[derive(Drop)]
pub(crate) enum Nodes<'a> {
    Lent(&'a [Node]),
    Built(Vec<Node>),
}

impl<'a> Nodes<'a> {
    pub(crate) fn as_slice(&self) -> &[Node]
        ensures { result.now ≡ nodes_in self.now }
    {
        match self {
            Nodes::Lent(nodes) => nodes,
            Nodes::Built(nodes) => nodes.as_slice(),
        }
    }
}

/// A node with these rows and no children yet. If it has one row, that is its own.
fn bare_node(byte: u8, depth: usize, first_row: usize, end_row: usize) -> Node
    requires { first_row ≤ end_row }
    ensures byte { result.byte ≡ byte }
    ensures depth { result.depth ≡ depth }
    ensures first { result.first_row ≡ first_row }
    ensures end { result.end_row ≡ end_row }
    ensures bare { IsBare result }
{
    Node {
        byte,
        has_row: end_row - first_row == 1,
        depth,
        first_row,
        end_row,
        first_child: 0,
        end_child: 0,
    }
}

/// The byte at this depth of a row's flag.
fn byte_at<K>(rows: &[ArgRow<K>], index: usize, depth: usize) -> u8
    requires within { index < length rows.now }
    requires longer { (other : Row K) → depth < length (slice_index_or (map row_of rows.now) index other).flag }
    ensures byte { (other : Row K) → slice_index (slice_index_or (map row_of rows.now) index other).flag depth ≡ result }
    ensures fits { depth + 1 < 2 ^ 64 }
{
    rows[index].flag().as_bytes()[depth]
}

fn flag_len<K>(rows: &[ArgRow<K>], index: usize) -> usize
    requires { index < length rows.now }
    ensures { (other : Row K) → length (slice_index_or (map row_of rows.now) index other).flag ≡ result }
{
    rows[index].flag().len()
}

/// The number of bytes that the flags of two rows or more share: those that the first and the last share.
fn shared_len<K>(rows: &[ArgRow<K>], depth: usize, first_row: usize, end_row: usize) -> usize
    requires some { first_row < end_row }
    requires rise { RiseBehind (map row_of rows.now) depth first_row end_row }
    ensures rise { RiseBehind (map row_of rows.now) result first_row end_row }
    ensures most { depth ≤ result }
{
    if end_row - first_row == 1 {
        return depth;
    }
    let first_len = flag_len(rows, first_row);
    let mut len = depth;
    while len < first_len && byte_at(rows, first_row, len) == byte_at(rows, end_row - 1, len) {
        len += 1;
    }
    len
}

/// The child that has this row and the following rows with the same byte.
fn child_at<K>(rows: &[ArgRow<K>], node: &Node, first_row: usize) -> Node
    requires within { first_row < node.now.end_row }
    requires rows { node.now.end_row ≤ length rows.now }
    requires from { node.now.first_row ≤ first_row }
    requires rise { RiseIn (map row_of rows.now) (group_of node.now) }
    requires long { (k : ℕ) (other : Row K) → first_row ≤ k → k < node.now.end_row → node.now.depth < length (slice_index_or (map row_of rows.now) k other).flag }
    ensures depth { node.now.depth < result.depth }
    ensures bare { IsBare result }
    ensures rise { RiseIn (map row_of rows.now) (group_of result) }
    ensures first { result.first_row ≡ first_row }
    ensures some { first_row < result.end_row }
    ensures end { result.end_row ≤ node.now.end_row }
    ensures same { (k : ℕ) (other : Row K) → first_row ≤ k → k < result.end_row → slice_index (slice_index_or (map row_of rows.now) k other).flag node.now.depth ≡ result.byte }
    ensures next { (other : Row K) → result.end_row < node.now.end_row → slice_index (slice_index_or (map row_of rows.now) result.end_row other).flag node.now.depth ≢ result.byte }
{
    let byte = byte_at(rows, first_row, node.depth);
    let mut end_row = first_row + 1;
    while end_row < node.end_row && byte_at(rows, end_row, node.depth) == byte {
        end_row += 1;
    }
    let depth = shared_len(rows, node.depth + 1, first_row, end_row);
    bare_node(byte, depth, first_row, end_row)
}

/// Whether the node's first row is its own: its flag ends here, or it is the only row.
fn has_own_row<K>(rows: &[ArgRow<K>], node: &Node) -> bool
    requires { node.now.end_row ≤ length rows.now }
    ensures some { IsTrue result → node.now.first_row < node.now.end_row }
    ensures short { IsTrue result → node.now.first_row + 1 < node.now.end_row → (other : Row K) → length (slice_index_or (map row_of rows.now) node.now.first_row other).flag ≡ node.now.depth }
    ensures long { result ≡ false → node.now.first_row < node.now.end_row → (other : Row K) → length (slice_index_or (map row_of rows.now) node.now.first_row other).flag ≢ node.now.depth }
{
    node.first_row < node.end_row
        && (node.first_row + 1 == node.end_row || rows[node.first_row].flag().len() == node.depth)
}

/// The node with its children, which are appended to the nodes.
fn grown<K>(rows: &[ArgRow<K>], node: Node, nodes: &mut Vec<Node>) -> Mem<Node>
    requires { RiseIn (map row_of rows.now) (group_of node) }
    ensures same { IfOk result (λ grown. group_of grown ≡ group_of node) }
    ensures node { IfOk result (λ grown. IsNode (map row_of rows.now) (map group_of nodes.new.items) grown) }
    ensures grows { IfOk result (λ _. Grows (map row_of rows.now) nodes.old.items nodes.new.items) }
{
    let has_row = has_own_row(rows, &node);
    let first_child = nodes.len();
    let first = if has_row {
        node.first_row + 1
    } else {
        node.first_row
    };
    let mut next = first;
    while next < node.end_row {
        let child = child_at(rows, &node, next);
        next = child.end_row;
        nodes.push(child)?;
    }
    Ok(Node {
        has_row,
        first_child,
        end_child: nodes.len(),
        ..node
    })
}

/// The nodes of the tree of a table's rows. The first is the root; a node's children are side by side, after the node. Each
/// node except the root has a row of its own or at least two children, so there are at most two nodes for each row, and the
/// root.
pub(crate) fn nodes_of<K>(alloc: Global, rows: &[ArgRow<K>]) -> Mem<Vec<Node>>
    requires { is_table (map row_of rows.now) ≡ true }
    ensures { IfOk result (λ nodes. IsTree (map row_of rows.now) nodes.items) }
{
    let mut nodes = Vec::with_capacity(alloc, rows.len().saturating_mul(2).saturating_add(1))?;
    nodes.push(bare_node(0, 0, 0, rows.len()))?;
    let mut index = 0;
    while index < nodes.len() {
        let node = nodes[index];
        if !node.has_row {
            nodes[index] = grown(rows, node, &mut nodes)?;
        }
        index += 1;
    }
    Ok(nodes)
}

/// The nodes of the tree of a table's rows: those that the table carries, without allocation, or built ones.
pub(crate) fn lent_or_built<'a, K>(
    alloc: Global,
    rows: &[ArgRow<K>],
    lent: &'a [Node],
) -> Mem<Nodes<'a>>
    requires table { is_table (map row_of rows.now) ≡ true }
    requires lead { Lead (map row_of rows.now) lent.now }
    ensures leads { IfOk result (λ nodes. Leads (map row_of rows.now) (nodes_in nodes)) }
    ensures lent { 0 < length lent.now → GivesLent lent.now result }
{
    if lent.is_empty() {
        let built = nodes_of(alloc, rows)?;
        Ok(Nodes::Built(built))
    } else {
        Ok(Nodes::Lent(lent))
    }
}
