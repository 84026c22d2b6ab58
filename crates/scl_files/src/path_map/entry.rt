//! The entry of a value that was added at a path.

/// A value at its path, with the tree's node of that path, and the index of the next older entry at the node.
#[derive(Drop)]
pub(super) struct Entry<T> {
    pub(super) path: Vec<u8>,
    pub(super) value: T,
    pub(super) node: usize,
    pub(super) older: Option<usize>,
}
