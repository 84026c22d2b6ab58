//! Maps from paths to values.

mod entry;
mod links;
mod map;
mod tree;

pub(crate) use map::PathMap;
