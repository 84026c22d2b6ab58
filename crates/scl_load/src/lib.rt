//! Loading from a disk the view that an answer needs.
#![tactic(auto)]

mod disk;
pub mod laws;
mod leads;
mod loader;
mod look;
mod memory;

pub use disk::Disk;
pub use loader::{DiskLine, LoadError, Loaded, load};
pub use memory::{Broken, MemoryDisk};
