//! The entries of a database that are compared with those of another.
use crate::batch::file_of;
use scl_cl::Mem;
use serde_json::Value;
use std::alloc::Global;
use std::collections::{BTreeMap, VecDeque};

/// The entries of a database by the files that they name. Each is taken once.
#[derive(Drop)]
pub struct Partners<'d> {
    entries: &'d [Value],
    by_file: BTreeMap<String, VecDeque<usize>>,
    left: u64,
}

impl<'d> Partners<'d> {
    /// Of entries of which none is taken.
    pub fn of_entries(alloc: Global, entries: &'d [Value]) -> Mem<Partners<'d>> {
        let mut by_file: BTreeMap<String, VecDeque<usize>> = BTreeMap::new(alloc);
        for (at, value) in entries.iter().enumerate() {
            let file = String::from_str(alloc, file_of(value))?;
            let places = by_file.entry(file)?.or_insert(VecDeque::new(alloc));
            places.push_back(at)?;
        }
        Ok(Partners {
            entries,
            by_file,
            left: entries.len() as u64,
        })
    }

    /// Takes the first entry that names this file and is not taken.
    pub fn take(&mut self, file: &str) -> Option<&'d Value> {
        let places = self.by_file.get_mut(file)?;
        let at = places.pop_front()?;
        self.left = self.left.saturating_sub(1);
        self.entries.get(at)
    }

    /// How many are not taken.
    pub fn left(&self) -> u64 {
        self.left
    }
}
