//! The entries of a database that a person means by a source.
use crate::batch::file_of;
use scl_cl::{Mem, path};
use serde_json::Value;
use std::alloc::Global;
use std::collections::{BTreeMap, BTreeSet};

/// The entries of a database by their sources: those of a name are found without a look at each entry.
#[derive(Drop)]
pub struct Sources<'d> {
    entries: &'d [Value],
    base: Vec<u8>,
    by_end: BTreeMap<Vec<u8>, Vec<usize>>,
}

/// A path from its end to its beginning: so paths of one name begin alike.
fn from_its_end(alloc: Global, path: &[u8]) -> Mem<Vec<u8>> {
    let mut bytes = Vec::from_slice(alloc, path)?;
    bytes.reverse();
    Ok(bytes)
}

/// The path of the source that an entry names.
fn source_of(alloc: Global, base: &[u8], value: &Value) -> Mem<Vec<u8>> {
    let directory = match value.get("directory").and_then(Value::as_str) {
        Some(directory) => directory,
        None => "",
    };
    let directory = path::join(alloc, base, directory.as_bytes())?;
    path::join(alloc, &directory, file_of(value).as_bytes())
}

fn add_all(found: &mut BTreeSet<usize>, places: &[usize]) -> Mem<()> {
    for at in places {
        found.insert(*at)?;
    }
    Ok(())
}

impl<'d> Sources<'d> {
    /// Of entries whose directories stand in the directory `base`.
    pub fn of_entries(alloc: Global, base: &[u8], entries: &'d [Value]) -> Mem<Sources<'d>> {
        let mut by_end: BTreeMap<Vec<u8>, Vec<usize>> = BTreeMap::new(alloc);
        for (at, value) in entries.iter().enumerate() {
            if !file_of(value).is_empty() {
                let source = source_of(alloc, base, value)?;
                let end = from_its_end(alloc, &source)?;
                let places = by_end.entry(end)?.or_insert(Vec::new(alloc));
                places.push(at)?;
            }
        }
        Ok(Sources {
            entries,
            base: Vec::from_slice(alloc, base)?,
            by_end,
        })
    }

    /// Adds the places of the entries whose source is this.
    fn add_at(&self, found: &mut BTreeSet<usize>, end: &[u8]) -> Mem<()> {
        match self.by_end.get(end) {
            Some(places) => add_all(found, places),
            None => Ok(()),
        }
    }

    /// Adds the places of the entries whose source begins so, read from its end.
    fn add_from(&self, alloc: Global, found: &mut BTreeSet<usize>, end: &[u8]) -> Mem<()> {
        let start = Vec::from_slice(alloc, end)?;
        for (source, places) in self.by_end.range(start..) {
            if !source.as_slice().starts_with(end) {
                break;
            }
            add_all(found, places)?;
        }
        Ok(())
    }

    /// The places of the entries that a person means by this name.
    fn places(&self, alloc: Global, name: &[u8]) -> Mem<BTreeSet<usize>> {
        let mut found = BTreeSet::new(alloc);
        let here = path::join(alloc, &self.base, name)?;
        self.add_at(&mut found, &from_its_end(alloc, &here)?)?;
        let mut end = from_its_end(alloc, name.strip_prefix(b"./").unwrap_or(name))?;
        self.add_at(&mut found, &end)?;
        if !end.is_empty() {
            end.push(b'/')?;
        }
        self.add_from(alloc, &mut found, &end)?;
        Ok(found)
    }

    /// The entries whose source a person means by this name: by its path, or by the last parts of it. They come in order, each after
    /// its number, the first of all entries being 1.
    pub fn meant(&self, alloc: Global, name: &str) -> Mem<Vec<(u64, &'d Value)>> {
        let places = self.places(alloc, name.as_bytes())?;
        let mut entries = Vec::new(alloc);
        for at in places.iter() {
            if let Some(value) = self.entries.get(*at) {
                entries.push(((*at as u64).saturating_add(1), value))?;
            }
        }
        Ok(entries)
    }
}
