//! The entries of a compile database.
use crate::entries::EntryReader;
use scl_cl::Mem;
use serde_json::Value;
use std::alloc::Global;
use thiserror::Error;

/// Why a text is no compile database.
#[derive(Debug, Drop, Error)]
pub enum DatabaseError {
    /// It is empty.
    #[error("the text is empty")]
    Empty,
    /// It is no JSON: near which place that shows, before any entry.
    #[error("near line {line} column {column}: the text is no JSON")]
    NoJson {
        /// The line, the first being 1.
        line: usize,
        /// The column, the first being 1.
        column: usize,
    },
    /// It is no JSON: near which place that shows, and in which entry.
    #[error("near line {line} column {column}, in entry {entry}: the text is no JSON")]
    NoEntry {
        /// The line, the first being 1.
        line: usize,
        /// The column, the first being 1.
        column: usize,
        /// The entry, the first being 1.
        entry: u64,
    },
    /// It is no array.
    #[error("the text is no array of entries")]
    NoArray,
}

/// A compile database.
#[derive(Drop)]
pub struct Database {
    entries: Vec<Value>,
}

impl Database {
    /// The database that a text is.
    pub fn of_text(alloc: Global, text: &[u8]) -> Mem<Result<Database, DatabaseError>> {
        let mut reader = EntryReader::new(alloc);
        let mut entries = Vec::new(alloc);
        let mut left = text;
        for _ in 0..text.len() {
            if left.is_empty() {
                break;
            }
            match reader.take(alloc, left)? {
                Ok((count, found)) => {
                    if let Some(value) = found {
                        entries.push(value)?;
                    }
                    left = left.get(count.max(1)..).unwrap_or(&[]);
                }
                Err(error) => return Ok(Err(error)),
            }
        }
        match reader.wrong_end() {
            Some(error) => Ok(Err(error)),
            None => Ok(Ok(Database { entries })),
        }
    }

    /// Its entries, in order.
    pub fn entries(&self) -> &[Value] {
        &self.entries
    }
}
