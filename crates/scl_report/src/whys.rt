//! Why entries of a compile database can or can't be cached, told one after another.
use crate::batch::{Batch, Found, Named, ending_of_counts, file_of};
use crate::json::{entry_object, refused_object};
use crate::why::why_text;
use scl_cl::Mem;
use scl_explain::{Answered, Case, Counts, Ending};
use scl_load::Disk;
use scl_shell::shown_briefly;
use serde_json::Value;
use std::alloc::Global;
use std::fmt::Display;

/// What is told of entries, and what is counted of them.
#[derive(Drop)]
pub struct Whys {
    counts: Counts,
    text: Vec<u8>,
}

/// What is told of an entry that is answered.
fn answered_text(
    alloc: Global,
    json: bool,
    named: Named<'_>,
    case: &Case,
    answered: &Answered<'_>,
) -> Mem<Vec<u8>> {
    if json {
        entry_object(alloc, named, case, answered)
    } else {
        Ok(why_text(alloc, named, case, answered)?.into_bytes())
    }
}

/// What is told of an entry that has no answer.
fn refused_text(alloc: Global, json: bool, named: Named<'_>, why: &str) -> Mem<Vec<u8>> {
    if json {
        return refused_object(alloc, named, why);
    }
    let Named { entry, file } = named;
    let file = shown_briefly(alloc, file.as_bytes())?;
    Ok(format!(in alloc; "entry {entry}, {file}: {why}\n")?.into_bytes())
}

impl Whys {
    /// Of no entries.
    pub fn new(alloc: Global) -> Whys {
        Whys {
            counts: Counts::new(alloc),
            text: Vec::new(alloc),
        }
    }

    /// Tells of an entry, which comes after its number: what it is answered and why, or why it has no answer.
    pub fn push<D: Disk>(
        &mut self,
        alloc: Global,
        batch: &Batch<'_>,
        disk: &D,
        meant: (u64, &Value),
    ) -> Mem<()>
    where
        D::Error: Display,
    {
        if batch.json && !self.text.is_empty() {
            self.text.push(b',')?;
        }
        let (entry, value) = meant;
        let file = file_of(value);
        let named = Named { entry, file };
        let text = match batch.found(alloc, disk, value)? {
            Found::Answered(case, answered) => {
                answered_text(alloc, batch.json, named, &case, &answered)?
            }
            Found::Unread(why) => {
                let text = refused_text(alloc, batch.json, named, why.as_str())?;
                self.counts.count_unread(entry, why)?;
                text
            }
            Found::Broken(why) => {
                let text = refused_text(alloc, batch.json, named, why.as_str())?;
                self.counts.count_broken(entry, why)?;
                text
            }
        };
        self.text.extend_from_slice(&text)
    }

    /// How it ends: as a database with these entries does.
    pub fn ending(&self) -> Ending {
        ending_of_counts(&self.counts)
    }

    /// What is written of all entries: their texts, or for machines one document.
    pub fn close(self, alloc: Global, batch: &Batch<'_>) -> Mem<Vec<u8>> {
        let Whys { text, .. } = self;
        if !batch.json {
            return Ok(text);
        }
        let mut document = Vec::from_slice(alloc, b"{\"version\":1,\"entries\":[")?;
        document.extend_from_slice(&text)?;
        document.extend_from_slice(b"]}\n")?;
        Ok(document)
    }
}
