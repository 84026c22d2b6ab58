//! The rows of a description that another one has not.
use scl_cl::Mem;
use scl_description::push_field;
use scl_explain::{hashed, is_shown};
use std::alloc::Global;
use std::collections::{BTreeMap, BTreeSet, VecDeque};

/// Where the field of an option's row stands that says which word it came from.
pub(crate) const AT: usize = 3;

fn is_named(row: &[Vec<u8>], name: &str) -> bool {
    match row.first() {
        Some(first) => first.as_slice() == name.as_bytes(),
        None => false,
    }
}

/// What is compared of a row: its fields, of an option without the place of its word.
fn compared_text(alloc: Global, row: &[Vec<u8>]) -> Mem<Vec<u8>> {
    let is_option = is_named(row, "option");
    let mut text = Vec::new(alloc);
    for (at, field) in row.iter().enumerate() {
        if !(is_option && at == AT) {
            push_field(&mut text, field)?;
        }
        text.push(b' ')?;
    }
    Ok(text)
}

/// The rows of a description, by what is compared of them.
#[derive(Drop)]
struct Known {
    texts: BTreeSet<Vec<u8>>,
}

impl Known {
    /// Of these rows.
    fn of_rows(alloc: Global, rows: &[Vec<Vec<u8>>]) -> Mem<Known> {
        let mut texts = BTreeSet::new(alloc);
        for row in rows {
            texts.insert(compared_text(alloc, row)?)?;
        }
        Ok(Known { texts })
    }

    /// Whether a row is among them.
    fn has(&self, alloc: Global, row: &[Vec<u8>]) -> Mem<bool> {
        Ok(self.texts.contains(&compared_text(alloc, row)?))
    }
}

/// How a row of a key stands to another key.
#[derive(Clone, Copy)]
enum Standing {
    /// That has the row too.
    Shared,
    /// That hashes the same of a row, and asks something else; or it lacks a macro, which may not count.
    Asked,
    /// That hashes no such row.
    Alone,
}

/// The rows of a key, by what is hashed of them. Each is taken once.
#[derive(Drop)]
struct Key<'r> {
    rows: &'r [Vec<Vec<u8>>],
    by_hashed: BTreeMap<Vec<u8>, VecDeque<usize>>,
}

impl<'r> Key<'r> {
    /// Of a description, with no row taken.
    fn of_rows(alloc: Global, rows: &'r [Vec<Vec<u8>>]) -> Mem<Key<'r>> {
        let mut by_hashed: BTreeMap<Vec<u8>, VecDeque<usize>> = BTreeMap::new(alloc);
        for (at, row) in rows.iter().enumerate() {
            if is_named(row, "key") {
                let text = compared_text(alloc, hashed(row))?;
                let places = by_hashed.entry(text)?.or_insert(VecDeque::new(alloc));
                places.push_back(at)?;
            }
        }
        Ok(Key { rows, by_hashed })
    }

    /// Takes the first row that is not taken and of which this text is hashed.
    fn take(&mut self, text: &Vec<u8>) -> Option<&'r [Vec<u8>]> {
        let places = self.by_hashed.get_mut(text)?;
        let at = places.pop_front()?;
        match self.rows.get(at) {
            Some(row) => Some(row.as_slice()),
            None => None,
        }
    }

    /// How a row of another key stands to this one, of which it takes a row.
    fn meet(&mut self, alloc: Global, row: &[Vec<u8>]) -> Mem<Standing> {
        let text = compared_text(alloc, hashed(row))?;
        Ok(match self.take(&text) {
            Some(other) => {
                if other == row {
                    Standing::Shared
                } else {
                    Standing::Asked
                }
            }
            None => {
                if is_shown(row) {
                    Standing::Asked
                } else {
                    Standing::Alone
                }
            }
        })
    }
}

/// The rows of a description that another one has not.
#[derive(Drop)]
pub(crate) struct Alone<'r> {
    /// Its options.
    pub(crate) options: Vec<&'r [Vec<u8>]>,
    /// Its rows `keep`, and those rows `key` of which a cache hashes something else than of the other's.
    pub(crate) key: Vec<&'r [Vec<u8>]>,
    /// Its other rows `key`: the keys may be one all the same.
    pub(crate) asked: Vec<&'r [Vec<u8>]>,
}

impl<'r> Alone<'r> {
    /// The rows that others have not.
    pub(crate) fn of_rows(
        alloc: Global,
        rows: &'r [Vec<Vec<u8>>],
        others: &[Vec<Vec<u8>>],
    ) -> Mem<Alone<'r>> {
        let known = Known::of_rows(alloc, others)?;
        let mut key = Key::of_rows(alloc, others)?;
        let mut alone = Alone {
            options: Vec::new(alloc),
            key: Vec::new(alloc),
            asked: Vec::new(alloc),
        };
        for row in rows {
            if is_named(row, "option") && !known.has(alloc, row)? {
                alone.options.push(row.as_slice())?;
            } else if is_named(row, "keep") && !known.has(alloc, row)? {
                alone.key.push(row.as_slice())?;
            } else if is_named(row, "key") {
                alone.push_key(row, key.meet(alloc, row)?)?;
            }
        }
        Ok(alone)
    }

    fn push_key(&mut self, row: &'r [Vec<u8>], standing: Standing) -> Mem<()> {
        match standing {
            Standing::Shared => {}
            Standing::Asked => self.asked.push(row)?,
            Standing::Alone => self.key.push(row)?,
        }
        Ok(())
    }
}
