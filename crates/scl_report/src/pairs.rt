//! What pairs of command lines differ in, as JSON, and what is counted over the pairs of two databases.
use crate::alone::Alone;
use crate::difference::Compared;
use scl_cl::Mem;
use scl_description::{RowList, tell_row_of, tell_word};
use scl_json::push_json;
use std::alloc::Global;

/// The rows that say how a side of a pair is answered.
static OUTCOME: [&str; 9] = [
    "ok",
    "cannot-cache",
    "not-compilation",
    "cacheable",
    "reason",
    "because",
    "sentence",
    "error",
    "unrunnable",
];

/// Its lists, of those rows that the other has not.
static LISTS: [&str; 4] = ["option", "key", ASKED, "keep"];

/// The list of its rows of the key that only ask something else.
const ASKED: &str = "asked";

/// Tells a row, if it has one of these names.
fn tell_named(side: &mut RowList, names: &[&str], row: &[Vec<u8>]) -> Mem<()> {
    let Some((first, fields)) = row.split_first() else {
        return Ok(());
    };
    for name in names {
        if first.as_slice() == name.as_bytes() {
            return tell_row_of(side, name, fields);
        }
    }
    Ok(())
}

/// Tells the rows that say how a side is answered.
fn tell_outcome(side: &mut RowList, rows: &[Vec<Vec<u8>>]) -> Mem<()> {
    for row in rows {
        tell_named(side, &OUTCOME, row)?;
    }
    Ok(())
}

/// Tells rows of the lists.
fn tell_listed(side: &mut RowList, rows: &[&[Vec<u8>]]) -> Mem<()> {
    for row in rows {
        tell_named(side, &LISTS, row)?;
    }
    Ok(())
}

/// Tells rows of the key as rows of the list `ASKED`.
fn tell_asked(side: &mut RowList, rows: &[&[Vec<u8>]]) -> Mem<()> {
    for row in rows {
        tell_row_of(side, ASKED, row.get(1..).unwrap_or(&[]))?;
    }
    Ok(())
}

/// The rows of a side: how it is answered, and those of its lists.
fn rows_of_side(alloc: Global, rows: &[Vec<Vec<u8>>], others: &[Vec<Vec<u8>>]) -> Mem<RowList> {
    let alone = Alone::of_rows(alloc, rows, others)?;
    let mut side = RowList::new(alloc);
    tell_outcome(&mut side, rows)?;
    tell_listed(&mut side, &alone.options)?;
    tell_listed(&mut side, &alone.key)?;
    tell_asked(&mut side, &alone.asked)?;
    Ok(side)
}

/// Appends the object of a side, of the source `file`, if there is one to name.
fn push_side(
    alloc: Global,
    json: &mut Vec<u8>,
    rows: &[Vec<Vec<u8>>],
    others: &[Vec<Vec<u8>>],
    file: &str,
) -> Mem<()> {
    let mut side = rows_of_side(alloc, rows, others)?;
    if !file.is_empty() {
        tell_word(&mut side, "file", file.as_bytes())?;
    }
    push_json(alloc, json, &LISTS, side.rows())
}

fn push_truth(json: &mut Vec<u8>, holds: bool) -> Mem<()> {
    let text = if holds { "true" } else { "false" };
    json.extend_from_slice(text.as_bytes())
}

impl Compared {
    /// What differs, as an object: whether the keys can be equal, and of each side how it is answered and which of its options and rows
    /// of keys the other has not. `file` is the source of both, if there is one to name.
    pub fn json(&self, alloc: Global, other: &Compared, file: &str) -> Mem<Vec<u8>> {
        let mut json = Vec::from_slice(alloc, b"{\"equal\":")?;
        push_truth(&mut json, self.has_key_of(alloc, other)?)?;
        json.extend_from_slice(b",\"first\":")?;
        push_side(alloc, &mut json, &self.rows, &other.rows, file)?;
        json.extend_from_slice(b",\"second\":")?;
        push_side(alloc, &mut json, &other.rows, &self.rows, file)?;
        json.push(b'}')?;
        Ok(json)
    }
}

/// The document of what two command lines differ in, of the object of this pair.
pub fn lines_json(alloc: Global, pair: &[u8]) -> Mem<Vec<u8>> {
    let mut document = Vec::from_slice(alloc, b"{\"version\":1,")?;
    document.extend_from_slice(pair.get(1..).unwrap_or(&[]))?;
    document.push(b'\n')?;
    Ok(document)
}

/// What was counted over the entries of two databases.
#[derive(Clone, Copy)]
pub struct Pairs {
    /// The entries that both have.
    pub pairs: u64,
    /// Those of them whose keys can be equal.
    pub equal: u64,
    /// The entries of the first only.
    pub first_only: u64,
    /// The entries of the second only.
    pub second_only: u64,
}

impl Pairs {
    /// Whether each entry of both has such a partner in the other.
    pub fn are_equal(&self) -> bool {
        self.pairs == self.equal && self.first_only == 0 && self.second_only == 0
    }

    /// What was counted, in a line.
    pub fn line(&self, alloc: Global) -> Mem<String> {
        let (pairs, equal) = (self.pairs, self.equal);
        let (first_only, second_only) = (self.first_only, self.second_only);
        format!(in alloc;
            "entries in both: {pairs}; with keys that can be equal: {equal}; only in the first: {first_only}; only in the second: {second_only}\n"
        )
    }

    /// The document of what was counted, with the objects of the other pairs.
    pub fn json(&self, alloc: Global, unequal: &[Vec<u8>]) -> Mem<Vec<u8>> {
        let (pairs, equal) = (self.pairs, self.equal);
        let (first_only, second_only) = (self.first_only, self.second_only);
        let mut document = Vec::from_slice(alloc, b"{\"version\":1,\"equal\":")?;
        push_truth(&mut document, self.are_equal())?;
        let counts = format!(in alloc;
            ",\"pairs\":{pairs},\"equal_pairs\":{equal},\"first_only\":{first_only},\"second_only\":{second_only},\"unequal\":["
        )?;
        document.extend_from_slice(counts.as_bytes())?;
        for (at, pair) in unequal.iter().enumerate() {
            if at > 0 {
                document.push(b',')?;
            }
            document.extend_from_slice(pair)?;
        }
        document.extend_from_slice(b"]}\n")?;
        Ok(document)
    }
}
