//! What two command lines differ in.
use crate::arguments::working_directory;
use crate::asked::{Asked, Compare};
use crate::batch::{batch_of, database_at};
use crate::disk::SystemDisk;
use crate::fault::{Fault, warn};
use crate::file::name_of;
use crate::one::case_of_words;
use crate::tables::write;
use scl_describe::Catalogue;
use scl_explain::{Case, Ending};
use scl_report::{
    Batch, Compared, Database, EntryValue, Pairs, Partners, Sources, file_of, lines_json,
};

fn ending_of(are_equal: bool) -> Ending {
    if are_equal {
        Ending::Answered
    } else {
        Ending::Different
    }
}

/// What is compared of a command line.
fn compared(rt: &HostRuntime, catalogue: &Catalogue, case: &Case) -> Result<Compared, Fault> {
    let disk = SystemDisk::new(rt);
    match Compared::of_case(rt.alloc(), &disk, catalogue, case)? {
        Ok(compared) => Ok(compared),
        Err(why) => Err(Fault::Input(why)),
    }
}

/// Writes what two differ in.
fn tell(
    rt: &HostRuntime,
    first: &Compared,
    second: &Compared,
    json: bool,
) -> Result<Ending, Fault> {
    let alloc = rt.alloc();
    if json {
        let pair = first.json(alloc, second, "")?;
        write(rt, &lines_json(alloc, &pair)?)?;
    } else {
        write(rt, first.difference(alloc, second)?.as_bytes())?;
    }
    Ok(ending_of(first.has_key_of(alloc, second)?))
}

fn lines(
    rt: &HostRuntime,
    catalogue: &Catalogue,
    asked: &Asked<'_, '_>,
    first: &[Vec<u8>],
    second: &[Vec<u8>],
) -> Result<Ending, Fault> {
    let here = working_directory(rt)?;
    let Some(first) = case_of_words(rt, asked, first, here)? else {
        return Ok(Ending::Usage);
    };
    let here = working_directory(rt)?;
    let Some(second) = case_of_words(rt, asked, second, here)? else {
        return Ok(Ending::Usage);
    };
    let first = compared(rt, catalogue, &first)?;
    let second = compared(rt, catalogue, &second)?;
    tell(rt, &first, &second, asked.has("--json"))
}

/// What is compared of an entry; none where it is no command line, which is reported.
fn compared_entry(
    rt: &HostRuntime,
    batch: &Batch<'_>,
    value: &EntryValue,
) -> Result<Option<Compared>, Fault> {
    match batch.case_of(rt.alloc(), value)? {
        Ok(case) => Ok(Some(compared(rt, batch.catalogue, &case)?)),
        Err(error) => {
            warn(rt, &error);
            Ok(None)
        }
    }
}

/// What is compared of the first entry of a source; none where there is none, which is reported.
fn compared_source(
    rt: &HostRuntime,
    batch: &Batch<'_>,
    sources: &Sources<'_>,
    file: &str,
) -> Result<Option<Compared>, Fault> {
    let meant = sources.meant(rt.alloc(), file)?;
    match meant.first() {
        Some((_, value)) => compared_entry(rt, batch, value),
        None => {
            let file = name_of(rt, file)?;
            let line = format!(in rt.alloc(); "the database has no entry of {file}")?;
            warn(rt, &line);
            Ok(None)
        }
    }
}

/// Says what the first entries of two sources differ in.
fn entries(
    rt: &HostRuntime,
    batch: &Batch<'_>,
    path: &str,
    first: &str,
    second: &str,
) -> Result<Ending, Fault> {
    let Some(database) = database_at(rt, path)? else {
        return Ok(Ending::BadDatabase);
    };
    let sources = Sources::of_entries(rt.alloc(), &batch.base, database.entries())?;
    let Some(first) = compared_source(rt, batch, &sources, first)? else {
        return Ok(Ending::Usage);
    };
    let Some(second) = compared_source(rt, batch, &sources, second)? else {
        return Ok(Ending::Usage);
    };
    tell(rt, &first, &second, batch.json)
}

/// Takes up what two entries differ in, if the keys cannot be equal: it is written, or for machines kept in `unequal`.
/// Whether they are equal.
fn pair(
    rt: &HostRuntime,
    batch: &Batch<'_>,
    first: &EntryValue,
    second: &EntryValue,
    unequal: &mut Vec<Vec<u8>>,
) -> Result<bool, Fault> {
    let alloc = rt.alloc();
    let Some(one) = compared_entry(rt, batch, first)? else {
        return Ok(false);
    };
    let Some(other) = compared_entry(rt, batch, second)? else {
        return Ok(false);
    };
    if one.has_key_of(alloc, &other)? {
        return Ok(true);
    }
    if batch.json {
        unequal.push(one.json(alloc, &other, file_of(first))?)?;
        return Ok(false);
    }
    let file = name_of(rt, file_of(first))?;
    let text = one.difference(alloc, &other)?;
    write(rt, format!(in alloc; "{file}:\n{text}\n")?.as_bytes())?;
    Ok(false)
}

/// Writes what was counted of two databases, and for machines the pairs that are not equal.
fn close(
    rt: &HostRuntime,
    batch: &Batch<'_>,
    pairs: Pairs,
    unequal: &[Vec<u8>],
) -> Result<Ending, Fault> {
    if batch.json {
        write(rt, &pairs.json(rt.alloc(), unequal)?)?;
    } else {
        write(rt, pairs.line(rt.alloc())?.as_bytes())?;
    }
    Ok(ending_of(pairs.are_equal()))
}

/// Compares the entries of two databases that have the same source, in order.
fn compare_all(
    rt: &HostRuntime,
    batch: &Batch<'_>,
    first: &Database,
    second: &Database,
) -> Result<Ending, Fault> {
    let mut partners = Partners::of_entries(rt.alloc(), second.entries())?;
    let (mut pairs, mut equal, mut first_only) = (0u64, 0u64, 0u64);
    let mut unequal = Vec::new(rt.alloc());
    for value in first.entries() {
        match partners.take(file_of(value)) {
            Some(other) => {
                pairs = pairs.saturating_add(1);
                if pair(rt, batch, value, other, &mut unequal)? {
                    equal = equal.saturating_add(1);
                }
            }
            None => first_only = first_only.saturating_add(1),
        }
    }
    let pairs = Pairs {
        pairs,
        equal,
        first_only,
        second_only: partners.left(),
    };
    close(rt, batch, pairs, &unequal)
}

/// Says what the entries of two databases differ in.
fn databases(
    rt: &HostRuntime,
    batch: &Batch<'_>,
    first: &str,
    second: &str,
) -> Result<Ending, Fault> {
    let Some(first) = database_at(rt, first)? else {
        return Ok(Ending::BadDatabase);
    };
    match database_at(rt, second)? {
        Some(second) => compare_all(rt, batch, &first, &second),
        None => Ok(Ending::BadDatabase),
    }
}

/// Says what two command lines differ in.
pub fn diff(
    rt: &HostRuntime,
    catalogue: &Catalogue,
    asked: &Asked<'_, '_>,
) -> Result<Ending, Fault> {
    match asked.compare(rt.alloc())? {
        Some(Compare::Lines(first, second)) => lines(rt, catalogue, asked, &first, &second),
        Some(Compare::Entries(path, first, second)) => {
            let batch = batch_of(rt, catalogue, asked)?;
            entries(rt, &batch, path.as_str(), first.as_str(), second.as_str())
        }
        Some(Compare::Databases(first, second)) => {
            let batch = batch_of(rt, catalogue, asked)?;
            databases(rt, &batch, first.as_str(), second.as_str())
        }
        None => Ok(Ending::Usage),
    }
}
