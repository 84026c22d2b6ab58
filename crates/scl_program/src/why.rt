//! Why the entries of some sources can or can't be cached.
use crate::asked::Asked;
use crate::batch::{batch_of, database_at};
use crate::disk::SystemDisk;
use crate::fault::{Fault, warn};
use crate::file::name_of;
use crate::tables::write;
use scl_describe::Catalogue;
use scl_explain::Ending;
use scl_report::{Batch, EntryValue, Sources, Whys};

/// Tells of the entries of a source why they can or can't be cached.
fn push_entries(
    rt: &HostRuntime,
    batch: &Batch<'_>,
    whys: &mut Whys,
    meant: &[(u64, &EntryValue)],
) -> Result<(), Fault> {
    for entry in meant {
        let disk = SystemDisk::new(rt);
        whys.push(rt.alloc(), batch, &disk, *entry)?;
    }
    Ok(())
}

/// Reports that a database has no entry of a source.
fn no_entry(rt: &HostRuntime, path: &str, file: &str) -> Result<(), Fault> {
    let (name, file) = (name_of(rt, path)?, name_of(rt, file)?);
    let line = format!(in rt.alloc(); "{name} has no entry of {file}")?;
    warn(rt, &line);
    Ok(())
}

/// Says of each source why its entries can or can't be cached.
pub fn why(
    rt: &HostRuntime,
    catalogue: &Catalogue,
    asked: &Asked<'_, '_>,
) -> Result<Ending, Fault> {
    let alloc = rt.alloc();
    let path = asked.database(alloc, 0)?;
    let Some(database) = database_at(rt, path.as_str())? else {
        return Ok(Ending::BadDatabase);
    };
    let batch = batch_of(rt, catalogue, asked)?;
    let sources = Sources::of_entries(alloc, &batch.base, database.entries())?;
    let (mut whys, mut has_all) = (Whys::new(alloc), true);
    for file in asked.read.get_strs("files").unwrap_or(&[]) {
        let meant = sources.meant(alloc, file)?;
        push_entries(rt, &batch, &mut whys, &meant)?;
        if meant.is_empty() {
            no_entry(rt, path.as_str(), file)?;
            has_all = false;
        }
    }
    let ending = whys.ending();
    write(rt, &whys.close(alloc, &batch)?)?;
    if ending == Ending::Answered && !has_all {
        return Ok(Ending::Usage);
    }
    Ok(ending)
}
