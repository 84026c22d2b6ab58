//! The answers to the entries of a compile database.
use crate::arguments::working_directory;
use crate::asked::Asked;
use crate::disk::SystemDisk;
use crate::fault::{Fault, warn};
use crate::file::{name_of, read_file};
use crate::one::variables_of;
use crate::progress::Progress;
use scl_describe::Catalogue;
use scl_explain::Ending;
use scl_report::{
    Batch, Database, DatabaseError, EntryReader, EntryValue, Tally, ending_of_counts,
};
use std::fs::File;
use std::io::{self, BufWriter, ErrorKind, Read, Write};

/// How many bytes of a database are read at once.
const ROOM: usize = 1 << 16;

/// The next bytes of a database; none at its end.
fn read_some<R: Read>(
    rt: &HostRuntime,
    name: &str,
    input: &mut R,
    room: &mut [u8],
) -> Result<usize, Fault> {
    for _ in 0..u64::MAX {
        match input.read(room) {
            Ok(count) => return Ok(count),
            Err(error) if error.kind() == ErrorKind::Interrupted => {}
            Err(error) => return Err(Fault::of_input(rt, name, &error)?),
        }
    }
    Ok(0)
}

/// What a database is answered into.
#[derive(Drop)]
struct Answers<'p, W: Write + Drop> {
    tally: Tally,
    writer: W,
    progress: Progress<'p>,
}

impl<'p, W: Write + Drop> Answers<'p, W> {
    /// Answers an entry.
    fn answer(
        &mut self,
        rt: &HostRuntime,
        batch: &Batch<'_>,
        value: &EntryValue,
    ) -> Result<(), Fault> {
        let disk = SystemDisk::new(rt);
        let line = batch.answer_entry(rt.alloc(), &disk, &mut self.tally, value)?;
        self.writer.write_all(&line).map_err(Fault::of_output)?;
        self.progress.step(self.tally.counts.entries);
        Ok(())
    }

    /// Answers the entries that end in these bytes; what is wrong with the database, if something is.
    fn answer_bytes(
        &mut self,
        rt: &HostRuntime,
        batch: &Batch<'_>,
        entries: &mut EntryReader,
        bytes: &[u8],
    ) -> Result<Option<DatabaseError>, Fault> {
        let mut left = bytes;
        for _ in 0..bytes.len() {
            let (count, found) = match entries.take(rt.alloc(), left)? {
                Ok(both) => both,
                Err(error) => return Ok(Some(error)),
            };
            if let Some(value) = found {
                self.answer(rt, batch, &value)?;
            }
            left = left.get(count.max(1)..).unwrap_or(&[]);
            if left.is_empty() {
                break;
            }
        }
        Ok(None)
    }

    /// Answers each entry as it is read; what is wrong with the database, if something is.
    fn answer_all<R: Read>(
        &mut self,
        rt: &HostRuntime,
        batch: &Batch<'_>,
        path: &str,
        input: &mut R,
    ) -> Result<Option<DatabaseError>, Fault> {
        let mut entries = EntryReader::new(rt.alloc());
        let mut room = vec![in rt.alloc(); 0u8; ROOM]?;
        for _ in 0..u64::MAX {
            let count = read_some(rt, path, input, &mut room)?;
            if count == 0 {
                break;
            }
            let bytes = room.get(..count).unwrap_or(&[]);
            if let Some(error) = self.answer_bytes(rt, batch, &mut entries, bytes)? {
                return Ok(Some(error));
            }
        }
        Ok(entries.wrong_end())
    }

    /// Writes what follows the entries, and ends.
    fn close(&mut self, rt: &HostRuntime, batch: &Batch<'_>) -> Result<Ending, Fault> {
        let text = batch.closing_text(rt.alloc(), &self.tally)?;
        self.writer
            .write_all(text.as_bytes())
            .map_err(Fault::of_output)?;
        self.writer.flush().map_err(Fault::of_output)?;
        let ending = ending_of_counts(&self.tally.counts);
        if batch.json && batch.only.is_some() && ending != Ending::Answered {
            warn(rt, &"entries have no answer; without --only each says why");
        }
        Ok(ending)
    }
}

/// Reports what is wrong with a database.
fn wrong_database(rt: &HostRuntime, path: &str, error: &DatabaseError) -> Result<Ending, Fault> {
    let name = name_of(rt, path)?;
    let line = format!(in rt.alloc(); "{name}: {error}")?;
    warn(rt, &line);
    Ok(Ending::BadDatabase)
}

fn answer_database<R: Read>(
    rt: &HostRuntime,
    batch: &Batch<'_>,
    path: &str,
    input: &mut R,
) -> Result<Ending, Fault> {
    let alloc = rt.alloc();
    let mut answers = Answers {
        tally: Tally::new(alloc),
        writer: BufWriter::new(alloc, io::writer(rt)).map_err(Fault::of_output)?,
        progress: Progress::new(rt),
    };
    let wrong = answers.answer_all(rt, batch, path, input)?;
    answers.progress.end();
    match wrong {
        Some(error) => {
            if answers.tally.counts.entries > 0 {
                answers.close(rt, batch)?;
            }
            wrong_database(rt, path, &error)
        }
        None => answers.close(rt, batch),
    }
}

/// The database at a path; none where the file is none, which is reported.
pub fn database_at(rt: &HostRuntime, path: &str) -> Result<Option<Database>, Fault> {
    let bytes = read_file(rt, path)?;
    match Database::of_text(rt.alloc(), &bytes)? {
        Ok(database) => Ok(Some(database)),
        Err(error) => {
            wrong_database(rt, path, &error)?;
            Ok(None)
        }
    }
}

/// How entries are answered of which this is requested.
pub fn batch_of<'a>(
    rt: &HostRuntime,
    catalogue: &'a Catalogue,
    asked: &Asked<'_, '_>,
) -> Result<Batch<'a>, Fault> {
    let alloc = rt.alloc();
    Ok(Batch {
        catalogue,
        launchers: asked.values(alloc, "--launcher")?,
        named: asked.compiler(),
        base: working_directory(rt)?,
        env_vars: variables_of(rt, asked)?,
        multiarch: asked.has("--multiarch"),
        settings: asked.settings(alloc)?,
        json: asked.has("--json"),
        keep: asked.has("--keep"),
        only: asked.only(),
    })
}

/// Answers each entry of a database.
pub fn database(
    rt: &HostRuntime,
    catalogue: &Catalogue,
    asked: &Asked<'_, '_>,
) -> Result<Ending, Fault> {
    let path = asked.value("path").unwrap_or("-");
    let batch = batch_of(rt, catalogue, asked)?;
    if path == "-" {
        return answer_database(rt, &batch, path, &mut rt.stdin());
    }
    match File::open(rt, path) {
        Ok(mut file) => answer_database(rt, &batch, path, &mut file),
        Err(error) => Err(Fault::of_input(rt, path, &error)?),
    }
}
