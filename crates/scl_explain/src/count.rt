//! What is counted over a database.
ghost use Rattle.std.specs.Prelude.{◌≡◌, IfOk};
ghost use Rattle.scl_reader.specs.AnswersGiven.{answer_of};
ghost use Rattle.scl_explain.specs.Kinds.{kind_of};

use crate::answered::Answered;
use crate::entry_kind::EntryKind;
use scl_hazards::Hazard;
use scl_reader::{Compilation, CompilerArguments, Mem};
use scl_text::path;
use scl_text::records::Cacheable;
use std::alloc::Global;
use std::collections::BTreeMap;

/// How often something was met, and the first entry where it was.
#[derive(Drop)]
pub struct Met {
    /// How often.
    pub times: u64,
    /// The number of the first entry.
    pub entry: u64,
    /// The source of the first entry.
    pub file: String,
}

/// What is counted over the entries of a database.
#[derive(Drop)]
pub struct Counts {
    /// How many entries there are.
    pub entries: u64,
    /// How many can be cached.
    pub ok: u64,
    /// How many compile, and may not be kept in the cache.
    pub unkept: u64,
    /// How many have a hazard.
    pub hazardous: u64,
    /// How many compile nothing.
    pub not_compilation: u64,
    /// The reasons for which entries can't be cached.
    pub refused: BTreeMap<String, Met>,
    /// The names of the hazards of entries.
    pub hazards: BTreeMap<Vec<u8>, Met>,
    /// The entries that are none, with why.
    pub broken: Vec<(u64, String)>,
    /// The entries with a file that can't be read, with why.
    pub unread: Vec<(u64, String)>,
    /// The paths of the object files that are written, with the entries that write them.
    pub outputs: BTreeMap<Vec<u8>, Vec<u64>>,
    /// The paths at which words name a response file, and there is none.
    pub missing: BTreeMap<Vec<u8>, Met>,
}

/// Counts a key once more, which is met in this entry of the source `file`.
pub fn meet<K: Ord + Drop>(
    alloc: Global,
    map: &mut BTreeMap<K, Met>,
    key: K,
    entry: u64,
    file: &str,
) -> Mem<()> {
    let first = Met {
        times: 0,
        entry,
        file: String::from_str(alloc, file)?,
    };
    let met = map.entry(key)?.or_insert(first);
    met.times = met.times.saturating_add(1);
    Ok(())
}

impl Counts {
    /// Of no entries.
    pub fn new(alloc: Global) -> Counts {
        Counts {
            entries: 0,
            ok: 0,
            unkept: 0,
            hazardous: 0,
            not_compilation: 0,
            refused: BTreeMap::new(alloc),
            hazards: BTreeMap::new(alloc),
            broken: Vec::new(alloc),
            unread: Vec::new(alloc),
            outputs: BTreeMap::new(alloc),
            missing: BTreeMap::new(alloc),
        }
    }

    /// The number of the next entry, the first being 1.
    pub fn next(&mut self) -> u64 {
        self.entries = self.entries.saturating_add(1);
        self.entries
    }

    fn count_output(&mut self, alloc: Global, entry: u64, compilation: &Compilation) -> Mem<()> {
        let Some(object) = compilation.parsed.outputs.get("obj") else {
            return Ok(());
        };
        let path = path::join(alloc, &compilation.command.cwd, &object.path)?;
        if let Some(entries) = self.outputs.get_mut(&path) {
            entries.push(entry)?;
            return Ok(());
        }
        self.outputs.insert(path, vec![in alloc; entry]?)?;
        Ok(())
    }

    fn count_refused(&mut self, alloc: Global, entry: u64, file: &str, reason: &str) -> Mem<()> {
        let key = String::from_str(alloc, reason)?;
        meet(alloc, &mut self.refused, key, entry, file)
    }

    /// Counts the hazards of an entry's command.
    fn count_hazards(
        &mut self,
        alloc: Global,
        entry: u64,
        file: &str,
        hazards: &[Hazard<'_>],
    ) -> Mem<()> {
        if !hazards.is_empty() {
            self.hazardous = self.hazardous.saturating_add(1);
        }
        for hazard in hazards {
            let key = Vec::from_slice(alloc, hazard.name())?;
            meet(alloc, &mut self.hazards, key, entry, file)?;
        }
        Ok(())
    }

    fn count_missing(
        &mut self,
        alloc: Global,
        entry: u64,
        file: &str,
        paths: &[Vec<u8>],
    ) -> Mem<()> {
        for path in paths {
            let key = Vec::from_slice(alloc, path)?;
            meet(alloc, &mut self.missing, key, entry, file)?;
        }
        Ok(())
    }

    fn count_answer(
        &mut self,
        alloc: Global,
        entry: u64,
        file: &str,
        answered: &Answered<'_>,
    ) -> Mem<()> {
        match &answered.description.answer {
            CompilerArguments::Ok(compilation) => {
                match compilation.cacheable {
                    Cacheable::Yes => self.ok = self.ok.saturating_add(1),
                    Cacheable::No => self.unkept = self.unkept.saturating_add(1),
                }
                self.count_output(alloc, entry, compilation)?;
                self.count_hazards(alloc, entry, file, &answered.description.told.hazards)
            }
            CompilerArguments::CannotCache(reason, _) => {
                self.count_refused(alloc, entry, file, reason)
            }
            CompilerArguments::NotCompilation => {
                self.not_compilation = self.not_compilation.saturating_add(1);
                Ok(())
            }
        }
    }

    /// Counts an entry that is answered, of a source `file`; what it is.
    pub fn count(
        &mut self,
        alloc: Global,
        entry: u64,
        file: &str,
        answered: &Answered<'_>,
    ) -> Mem<EntryKind>
        ensures { IfOk result (λ kind. kind ≡ kind_of (answer_of answered.now.description.answer) answered.now.description.told.hazards.items) }
    {
        self.count_missing(alloc, entry, file, &answered.missing_files)?;
        self.count_answer(alloc, entry, file, answered)?;
        let described = &answered.description;
        Ok(EntryKind::of_answer(&described.answer, &described.told.hazards))
    }

    /// Counts an entry that is none.
    pub fn count_broken(&mut self, entry: u64, why: String) -> Mem<()> {
        self.broken.push((entry, why))?;
        Ok(())
    }

    /// Counts an entry with a file that can't be read.
    pub fn count_unread(&mut self, entry: u64, why: String) -> Mem<()> {
        self.unread.push((entry, why))?;
        Ok(())
    }

    /// Whether an entry was none.
    pub fn has_broken(&self) -> bool {
        !self.broken.is_empty()
    }

    /// Whether an entry has a file that can't be read.
    pub fn has_unread(&self) -> bool {
        !self.unread.is_empty()
    }
}
