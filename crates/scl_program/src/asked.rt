//! What the program is to do, as its words say it.
use clap::ArgMatches;
use scl_base_dirs::base_dirs;
use scl_cl::text::command::copy_words;
use scl_cl::{Compiler, Limits, Mem};
use scl_describe::Settings;
use scl_explain::EntryKind;
use std::alloc::Global;

/// A command of the program, with what was read of its words.
#[derive(Clone, Copy)]
pub struct Asked<'m, 'a> {
    /// Its name.
    pub name: &'a str,
    /// What was read.
    pub read: &'m ArgMatches<'a>,
    /// The words that are no options of the program, as they are.
    pub words: &'m [Vec<u8>],
}

/// What is compared.
#[derive(Drop)]
pub enum Compare {
    /// Two command lines.
    Lines(Vec<Vec<u8>>, Vec<Vec<u8>>),
    /// Two entries of a database, by their sources.
    Entries(String, String, String),
    /// The entries of two databases.
    Databases(String, String),
}

/// The number that decimal digits write.
pub fn number_of(text: &str) -> Option<usize> {
    let mut number = None;
    for byte in text.as_bytes() {
        if !byte.is_ascii_digit() {
            return None;
        }
        let before: usize = number.unwrap_or(0);
        number = Some(
            before
                .checked_mul(10)?
                .checked_add(usize::from(*byte - b'0'))?,
        );
    }
    number
}

/// A name and its value, parted by the first `=`; without one the value is empty.
fn pair_of(alloc: Global, text: &str) -> Mem<(Vec<u8>, Vec<u8>)> {
    let (name, value) = text.split_once('=').unwrap_or((text, ""));
    Ok((
        Vec::from_slice(alloc, name.as_bytes())?,
        Vec::from_slice(alloc, value.as_bytes())?,
    ))
}

/// The path of the database of a build: a folder's, or the one that is named.
fn database_of(alloc: Global, build: &str) -> Mem<String> {
    if build == "-" || build.ends_with(".json") {
        String::from_str(alloc, build)
    } else {
        format!(in alloc; "{build}/compile_commands.json")
    }
}

impl<'m, 'a> Asked<'m, 'a> {
    /// Whether an option is given.
    pub fn has(&self, option: &str) -> bool {
        self.read.get_flag(option)
    }

    /// The value of an option.
    pub fn value(&self, option: &str) -> Option<&'a str> {
        self.read.get_str(option)
    }

    /// The values of an option that may be given again.
    pub fn values(&self, alloc: Global, option: &str) -> Mem<Vec<Vec<u8>>> {
        let mut all = Vec::new(alloc);
        for value in self.read.get_strs(option).unwrap_or(&[]) {
            all.push(Vec::from_slice(alloc, value.as_bytes())?)?;
        }
        Ok(all)
    }

    /// The compiler, where one is named.
    pub fn compiler(&self) -> Option<Compiler> {
        match self.value("--compiler") {
            Some(name) => Compiler::named(name.as_bytes()),
            None => None,
        }
    }

    /// The one kind of entries that is wanted, if not each.
    pub fn only(&self) -> Option<EntryKind> {
        match self.value("--only") {
            Some("ok") => Some(EntryKind::Ok),
            Some("hazard") => Some(EntryKind::Hazard),
            Some("refused") => Some(EntryKind::Refused),
            Some(_) | None => None,
        }
    }

    /// The limits of a command line: those that are given, else the standard ones.
    fn limits(&self) -> Limits {
        let standard = Limits::standard();
        let words = self.value("--bound").and_then(number_of);
        let bytes = self.value("--bytes").and_then(number_of);
        Limits {
            words: words.unwrap_or(standard.words),
            bytes: bytes.unwrap_or(standard.bytes),
        }
    }

    /// The text of the compiler's version, if it is given.
    fn version(&self, alloc: Global) -> Mem<Option<String>> {
        match self.value("--compiler-version") {
            Some(text) => Ok(Some(String::from_str(alloc, text)?)),
            None => Ok(None),
        }
    }

    /// How command lines are described.
    pub fn settings(&self, alloc: Global) -> Mem<Settings> {
        let mut settings = Settings::new(alloc);
        settings.runs.may_dist = self.has("--may-dist");
        settings.version = self.version(alloc)?;
        settings.limits = self.limits();
        settings.bases = base_dirs(alloc, &self.values(alloc, "--base")?)?;
        settings.keeps_shown = self.has("--keep-shown");
        Ok(settings)
    }

    /// The variables that are given, the last first, since of several values of a variable the first counts.
    pub fn variables(&self, alloc: Global) -> Mem<Vec<(Vec<u8>, Vec<u8>)>> {
        let mut pairs = Vec::new(alloc);
        for text in self.read.get_strs("--env").unwrap_or(&[]) {
            pairs.insert(0, pair_of(alloc, text)?)?;
        }
        Ok(pairs)
    }

    /// The path of a database: that of the build at this place, or the one in this folder.
    pub fn database(&self, alloc: Global, at: usize) -> Mem<String> {
        let builds = self.read.get_strs("-p").unwrap_or(&[]);
        match builds.get(at) {
            Some(build) => database_of(alloc, build),
            None => String::from_str(alloc, "compile_commands.json"),
        }
    }

    /// Two command lines with `--` between them.
    fn two_lines(&self, alloc: Global) -> Mem<Option<Compare>> {
        let words = self.words;
        let between = words
            .iter()
            .position(|word| word.as_slice() == b"--".as_slice());
        let Some(at) = between else {
            return Ok(None);
        };
        let first = words.get(..at).unwrap_or(&[]);
        let second = words.get(at.saturating_add(1)..).unwrap_or(&[]);
        Ok(Some(Compare::Lines(copy_words(alloc, first)?, copy_words(alloc, second)?)))
    }

    /// Two entries by their sources, or two databases.
    fn two_entries(&self, alloc: Global) -> Mem<Option<Compare>> {
        let builds = self.read.get_strs("-p").unwrap_or(&[]);
        match self.read.get_strs("words").unwrap_or(&[]) {
            [first, second] if builds.len() < 2 => Ok(Some(Compare::Entries(
                self.database(alloc, 0)?,
                String::from_str(alloc, first)?,
                String::from_str(alloc, second)?,
            ))),
            [] if builds.len() == 2 => Ok(Some(Compare::Databases(
                self.database(alloc, 0)?,
                self.database(alloc, 1)?,
            ))),
            _ => Ok(None),
        }
    }

    /// What is compared: two command lines, two entries or two databases; none where it is nothing of the kind.
    pub fn compare(&self, alloc: Global) -> Mem<Option<Compare>> {
        match self.two_lines(alloc)? {
            Some(compare) => Ok(Some(compare)),
            None => self.two_entries(alloc),
        }
    }
}
