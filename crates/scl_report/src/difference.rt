//! What two command lines differ in, for a person.
use crate::alone::{AT, Alone};
use crate::digest::outcome_text;
use crate::foreign::{ForeignDisk, is_windows};
use scl_cl::Mem;
use scl_describe::Catalogue;
use scl_explain::{Case, answer_case, has_key, has_key_of, load_error_text};
use scl_load::Disk;
use scl_shell::shown_words;
use std::alloc::Global;
use std::fmt::Display;
use std::str;

/// A command line that is compared: how it is answered, and the rows of its description.
#[derive(Drop)]
pub struct Compared {
    outcome: String,
    pub(crate) rows: Vec<Vec<Vec<u8>>>,
}

/// Where the field of an option's row stands that says how many words were given.
const COUNT: usize = 7;

fn field(row: &[Vec<u8>], at: usize) -> &[u8] {
    match row.get(at) {
        Some(field) => field,
        None => b"",
    }
}

/// The number that digits write; 0 of any other text.
fn number_of(digits: &[u8]) -> usize {
    let mut number = 0usize;
    for digit in digits {
        number = number
            .saturating_mul(10)
            .saturating_add(usize::from(digit.saturating_sub(b'0')));
    }
    number
}

/// The words of an option: those that were given, and of one that the rules add those that they add.
fn option_words(alloc: Global, row: &[Vec<u8>]) -> Mem<Vec<Vec<u8>>> {
    let given = number_of(field(row, COUNT));
    let count = if given == 0 { row.len() } else { given };
    let mut words = Vec::new(alloc);
    for word in row.iter().skip(COUNT + 1).take(count) {
        words.push(Vec::from_slice(alloc, word)?)?;
    }
    Ok(words)
}

/// Appends an option: its words, where they stand, and what becomes of them.
fn push_option(alloc: Global, text: &mut String, row: &[Vec<u8>]) -> Mem<()> {
    let words = shown_words(alloc, &option_words(alloc, row)?)?;
    let goes_to = shown_words(alloc, row.get(2..3).unwrap_or(&[]))?;
    write!(text, "    {words} ({goes_to}")?;
    if let Ok(at) = str::from_utf8(field(row, AT)) {
        if at != "-" {
            write!(text, ", word {at}")?;
        }
    }
    text.push_str(")\n")
}

/// Appends the fields of a row after its name.
fn push_fields(alloc: Global, text: &mut String, row: &[Vec<u8>]) -> Mem<()> {
    let fields = shown_words(alloc, row.get(1..).unwrap_or(&[]))?;
    write!(text, "    {fields}\n")
}

/// Appends options that only one has.
fn push_options(alloc: Global, text: &mut String, title: &str, options: &[&[Vec<u8>]]) -> Mem<()> {
    if !options.is_empty() {
        write!(text, "options of the {title} only:\n")?;
    }
    for option in options {
        push_option(alloc, text, option)?;
    }
    Ok(())
}

/// Appends rows that only one has, if there are any, below what they are.
fn push_rows(alloc: Global, text: &mut String, heading: &str, rows: &[&[Vec<u8>]]) -> Mem<()> {
    if !rows.is_empty() {
        write!(text, "{heading} only:\n")?;
    }
    for row in rows {
        push_fields(alloc, text, row)?;
    }
    Ok(())
}

impl Compared {
    /// A command line on a disk; why it has no answer, if it has none. The outer error is the refusal of memory.
    pub fn of_case<D: Disk>(
        alloc: Global,
        disk: &D,
        catalogue: &Catalogue,
        case: &Case,
    ) -> Mem<Result<Compared, String>>
    where
        D::Error: Display,
    {
        if is_windows(&case.cwd) {
            return Compared::on_disk(alloc, &ForeignDisk, catalogue, case);
        }
        Compared::on_disk(alloc, disk, catalogue, case)
    }

    fn on_disk<D: Disk>(
        alloc: Global,
        disk: &D,
        catalogue: &Catalogue,
        case: &Case,
    ) -> Mem<Result<Compared, String>>
    where
        D::Error: Display,
    {
        match answer_case(alloc, disk, catalogue, case)? {
            Ok(answered) => Ok(Ok(Compared {
                outcome: outcome_text(alloc, case, &answered)?,
                rows: answered.description.rows(alloc)?,
            })),
            Err(error) => Ok(Err(load_error_text(alloc, &error)?)),
        }
    }

    /// Whether both have a key, and what is hashed of its rows is the same. What the rows ask is not compared.
    pub fn has_key_of(&self, alloc: Global, other: &Compared) -> Mem<bool> {
        has_key_of(alloc, &self.rows, &other.rows)
    }

    fn push_outcome(&self, text: &mut String, title: &str) -> Mem<()> {
        let outcome = &self.outcome;
        write!(text, "the {title}: {outcome}\n")
    }

    /// What is said of the two keys at the end.
    fn verdict(&self, alloc: Global, other: &Compared, asks_the_same: bool) -> Mem<&'static str> {
        Ok(if !has_key(&self.rows) || !has_key(&other.rows) {
            "there are no two keys\n"
        } else if !self.has_key_of(alloc, other)? {
            "the rows of the keys differ\n"
        } else if asks_the_same {
            "the rows of the keys are equal; what they ask, such as the contents of files, is not compared\n"
        } else {
            "the keys are equal if the answers to their rows are, and no source can name a macro of a row shown\n"
        })
    }

    /// What differs: options, rows of keys, and what these ask.
    pub fn difference(&self, alloc: Global, other: &Compared) -> Mem<String> {
        let first = Alone::of_rows(alloc, &self.rows, &other.rows)?;
        let second = Alone::of_rows(alloc, &other.rows, &self.rows)?;
        let mut text = String::new(alloc);
        self.push_outcome(&mut text, "first")?;
        other.push_outcome(&mut text, "second")?;
        push_options(alloc, &mut text, "first", &first.options)?;
        push_options(alloc, &mut text, "second", &second.options)?;
        push_rows(alloc, &mut text, "key of the first", &first.key)?;
        push_rows(alloc, &mut text, "key of the second", &second.key)?;
        push_rows(alloc, &mut text, "asked by the first", &first.asked)?;
        push_rows(alloc, &mut text, "asked by the second", &second.asked)?;
        let asks_the_same = first.asked.is_empty() && second.asked.is_empty();
        text.push_str(self.verdict(alloc, other, asks_the_same)?)?;
        Ok(text)
    }
}
