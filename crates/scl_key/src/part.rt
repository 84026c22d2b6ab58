//! The parts of a key, and their rows.
ghost use Rattle.std.specs.Prelude.{◌≡◌, ◌∷◌, [], codes, IfOk, OnOk};
ghost use Rattle.scl_description.specs.Records.{output_rest};
ghost use Rattle.scl_description.specs.Rows.{entry_rows, row_entry, rows_of};
ghost use Rattle.scl_description.specs.Takers.{Adds};
ghost use Rattle.scl_key.specs.Parts.{ask_name, is_asked, key_entries, part_entry};
ghost use Rattle.scl_key.specs.Views.{output_of, part_of, parts_of};

use scl_description::{TakesRows, tell_row, tell_word};
use scl_text::Mem;
use std::alloc::Global;

/// What is asked of a name (docs/RULES.md, Keys).
#[derive(Debug, Clone, Copy, PartialEq, Eq)]
pub enum Ask {
    /// The value of a variable, or that it is not set.
    Env,
    /// That a variable is not set: if it is, nothing is kept.
    Unset,
    /// The bytes of a file: if there is none, nothing is kept.
    File,
    /// The bytes of a file, or that there is none.
    Maybe,
    /// That there is nothing but a regular file, if anything: else nothing is kept, and nothing is run first.
    Regular,
    /// The sources, if a text has this pattern.
    SourcesIfShown,
    /// That no text has this pattern: if one does, nothing is kept.
    RefuseIfShown,
}

/// A file that comes out.
#[derive(Debug, PartialEq, Eq, Drop)]
pub struct Output {
    /// Its name.
    pub name: Vec<u8>,
    /// Its path.
    pub path: Vec<u8>,
    /// Whether it may be missing.
    pub optional: bool,
}

/// What a cache hashes as it stands, or what it asks and hashes (docs/RULES.md, Keys).
#[derive(Debug, PartialEq, Eq, Drop)]
pub enum Part {
    /// A fact, with its name in front.
    Is(Vec<Vec<u8>>),
    /// A file that comes out.
    Output(Output),
    /// The name of the directory.
    Directory,
    /// The name by which the compiler is called, its bytes and those of its libraries.
    Compiler,
    /// What the compiler says by `-###` that it would run for these words, and the bytes of what it names there.
    Plan(Vec<Vec<u8>>),
    /// What is asked of a name: a variable, a path or a pattern.
    Asked(Ask, Vec<u8>),
    /// What the compiler writes for these words.
    Run(Vec<Vec<u8>>),
    /// The same, if a run before it failed.
    RunElse(Vec<Vec<u8>>),
    /// The precompiled headers that a search meets: pairs of what is said, `header`, `beside`, `folder` or `variable`, and a
    /// name.
    Pch(Vec<Vec<u8>>),
    /// Names and bytes of the files that the runs' line markers name, and of the input.
    Sources,
    /// Their sizes and times.
    Times,
}

impl Output {
    /// A copy.
    pub(crate) fn copy(&self, alloc: Global) -> Mem<Output>
        ensures { IfOk result (λ copy. output_of copy ≡ output_of self.now) }
    {
        Ok(Output {
            name: Vec::from_slice(alloc, &self.name)?,
            path: Vec::from_slice(alloc, &self.path)?,
            optional: self.optional,
        })
    }
}

impl Ask {
    /// Its name in rows.
    pub fn name(self) -> &'static str
        ensures { result.now ≡ ask_name self }
    {
        match self {
            Ask::Env => "env",
            Ask::Unset => "unset",
            Ask::File => "file",
            Ask::Maybe => "maybe",
            Ask::Regular => "regular",
            Ask::SourcesIfShown => "sources-if-shown",
            Ask::RefuseIfShown => "refuse-if-shown",
        }
    }
}

impl Part {
    /// Whether its answer goes into the key; the row of any other is hashed as it stands, and that is all.
    pub fn is_asked(&self) -> bool
        ensures { result ≡ is_asked (part_of self.now) }
    {
        match self {
            Part::Is(_) | Part::Output(_) => false,
            Part::Directory
            | Part::Compiler
            | Part::Plan(_)
            | Part::Asked(_, _)
            | Part::Run(_)
            | Part::RunElse(_)
            | Part::Pch(_)
            | Part::Sources
            | Part::Times => true,
        }
    }
}

/// Tells the row of an output.
fn tell_output<R: TakesRows>(rows: &mut R, output: &Output) -> Mem<()>
    ensures { OnOk result (Adds R.has rows.old rows.new (entry_rows (row_entry (codes "key") (codes "output" ∷ output_rest (output_of output.now))))) }
{
    let (name, path) = (output.name.as_slice(), output.path.as_slice());
    if output.optional {
        tell_row(rows, "key", &[b"output", name, path, b"optional"])
    } else {
        tell_row(rows, "key", &[b"output", name, path])
    }
}

/// Tells the row of what is asked of a name.
fn tell_asked<R: TakesRows>(rows: &mut R, ask: &str, name: &[u8]) -> Mem<()>
    ensures { OnOk result (Adds R.has rows.old rows.new (entry_rows (row_entry (codes "key") (ask.now ∷ name.now ∷ [])))) }
{
    tell_row(rows, "key", &[ask.as_bytes(), name])
}

/// Tells the row of a part.
fn tell_part<R: TakesRows>(rows: &mut R, part: &Part) -> Mem<()>
    ensures { OnOk result (Adds R.has rows.old rows.new (entry_rows (part_entry (part_of part.now)))) }
{
    match part {
        Part::Is(row) => rows.take("key", &[b"is"], row),
        Part::Output(output) => tell_output(rows, output),
        Part::Directory => tell_word(rows, "key", b"directory"),
        Part::Compiler => tell_word(rows, "key", b"compiler"),
        Part::Plan(words) => rows.take("key", &[b"plan"], words),
        Part::Asked(ask, name) => tell_asked(rows, ask.name(), name),
        Part::Run(words) => rows.take("key", &[b"run"], words),
        Part::RunElse(words) => rows.take("key", &[b"run-else"], words),
        Part::Pch(searched) => rows.take("key", &[b"pch"], searched),
        Part::Sources => tell_word(rows, "key", b"sources"),
        Part::Times => tell_word(rows, "key", b"times"),
    }
}

/// Tells the rows `key` of a key.
pub fn tell_key<R: TakesRows>(rows: &mut R, key: &[Part]) -> Mem<()>
    ensures { OnOk result (Adds R.has rows.old rows.new (rows_of (key_entries (parts_of key.now)))) }
{
    for part in key {
        tell_part(rows, part)?;
    }
    Ok(())
}
