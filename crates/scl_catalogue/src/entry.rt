//! What is known of compilers, entry by entry.
ghost use Rattle.std.specs.Prelude.{◌≡◌, true, map};
ghost use Rattle.std.specs.List.{list_all};
ghost use Rattle.scl_catalogue.specs.Numbered.{entry_with, may_have};
ghost use Rattle.scl_catalogue.specs.Found.{is_there};
ghost use Rattle.scl_catalogue.specs.Keyed.{is_keyed};
ghost use Rattle.scl_catalogue.specs.Views.{case_of, entry_of, line_of, seen_of, tells_of};

use crate::case::Case;
use crate::condition::LineKeys;
use crate::line::Line;
use crate::numbers::{NumberSet, Numbers};

/// What becomes of a hazard.
#[derive(Clone, Copy, Debug, PartialEq, Eq)]
pub enum Danger {
    /// The object differs, or may.
    Object,
    /// One of the two commands fails.
    Failure,
    /// Another file than the object differs.
    SideFile,
    /// Messages differ.
    Messages,
    /// The run of the preprocessor leaves another file; the built command does not.
    Run,
}

/// What an option does to a file, or asks of the machine.
#[derive(Clone, Copy, Debug, PartialEq, Eq)]
pub enum Verb {
    /// It is read.
    Reads,
    /// It is written.
    Writes,
    /// It is asked.
    Asks,
    /// It is read as code that the compiler runs.
    Loads,
}

/// What an option does beside compiling, as far as a key has to answer for it (docs/RULES.md, Keys).
#[derive(Clone, Copy, Debug, PartialEq, Eq)]
pub enum Doing {
    /// The outcome has nothing of the sources that is missing from their preprocessed text.
    Plain,
    /// The outcome may have what the text does not, as columns and comments.
    Exact,
    /// The outcome has macros.
    Macros,
    /// A file is written that no row names.
    WritesUnnamed,
    /// The text may not be that of what is compiled.
    TextHides,
    /// The counts of a profile are read that stand beside the object.
    ReadsCounts,
    /// The samples of a profile are read from a file of a fixed name.
    ReadsSamples,
}

/// What an option makes the object name of the place where it is made (docs/RULES.md, One key in every checkout).
#[derive(Clone, Copy, Debug, PartialEq, Eq)]
pub enum Naming {
    /// Nothing.
    Nothing,
    /// Directory and sources, in debug information.
    DebugInfo,
    /// It maps names, in debug information and macros.
    FileMap,
    /// It maps names in debug information.
    DebugMap,
    /// It maps names in macros.
    MacroMap,
    /// Whatever it may be.
    Anything,
}

/// What a word of the preprocessor brings in.
#[derive(Clone, Copy, Debug, PartialEq, Eq)]
pub enum Brings {
    /// A folder in which headers are searched.
    Folder,
    /// A header that is included first.
    Header,
    /// A file of which only the macros are read.
    MacroFile,
    /// What else the text of a run shows.
    Other,
    /// A file of dependencies, which a run writes too.
    Dependencies,
    /// What a text may not show.
    Unknown,
}

/// What an entry states.
#[derive(Debug, Drop)]
pub enum Tells {
    /// The built command does something else than the given one.
    Hazard(Danger),
    /// The compiler reads, writes or asks what the name's pattern says.
    Effect(Verb, Vec<u8>),
    /// The options of its groups read, write and ask nothing except what other entries state.
    Plain,
    /// What its options do that a key has to answer for.
    Key(Doing),
    /// What its options do in a run of the preprocessor.
    Run(Doing),
    /// What its options make the object name.
    Names(Naming),
    /// What its options bring in, where they are words of the preprocessor.
    Brings(Brings),
}

/// An entry of a catalogue.
#[derive(Debug, Drop)]
pub struct Entry {
    /// What it states.
    pub tells: Tells,
    /// Its name.
    pub name: Vec<u8>,
    /// A sentence for people.
    pub says: Vec<u8>,
    /// The cases in which it is there.
    pub cases: Vec<Case>,
    /// The numbers of the options of which they speak.
    numbers: NumberSet,
}

impl Entry {
    /// The entry that states this, with these cases.
    pub fn new(tells: Tells, name: Vec<u8>, says: Vec<u8>, cases: Vec<Case>) -> Entry
        ensures { entry_of result ≡ entry_with (tells_of tells) name.items says.items (map case_of cases.items) }
    {
        let numbers = NumberSet::of(&cases);
        Entry {
            tells,
            name,
            says,
            cases,
            numbers,
        }
    }

    /// Whether it may speak of an option that has these numbers.
    pub fn may_speak(&self, numbers: &Numbers) -> bool
        ensures { result ≡ may_have (entry_of self.now).numbers numbers.now }
    {
        self.numbers.may_have(numbers)
    }

    /// Whether the entry is there in a line whose options have these numbers.
    pub(crate) fn is_there(&self, line: &Line<'_>, keys: &LineKeys) -> bool
        requires options { list_all (is_keyed keys.now.options) (map seen_of line.now.options.now) ≡ true }
        requires inner { list_all (is_keyed keys.now.inner) (map seen_of line.now.inner.now) ≡ true }
        ensures { result ≡ is_there (line_of line.now) (entry_of self.now) }
    {
        for case in &self.cases {
            if case.holds(line, keys) {
                return true;
            }
        }
        false
    }
}
