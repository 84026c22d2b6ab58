//! What a catalogue says of a word of a command.
ghost use Rattle.std.specs.Prelude.{◌≡◌, ◌++◌, map, IfOk, OnOk};
ghost use Rattle.std.specs.List.{flat_map};
ghost use Rattle.scl_catalogue.specs.Lookup.{brought_by, doing_of, first_brought, first_said, flagged_by, flagged_case, flagged_condition, lexicon_in, naming_of, running_of, with_entry, with_flagged, word_seen};
ghost use Rattle.scl_catalogue.specs.Views.{case_of, catalogue_of, condition_of, entry_of, flagged_of, lexicon_of, said_of, seen_of, test_of};

use crate::case::{Case, Compiler, Version, serves};
use crate::catalogue::Catalogue;
use crate::condition::Condition;
use crate::entry::{Brings, Doing, Entry, Naming, Tells};
use crate::numbers::Numbers;
use crate::seen::{Marks, Seen, Standing};
use crate::speaking::Level;
use crate::test::Test;
use crate::text::Text;
use scl_values::Mem;
use std::alloc::Global;

/// What an entry states of words, and the entry.
#[derive(Clone, Copy, Debug)]
struct Stated<'a, T> {
    says: T,
    entry: &'a Entry,
}

/// What words bring in, and which words.
#[derive(Clone, Copy, Debug)]
struct Flagged<'a> {
    brings: Brings,
    words: &'a Text,
}

/// What a word brings in, and where its value begins.
#[derive(Clone, Copy, Debug, PartialEq, Eq)]
pub struct Brought {
    /// What it brings in.
    pub brings: Brings,
    /// How many of its bytes stand before its value; where they are all, the next word is the value.
    pub front: usize,
}

/// What a catalogue says of the words of one compiler's command. It is made once, and asked of each word.
#[derive(Debug, Drop)]
pub struct Lexicon<'a> {
    compiler: Compiler,
    version: Option<Version>,
    key: Vec<Stated<'a, Doing>>,
    run: Vec<Stated<'a, Doing>>,
    names: Vec<Stated<'a, Naming>>,
    brings: Vec<Flagged<'a>>,
}

/// A word of a command, as an option that no row fits.
fn word_seen(word: &[u8]) -> Seen<'_>
    ensures { seen_of result ≡ word_seen word.now }
{
    Seen {
        standing: Standing::Unknown,
        name: word,
        kind: &[],
        value: &[],
        marks: Marks {
            stays: false,
            is_apart: false,
            is_joined: false,
            is_delimiter_dropped: false,
            has_hidden_value: false,
        },
    }
}

/// What the first of these entries states that speaks of the word.
#[tactic(auto, unfolding(crate::specs::Speaking::speaks_of))]
fn first_said<T: Copy>(
    all: &[Stated<'_, T>],
    compiler: Compiler,
    version: Option<Version>,
    word: &Seen<'_>,
) -> Option<T>
    ensures { result ≡ first_said compiler version (seen_of word.now) (map said_of all.now) }
{
    let numbers = Numbers::of(word);
    for one in all {
        if one.entry.may_speak(&numbers)
            && one.entry.speaks_of(compiler, version, Level::Outer, word)
        {
            return Some(one.says);
        }
    }
    None
}

/// Appends the words of the tests that words may pass of which it is only known how they are written.
fn push_tests<'a>(flagged: &mut Vec<Flagged<'a>>, brings: Brings, tests: &'a [Test]) -> Mem<()>
    ensures { OnOk result (map flagged_of flagged.new.items ≡ map flagged_of flagged.old.items ++ flat_map (flagged_by brings) (map test_of tests.now)) }
{
    for test in tests {
        if test.class.is_of(Standing::Unknown) {
            flagged.push(Flagged {
                brings,
                words: &test.names,
            })?;
        }
    }
    Ok(())
}

/// Appends the words for which conditions ask.
fn push_conditions<'a>(
    flagged: &mut Vec<Flagged<'a>>,
    brings: Brings,
    conditions: &'a [Condition],
) -> Mem<()>
    ensures { OnOk result (map flagged_of flagged.new.items ≡ map flagged_of flagged.old.items ++ flat_map (flagged_condition brings) (map condition_of conditions.now)) }
{
    for condition in conditions {
        push_tests(flagged, brings, condition.tests_asked())?;
    }
    Ok(())
}

/// What the first of these says that a word brings in.
fn first_brought(all: &[Flagged<'_>], word: &[u8]) -> Option<Brought>
    ensures { result ≡ first_brought (map flagged_of all.now) word.now }
{
    for one in all {
        if let Some(front) = one.words.front_of(word) {
            return Some(Brought {
                brings: one.brings,
                front,
            });
        }
    }
    None
}

impl<'a> Lexicon<'a> {
    /// Adds the words of which the cases that are meant speak.
    fn add_flagged(&mut self, brings: Brings, cases: &'a [Case]) -> Mem<()>
        ensures { OnOk result (lexicon_of self.new ≡ with_flagged (lexicon_of self.old) (flat_map (flagged_case (lexicon_of self.old).compiler (lexicon_of self.old).version brings) (map case_of cases.now))) }
    {
        for case in cases {
            if serves(&case.served, self.compiler, self.version) {
                push_conditions(&mut self.brings, brings, &case.conditions)?;
            }
        }
        Ok(())
    }

    /// Adds what the entry states of words, if it does.
    fn add(&mut self, entry: &'a Entry) -> Mem<()>
        ensures { OnOk result (lexicon_of self.new ≡ with_entry (lexicon_of self.old) (entry_of entry.now)) }
    {
        match &entry.tells {
            Tells::Key(says) => self.key.push(Stated { says: *says, entry })?,
            Tells::Run(says) => self.run.push(Stated { says: *says, entry })?,
            Tells::Names(says) => self.names.push(Stated { says: *says, entry })?,
            Tells::Brings(brings) => self.add_flagged(*brings, &entry.cases)?,
            Tells::Hazard(_) | Tells::Effect(_, _) | Tells::Plain => {}
        }
        Ok(())
    }

    /// What the catalogue says of words of the compiler's commands. Where no version is known, each case is meant.
    pub fn of(
        alloc: Global,
        catalogue: &'a Catalogue,
        compiler: Compiler,
        version: Option<Version>,
    ) -> Mem<Lexicon<'a>>
        ensures { IfOk result (λ lexicon. lexicon_of lexicon ≡ lexicon_in (catalogue_of catalogue.now) compiler version) }
    {
        let mut lexicon = Lexicon {
            compiler,
            version,
            key: Vec::new(alloc),
            run: Vec::new(alloc),
            names: Vec::new(alloc),
            brings: Vec::new(alloc),
        };
        for entry in &catalogue.entries {
            lexicon.add(entry)?;
        }
        Ok(lexicon)
    }

    /// What the word does that a key has to answer for. A word of which no entry says so may do anything that the
    /// preprocessed text does not show.
    #[tactic(auto, unfolding(crate::specs::Lookup::doing_of))]
    pub fn doing_of(&self, word: &[u8]) -> Doing
        ensures { result ≡ doing_of (lexicon_of self.now) word.now }
    {
        let word = word_seen(word);
        first_said(&self.key, self.compiler, self.version, &word).unwrap_or(Doing::Exact)
    }

    /// What the word does in a run of the preprocessor; by a word of which no entry says so a run may read more.
    #[tactic(auto, unfolding(crate::specs::Lookup::running_of))]
    pub fn running_of(&self, word: &[u8]) -> Doing
        ensures { result ≡ running_of (lexicon_of self.now) word.now }
    {
        let word = word_seen(word);
        first_said(&self.run, self.compiler, self.version, &word).unwrap_or(Doing::Exact)
    }

    /// What the word makes the object name; a word of which no entry says so may make it name anything.
    #[tactic(auto, unfolding(crate::specs::Lookup::naming_of))]
    pub fn naming_of(&self, word: &[u8]) -> Naming
        ensures { result ≡ naming_of (lexicon_of self.now) word.now }
    {
        let word = word_seen(word);
        first_said(&self.names, self.compiler, self.version, &word).unwrap_or(Naming::Anything)
    }

    /// What the word brings in, where it is one of the preprocessor; `None` if no entry says so.
    pub fn brought_by(&self, word: &[u8]) -> Option<Brought>
        ensures { result ≡ brought_by (lexicon_of self.now) word.now }
    {
        first_brought(&self.brings, word)
    }
}
