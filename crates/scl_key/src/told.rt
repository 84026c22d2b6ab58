//! What of a command line is hashed as it stands.
ghost use Rattle.std.specs.Prelude.{◌≡◌, ◌++◌, ◌∷◌, map, codes, IfOk};
ghost use Rattle.scl_values.specs.Words.{words_of};
ghost use Rattle.scl_text.specs.Commands.{pairs_of};
ghost use Rattle.scl_text.specs.Records.{parsed_of};
ghost use Rattle.scl_key.specs.Parts.{is};
ghost use Rattle.scl_key.specs.Told.{facts_shown, flat_pairs, is_left_out, run_words_fields, told_by};
ghost use Rattle.scl_key.specs.Views.{part_of, parts_of, run_words_of};

use crate::part::Part;
use scl_catalogue::Lexicon;
use scl_description::{TakesRows, tell_record};
use scl_reader::Compiler;
use scl_text::Mem;
use scl_text::command::{push_word, push_words};
use scl_text::records::ParsedArguments;
use std::alloc::Global;

/// Which words a cache runs at a miss, as hazards of the built command leave it.
#[derive(Debug, Clone, Copy)]
pub enum RunWords<'a> {
    /// Those of the built command.
    Built,
    /// The given ones, and the response files that they name.
    Given(&'a [Vec<u8>], &'a [Vec<u8>]),
    /// None whose outcome may be kept, because of this hazard.
    Hazardous(&'a [u8]),
}

/// A command line as its key tells it.
#[derive(Debug, Clone, Copy)]
pub struct Line<'a, 'c> {
    /// The compiler that read it.
    pub compiler: Compiler,
    /// What is known of the words of its command.
    pub lexicon: &'c Lexicon<'c>,
    /// The environment that its command gets.
    pub environment: &'a [(Vec<u8>, Vec<u8>)],
    /// The words that a cache runs at a miss.
    pub words: RunWords<'a>,
    /// The record.
    pub parsed: &'a ParsedArguments,
}

/// The fact with this name, these fields and then these words.
fn fact(alloc: Global, name: &str, fields: &[&[u8]], words: &[Vec<u8>]) -> Mem<Part>
    ensures { IfOk result (λ part. part_of part ≡ is (name.now ∷ map (λ field. field.now) fields.now ++ words_of words.now)) }
{
    let mut row = Vec::new(alloc);
    push_word(alloc, &mut row, name.as_bytes())?;
    for field in fields {
        push_word(alloc, &mut row, field)?;
    }
    push_words(alloc, &mut row, words)?;
    Ok(Part::Is(row))
}

/// Whether a key leaves out the rows of this name: what no command takes, and what each run shows.
fn is_left_out(is_shown: bool, name: &str) -> bool
    ensures { result ≡ is_left_out is_shown name.now }
{
    name == "dist" || name == "too-hard" || (is_shown && name == "preprocessor")
}

/// Takes the rows of a record as facts, less those that a key leaves out.
#[derive(Drop)]
struct Facts {
    alloc: Global,
    is_shown: bool,
    parts: Vec<Part>,
}

impl TakesRows for Facts {
    ghost use Rattle.std.specs.Prelude.{◌≡◌, ◌++◌, map};
    ghost use Rattle.scl_key.specs.Parts.{is};
    ghost use Rattle.scl_key.specs.Told.{kept_rows};
    ghost use Rattle.scl_key.specs.Views.{parts_of};

    ghost has = { λ start facts rows. (facts.is_shown ≡ start.is_shown) × (parts_of facts.parts.items ≡ parts_of start.parts.items ++ map is (kept_rows start.is_shown rows)) };

    fn take(&mut self, name: &str, fields: &[&[u8]], words: &[Vec<u8>]) -> Mem<()> {
        if is_left_out(self.is_shown, name) {
            return Ok(());
        }
        let fact = fact(self.alloc, name, fields, words)?;
        self.parts.push(fact)?;
        Ok(())
    }
}

/// The fact of the words that are run.
fn run_words_fact(alloc: Global, words: RunWords<'_>) -> Mem<Part>
    ensures { IfOk result (λ part. part_of part ≡ is (codes "run-words" ∷ run_words_fields (run_words_of words.entry))) }
{
    match words {
        RunWords::Built => fact(alloc, "run-words", &[b"built"], &[]),
        RunWords::Given(words, _) => fact(alloc, "run-words", &[b"given"], words),
        RunWords::Hazardous(hazard) => fact(alloc, "run-words", &[b"none", hazard], &[]),
    }
}

/// The fact of the environment.
fn environment_fact(alloc: Global, pairs: &[(Vec<u8>, Vec<u8>)]) -> Mem<Part>
    ensures { IfOk result (λ part. part_of part ≡ is (codes "environment" ∷ flat_pairs (pairs_of pairs.now))) }
{
    let mut row = Vec::new(alloc);
    push_word(alloc, &mut row, b"environment")?;
    for (key, value) in pairs {
        push_word(alloc, &mut row, key)?;
        push_word(alloc, &mut row, value)?;
    }
    Ok(Part::Is(row))
}

/// The facts beside the record.
fn facts_beside(alloc: Global, line: &Line<'_, '_>, is_shown: bool) -> Mem<Vec<Part>>
    ensures { IfOk result (λ parts. parts_of parts.items ≡ facts_shown line.now.compiler (pairs_of line.now.environment.now) (run_words_of line.now.words) is_shown) }
{
    let shown: &str = if is_shown { "yes" } else { "no" };
    let mut parts = Vec::new(alloc);
    parts.push(fact(alloc, "version", &[b"1"], &[])?)?;
    parts.push(fact(alloc, "compiler", &[line.compiler.name().as_bytes()], &[])?)?;
    parts.push(fact(alloc, "shown", &[shown.as_bytes()], &[])?)?;
    parts.push(run_words_fact(alloc, line.words)?)?;
    parts.push(environment_fact(alloc, line.environment)?)?;
    Ok(parts)
}

/// What is hashed as it stands.
pub(crate) fn told(alloc: Global, line: &Line<'_, '_>, is_shown: bool) -> Mem<Vec<Part>>
    ensures { IfOk result (λ parts. parts_of parts.items ≡ told_by is_shown line.now.compiler (pairs_of line.now.environment.now) (run_words_of line.now.words) (parsed_of line.now.parsed.now)) }
{
    let parts = facts_beside(alloc, line, is_shown)?;
    let mut facts = Facts {
        alloc,
        is_shown,
        parts,
    };
    tell_record(&mut facts, line.parsed)?;
    Ok(facts.parts)
}
