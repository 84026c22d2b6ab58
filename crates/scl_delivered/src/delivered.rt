//! A key as it is delivered: macros that the runs show stand at its end, and its words are told by base directories.
ghost use Rattle.std.specs.Prelude.{◌≡◌, IfOk};
ghost use Rattle.scl_values.specs.Words.{words_of};
ghost use Rattle.scl_catalogue.specs.Views.{lexicon_of};
ghost use Rattle.scl_text.specs.Records.{parsed_of};
ghost use Rattle.scl_key.specs.Views.{key_of as key_told};
ghost use Rattle.scl_shared_key.specs.Views.{object_of, verdict_of};
ghost use Rattle.scl_delivered.specs.Delivered.{delivered, is_told_by_bases, leaves_macros_out, names_none, object_by, told_by, with_macros};
ghost use Rattle.scl_delivered.specs.Views.{delivered_of};

use crate::macros::{are_defined, macros_in, runs_in, without_macros};
use crate::object::{object_by, texts_show_macros};
use crate::told::{told_parts, told_words};
use scl_catalogue::Lexicon;
use scl_key::{Direct, Key, Part};
use scl_reader::Compiler;
use scl_shared_key::{InObject, Object, Verdict, verdict};
use scl_text::Mem;
use scl_text::records::ParsedArguments;
use std::alloc::Global;

/// A key as it is delivered (docs/PROTOCOL.md, A key).
#[derive(Debug, Drop)]
pub struct Delivered {
    /// What is said of the object, if there are base directories.
    pub verdict: Option<Verdict>,
    /// What is hashed and asked: told by the base directories if the object names none of them.
    pub parts: Vec<Part>,
    /// What direct mode needs: nothing if the parts are told by base directories.
    pub direct: Vec<Direct>,
    /// The words that define macros which the runs show: each is hashed only if a source can name the macro.
    pub shown: Vec<Vec<u8>>,
}

/// How keys are delivered.
#[derive(Debug, Clone, Copy)]
pub struct Delivery<'a, 'c> {
    /// The base directories, as `scl_base_dirs::base_dirs` gives them.
    pub dirs: &'a [Vec<u8>],
    /// What a catalogue says of the words of the compiler's command.
    pub lexicon: &'c Lexicon<'c>,
    /// Whether macros stay where they are.
    pub keeps_macros: bool,
}

/// Whether an object names none of the base directories.
pub(crate) fn names_none(in_object: InObject) -> bool
    ensures { result ≡ names_none in_object }
{
    match in_object {
        InObject::No | InObject::Mapped => true,
        InObject::Yes => false,
    }
}

impl Delivered {
    /// Whether its parts are told by base directories.
    pub fn is_told_by_bases(&self) -> bool
        ensures { result ≡ is_told_by_bases (delivered_of self.now) }
    {
        match &self.verdict {
            Some(said) => names_none(said.in_object),
            None => false,
        }
    }
}

/// Whether the texts of runs show all that counts of the macros of the command.
fn leaves_macros_out(
    alloc: Global,
    compiler: Compiler,
    parsed: &ParsedArguments,
    object: &Object<'_, '_>,
    key: &Key,
) -> Mem<bool>
    requires { object_of object.now ≡ object_by (lexicon_of object.now.lexicon.now) compiler (parsed_of parsed.now) (key_told key.now) }
    ensures { IfOk result (λ leaves. leaves ≡ leaves_macros_out (lexicon_of object.now.lexicon.now) compiler (parsed_of parsed.now) (key_told key.now)) }
{
    if !texts_show_macros(compiler, parsed, &key.parts, object) {
        return Ok(false);
    }
    let macros = macros_in(alloc, &key.parts)?;
    let runs = runs_in(alloc, &key.parts)?;
    Ok(are_defined(&macros, &runs))
}

/// A key whose macros stand at its end, or where they are.
fn with_macros(alloc: Global, last: bool, key: Key) -> Mem<Delivered>
    ensures { IfOk result (λ made. delivered_of made ≡ with_macros last (key_told key)) }
{
    if !last {
        return Ok(Delivered {
            verdict: None,
            parts: key.parts,
            direct: key.direct,
            shown: Vec::new(alloc),
        });
    }
    let shown = macros_in(alloc, &key.parts)?;
    Ok(Delivered {
        verdict: None,
        parts: without_macros(alloc, key.parts)?,
        direct: key.direct,
        shown,
    })
}

/// A key by what is said of its object: told by the directories if that names none of them. Rows of direct mode are not told.
fn told_by(alloc: Global, dirs: &[Vec<u8>], said: Verdict, key: Delivered) -> Mem<Delivered>
    ensures { IfOk result (λ made. delivered_of made ≡ told_by (words_of dirs.now) (verdict_of said) (delivered_of key)) }
{
    if !names_none(said.in_object) {
        return Ok(Delivered {
            verdict: Some(said),
            parts: key.parts,
            direct: key.direct,
            shown: key.shown,
        });
    }
    Ok(Delivered {
        verdict: Some(said),
        parts: told_parts(alloc, dirs, &key.parts)?,
        direct: Vec::new(alloc),
        shown: told_words(alloc, dirs, &key.shown)?,
    })
}

/// The key of a record as it is delivered (docs/RULES.md, Words that the runs show; One key in every checkout).
pub fn deliver(
    alloc: Global,
    compiler: Compiler,
    parsed: &ParsedArguments,
    by: &Delivery<'_, '_>,
    key: Key,
) -> Mem<Delivered>
    ensures { IfOk result (λ made. delivered_of made ≡ delivered (lexicon_of by.now.lexicon.now) compiler (parsed_of parsed.now) (words_of by.now.dirs.now) by.now.keeps_macros (key_told key)) }
{
    let object = object_by(by.lexicon, compiler, parsed, &key);
    let last = !by.keeps_macros && leaves_macros_out(alloc, compiler, parsed, &object, &key)?;
    let made = with_macros(alloc, last, key)?;
    if by.dirs.is_empty() {
        return Ok(made);
    }
    let said = verdict(alloc, by.dirs, &object)?;
    told_by(alloc, by.dirs, said, made)
}
