//! What a key has of what the compiler does besides compiling, as a catalogue states it.
ghost use Rattle.std.specs.Prelude.{◌≡◌, ◌++◌, ◌∷◌, [], map, filter, IfOk, OnOk};
ghost use Rattle.std.specs.List.{flat_map};
ghost use Rattle.scl_text.specs.Records.{parsed_of};
ghost use Rattle.scl_key.specs.Doings.{barred, bars, is_answered, is_fleeting, is_lost, key_with, output_by, parts_by, parts_told, with_effects};
ghost use Rattle.scl_key.specs.Keys.{keeping_by, made_paths, no_key, view_of};
ghost use Rattle.scl_key.specs.Made.{made};
ghost use Rattle.scl_key.specs.Views.{key_of as key_told, keeping_of as keeping_told, no_keys_of, parts_of};

use crate::key::{Keeping, Key};
use crate::made::made;
use crate::no_key::{NoKey, Reason, is_no_file, view_of};
use crate::part::{Ask, Output, Part};
use scl_catalogue::Verb;
use scl_effects::Effect;
use scl_files::View;
use scl_text::Mem;
use scl_text::records::ParsedArguments;
use std::alloc::Global;

/// Whether the parts of each key answer it.
fn is_answered(name: &[u8]) -> bool
    ensures { result ≡ is_answered name.now }
{
    name == b"directory".as_slice() || name == b"processor".as_slice()
}

/// Whether no file that can be kept has this name.
fn is_lost(name: &[u8]) -> bool
    ensures { result ≡ is_lost name.now }
{
    name.is_empty() || is_no_file(name)
}

/// Whether what is read there may be another thing each time.
fn is_fleeting(name: &[u8]) -> bool
    ensures { result ≡ is_fleeting name.now }
{
    is_no_file(name) && name != b"/dev/null".as_slice()
}

/// Whether no key can be right.
fn bars(effect: &Effect) -> bool
    ensures { result ≡ bars effect.now }
{
    match effect.verb() {
        Verb::Reads => effect.is_like() || is_fleeting(effect.name()),
        Verb::Writes => effect.is_like() || is_lost(effect.name()),
        Verb::Asks => effect.is_like() || !is_answered(effect.name()),
        Verb::Loads => true,
    }
}

/// Appends why the effect bars a key, if it does.
fn push_bar(alloc: Global, why: &mut Vec<NoKey>, effect: &Effect) -> Mem<()>
    ensures { OnOk result (no_keys_of why.new.items ≡ no_keys_of why.old.items ++ barred (effect.now ∷ [])) }
{
    if bars(effect) {
        why.push(NoKey {
            reason: Reason::Effect,
            word: Vec::from_slice(alloc, effect.name())?,
        })?;
    }
    Ok(())
}

/// The effects that bar a key.
fn barred(alloc: Global, effects: &[Effect]) -> Mem<Vec<NoKey>>
    ensures { IfOk result (λ why. no_keys_of why.items ≡ barred effects.now) }
{
    let mut why = Vec::new(alloc);
    for effect in effects {
        push_bar(alloc, &mut why, effect)?;
    }
    Ok(why)
}

/// Appends a file that comes out, unless it is among the others.
fn push_output(alloc: Global, parts: &mut Vec<Part>, outputs: &View, path: &[u8]) -> Mem<()>
    ensures { OnOk result (parts_of parts.new.items ≡ parts_of parts.old.items ++ output_by outputs.now path.now) }
{
    if !outputs.exists(path) {
        parts.push(Part::Output(Output {
            name: Vec::from_slice(alloc, b"effect")?,
            path: Vec::from_slice(alloc, path)?,
            optional: true,
        }))?;
    }
    Ok(())
}

/// Appends what an effect adds to a key.
fn push_parts(alloc: Global, parts: &mut Vec<Part>, outputs: &View, effect: &Effect) -> Mem<()>
    ensures { OnOk result (parts_of parts.new.items ≡ parts_of parts.old.items ++ parts_by outputs.now effect.now.verb effect.now.name) }
{
    match effect.verb() {
        Verb::Reads => {
            let name = Vec::from_slice(alloc, effect.name())?;
            parts.push(Part::Asked(Ask::Maybe, name))?;
        }
        Verb::Writes => push_output(alloc, parts, outputs, effect.name())?,
        Verb::Asks | Verb::Loads => {}
    }
    Ok(())
}

/// Appends what effects add to a key.
fn push_all_parts(
    alloc: Global,
    parts: &mut Vec<Part>,
    outputs: &View,
    effects: &[Effect],
) -> Mem<()>
    ensures { OnOk result (parts_of parts.new.items ≡ parts_of parts.old.items ++ parts_told outputs.now effects.now) }
{
    for effect in effects {
        push_parts(alloc, parts, outputs, effect)?;
    }
    Ok(())
}

/// The parts of a key, and what effects add to them.
fn parts_with(
    alloc: Global,
    parsed: &ParsedArguments,
    effects: &[Effect],
    parts: Vec<Part>,
) -> Mem<Vec<Part>>
    ensures { IfOk result (λ all. parts_of all.items ≡ parts_of parts.items ++ parts_told (view_of (made_paths (made (parsed_of parsed.now)))) effects.now) }
{
    let mut parts = parts;
    let files = made(alloc, parsed)?;
    let outputs = view_of(alloc, &files)?;
    push_all_parts(alloc, &mut parts, &outputs, effects)?;
    Ok(parts)
}

/// A key, and what effects add to it.
fn key_with(alloc: Global, parsed: &ParsedArguments, effects: &[Effect], key: Key) -> Mem<Key>
    ensures { IfOk result (λ with. key_told with ≡ key_with (parsed_of parsed.now) effects.now (key_told key)) }
{
    let parts = parts_with(alloc, parsed, effects, key.parts)?;
    Ok(Key {
        is_shown: key.is_shown,
        parts,
        direct: key.direct,
    })
}

/// What is said of a command line with this key, whose compiler has these effects.
fn under_effects(
    alloc: Global,
    parsed: &ParsedArguments,
    effects: &[Effect],
    key: Key,
) -> Mem<Keeping>
    ensures { IfOk result (λ kept. keeping_told kept ≡ keeping_by (barred effects.now) (key_with (parsed_of parsed.now) effects.now (key_told key))) }
{
    let why = barred(alloc, effects)?;
    if !why.is_empty() {
        return Ok(Keeping::Not(why));
    }
    let key = key_with(alloc, parsed, effects, key)?;
    Ok(Keeping::Under(key))
}

/// What is said of a command line with this record whose compiler has these effects: its key has the files that are read and
/// written by names of their own; there is none if something else is done that no row can stand for (docs/RULES.md, Keys).
pub fn with_effects(
    alloc: Global,
    parsed: &ParsedArguments,
    effects: &[Effect],
    keeping: Keeping,
) -> Mem<Keeping>
    ensures { IfOk result (λ kept. keeping_told kept ≡ with_effects (parsed_of parsed.now) effects.now (keeping_told keeping)) }
{
    match keeping {
        Keeping::Under(key) => under_effects(alloc, parsed, effects, key),
        Keeping::Not(why) => Ok(Keeping::Not(why)),
    }
}
