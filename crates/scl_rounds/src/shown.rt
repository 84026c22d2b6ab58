//! The texts that the runs of a key write, and the files that these name.
ghost use Rattle.std.specs.Prelude.{◌≡◌, ◌++◌, map, IfOk, OnOk};
ghost use Rattle.std.specs.List.{filter_map, flat_map, list_any};
ghost use Rattle.std.specs.Option.{option_copied};
ghost use Rattle.std.specs.Str.{bytes_eq};
ghost use Rattle.scl_values.specs.Words.{words_of};
ghost use Rattle.scl_key.specs.Views.{part_of, parts_of};
ghost use Rattle.scl_lookup.specs.Questions.{bytes};
ghost use Rattle.scl_rounds.specs.Runs.{marked_in};
ghost use Rattle.scl_rounds.specs.Shown.{all_sources, content_at, each_once, input_in, input_of, marked, searched, shown, shown_by, text_on, unmarked, with_name};
ghost use Rattle.scl_rounds.specs.Views.{key_in, machine_of};

use crate::answer::Told;
use crate::file::is_regular;
use crate::key::Key;
use crate::run::{has_failed, marked_in, ran};
use scl_key::Part;
use scl_questions::{Answer, Question, answer_to};
use scl_values::Mem;
use std::alloc::Global;

/// What a run wrote to standard output, if it did not fail.
fn text<'a>(told: &Told<'a>, words: &[Vec<u8>]) -> Mem<Option<&'a [u8]>>
    ensures { IfOk result (λ text. option_copied text ≡ text_on (machine_of told.now) (words_of words.now)) }
{
    match ran(told, words)? {
        Some(written) => Ok(Some(written.output.as_slice())),
        None => Ok(None),
    }
}

/// The text that a part shows.
pub(crate) fn shown_by<'a>(told: &Told<'a>, part: &Part) -> Mem<Option<&'a [u8]>>
    ensures { IfOk result (λ text. option_copied text ≡ shown_by (key_in told.now) (machine_of told.now) (part_of part.now)) }
{
    match part {
        Part::Run(words) => text(told, words),
        Part::RunElse(words) => {
            if has_failed(told)? {
                text(told, words)
            } else {
                Ok(None)
            }
        }
        Part::Is(_)
        | Part::Output(_)
        | Part::Directory
        | Part::Compiler
        | Part::Plan(_)
        | Part::Asked(_, _)
        | Part::Pch(_)
        | Part::Sources
        | Part::Times => Ok(None),
    }
}

/// The texts that the runs of a key wrote.
pub(crate) fn shown<'a>(told: &Told<'a>) -> Mem<Vec<&'a [u8]>>
    ensures { IfOk result (λ texts. map (λ text. text.now) texts.items ≡ shown (key_in told.now) (machine_of told.now)) }
{
    let mut texts = Vec::new(told.alloc);
    for part in told.key.parts {
        if let Some(text) = shown_by(told, part)? {
            texts.push(text)?;
        }
    }
    Ok(texts)
}

/// The files that the line markers of all texts name.
fn all_marked(alloc: Global, texts: &[&[u8]]) -> Mem<Vec<Vec<u8>>>
    ensures { IfOk result (λ names. words_of names.items ≡ flat_map marked_in (map (λ text. text.now) texts.now)) }
{
    let mut names = Vec::new(alloc);
    for text in texts {
        names.append(&mut marked_in(alloc, text)?)?;
    }
    Ok(names)
}

/// The input, if the fact names it.
fn input_in(fact: &[Vec<u8>]) -> Option<&[u8]>
    ensures { option_copied result ≡ input_in (words_of fact.now) }
{
    match fact {
        [name, value, ..] if name.as_slice() == b"input".as_slice() => Some(value.as_slice()),
        [_, _, ..] | [_] | [] => None,
    }
}

pub(crate) fn input_of(part: &Part) -> Option<&[u8]>
    ensures { option_copied result ≡ input_of (part_of part.now) }
{
    match part {
        Part::Is(fact) => input_in(fact),
        Part::Output(_)
        | Part::Directory
        | Part::Compiler
        | Part::Plan(_)
        | Part::Asked(_, _)
        | Part::Run(_)
        | Part::RunElse(_)
        | Part::Pch(_)
        | Part::Sources
        | Part::Times => None,
    }
}

/// Appends the input.
fn push_inputs(alloc: Global, names: &mut Vec<Vec<u8>>, key: &Key<'_>) -> Mem<()>
    ensures { OnOk result (words_of names.new.items ≡ words_of names.old.items ++ filter_map input_of (parts_of key.now.parts.now)) }
{
    for part in key.parts {
        if let Some(name) = input_of(part) {
            names.push(Vec::from_slice(alloc, name)?)?;
        }
    }
    Ok(())
}

fn is_among(name: &[u8], names: &[Vec<u8>]) -> bool
    ensures { result ≡ list_any (λ other. bytes_eq other name.now) (words_of names.now) }
{
    for other in names {
        if other.as_slice() == name {
            return true;
        }
    }
    false
}

/// Appends a name, unless it is there.
fn push_new(names: &mut Vec<Vec<u8>>, name: Vec<u8>) -> Mem<()>
    ensures { OnOk result (words_of names.new.items ≡ with_name (words_of names.old.items) name.items) }
{
    if !is_among(&name, names) {
        names.push(name)?;
    }
    Ok(())
}

/// Names, each once.
#[tactic(auto, using(crate::proofs::OnceLemmas::once_with_name))]
pub(crate) fn each_once(alloc: Global, names: Vec<Vec<u8>>) -> Mem<Vec<Vec<u8>>>
    ensures { IfOk result (λ once. words_of once.items ≡ each_once (words_of names.items)) }
{
    let mut once = Vec::new(alloc);
    for name in names {
        push_new(&mut once, name)?;
    }
    Ok(once)
}

/// The files that the runs name.
pub(crate) fn marked(told: &Told<'_>) -> Mem<Vec<Vec<u8>>>
    ensures { IfOk result (λ names. words_of names.items ≡ marked (key_in told.now) (machine_of told.now)) }
{
    let names = all_marked(told.alloc, &shown(told)?)?;
    each_once(told.alloc, names)
}

/// The files that the runs name, and the input.
pub(crate) fn all_sources(told: &Told<'_>) -> Mem<Vec<Vec<u8>>>
    ensures { IfOk result (λ names. words_of names.items ≡ all_sources (key_in told.now) (machine_of told.now)) }
{
    let mut names = all_marked(told.alloc, &shown(told)?)?;
    push_inputs(told.alloc, &mut names, told.key)?;
    each_once(told.alloc, names)
}

/// The input, if the runs name no file.
pub(crate) fn unmarked(told: &Told<'_>) -> Mem<Vec<Vec<u8>>>
    ensures { IfOk result (λ names. words_of names.items ≡ unmarked (key_in told.now) (machine_of told.now)) }
{
    let names = marked(told)?;
    let mut inputs = Vec::new(told.alloc);
    if names.is_empty() {
        push_inputs(told.alloc, &mut inputs, told.key)?;
    }
    Ok(inputs)
}

/// The bytes of a file, as they were answered.
fn content<'a>(told: &Told<'a>, name: &[u8]) -> Mem<Option<&'a [u8]>>
    ensures { IfOk result (λ text. option_copied text ≡ machine_of told.now (bytes name.now)) }
{
    let question = Question::Bytes(Vec::from_slice(told.alloc, name)?);
    if let Some(Answer::Bytes(Some(text))) = answer_to(&question, told.asked, told.answers) {
        return Ok(Some(text.as_slice()));
    }
    Ok(None)
}

/// The bytes of what is a file.
pub(crate) fn content_at<'a>(told: &Told<'a>, name: &[u8]) -> Mem<Option<&'a [u8]>>
    ensures { IfOk result (λ text. option_copied text ≡ content_at (machine_of told.now) name.now) }
{
    if !is_regular(told, name)? {
        return Ok(None);
    }
    content(told, name)
}

/// Appends the bytes of what are files.
fn push_contents<'a>(texts: &mut Vec<&'a [u8]>, told: &Told<'a>, names: &[Vec<u8>]) -> Mem<()>
    ensures { OnOk result (map (λ text. text.now) texts.new.items ≡ map (λ text. text.now) texts.old.items ++ filter_map (content_at (machine_of told.now)) (words_of names.now)) }
{
    for name in names {
        if let Some(text) = content_at(told, name)? {
            texts.push(text)?;
        }
    }
    Ok(())
}

/// The texts of the runs, and the input if they name no file.
pub(crate) fn searched<'a>(told: &Told<'a>) -> Mem<Vec<&'a [u8]>>
    ensures { IfOk result (λ texts. map (λ text. text.now) texts.items ≡ searched (key_in told.now) (machine_of told.now)) }
{
    let names = unmarked(told)?;
    let mut texts = shown(told)?;
    push_contents(&mut texts, told, &names)?;
    Ok(texts)
}
