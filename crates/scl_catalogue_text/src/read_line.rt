//! Reads a line of a catalogue.
ghost use Rattle.std.specs.Prelude.{◌≡◌, map, Ok};
ghost use Rattle.std.specs.Option.{option_map};
ghost use Rattle.scl_catalogue.specs.Views.{group_of, tells_of};
ghost use Rattle.scl_catalogue_text.specs.Lines.{effect_read, group_line_by, group_line_read, is_comment, kind_read, line_by, line_of_kind, line_read, mistake_of, name_read, tells_named, without_first, NewEntry};
ghost use Rattle.scl_catalogue_text.specs.Outcome.{Reads};
ghost use Rattle.scl_catalogue_text.specs.SaidViews.{said_of};

use crate::cut::{cut_at, first_word, has_word, words};
use crate::file::check_file;
use crate::mistake::{Mistake, Part, Stop};
use crate::names::{EFFECT, Kind, Named, PLAIN, is};
use crate::read_case::case;
use crate::read_test::{group_named, tests};
use scl_catalogue::{Brings, Case, Danger, Doing, Group, Naming, Tells, Verb};
use std::alloc::Global;

/// What a line says.
#[derive(Drop)]
pub(crate) enum Said {
    Nothing,
    Group(Group),
    Entry(Tells, Vec<u8>),
    Says(Vec<u8>),
    Case(Case),
}

/// The entry of this name.
fn entry(alloc: Global, tells: Tells, name: &[u8]) -> Part<Said>
    ensures { Reads said_of result (Ok (NewEntry (tells_of tells) name.now)) }
{
    let name = Vec::from_slice(alloc, name)?;
    Ok(Said::Entry(tells, name))
}

#[tactic(auto, unfolding(crate::specs::Lines::effect_read))]
fn effect(alloc: Global, words: &[&[u8]]) -> Part<Said>
    ensures { Reads said_of result (effect_read (map (λ word. word.now) words.now)) }
{
    let [name, verb, file] = words else {
        return Err(Stop::Mistake(Mistake::WrongEntry));
    };
    let Some(verb) = Verb::named(verb) else {
        return Err(Stop::Mistake(Mistake::UnknownVerb));
    };
    check_file(alloc, file)?;
    let file = Vec::from_slice(alloc, file)?;
    entry(alloc, Tells::Effect(verb, file), name)
}

/// What is wrong with a word that is none of the list.
fn mistake_of(kind: Kind) -> Mistake
    ensures { result ≡ mistake_of kind }
{
    match kind {
        Kind::Hazard => Mistake::UnknownDanger,
        Kind::Key | Kind::Run => Mistake::UnknownDoing,
        Kind::Names => Mistake::UnknownNaming,
        Kind::Brings => Mistake::UnknownBrings,
    }
}

/// What an entry of the kind states that has this word.
fn tells_named(kind: Kind, what: &[u8]) -> Option<Tells>
    ensures { option_map tells_of result ≡ tells_named kind what.now }
{
    match kind {
        Kind::Hazard => Some(Tells::Hazard(Danger::named(what)?)),
        Kind::Key => Some(Tells::Key(Doing::named(what)?)),
        Kind::Run => Some(Tells::Run(Doing::named(what)?)),
        Kind::Names => Some(Tells::Names(Naming::named(what)?)),
        Kind::Brings => Some(Tells::Brings(Brings::named(what)?)),
    }
}

/// An entry that is a name and one word of a list.
#[tactic(auto, unfolding(crate::specs::Lines::kind_read))]
fn entry_of_kind(alloc: Global, kind: Kind, words: &[&[u8]]) -> Part<Said>
    ensures { Reads said_of result (kind_read kind (map (λ word. word.now) words.now)) }
{
    let [name, what] = words else {
        return Err(Stop::Mistake(Mistake::WrongEntry));
    };
    match tells_named(kind, what) {
        Some(tells) => entry(alloc, tells, name),
        None => Err(Stop::Mistake(mistake_of(kind))),
    }
}

/// Only a name, of an entry that states this.
#[tactic(auto, unfolding(crate::specs::Lines::name_read))]
fn named(alloc: Global, tells: Tells, words: &[&[u8]]) -> Part<Said>
    ensures { Reads said_of result (name_read (tells_of tells) (map (λ word. word.now) words.now)) }
{
    let [name] = words else {
        return Err(Stop::Mistake(Mistake::WrongEntry));
    };
    entry(alloc, tells, name)
}

/// A group of this name, whose tests follow the colon.
#[tactic(auto, unfolding(crate::specs::Lines::group_line_by))]
fn group_of(alloc: Global, groups: &[Group], name: &[u8], behind: &[u8]) -> Part<Said>
    ensures { Reads said_of result (group_line_by (map group_of groups.now) name.now behind.now) }
{
    if name.is_empty() {
        return Err(Stop::Mistake(Mistake::WrongGroup));
    }
    let Some((_, rest)) = behind.split_first() else {
        return Err(Stop::Mistake(Mistake::NoColon));
    };
    if group_named(groups, name).is_some() {
        return Err(Stop::Mistake(Mistake::NameTwice));
    }
    let name = Vec::from_slice(alloc, name)?;
    let tests = tests(alloc, rest)?;
    Ok(Said::Group(Group { name, tests }))
}

#[tactic(auto, unfolding(crate::specs::Lines::group_line_read))]
fn group(alloc: Global, groups: &[Group], bytes: &[u8]) -> Part<Said>
    ensures { Reads said_of result (group_line_read (map group_of groups.now) bytes.now) }
{
    let (head, behind) = cut_at(bytes, b':');
    let (name, others) = first_word(head);
    if has_word(others) {
        return Err(Stop::Mistake(Mistake::TooManyWords));
    }
    group_of(alloc, groups, name, behind)
}

/// The sentence after the first blank.
fn without_first(bytes: &[u8]) -> &[u8]
    ensures { result.now ≡ without_first bytes.now }
{
    match bytes.split_first() {
        Some((_, sentence)) => sentence,
        None => bytes,
    }
}

/// An entry of this kind, whose words are the others, or a case.
fn line_of_kind(
    alloc: Global,
    groups: &[Group],
    kind: Option<Kind>,
    others: &[u8],
    line: &[u8],
) -> Part<Said>
    ensures { Reads said_of result (line_of_kind (map group_of groups.now) kind others.now line.now) }
{
    if let Some(kind) = kind {
        let words = words(alloc, others)?;
        return entry_of_kind(alloc, kind, &words);
    }
    let case = case(alloc, groups, line)?;
    Ok(Said::Case(case))
}

/// A line that begins with this word, and goes on with the others.
#[tactic(auto, unfolding(crate::specs::Lines::line_by))]
fn line_named(
    alloc: Global,
    groups: &[Group],
    word: &[u8],
    others: &[u8],
    line: &[u8],
) -> Part<Said>
    ensures { Reads said_of result (line_by (map group_of groups.now) word.now others.now line.now) }
{
    if is(word, "says") {
        let says = Vec::from_slice(alloc, without_first(others))?;
        return Ok(Said::Says(says));
    }
    if is(word, "group") {
        return group(alloc, groups, others);
    }
    if is(word, EFFECT) {
        let words = words(alloc, others)?;
        return effect(alloc, &words);
    }
    if is(word, PLAIN) {
        let words = words(alloc, others)?;
        return named(alloc, Tells::Plain, &words);
    }
    line_of_kind(alloc, groups, Kind::named(word), others, line)
}

fn is_comment(line: &[u8]) -> bool
    ensures { result ≡ is_comment line.now }
{
    match line.first() {
        Some(byte) => *byte == b'#',
        None => false,
    }
}

/// What a line says, below lines that name these groups.
#[tactic(auto, unfolding(crate::specs::Lines::line_read))]
pub(crate) fn line(alloc: Global, groups: &[Group], line: &[u8]) -> Part<Said>
    ensures { Reads said_of result (line_read (map group_of groups.now) line.now) }
{
    let (word, others) = first_word(line);
    if word.is_empty() || is_comment(line) {
        return Ok(Said::Nothing);
    }
    line_named(alloc, groups, word, others, line)
}
