//! Reads tests and groups.
ghost use Rattle.std.specs.Prelude.{◌≡◌, map};
ghost use Rattle.std.specs.Option.{option_map};
ghost use Rattle.scl_catalogue.specs.Views.{demand_of, group_of, test_of};
ghost use Rattle.scl_catalogue_text.specs.declared.mistake.Mistake.TheVariants as mistake;
ghost use Rattle.scl_catalogue_text.specs.Outcome.{each, or_mistake, Reads};
ghost use Rattle.scl_catalogue_text.specs.Reading.{demand_by, demand_read, group_named, group_of_words, group_read, group_without_name, test_by, test_read, tests_read};

use crate::cut::{first_word, has_word, is_one_part, next_word, parts};
use crate::mistake::{Mistake, Part, Stop};
use crate::names::{Named, is};
use crate::read_text::text;
use scl_catalogue::{Class, Demand, Group, Mark, Test};
use std::alloc::Global;

#[tactic(auto, unfolding(crate::specs::Reading::demand_by))]
fn demand_named(alloc: Global, word: &[u8], others: &[u8]) -> Part<Demand>
    ensures { Reads demand_of result (demand_by word.now others.now) }
{
    if is(word, "value") {
        let text = text(alloc, others)?;
        return Ok(Demand::Value(text));
    }
    if is(word, "part") {
        let text = text(alloc, others)?;
        return Ok(Demand::Part(text));
    }
    let Some(mark) = Mark::named(word) else {
        return Err(Stop::Mistake(Mistake::UnknownDemand));
    };
    if has_word(others) {
        return Err(Stop::Mistake(Mistake::TooManyWords));
    }
    Ok(Demand::Marked(mark))
}

#[tactic(auto, unfolding(crate::specs::Reading::demand_read))]
fn demand(alloc: Global, bytes: &[u8]) -> Part<Demand>
    ensures { Reads demand_of result (demand_read bytes.now) }
{
    let (word, others) = first_word(bytes);
    demand_named(alloc, word, others)
}

fn demands(alloc: Global, parts: &[&[u8]]) -> Part<Vec<Demand>>
    ensures { Reads (λ all. map demand_of all.items) result (each demand_read (map (λ part. part.now) parts.now)) }
{
    let mut all = Vec::with_capacity(alloc, parts.len())?;
    for part in parts {
        let one = demand(alloc, part)?;
        all.push(one)?;
    }
    Ok(all)
}

/// A test whose names stand in the first part, and whose demands are the others.
#[tactic(auto, unfolding(crate::specs::Reading::test_by))]
fn test_of(alloc: Global, first: &[u8], others: &[&[u8]]) -> Part<Test>
    ensures { Reads test_of result (test_by first.now (map (λ part. part.now) others.now)) }
{
    let (word, names) = first_word(first);
    let Some(class) = Class::named(word) else {
        return Err(Stop::Mistake(Mistake::UnknownClass));
    };
    let names = text(alloc, names)?;
    let demands = demands(alloc, others)?;
    Ok(Test {
        class,
        names,
        demands,
    })
}

#[tactic(auto, unfolding(crate::specs::Reading::test_read))]
fn test(alloc: Global, bytes: &[u8]) -> Part<Test>
    ensures { Reads test_of result (test_read bytes.now) }
{
    if is_one_part(bytes, b'&') {
        return test_of(alloc, bytes, &[]);
    }
    let parts = parts(alloc, bytes, b'&')?;
    match parts.split_first() {
        Some((first, others)) => test_of(alloc, first, others),
        None => Err(Stop::Mistake(Mistake::UnknownClass)),
    }
}

fn each_test(alloc: Global, parts: &[&[u8]]) -> Part<Vec<Test>>
    ensures { Reads (λ all. map test_of all.items) result (each test_read (map (λ part. part.now) parts.now)) }
{
    let mut all = Vec::with_capacity(alloc, parts.len())?;
    for part in parts {
        let one = test(alloc, part)?;
        all.push(one)?;
    }
    Ok(all)
}

/// Tests with `|` between them.
#[tactic(auto, unfolding(crate::specs::Reading::tests_read))]
pub(crate) fn tests(alloc: Global, bytes: &[u8]) -> Part<Vec<Test>>
    ensures { Reads (λ all. map test_of all.items) result (tests_read bytes.now) }
{
    if is_one_part(bytes, b'|') {
        let only = test(alloc, bytes)?;
        return Ok(vec![in alloc; only]?);
    }
    let parts = parts(alloc, bytes, b'|')?;
    each_test(alloc, &parts)
}

/// The group of the name.
pub(crate) fn group_named<'a>(groups: &'a [Group], name: &[u8]) -> Option<&'a Group>
    ensures { option_map (λ group. group_of group.now) result ≡ group_named (map group_of groups.now) name.now }
{
    for group in groups {
        if group.name.as_slice() == name {
            return Some(group);
        }
    }
    None
}

fn group_of(alloc: Global, groups: &[Group], name: &[u8]) -> Part<Group>
    ensures { Reads group_of result (or_mistake mistake.UnknownGroup (group_named (map group_of groups.now) name.now)) }
{
    match group_named(groups, name) {
        Some(group) => Ok(group.copied(alloc)?),
        None => Err(Stop::Mistake(Mistake::UnknownGroup)),
    }
}

fn group_without_name(alloc: Global, bytes: &[u8]) -> Part<Group>
    ensures { Reads group_of result (group_without_name bytes.now) }
{
    let tests = tests(alloc, bytes)?;
    Ok(Group {
        name: Vec::new(alloc),
        tests,
    })
}

/// The group that is named by one word, or whose tests stand there.
#[tactic(auto, unfolding(crate::specs::Reading::group_read, crate::specs::Reading::group_of_words))]
pub(crate) fn group(alloc: Global, groups: &[Group], bytes: &[u8]) -> Part<Group>
    ensures { Reads group_of result (group_read (map group_of groups.now) bytes.now) }
{
    let Some((name, others)) = next_word(bytes) else {
        return group_without_name(alloc, bytes);
    };
    if next_word(others).is_some() {
        return group_without_name(alloc, bytes);
    }
    group_of(alloc, groups, name)
}
