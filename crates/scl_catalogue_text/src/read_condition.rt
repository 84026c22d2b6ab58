//! Reads conditions.
ghost use Rattle.std.specs.Prelude.{◌≡◌, map};
ghost use Rattle.scl_catalogue.specs.Views.{condition_of, group_of, question_of, relation_of};
ghost use Rattle.scl_catalogue_text.specs.Outcome.{each, Reads};
ghost use Rattle.scl_catalogue_text.specs.Reading.{condition_by, condition_read, conditions_read, is_relation, of_one, of_two, question_by, relation_of_one, relation_of_parts, relation_of_two, relation_read};

use crate::cut::{first_word, has_word, is_one_part, parts};
use crate::mistake::{Mistake, Part, Stop};
use crate::names::{Named, is};
use crate::read_test::group;
use crate::read_text::text;
use scl_catalogue::{Condition, Fact, Group, Place, Question, Relation};
use std::alloc::Global;

/// Whether a relation has this name.
#[tactic(auto, unfolding(crate::specs::Reading::is_relation))]
fn is_relation(name: &[u8]) -> bool
    ensures { result ≡ is_relation name.now }
{
    is(name, "any")
        || is(name, "two")
        || is(name, "before")
        || is(name, "unfollowed")
        || is(name, "last")
}

#[tactic(auto, unfolding(crate::specs::Reading::of_one))]
fn of_one(name: &[u8], only: Group) -> Part<Relation>
    ensures { Reads relation_of result (of_one name.now (group_of only)) }
{
    if is(name, "any") {
        Ok(Relation::Any(only))
    } else if is(name, "two") {
        Ok(Relation::Two(only))
    } else {
        Err(Stop::Mistake(Mistake::WrongNumberOfGroups))
    }
}

#[tactic(auto, unfolding(crate::specs::Reading::of_two))]
fn of_two(name: &[u8], first: Group, second: Group) -> Part<Relation>
    ensures { Reads relation_of result (of_two name.now (group_of first) (group_of second)) }
{
    if is(name, "before") {
        Ok(Relation::Before(first, second))
    } else if is(name, "unfollowed") {
        Ok(Relation::Unfollowed(first, second))
    } else if is(name, "last") {
        Ok(Relation::Last(first, second))
    } else {
        Err(Stop::Mistake(Mistake::WrongNumberOfGroups))
    }
}

#[tactic(auto, unfolding(crate::specs::Reading::relation_of_one))]
fn relation_of_one(alloc: Global, groups: &[Group], name: &[u8], only: &[u8]) -> Part<Relation>
    ensures { Reads relation_of result (relation_of_one (map group_of groups.now) name.now only.now) }
{
    let only = group(alloc, groups, only)?;
    of_one(name, only)
}

#[tactic(auto, unfolding(crate::specs::Reading::relation_of_two))]
fn relation_of_two(
    alloc: Global,
    groups: &[Group],
    name: &[u8],
    first: &[u8],
    second: &[u8],
) -> Part<Relation>
    ensures { Reads relation_of result (relation_of_two (map group_of groups.now) name.now first.now second.now) }
{
    let first = group(alloc, groups, first)?;
    let second = group(alloc, groups, second)?;
    of_two(name, first, second)
}

#[tactic(auto, unfolding(crate::specs::Reading::relation_of_parts))]
fn relation_of(alloc: Global, groups: &[Group], name: &[u8], parts: &[&[u8]]) -> Part<Relation>
    ensures { Reads relation_of result (relation_of_parts (map group_of groups.now) name.now (map (λ part. part.now) parts.now)) }
{
    match parts {
        [only] => relation_of_one(alloc, groups, name, only),
        [first, second] => relation_of_two(alloc, groups, name, first, second),
        _ => Err(Stop::Mistake(Mistake::WrongNumberOfGroups)),
    }
}

/// The relation of the name, whose groups have `>` between them.
#[tactic(auto, unfolding(crate::specs::Reading::relation_read, crate::specs::Reading::relation_of_parts))]
fn relation(alloc: Global, groups: &[Group], name: &[u8], bytes: &[u8]) -> Part<Relation>
    ensures { Reads relation_of result (relation_read (map group_of groups.now) name.now bytes.now) }
{
    if !is_relation(name) {
        return Err(Stop::Mistake(Mistake::UnknownQuestion));
    }
    if is_one_part(bytes, b'>') {
        return relation_of_one(alloc, groups, name, bytes);
    }
    let parts = parts(alloc, bytes, b'>')?;
    relation_of(alloc, groups, name, &parts)
}

#[tactic(auto, unfolding(crate::specs::Reading::question_by))]
fn question(alloc: Global, groups: &[Group], word: &[u8], others: &[u8]) -> Part<Question>
    ensures { Reads question_of result (question_by (map group_of groups.now) word.now others.now) }
{
    if let Some(fact) = Fact::named(word) {
        return if has_word(others) {
            Err(Stop::Mistake(Mistake::TooManyWords))
        } else {
            Ok(Question::Is(fact))
        };
    }
    if let Some(place) = Place::named(word) {
        let text = text(alloc, others)?;
        return Ok(Question::At(place, text));
    }
    if is(word, "inner") {
        let (word, others) = first_word(others);
        let relation = relation(alloc, groups, word, others)?;
        return Ok(Question::Inner(relation));
    }
    let relation = relation(alloc, groups, word, others)?;
    Ok(Question::Given(relation))
}

#[tactic(auto, unfolding(crate::specs::Reading::condition_by))]
fn condition_of(alloc: Global, groups: &[Group], word: &[u8], others: &[u8]) -> Part<Condition>
    ensures { Reads condition_of result (condition_by (map group_of groups.now) word.now others.now) }
{
    if is(word, "not") {
        let (word, others) = first_word(others);
        let question = question(alloc, groups, word, others)?;
        return Ok(Condition {
            is_denied: true,
            question,
        });
    }
    let question = question(alloc, groups, word, others)?;
    Ok(Condition {
        is_denied: false,
        question,
    })
}

#[tactic(auto, unfolding(crate::specs::Reading::condition_read))]
fn condition(alloc: Global, groups: &[Group], bytes: &[u8]) -> Part<Condition>
    ensures { Reads condition_of result (condition_read (map group_of groups.now) bytes.now) }
{
    let (word, others) = first_word(bytes);
    condition_of(alloc, groups, word, others)
}

fn each_condition(alloc: Global, groups: &[Group], parts: &[&[u8]]) -> Part<Vec<Condition>>
    ensures { Reads (λ all. map condition_of all.items) result (each (condition_read (map group_of groups.now)) (map (λ part. part.now) parts.now)) }
{
    let mut all = Vec::with_capacity(alloc, parts.len())?;
    for part in parts {
        let one = condition(alloc, groups, part)?;
        all.push(one)?;
    }
    Ok(all)
}

/// Conditions with `;` between them.
#[tactic(auto, unfolding(crate::specs::Reading::conditions_read))]
pub(crate) fn conditions(alloc: Global, groups: &[Group], bytes: &[u8]) -> Part<Vec<Condition>>
    ensures { Reads (λ all. map condition_of all.items) result (conditions_read (map group_of groups.now) bytes.now) }
{
    if is_one_part(bytes, b';') {
        let only = condition(alloc, groups, bytes)?;
        return Ok(vec![in alloc; only]?);
    }
    let parts = parts(alloc, bytes, b';')?;
    each_condition(alloc, groups, &parts)
}
