//! Reads cases.
ghost use Rattle.std.specs.Prelude.{◌≡◌, ◌∷◌, [], map};
ghost use Rattle.scl_catalogue.specs.Views.{case_of, group_of};
ghost use Rattle.scl_catalogue_text.specs.Outcome.{each, Reads};
ghost use Rattle.scl_catalogue_text.specs.Reading.{all_served, bound_read, case_read, number_from, number_read, one_bound, served_by, served_of_words, served_read, two_bounds, version_read, with_digit};

use crate::cut::{cut_at, is_one_part, next_word, parts, words};
use crate::mistake::{Mistake, Part, Stop};
use crate::names::{Named, is};
use crate::read_condition::conditions;
use scl_catalogue::{Case, Compiler, Group, Served, Version};
use std::alloc::Global;

/// The number that goes on with this digit.
fn with_digit(number: u32, byte: u8) -> Option<u32>
    ensures { result ≡ with_digit number byte }
{
    match byte {
        b'0'..=b'9' => number.checked_mul(10)?.checked_add(u32::from(byte - b'0')),
        _ => None,
    }
}

/// A number below 2^32.
#[tactic(auto, unfolding(crate::specs::Reading::number_read))]
fn number(word: &[u8]) -> Option<u32>
    ensures { result ≡ number_read word.now }
{
    if word.is_empty() {
        return None;
    }
    let mut number = 0;
    for byte in word {
        number = with_digit(number, *byte)?;
    }
    Some(number)
}

/// A version: a number, or two with a dot between them.
#[tactic(auto, unfolding(crate::specs::Reading::version_read))]
pub fn version(word: &[u8]) -> Option<Version>
    ensures { result ≡ version_read word.now }
{
    let (major, behind) = cut_at(word, b'.');
    let major = number(major)?;
    let minor = match behind.split_first() {
        Some((_, minor)) => number(minor)?,
        None => 0,
    };
    Some(Version { major, minor })
}

fn bound(word: &[u8]) -> Part<Version>
    ensures { Reads (λ version. version) result (bound_read word.now) }
{
    match version(word) {
        Some(version) => Ok(version),
        None => Err(Stop::Mistake(Mistake::WrongVersion)),
    }
}

#[tactic(auto, unfolding(crate::specs::Reading::one_bound))]
fn one_bound(compiler: Compiler, word: &[u8], version: &[u8]) -> Part<Served>
    ensures { Reads (λ served. served) result (one_bound compiler word.now version.now) }
{
    let is_first = is(word, "since");
    if !is_first && !is(word, "until") {
        return Err(Stop::Mistake(Mistake::UnknownCompiler));
    }
    let version = Some(bound(version)?);
    Ok(Served {
        compiler,
        since: if is_first { version } else { None },
        until: if is_first { None } else { version },
    })
}

#[tactic(auto, unfolding(crate::specs::Reading::two_bounds))]
fn two_bounds(
    compiler: Compiler,
    word: &[u8],
    first: &[u8],
    other: &[u8],
    last: &[u8],
) -> Part<Served>
    ensures { Reads (λ served. served) result (two_bounds compiler word.now first.now other.now last.now) }
{
    if !is(word, "since") || !is(other, "until") {
        return Err(Stop::Mistake(Mistake::UnknownCompiler));
    }
    let since = bound(first)?;
    let until = bound(last)?;
    Ok(Served {
        compiler,
        since: Some(since),
        until: Some(until),
    })
}

#[tactic(auto, unfolding(crate::specs::Reading::served_by))]
fn served_by(compiler: Compiler, words: &[&[u8]]) -> Part<Served>
    ensures { Reads (λ served. served) result (served_by compiler (map (λ word. word.now) words.now)) }
{
    match words {
        [] => Ok(Served {
            compiler,
            since: None,
            until: None,
        }),
        [word, version] => one_bound(compiler, word, version),
        [word, first, other, last] => two_bounds(compiler, word, first, other, last),
        _ => Err(Stop::Mistake(Mistake::UnknownCompiler)),
    }
}

fn served_of(words: &[&[u8]]) -> Part<Served>
    ensures { Reads (λ served. served) result (served_of_words (map (λ word. word.now) words.now)) }
{
    let Some((name, others)) = words.split_first() else {
        return Err(Stop::Mistake(Mistake::UnknownCompiler));
    };
    let Some(compiler) = Compiler::named(name) else {
        return Err(Stop::Mistake(Mistake::UnknownCompiler));
    };
    served_by(compiler, others)
}

/// The compiler of the name, of each version.
#[tactic(auto, unfolding(crate::specs::Reading::served_by))]
fn served_always(name: &[u8]) -> Part<Served>
    ensures { Reads (λ served. served) result (served_of_words (name.now ∷ [])) }
{
    match Compiler::named(name) {
        Some(compiler) => Ok(Served {
            compiler,
            since: None,
            until: None,
        }),
        None => Err(Stop::Mistake(Mistake::UnknownCompiler)),
    }
}

#[tactic(auto, unfolding(crate::specs::Reading::served_read))]
fn served(alloc: Global, bytes: &[u8]) -> Part<Served>
    ensures { Reads (λ served. served) result (served_read bytes.now) }
{
    let Some((name, others)) = next_word(bytes) else {
        return Err(Stop::Mistake(Mistake::UnknownCompiler));
    };
    if next_word(others).is_none() {
        return served_always(name);
    }
    let words = words(alloc, bytes)?;
    served_of(&words)
}

fn each_served(alloc: Global, parts: &[&[u8]]) -> Part<Vec<Served>>
    ensures { Reads (λ all. all.items) result (each served_read (map (λ part. part.now) parts.now)) }
{
    let mut all = Vec::with_capacity(alloc, parts.len())?;
    for part in parts {
        let one = served(alloc, part)?;
        all.push(one)?;
    }
    Ok(all)
}

#[tactic(auto, unfolding(crate::specs::Reading::all_served))]
fn all_served(alloc: Global, bytes: &[u8]) -> Part<Vec<Served>>
    ensures { Reads (λ all. all.items) result (all_served bytes.now) }
{
    if is_one_part(bytes, b',') {
        let only = served(alloc, bytes)?;
        return Ok(vec![in alloc; only]?);
    }
    let parts = parts(alloc, bytes, b',')?;
    each_served(alloc, &parts)
}

/// A case: its compilers, a colon and its conditions.
#[tactic(auto, unfolding(crate::specs::Reading::case_read))]
pub(crate) fn case(alloc: Global, groups: &[Group], line: &[u8]) -> Part<Case>
    ensures { Reads case_of result (case_read (map group_of groups.now) line.now) }
{
    let (compilers, behind) = cut_at(line, b':');
    let Some((_, rest)) = behind.split_first() else {
        return Err(Stop::Mistake(Mistake::UnknownLine));
    };
    let served = all_served(alloc, compilers)?;
    let conditions = conditions(alloc, groups, rest)?;
    Ok(Case { served, conditions })
}
