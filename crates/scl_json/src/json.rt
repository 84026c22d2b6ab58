//! Rows as an object of JSON.
ghost use Rattle.std.specs.Prelude.{◌≡◌, ◌++◌, ◌∷◌, [], IfOk, OnOk, MatchOption, map};
ghost use Rattle.std.specs.List.{flat_map, list_any};
ghost use Rattle.std.specs.Str.{bytes_eq};
ghost use Rattle.scl_values.specs.Words.{words_of};
ghost use Rattle.scl_text.specs.Records.{distinct_words};
ghost use Rattle.scl_text.specs.Runs.{runs_of};
ghost use Rattle.scl_description.specs.Records.{first_field};
ghost use Rattle.scl_description.specs.Rows.{behind, entry, rests_at};
ghost use Rattle.scl_json.specs.Objects.{entries_in, entry_at, json_of, member_of, names_in, with_name};
ghost use Rattle.scl_json.specs.Texts.{behind_comma, joined};
ghost use Rattle.scl_json.specs.Rests.{rests_of};

use crate::members::{Form, member_of};
use crate::text::push_member;
use crate::value::{Rest, push_value_in};
use scl_text::Mem;
use std::alloc::Global;

/// What follows a row's first field, if that is the name.
fn behind<'a>(row: &'a [Vec<u8>], name: &[u8]) -> Option<&'a [Vec<u8>]>
    ensures { MatchOption result (behind name.now (words_of row.now) ≡ []) (λ rest. behind name.now (words_of row.now) ≡ words_of rest.now ∷ []) }
{
    match row {
        [first, rest @ ..] if first.as_slice() == name => Some(rest),
        _ => None,
    }
}

/// What follows the name in each of its rows, in order.
fn rests_at<'a>(alloc: Global, rows: &'a [Vec<Vec<u8>>], name: &[u8]) -> Mem<Vec<&'a [Vec<u8>]>>
    ensures { IfOk result (λ rests. rests_of rests.items ≡ rests_at (runs_of rows.now) name.now) }
{
    let mut rests = Vec::new(alloc);
    for row in rows {
        if let Some(rest) = behind(row, name) {
            rests.push(rest)?;
        }
    }
    Ok(rests)
}

/// Appends the member of the rows of a name that the table has, or of any other.
fn push_member_in(json: &mut Vec<u8>, name: &[u8], rests: &[Rest<'_>]) -> Mem<()>
    ensures { OnOk result (json.new.items ≡ json.old.items ++ member_of (entry name.now (rests_of rests.now))) }
{
    match member_of(name) {
        Some(found) => {
            push_member(json, found.name.as_bytes())?;
            push_value_in(json, found.form, found.fields, name, rests)
        }
        None => {
            push_member(json, name)?;
            push_value_in(json, Form::Rows, &[], name, rests)
        }
    }
}

/// Appends the member of the rows of a name.
fn push_member_at(alloc: Global, json: &mut Vec<u8>, rows: &[Vec<Vec<u8>>], name: &[u8]) -> Mem<()>
    ensures { OnOk result (json.new.items ≡ json.old.items ++ member_of (entry_at (runs_of rows.now) name.now)) }
{
    let rests = rests_at(alloc, rows, name)?;
    push_member_in(json, name, &rests)
}

fn is_among(word: &[u8], words: &[Vec<u8>]) -> bool
    ensures { result ≡ list_any (bytes_eq word.now) (words_of words.now) }
{
    for other in words {
        if word == other.as_slice() {
            return true;
        }
    }
    false
}

/// Appends a name, if it is not among them.
fn put_name(alloc: Global, names: &mut Vec<Vec<u8>>, name: &[u8]) -> Mem<()>
    ensures { OnOk result (words_of names.new.items ≡ with_name (words_of names.old.items) name.now) }
{
    if !is_among(name, names) {
        names.push(Vec::from_slice(alloc, name)?)?;
    }
    Ok(())
}

/// Words, each at its first place.
#[tactic(auto, using(crate::proofs::NameLaws::name_rules))]
fn distinct(alloc: Global, words: &[Vec<u8>]) -> Mem<Vec<Vec<u8>>>
    ensures { IfOk result (λ names. words_of names.items ≡ distinct_words (words_of words.now)) }
{
    let mut names = Vec::new(alloc);
    for word in words {
        put_name(alloc, &mut names, word)?;
    }
    Ok(names)
}

fn push_firsts(alloc: Global, names: &mut Vec<Vec<u8>>, firsts: &[&str]) -> Mem<()>
    ensures { OnOk result (words_of names.new.items ≡ words_of names.old.items ++ map (λ first. first.now) firsts.now) }
{
    for first in firsts {
        names.push(Vec::from_slice(alloc, first.as_bytes())?)?;
    }
    Ok(())
}

fn first_field(row: &[Vec<u8>]) -> &[u8]
    ensures { result.now ≡ first_field (words_of row.now) }
{
    match row {
        [first, ..] => first,
        [] => b"",
    }
}

/// Appends the names of rows.
fn push_named(alloc: Global, names: &mut Vec<Vec<u8>>, rows: &[Vec<Vec<u8>>]) -> Mem<()>
    ensures { OnOk result (words_of names.new.items ≡ words_of names.old.items ++ map first_field (runs_of rows.now)) }
{
    for row in rows {
        names.push(Vec::from_slice(alloc, first_field(row))?)?;
    }
    Ok(())
}

/// Some names, and then those of rows in the order of their first rows; each once.
fn names_in(alloc: Global, firsts: &[&str], rows: &[Vec<Vec<u8>>]) -> Mem<Vec<Vec<u8>>>
    ensures { IfOk result (λ names. words_of names.items ≡ names_in (map (λ first. first.now) firsts.now) (runs_of rows.now)) }
{
    let mut names = Vec::new(alloc);
    push_firsts(alloc, &mut names, firsts)?;
    push_named(alloc, &mut names, rows)?;
    distinct(alloc, &names)
}

/// Appends the members of names, a comma before each.
fn push_members_behind(
    alloc: Global,
    json: &mut Vec<u8>,
    rows: &[Vec<Vec<u8>>],
    names: &[Vec<u8>],
) -> Mem<()>
    ensures { OnOk result (json.new.items ≡ json.old.items ++ flat_map behind_comma (map member_of (map (entry_at (runs_of rows.now)) (words_of names.now)))) }
{
    for name in names {
        json.push(b',')?;
        push_member_at(alloc, json, rows, name)?;
    }
    Ok(())
}

/// Appends the members of names, a comma between two.
fn push_members(
    alloc: Global,
    json: &mut Vec<u8>,
    rows: &[Vec<Vec<u8>>],
    names: &[Vec<u8>],
) -> Mem<()>
    ensures { OnOk result (json.new.items ≡ json.old.items ++ joined (map member_of (map (entry_at (runs_of rows.now)) (words_of names.now)))) }
{
    if let Some((first, others)) = names.split_first() {
        push_member_at(alloc, json, rows, first)?;
        push_members_behind(alloc, json, rows, others)?;
    }
    Ok(())
}

/// Appends an object with a member for each name in rows, in the order of their first rows; before them those of `firsts`, even if
/// there is no row of such a name (docs/PROTOCOL.md, JSON).
pub fn push_json(
    alloc: Global,
    json: &mut Vec<u8>,
    firsts: &[&str],
    rows: &[Vec<Vec<u8>>],
) -> Mem<()>
    ensures { OnOk result (json.new.items ≡ json.old.items ++ json_of (entries_in (map (λ first. first.now) firsts.now) (runs_of rows.now))) }
{
    let names = names_in(alloc, firsts, rows)?;
    json.push(b'{')?;
    push_members(alloc, json, rows, &names)?;
    json.push(b'}')?;
    Ok(())
}

/// The object that `push_json` appends.
pub fn json_of(alloc: Global, firsts: &[&str], rows: &[Vec<Vec<u8>>]) -> Mem<Vec<u8>>
    ensures { IfOk result (λ json. json.items ≡ json_of (entries_in (map (λ first. first.now) firsts.now) (runs_of rows.now))) }
{
    let mut json = Vec::new(alloc);
    push_json(alloc, &mut json, firsts, rows)?;
    Ok(json)
}
