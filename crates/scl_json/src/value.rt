//! Values of members.
ghost use Rattle.std.specs.Prelude.{◌≡◌, ◌++◌, OnOk, codes, map};
ghost use Rattle.std.specs.List.{flat_map, list_all};
ghost use Rattle.scl_values.specs.Words.{words_of};
ghost use Rattle.scl_json.specs.Objects.{first_by, is_digit, is_number, item_of, members_by, number_of, object_by, says_yes, truth, value_in, value_of};
ghost use Rattle.scl_json.specs.Rests.{rests_of};
ghost use Rattle.scl_json.specs.Texts.{array, behind_comma, joined, member, text, texts};

use crate::members::Form;
use crate::text::{push_member, push_text, push_texts};
use scl_text::Mem;

/// The fields of a row after its name.
pub(crate) type Rest<'a> = &'a [Vec<u8>];

/// Appends what follows a row's name.
fn push_value(json: &mut Vec<u8>, rest: &[Vec<u8>]) -> Mem<()>
    ensures { OnOk result (json.new.items ≡ json.old.items ++ value_of (words_of rest.now)) }
{
    match rest {
        [word] => push_text(json, word),
        _ => push_texts(json, rest),
    }
}

fn is_digit(byte: u8) -> bool
    ensures { result ≡ is_digit byte }
{
    matches!(byte, b'0'..=b'9')
}

fn are_digits(word: &[u8]) -> bool
    ensures { result ≡ list_all is_digit word.now }
{
    word.iter().all(|byte| is_digit(*byte))
}

fn is_number(word: &[u8]) -> bool
    ensures { result ≡ is_number word.now }
{
    !word.is_empty() && are_digits(word) && (word.len() == 1 || !word.starts_with(b"0"))
}

fn push_number(json: &mut Vec<u8>, rest: &[Vec<u8>]) -> Mem<()>
    ensures { OnOk result (json.new.items ≡ json.old.items ++ number_of (words_of rest.now)) }
{
    match rest {
        [word] if is_number(word) => json.extend_from_slice(word),
        _ => push_value(json, rest),
    }
}

fn push_truth(json: &mut Vec<u8>, holds: bool) -> Mem<()>
    ensures { OnOk result (json.new.items ≡ json.old.items ++ truth holds) }
{
    if holds {
        json.extend_from_slice(b"true")
    } else {
        json.extend_from_slice(b"false")
    }
}

fn says_yes(rest: &[Vec<u8>]) -> bool
    ensures { result ≡ says_yes (words_of rest.now) }
{
    match rest {
        [word, ..] => word.as_slice() == b"yes".as_slice(),
        [] => false,
    }
}

fn push_null(json: &mut Vec<u8>) -> Mem<()>
    ensures { OnOk result (json.new.items ≡ json.old.items ++ codes "null") }
{
    json.extend_from_slice(b"null")
}

fn push_first_number(json: &mut Vec<u8>, rests: &[Rest<'_>]) -> Mem<()>
    ensures { OnOk result (json.new.items ≡ json.old.items ++ first_by number_of (rests_of rests.now)) }
{
    match rests {
        [rest, ..] => push_number(json, rest),
        [] => push_null(json),
    }
}

fn push_first_truth(json: &mut Vec<u8>, rests: &[Rest<'_>]) -> Mem<()>
    ensures { OnOk result (json.new.items ≡ json.old.items ++ first_by (λ rest. truth (says_yes rest)) (rests_of rests.now)) }
{
    match rests {
        [rest, ..] => push_truth(json, says_yes(rest)),
        [] => push_null(json),
    }
}

fn push_first_value(json: &mut Vec<u8>, rests: &[Rest<'_>]) -> Mem<()>
    ensures { OnOk result (json.new.items ≡ json.old.items ++ first_by value_of (rests_of rests.now)) }
{
    match rests {
        [rest, ..] => push_value(json, rest),
        [] => push_null(json),
    }
}

/// Appends a field by its name.
fn push_field(json: &mut Vec<u8>, name: &str, word: &[u8]) -> Mem<()>
    ensures { OnOk result (json.new.items ≡ json.old.items ++ member name.now (text word.now)) }
{
    push_member(json, name.as_bytes())?;
    push_text(json, word)
}

/// Appends fields that have no names.
fn push_unnamed(json: &mut Vec<u8>, words: &[Vec<u8>]) -> Mem<()>
    ensures { OnOk result (json.new.items ≡ json.old.items ++ member (codes "words") (texts (words_of words.now))) }
{
    push_member(json, b"words")?;
    push_texts(json, words)
}

/// Appends the fields of a row by their names, and those after them as `words`; a comma before each member.
#[tactic(auto, using(crate::proofs::FieldLaws::field_rules))]
fn push_fields_behind(json: &mut Vec<u8>, names: &[&str], words: &[Vec<u8>]) -> Mem<()>
    ensures { OnOk result (json.new.items ≡ json.old.items ++ flat_map behind_comma (members_by (map (λ name. name.now) names.now) (words_of words.now))) }
{
    let mut left = words;
    for name in names {
        let Some((word, rest)) = left.split_first() else {
            return Ok(());
        };
        json.push(b',')?;
        push_field(json, name, word)?;
        left = rest;
    }
    if !left.is_empty() {
        json.push(b',')?;
        push_unnamed(json, left)?;
    }
    Ok(())
}

/// Appends the fields of a row by their names, and those after them as `words`; a comma between two members.
#[tactic(auto, using(crate::proofs::FieldLaws::field_rules))]
fn push_fields(json: &mut Vec<u8>, names: &[&str], words: &[Vec<u8>]) -> Mem<()>
    ensures { OnOk result (json.new.items ≡ json.old.items ++ joined (members_by (map (λ name. name.now) names.now) (words_of words.now))) }
{
    let Some((word, rest)) = words.split_first() else {
        return Ok(());
    };
    match names {
        [name, names @ ..] => {
            push_field(json, name, word)?;
            push_fields_behind(json, names, rest)
        }
        [] => push_unnamed(json, words),
    }
}

fn push_object(json: &mut Vec<u8>, names: &[&str], words: &[Vec<u8>]) -> Mem<()>
    ensures { OnOk result (json.new.items ≡ json.old.items ++ object_by (map (λ name. name.now) names.now) (words_of words.now)) }
{
    json.push(b'{')?;
    push_fields(json, names, words)?;
    json.push(b'}')?;
    Ok(())
}

/// Appends an item of an array.
fn push_item(json: &mut Vec<u8>, form: Form, names: &[&str], rest: &[Vec<u8>]) -> Mem<()>
    ensures { OnOk result (json.new.items ≡ json.old.items ++ item_of form (map (λ name. name.now) names.now) (words_of rest.now)) }
{
    match form {
        Form::Each => push_value(json, rest),
        Form::Objects => push_object(json, names, rest),
        Form::Named | Form::Number | Form::Truth | Form::Yes | Form::One | Form::Rows => {
            push_texts(json, rest)
        }
    }
}

/// Appends items, a comma before each.
fn push_items_behind(json: &mut Vec<u8>, form: Form, names: &[&str], rests: &[Rest<'_>]) -> Mem<()>
    ensures { OnOk result (json.new.items ≡ json.old.items ++ flat_map behind_comma (map (item_of form (map (λ name. name.now) names.now)) (rests_of rests.now))) }
{
    for rest in rests {
        json.push(b',')?;
        push_item(json, form, names, rest)?;
    }
    Ok(())
}

/// Appends items, a comma between two.
fn push_items_joined(json: &mut Vec<u8>, form: Form, names: &[&str], rests: &[Rest<'_>]) -> Mem<()>
    ensures { OnOk result (json.new.items ≡ json.old.items ++ joined (map (item_of form (map (λ name. name.now) names.now)) (rests_of rests.now))) }
{
    if let Some((first, others)) = rests.split_first() {
        push_item(json, form, names, first)?;
        push_items_behind(json, form, names, others)?;
    }
    Ok(())
}

/// Appends an array of items.
fn push_array(json: &mut Vec<u8>, form: Form, names: &[&str], rests: &[Rest<'_>]) -> Mem<()>
    ensures { OnOk result (json.new.items ≡ json.old.items ++ array (map (item_of form (map (λ name. name.now) names.now)) (rests_of rests.now))) }
{
    json.push(b'[')?;
    push_items_joined(json, form, names, rests)?;
    json.push(b']')?;
    Ok(())
}

/// Appends the value of a member, by its form, the names of fields, the row's name, and what follows that in each of its rows.
pub(crate) fn push_value_in(
    json: &mut Vec<u8>,
    form: Form,
    names: &[&str],
    name: &[u8],
    rests: &[Rest<'_>],
) -> Mem<()>
    ensures { OnOk result (json.new.items ≡ json.old.items ++ value_in form (map (λ it. it.now) names.now) name.now (rests_of rests.now)) }
{
    match form {
        Form::Named => push_text(json, name),
        Form::Number => push_first_number(json, rests),
        Form::Truth => push_first_truth(json, rests),
        Form::Yes => push_truth(json, !rests.is_empty()),
        Form::One => push_first_value(json, rests),
        Form::Each | Form::Rows | Form::Objects => push_array(json, form, names, rests),
    }
}
