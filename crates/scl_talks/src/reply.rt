//! The answers that lines of a request tell.
ghost use Rattle.std.specs.Prelude.{◌≡◌, IfOk, option_and_then};
ghost use Rattle.std.specs.Option.{option_map};
ghost use Rattle.scl_values.specs.Words.{words_of};
ghost use Rattle.scl_questions.specs.Views.{program_of, reply_of, standing_of, written_of};
ghost use Rattle.scl_describe.specs.Settings.{number_of};
ghost use Rattle.scl_talks.specs.Replies.{lone_in, perhaps_in, program_in, reply_in, reply_named, reply_of_fields, standing_in, status_if, written_in};

use crate::row::read_row;
use scl_describe::number_of;
use scl_description::cut_at;
use scl_questions::{Answer, Program, Standing, Written};
use scl_text::command::copy_words;
use scl_values::Mem;
use std::alloc::Global;

/// The one field.
fn lone_in(alloc: Global, fields: &[Vec<u8>]) -> Mem<Option<Vec<u8>>>
    ensures { IfOk result (λ field. option_map (λ bytes. bytes.items) field ≡ lone_in (words_of fields.now)) }
{
    match fields {
        [field] => Ok(Some(Vec::from_slice(alloc, field)?)),
        [] | [_, _, ..] => Ok(None),
    }
}

/// Nothing, or what the one field has.
fn perhaps_in(alloc: Global, fields: &[Vec<u8>]) -> Mem<Option<Option<Vec<u8>>>>
    ensures { IfOk result (λ it. option_map (λ field. option_map (λ bytes. bytes.items) field) it ≡ perhaps_in (words_of fields.now)) }
{
    match fields {
        [] => Ok(Some(None)),
        [field] => Ok(Some(Some(Vec::from_slice(alloc, field)?))),
        [_, _, ..] => Ok(None),
    }
}

/// The sum of a program, and the names on the way of its links.
fn program_in(alloc: Global, fields: &[Vec<u8>]) -> Mem<Option<Program>>
    ensures { IfOk result (λ program. option_map program_of program ≡ program_in (words_of fields.now)) }
{
    let Some((sum, links)) = fields.split_first() else {
        return Ok(None);
    };
    Ok(Some(Program {
        sum: Vec::from_slice(alloc, sum)?,
        links: copy_words(alloc, links)?,
    }))
}

/// What stands at a path.
fn standing_in(alloc: Global, field: &[u8]) -> Mem<Option<Standing>>
    ensures { IfOk result (λ it. option_map standing_of it ≡ standing_in field.now) }
{
    if let Some(sum) = field.strip_prefix(b"=") {
        Ok(Some(Standing::Regular(Vec::from_slice(alloc, sum)?)))
    } else if field == b"/".as_slice() {
        Ok(Some(Standing::Folder))
    } else if field == b"!".as_slice() {
        Ok(Some(Standing::Special))
    } else if field == b"-".as_slice() {
        Ok(Some(Standing::Missing))
    } else {
        Ok(None)
    }
}

/// What stands at the path of the one field.
fn lone_standing(alloc: Global, fields: &[Vec<u8>]) -> Mem<Option<Standing>>
    ensures { IfOk result (λ it. option_map standing_of it ≡ option_and_then standing_in (lone_in (words_of fields.now))) }
{
    match fields {
        [field] => standing_in(alloc, field),
        [] | [_, _, ..] => Ok(None),
    }
}

/// The status below 2^32 that decimal digits write.
fn status_in(digits: &[u8]) -> Option<u32>
    ensures { result ≡ option_and_then status_if (number_of digits.now) }
{
    u32::try_from(number_of(digits)?).ok()
}

/// A status, both outputs, and the bytes of the own file.
fn written_in(alloc: Global, fields: &[Vec<u8>]) -> Mem<Option<Written>>
    ensures { IfOk result (λ it. option_map written_of it ≡ written_in (words_of fields.now)) }
{
    let [status, output, messages, own] = fields else {
        return Ok(None);
    };
    let Some(status) = status_in(status) else {
        return Ok(None);
    };
    Ok(Some(Written {
        status,
        output: Vec::from_slice(alloc, output)?,
        messages: Vec::from_slice(alloc, messages)?,
        own: Vec::from_slice(alloc, own)?,
    }))
}

/// An answer to a question of this name.
fn answer_named(alloc: Global, name: &[u8], fields: &[Vec<u8>]) -> Mem<Option<Answer>>
    ensures { IfOk result (λ answer. option_map reply_of answer ≡ reply_named name.now (words_of fields.now)) }
{
    if name == b"env".as_slice() {
        Ok(perhaps_in(alloc, fields)?.map(Answer::Value))
    } else if name == b"program".as_slice() {
        Ok(Some(Answer::Program(program_in(alloc, fields)?)))
    } else if name == b"file".as_slice() {
        Ok(lone_standing(alloc, fields)?.map(Answer::Standing))
    } else if name == b"bytes".as_slice() {
        Ok(perhaps_in(alloc, fields)?.map(Answer::Bytes))
    } else if name == b"names".as_slice() {
        Ok(Some(Answer::Names(copy_words(alloc, fields)?)))
    } else if name == b"real".as_slice() {
        Ok(lone_in(alloc, fields)?.map(Answer::Real))
    } else if name == b"times".as_slice() {
        Ok(lone_in(alloc, fields)?.map(Answer::Times))
    } else if name == b"run".as_slice() {
        Ok(written_in(alloc, fields)?.map(Answer::Written))
    } else {
        Ok(None)
    }
}

/// An answer by the fields of its row.
fn answer_of_fields(alloc: Global, fields: &[Vec<u8>]) -> Mem<Option<Answer>>
    ensures { IfOk result (λ answer. option_map reply_of answer ≡ reply_of_fields (words_of fields.now)) }
{
    match fields.split_first() {
        Some((name, fields)) => answer_named(alloc, name, fields),
        None => Ok(None),
    }
}

/// The answer that a line tells, if it tells one.
pub(crate) fn answer_in(alloc: Global, line: &[u8]) -> Mem<Option<Answer>>
    ensures { IfOk result (λ answer. option_map reply_of answer ≡ reply_in line.now) }
{
    let Some((keyword, text)) = cut_at(b' ', line) else {
        return Ok(None);
    };
    if keyword != b"answer".as_slice() {
        return Ok(None);
    }
    let Some(fields) = read_row(alloc, text)? else {
        return Ok(None);
    };
    answer_of_fields(alloc, &fields)
}
