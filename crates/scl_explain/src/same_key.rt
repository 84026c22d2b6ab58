//! Whether two descriptions have the same key, except for what its rows ask.
ghost use Rattle.std.specs.Prelude.{◌≡◌, IfOk};
ghost use Rattle.std.specs.List.{list_any};
ghost use Rattle.scl_values.specs.Words.{words_of};
ghost use Rattle.scl_text.specs.Runs.{runs_of};
ghost use Rattle.scl_explain.specs.Borrowed.{borrowed};
ghost use Rattle.scl_explain.specs.SameKeys.{are_same, forbids, has_key, has_key_of, hashed, hashed_in, hides_words, is_of_key, is_shown};

use scl_reader::Mem;
use std::alloc::Global;

/// Whether a row is of the key.
fn is_of_key(row: &[Vec<u8>]) -> bool
    ensures { result ≡ is_of_key (words_of row.now) }
{
    match row {
        [name, ..] => name.as_slice() == b"key".as_slice(),
        [] => false,
    }
}

/// Whether a row does not say that the outcome may be kept.
fn forbids(row: &[Vec<u8>]) -> bool
    ensures { result ≡ forbids (words_of row.now) }
{
    match row {
        [] => false,
        [name] => name.as_slice() == b"keep".as_slice(),
        [name, said, ..] => {
            name.as_slice() == b"keep".as_slice() && said.as_slice() != b"yes".as_slice()
        }
    }
}

fn some_are_of_key(rows: &[Vec<Vec<u8>>]) -> bool
    ensures { result ≡ list_any is_of_key (runs_of rows.now) }
{
    for row in rows {
        if is_of_key(row) {
            return true;
        }
    }
    false
}

fn some_forbid(rows: &[Vec<Vec<u8>>]) -> bool
    ensures { result ≡ list_any forbids (runs_of rows.now) }
{
    for row in rows {
        if forbids(row) {
            return true;
        }
    }
    false
}

/// Whether the rows of a description have a key: rows `key`, and no row `keep` but with `yes`.
pub fn has_key(rows: &[Vec<Vec<u8>>]) -> bool
    ensures { result ≡ has_key (runs_of rows.now) }
{
    some_are_of_key(rows) && !some_forbid(rows)
}

/// Whether the words of this part of a key only say what to run or where to look.
fn hides_words(part: &[u8]) -> bool
    ensures { result ≡ hides_words part.now }
{
    part == b"plan".as_slice()
        || part == b"run".as_slice()
        || part == b"run-else".as_slice()
        || part == b"pch".as_slice()
}

/// What a cache hashes of a row of the key (docs/PROTOCOL.md, A key).
pub fn hashed(row: &[Vec<u8>]) -> &[Vec<u8>]
    ensures { words_of result.now ≡ hashed (words_of row.now) }
{
    match row {
        [] => row,
        [_] => row,
        [_, part, ..] => { if hides_words(part) { &row[..2] } else { row } }
    }
}

/// Whether a row of the key is one of a macro, which a cache hashes only if the macro counts.
pub fn is_shown(row: &[Vec<u8>]) -> bool
    ensures { result ≡ is_shown (words_of row.now) }
{
    match row {
        [] => false,
        [_] => false,
        [_, part, ..] => part.as_slice() == b"shown".as_slice(),
    }
}

/// What is hashed of the rows of the key, in order, if no macro counts.
fn hashed_in(alloc: Global, rows: &[Vec<Vec<u8>>]) -> Mem<Vec<&[Vec<u8>]>>
    ensures { IfOk result (λ key. borrowed key.items ≡ hashed_in (runs_of rows.now)) }
{
    let mut key = Vec::new(alloc);
    for row in rows {
        if is_of_key(row) && !is_shown(row) {
            key.push(hashed(row))?;
        }
    }
    Ok(key)
}

fn are_same(key: &[&[Vec<u8>]], others: &[&[Vec<u8>]]) -> bool
    ensures { result ≡ are_same (borrowed key.now) (borrowed others.now) }
{
    key == others
}

/// Whether the rows of two descriptions have a key, and what is hashed of its rows is the same, in the same order. So the keys are one
/// if the answers to their rows are, and no source can name a macro of a row `key shown`.
pub fn has_key_of(alloc: Global, rows: &[Vec<Vec<u8>>], others: &[Vec<Vec<u8>>]) -> Mem<bool>
    ensures { IfOk result (λ it_has. it_has ≡ has_key_of (runs_of rows.now) (runs_of others.now)) }
{
    if !has_key(rows) || !has_key(others) {
        return Ok(false);
    }
    let (key, other) = (hashed_in(alloc, rows)?, hashed_in(alloc, others)?);
    Ok(are_same(&key, &other))
}
