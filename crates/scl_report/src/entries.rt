//! The entries of a database's text, cut from it as it is read.
use crate::database::DatabaseError;
use scl_cl::Mem;
use serde_json::{Error as JsonError, Value};
use std::alloc::{AllocError, Global};

/// The bytes of the mark by which a text may say that it is UTF-8.
const MARK: [u8; 3] = [0xef, 0xbb, 0xbf];

/// Where the next byte of a database's text stands.
#[derive(Clone, Copy)]
enum At {
    /// After this number of bytes of the mark.
    Mark(usize),
    /// Before the array.
    Before,
    /// Where an item may begin, or the array ends.
    First,
    /// In an item, inside this number of brackets.
    Item(u64),
    /// In a string of an item.
    Text(u64),
    /// In a string of an item, after a backslash.
    Escaped(u64),
    /// After a comma.
    Next,
    /// After the array.
    Behind,
}

/// What a byte does.
#[derive(Clone, Copy)]
enum Does {
    /// It stands between items.
    Parts,
    /// It is of an item.
    Stands,
    /// It ends an item.
    Ends,
    /// It shows that the text is no array.
    IsNoArray,
    /// It can't stand there.
    IsWrong,
}

fn is_blank(byte: u8) -> bool {
    matches!(byte, b' ' | b'\t' | b'\n' | b'\r')
}

/// Whether a value of JSON other than an array begins so.
fn begins_other(byte: u8) -> bool {
    matches!(byte, b'{' | b'"' | b'-' | b'0'..=b'9' | b't' | b'f' | b'n')
}

/// A byte of an item, inside this number of brackets.
fn in_item(depth: u64, byte: u8) -> (At, Does) {
    match byte {
        b',' if depth == 0 => (At::Next, Does::Ends),
        b']' if depth == 0 => (At::Behind, Does::Ends),
        b'"' => (At::Text(depth), Does::Stands),
        b'{' | b'[' => (At::Item(depth.saturating_add(1)), Does::Stands),
        b'}' | b']' => (At::Item(depth.saturating_sub(1)), Does::Stands),
        _ => (At::Item(depth), Does::Stands),
    }
}

fn before(byte: u8) -> (At, Does) {
    match byte {
        b'[' => (At::First, Does::Parts),
        _ if is_blank(byte) => (At::Before, Does::Parts),
        _ if begins_other(byte) => (At::Before, Does::IsNoArray),
        _ => (At::Before, Does::IsWrong),
    }
}

fn in_mark(seen: usize, byte: u8) -> (At, Does) {
    match MARK.get(seen) {
        Some(wanted) if *wanted == byte => (At::Mark(seen.saturating_add(1)), Does::Parts),
        Some(_) if seen > 0 => (At::Before, Does::IsWrong),
        Some(_) | None => before(byte),
    }
}

impl At {
    /// How the next byte is read, and what this one does.
    fn read(self, byte: u8) -> (At, Does) {
        match self {
            At::Mark(seen) => in_mark(seen, byte),
            At::Before => before(byte),
            At::First if byte == b']' => (At::Behind, Does::Parts),
            At::First | At::Next if is_blank(byte) => (self, Does::Parts),
            At::First | At::Next if byte == b',' || byte == b']' => (self, Does::IsWrong),
            At::First | At::Next => in_item(0, byte),
            At::Item(depth) => in_item(depth, byte),
            At::Text(depth) => match byte {
                b'\\' => (At::Escaped(depth), Does::Stands),
                b'"' => (At::Item(depth), Does::Stands),
                _ => (At::Text(depth), Does::Stands),
            },
            At::Escaped(depth) => (At::Text(depth), Does::Stands),
            At::Behind if is_blank(byte) => (At::Behind, Does::Parts),
            At::Behind => (At::Behind, Does::IsWrong),
        }
    }
}

/// A line and a column, both counted from 1.
#[derive(Clone, Copy)]
struct Place {
    line: usize,
    column: usize,
}

impl Place {
    fn behind(self, byte: u8) -> Place {
        if byte == b'\n' {
            Place {
                line: self.line.saturating_add(1),
                column: 1,
            }
        } else {
            Place {
                line: self.line,
                column: self.column.saturating_add(1),
            }
        }
    }

    /// The place in a text that begins here.
    fn in_text(self, error: &JsonError) -> Place {
        let column = if error.line() > 1 {
            error.column()
        } else {
            self.column.saturating_sub(1).saturating_add(error.column())
        };
        Place {
            line: self.line.saturating_add(error.line()).saturating_sub(1),
            column,
        }
    }
}

/// Cuts the entries of a database from its text, which is given part by part. It holds the text of one entry at most.
#[derive(Drop)]
pub struct EntryReader {
    at: At,
    place: Place,
    start: Place,
    text: Vec<u8>,
    begun: u64,
    is_empty: bool,
}

impl EntryReader {
    /// Of a text of which nothing was read.
    pub fn new(alloc: Global) -> EntryReader {
        let start = Place { line: 1, column: 1 };
        EntryReader {
            at: At::Mark(0),
            place: start,
            start,
            text: Vec::new(alloc),
            begun: 0,
            is_empty: true,
        }
    }

    fn wrong_at(&self, place: Place) -> DatabaseError {
        let Place { line, column } = place;
        match self.begun {
            0 => DatabaseError::NoJson { line, column },
            entry => DatabaseError::NoEntry {
                line,
                column,
                entry,
            },
        }
    }

    /// The entry whose text has ended, after this number of bytes.
    fn ended(
        &mut self,
        alloc: Global,
        count: usize,
    ) -> Mem<Result<(usize, Option<Value>), DatabaseError>> {
        let read = Value::from_slice(alloc, &self.text);
        self.text.clear();
        match read {
            Ok(value) => Ok(Ok((count, Some(value)))),
            Err(error) if error.is_memory() => Err(AllocError),
            Err(error) => Ok(Err(self.wrong_at(self.start.in_text(&error)))),
        }
    }

    fn push(&mut self, place: Place, byte: u8) -> Mem<()> {
        if self.text.is_empty() {
            self.start = place;
            self.begun = self.begun.saturating_add(1);
        }
        self.text.push(byte)?;
        Ok(())
    }

    /// Takes bytes up to the end of an entry: how many were taken, and the entry. Where none ends, all are taken.
    pub fn take(
        &mut self,
        alloc: Global,
        bytes: &[u8],
    ) -> Mem<Result<(usize, Option<Value>), DatabaseError>> {
        self.is_empty = self.is_empty && bytes.is_empty();
        for (at, byte) in bytes.iter().enumerate() {
            let (next, does) = self.at.read(*byte);
            let place = self.place;
            self.at = next;
            self.place = place.behind(*byte);
            match does {
                Does::Parts => {}
                Does::Stands => self.push(place, *byte)?,
                Does::Ends => return self.ended(alloc, at.saturating_add(1)),
                Does::IsNoArray => return Ok(Err(DatabaseError::NoArray)),
                Does::IsWrong => return Ok(Err(self.wrong_at(place))),
            }
        }
        Ok(Ok((bytes.len(), None)))
    }

    /// What is wrong where the text ends here, if something is.
    pub fn wrong_end(&self) -> Option<DatabaseError> {
        match self.at {
            At::Behind => None,
            _ if self.is_empty => Some(DatabaseError::Empty),
            _ => Some(self.wrong_at(self.place)),
        }
    }
}
