//! The shapes of rows, by the names that tables and definitions have for them.
use crate::argument::ArgDisposition::{self, CanBeSeparated, Concatenated, Separated};

/// The value is the next word.
pub const APART: ArgDisposition = Separated;

/// The value is the rest of the word.
pub const JOINED: ArgDisposition = Concatenated(None);

/// The value is the rest of the word, after `,` if it is there.
pub const JOINED_COMMA: ArgDisposition = Concatenated(Some(b','));

/// The value is the rest of the word, after `-` if it is there.
pub const JOINED_DASH: ArgDisposition = Concatenated(Some(b'-'));

/// The value is the rest of the word, after `=` if it is there.
pub const JOINED_EQUALS: ArgDisposition = Concatenated(Some(b'='));

/// The value is the rest of the word, or the next word if there is no rest.
pub const EITHER: ArgDisposition = CanBeSeparated(None);

/// The value is the rest of the word, after `=` if it is there, or the next word if there is no rest.
pub const EITHER_EQUALS: ArgDisposition = CanBeSeparated(Some(b'='));
