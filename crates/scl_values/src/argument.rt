//! Rows of tables, options, and dispositions: whether a value is in the flag's word or in the next.
ghost use Rattle.std.specs.Prelude.{◌≡◌};
ghost use Rattle.scl_values.specs.Row.{row_of, shape_of, allows, joins, fits};
ghost use Rattle.scl_values.specs.Tables.{is_ascii_or_none, has_ascii_delimiter};

use crate::value::ArgumentValue;

/// The byte between a flag and its value in one word, if there is one.
pub type Delimiter = Option<u8>;

/// The disposition of a value: in which word it is (docs/RULES.md, Rows and tables).
#[derive(Clone, Copy, Debug, PartialEq, Eq)]
pub enum ArgDisposition {
    /// The value is the next word.
    Separated,
    /// The value is the next word; the row also allows it in the flag's word.
    CanBeConcatenated(Delimiter),
    /// The value is the rest of the flag's word; the row also allows it in the next word.
    CanBeSeparated(Delimiter),
    /// The value is the rest of the flag's word.
    Concatenated(Delimiter),
}

/// The side to which the value of an either row is moved (docs/RULES.md, Printing).
#[derive(Clone, Copy, Debug, PartialEq, Eq)]
pub enum NormalizedDisposition {
    /// Flag and value in two words.
    Separated,
    /// Flag and value in one word.
    Concatenated,
}

/// One option of a command line (docs/RULES.md, Cutting).
#[derive(Debug, PartialEq, Eq, Drop)]
pub enum Argument<T> {
    /// A word that is no option.
    Raw(Vec<u8>),
    /// A word that begins with `-` and that no row fits.
    UnknownFlag(Vec<u8>),
    /// A flag that takes no value.
    Flag(&'static str, T),
    /// A flag with its value, and the value's disposition.
    WithValue(&'static str, T, ArgDisposition),
}

/// One row of a table, with a kind of type `K` (docs/RULES.md, Rows and tables).
#[derive(Debug, PartialEq, Eq, Drop)]
pub enum ArgRow<K> {
    /// A flag that takes no value.
    Flag(&'static str, K),
    /// A flag that takes a value, and the disposition that its row allows.
    TakeArg(&'static str, K, ArgDisposition),
}

/// One row of a table for values of type `T`.
pub type ArgInfo<T> = ArgRow<<T as ArgumentValue>::Kind>;

impl ArgDisposition {
    /// Whether a row of this shape accepts `rest` after its flag in one word.
    fn joins(&self, rest: &[u8]) -> bool
        ensures { result ≡ joins (shape_of self.now) rest.now }
    {
        let Some(first) = rest.first() else {
            return true;
        };
        match self {
            ArgDisposition::Separated => false,
            ArgDisposition::CanBeConcatenated(delimiter)
            | ArgDisposition::CanBeSeparated(delimiter)
            | ArgDisposition::Concatenated(delimiter) => allows(*delimiter, *first),
        }
    }

    fn has_ascii_delimiter(&self) -> bool
        ensures { result ≡ has_ascii_delimiter (shape_of self.now) }
    {
        match self {
            ArgDisposition::Separated => true,
            ArgDisposition::CanBeConcatenated(delimiter)
            | ArgDisposition::CanBeSeparated(delimiter)
            | ArgDisposition::Concatenated(delimiter) => is_ascii_or_none(*delimiter),
        }
    }
}

fn allows(delimiter: Delimiter, byte: u8) -> bool
    ensures { result ≡ allows delimiter byte }
{
    match delimiter {
        None => true,
        Some(expected) => expected == byte,
    }
}

fn is_ascii_or_none(delimiter: Delimiter) -> bool
    ensures { result ≡ is_ascii_or_none delimiter }
{
    match delimiter {
        None => true,
        Some(byte) => byte < 128,
    }
}

impl<K> ArgRow<K> {
    /// The row's flag.
    pub fn flag(&self) -> &'static str
        ensures { result.now ≡ (row_of self.now).flag }
    {
        match self {
            ArgRow::Flag(flag, _) | ArgRow::TakeArg(flag, _, _) => flag,
        }
    }

    /// The row's kind.
    pub fn kind(&self) -> K
    where
        K: Copy,
        ensures { result ≡ (row_of self.now).kind }
    {
        match self {
            ArgRow::Flag(_, kind) | ArgRow::TakeArg(_, kind, _) => *kind,
        }
    }

    /// Whether the row's delimiter, if it has one, is below 128 (docs/RULES.md, Rows and tables).
    pub fn has_ascii_delimiter(&self) -> bool
        ensures { result ≡ has_ascii_delimiter (row_of self.now).shape }
    {
        match self {
            ArgRow::Flag(_, _) => true,
            ArgRow::TakeArg(_, _, disposition) => disposition.has_ascii_delimiter(),
        }
    }

    /// Whether the row fits the word: the word is the row's flag, or begins with it and the row accepts the rest
    /// (docs/RULES.md, Owners).
    pub fn fits(&self, word: &[u8]) -> bool
        ensures { result ≡ fits (row_of self.now) word.now }
    {
        let flag = self.flag().as_bytes();
        if !word.starts_with(flag) {
            return false;
        }
        let rest = &word[flag.len()..];
        match self {
            ArgRow::Flag(_, _) => rest.is_empty(),
            ArgRow::TakeArg(_, _, disposition) => disposition.joins(rest),
        }
    }
}
