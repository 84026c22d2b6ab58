//! Options as conditions see them.
ghost use Rattle.std.specs.Prelude.{◌≡◌};
ghost use Rattle.scl_catalogue.specs.Found.{has_mark};

/// How an option stands in the tables.
#[derive(Clone, Copy, Debug, PartialEq, Eq)]
pub enum Standing {
    /// It is a word that is no option.
    Raw,
    /// No row fits the flag.
    Unknown,
    /// A row fits.
    Known,
}

/// What is known of an option besides its words.
#[derive(Clone, Copy, Debug, PartialEq, Eq)]
pub enum Mark {
    /// It stands in one word and goes to the list of common words.
    Stays,
    /// Its value stands in the next word, and could have been joined.
    Apart,
    /// Its value is joined, and could have stood in the next word.
    Joined,
    /// Its value is empty, and the delimiter that stands before it is dropped in the built command.
    DelimiterDropped,
    /// Its value is a path, of whose file name the first byte is the only dot.
    HiddenValue,
}

/// Which marks an option has.
#[derive(Clone, Copy, Debug, PartialEq, Eq)]
pub struct Marks {
    /// `Mark::Stays`.
    pub stays: bool,
    /// `Mark::Apart`.
    pub is_apart: bool,
    /// `Mark::Joined`.
    pub is_joined: bool,
    /// `Mark::DelimiterDropped`.
    pub is_delimiter_dropped: bool,
    /// `Mark::HiddenValue`.
    pub has_hidden_value: bool,
}

/// An option as conditions see it.
#[derive(Clone, Copy, Debug)]
pub struct Seen<'a> {
    /// How it stands in the tables.
    pub standing: Standing,
    /// Its word, or the flag of the row.
    pub name: &'a [u8],
    /// The name of the row's kind; empty where there is no row.
    pub kind: &'a [u8],
    /// Its value; empty where it has none.
    pub value: &'a [u8],
    /// What else is known of it.
    pub marks: Marks,
}

impl Marks {
    /// Whether the mark is there.
    pub(crate) fn has(&self, mark: Mark) -> bool
        ensures { result ≡ has_mark self.now mark }
    {
        match mark {
            Mark::Stays => self.stays,
            Mark::Apart => self.is_apart,
            Mark::Joined => self.is_joined,
            Mark::DelimiterDropped => self.is_delimiter_dropped,
            Mark::HiddenValue => self.has_hidden_value,
        }
    }
}
