//! Options of launchers.
ghost use Rattle.std.specs.Prelude.{◌≡◌, map};
ghost use Rattle.scl_names.specs.Launchers.{is_option, options, standing_of, stands, takes_next};
ghost use Rattle.scl_names.specs.LaunchersGiven.{option_by};

/// How an option of a launcher stands.
#[derive(Clone, Copy)]
pub(crate) enum Standing {
    /// It is a word, and has no value.
    Alone,
    /// It is a word, and the next is its value.
    Next,
    /// It begins a word, and the rest is its value.
    Joined,
}

/// An option of a launcher.
pub(crate) struct Row {
    launcher: &'static str,
    text: &'static str,
    standing: Standing,
}

macro_rules! options {
    ($($launcher:literal $text:literal $standing:ident,)*) => {
        [$(Row { launcher: $launcher, text: $text, standing: Standing::$standing },)*]
    };
}

/// The options that are passed over with their launcher.
static OPTIONS: &[Row] = &options![
    "env" "-u" Next,
    "env" "--unset" Next,
    "nice" "-n" Next,
    "nice" "--adjustment" Next,
    "nice" "-n" Joined,
    "nice" "--adjustment=" Joined,
    "nice" "-1" Joined,
    "nice" "-2" Joined,
    "nice" "-3" Joined,
    "nice" "-4" Joined,
    "nice" "-5" Joined,
    "nice" "-6" Joined,
    "nice" "-7" Joined,
    "nice" "-8" Joined,
    "nice" "-9" Joined,
    "time" "-a" Alone,
    "time" "--append" Alone,
    "time" "-p" Alone,
    "time" "--portability" Alone,
    "time" "-q" Alone,
    "time" "--quiet" Alone,
    "time" "-v" Alone,
    "time" "--verbose" Alone,
    "time" "-f" Next,
    "time" "--format" Next,
    "time" "--format=" Joined,
    "time" "-o" Next,
    "time" "--output" Next,
    "time" "--output=" Joined,
];

fn options() -> &'static [Row]
    ensures { map option_by result.now ≡ options }
{
    OPTIONS
}

impl Standing {
    /// Whether a word is an option that stands so, with this text.
    fn is_of(self, text: &[u8], word: &[u8]) -> bool
        ensures { result ≡ stands self text.now word.now }
    {
        match self {
            Standing::Alone | Standing::Next => word == text,
            Standing::Joined => word.starts_with(text),
        }
    }

    /// Whether the next word is its value.
    pub(crate) fn takes_next(self) -> bool
        ensures { result ≡ takes_next self }
    {
        matches!(self, Standing::Next)
    }
}

fn is_option(row: &Row, launcher: &str, word: &[u8]) -> bool
    ensures { result ≡ is_option launcher.now word.now (option_by row.now) }
{
    row.launcher == launcher && row.standing.is_of(row.text.as_bytes(), word)
}

/// How the option stands that a word is of a launcher, if it is one.
pub(crate) fn standing_of(launcher: &str, word: &[u8]) -> Option<Standing>
    ensures { result ≡ standing_of launcher.now word.now }
{
    let all = options();
    for row in all {
        if is_option(row, launcher, word) {
            return Some(row.standing);
        }
    }
    None
}
