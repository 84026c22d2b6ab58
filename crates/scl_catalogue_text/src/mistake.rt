//! Why a text is no catalogue.
ghost use Rattle.std.specs.Prelude.{◌≡◌, map, IfOk};
ghost use Rattle.std.specs.Option.{option_copied};
ghost use Rattle.scl_catalogue_text.specs.Files.{file_in, is_in_file, line_of, wrong_word};

use crate::cut::{first_word, parts};
use scl_values::Mem;
use std::alloc::{AllocError, AllocFailed, Global};
use thiserror::Error;

/// What is wrong with a line.
#[derive(Clone, Copy, Debug, PartialEq, Eq, Error)]
pub enum Mistake {
    /// It is none of the lines that a catalogue has.
    #[error("a line is a comment, a group, an entry, its sentence or one of its cases")]
    UnknownLine,
    /// A group's or a case's colon is missing.
    #[error("a colon lacks")]
    NoColon,
    /// An entry's line has other words.
    #[error("an entry is `hazard NAME DANGER`, `effect NAME VERB FILE`, `plain NAME`, `key NAME DOES`, `run NAME DOES`, `names NAME WHAT` or `brings NAME WHAT`")]
    WrongEntry,
    /// The danger is none of those that are known.
    #[error("a danger is `object`, `failure`, `side-file`, `messages` or `run`")]
    UnknownDanger,
    /// The verb is none of those that are known.
    #[error("a verb is `reads`, `writes`, `asks` or `loads`")]
    UnknownVerb,
    /// What a word does is none of what is known.
    #[error("a word does `plain`, `exact`, `macros`, `writes-unnamed`, `hides-text`, `reads-counts` or `reads-samples`")]
    UnknownDoing,
    /// What an object names is none of what is known.
    #[error("an object names `nothing`, `debug-info`, `maps-files`, `maps-debug-info`, `maps-macros` or `anything`")]
    UnknownNaming,
    /// What a word brings in is none of what is known.
    #[error("a word brings in a `folder`, a `header`, a `macro-file`, `other`, `dependencies` or `unknown`")]
    UnknownBrings,
    /// A group's line has other words before its colon.
    #[error("a group is `group NAME: TESTS`")]
    WrongGroup,
    /// A group or an entry of the name stands above.
    #[error("the name is used above")]
    NameTwice,
    /// No entry stands above.
    #[error("no entry stands above")]
    NoEntry,
    /// The entry has a sentence.
    #[error("the entry has a sentence")]
    SaysTwice,
    /// The compiler is none of those that are known.
    #[error("a compiler is `gcc`, `clang`, `clang-cl`, `cl`, `diab` or `tasking`, with `since VERSION` and `until VERSION`")]
    UnknownCompiler,
    /// The version is no number, nor two with a dot.
    #[error("a version is a number, or two with a dot")]
    WrongVersion,
    /// The question is none of those that are known.
    #[error("no fact, place or relation has this name")]
    UnknownQuestion,
    /// The relation has another number of groups.
    #[error("`any` and `two` have one group, other relations two with `>` between them")]
    WrongNumberOfGroups,
    /// No group of the name stands above.
    #[error("no group of this name stands above")]
    UnknownGroup,
    /// The class of options is none of those that are known.
    #[error("tests begin with `option`, `raw`, `unknown`, `flag` or `kind`")]
    UnknownClass,
    /// The demand is none of those that are known.
    #[error("a demand is a mark, `value PATTERNS` or `part PATTERNS`")]
    UnknownDemand,
    /// A pattern is wanted, and none is there.
    #[error("a pattern lacks")]
    NoPattern,
    /// A star stands within a pattern.
    #[error("a star stands first or last in a pattern, and else is `\\x2a`")]
    WrongPattern,
    /// A backslash is not followed by `e`, or by `x` and two digits.
    #[error("a backslash is followed by `e`, or by `x` and two digits of 0 to 9 and a to f")]
    WrongEscape,
    /// Two marks of exceptions stand in one text.
    #[error("`!` stands once in a list of patterns")]
    ExceptTwice,
    /// In the file of an effect a brace is not closed, or none is open.
    #[error("in a file a name stands between `{{` and `}}`, and other braces do not")]
    WrongBraces,
    /// What stands between braces is no name.
    #[error("a name in braces is `{{value}}`, `{{object}}`, `{{object-stem}}`, `{{input-stem}}` or `{{dump}}`")]
    UnknownName,
    /// The file of an effect has the value of an option, and the case asks for none.
    #[error("the effect has `{{value}}`, so a condition asks for options, without `not`")]
    NoOption,
    /// More words stand than are read.
    #[error("too many words")]
    TooManyWords,
    /// A byte is a control character of ASCII.
    #[error("a line has no control character: no tab, and no carriage return at its end")]
    ControlByte,
}

/// The first line of a text that is wrong, and why.
#[derive(Clone, Copy, Debug, PartialEq, Eq)]
pub struct BadLine {
    /// The number of the line; the first is 1.
    pub line: usize,
    /// What is wrong.
    pub mistake: Mistake,
}

impl Mistake {
    /// Whether it is in the file of an effect.
    fn is_in_file(self) -> bool
        ensures { result ≡ is_in_file self }
    {
        self == Mistake::WrongBraces || self == Mistake::UnknownName
    }
}

/// The file in the line of an effect.
#[tactic(auto, unfolding(crate::specs::Files::file_in))]
fn file_in(line: &[u8]) -> &[u8]
    ensures { result.now ≡ file_in line.now }
{
    let (_, behind_effect) = first_word(line);
    let (_, behind_name) = first_word(behind_effect);
    let (_, behind_verb) = first_word(behind_name);
    let (file, _) = first_word(behind_verb);
    file
}

/// The line of this number, of which the first is 1.
fn line_of<'a>(number: usize, lines: &[&'a [u8]]) -> Option<&'a [u8]>
    ensures { option_copied result ≡ line_of number (map (λ line. line.now) lines.now) }
{
    if number == 0 {
        return None;
    }
    match lines.get(number - 1) {
        Some(line) => Some(*line),
        None => None,
    }
}

impl BadLine {
    /// The word of the text that is wrong, where the mistake is in one: the file of an effect.
    pub fn word<'a>(&self, alloc: Global, text: &'a [u8]) -> Mem<Option<&'a [u8]>>
        ensures { IfOk result (λ word. option_copied word ≡ wrong_word self.now text.now) }
    {
        if !self.mistake.is_in_file() {
            return Ok(None);
        }
        let lines = parts(alloc, text, b'\n')?;
        match line_of(self.line, &lines) {
            Some(line) => Ok(Some(file_in(line))),
            None => Ok(None),
        }
    }
}

/// Why no catalogue is read.
#[derive(Clone, Copy, Debug, PartialEq, Eq, Error)]
pub enum ReadError {
    /// A line of the text is wrong.
    #[error("line {}: {}", .0.line, .0.mistake)]
    BadLine(BadLine),
    /// A request for memory was refused.
    #[error("out of memory")]
    Memory,
}

impl From<AllocError> for ReadError {
    ghost use Rattle.std.specs.Prelude.{◌≡◌};
    ghost use Rattle.scl_catalogue_text.specs.declared.mistake.ReadError.TheVariants.{Memory};

    ghost from_gives = { λ _ error. error ≡ Memory };

    fn from(_error: AllocError) -> ReadError {
        ReadError::Memory
    }
}

/// Why a part of a line is not read.
#[derive(Clone, Copy, Debug, PartialEq, Eq)]
pub(crate) enum Stop {
    Mistake(Mistake),
    Memory,
}

/// A part of a line, or why it is not read.
pub(crate) type Part<T> = Result<T, Stop>;

impl<T: Drop> From<AllocFailed<T>> for Stop {
    ghost use Rattle.std.specs.Prelude.{◌≡◌};
    ghost use Rattle.scl_catalogue_text.specs.declared.mistake.Stop.TheVariants.{Memory};

    ghost from_gives = { λ _ stop. stop ≡ Memory };

    fn from(_: AllocFailed<T>) -> Stop {
        Stop::from(AllocError)
    }
}

impl From<AllocError> for Stop {
    ghost use Rattle.std.specs.Prelude.{◌≡◌};
    ghost use Rattle.scl_catalogue_text.specs.declared.mistake.Stop.TheVariants.{Memory};

    ghost from_gives = { λ _ stop. stop ≡ Memory };

    fn from(_error: AllocError) -> Stop {
        Stop::Memory
    }
}
