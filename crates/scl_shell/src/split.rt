//! Splitting a shell's text into words.
ghost use Rattle.std.specs.Prelude.{◌≡◌, ◌++◌, OnOk, IfOk, IfErr, Some, [], ◌∷◌};
ghost use Rattle.scl_values.specs.Words.{words_of};
ghost use Rattle.scl_shell.specs.ShellText.{is_blank, is_special, kept, with, AreWords, IsBroken};
ghost use Rattle.scl_shell.specs.ShellReader.{mark_of, mode_after, closed, begun_after, begun_of};

use scl_values::Mem;
use std::alloc::Global;
use thiserror::Error;

/// Why a text has no words.
#[derive(Debug, Clone, Copy, PartialEq, Eq, Error)]
pub enum ShellError {
    /// A quote is not closed.
    #[error("a quote is not closed")]
    OpenQuote,
    /// The last byte is a backslash, outside quotes.
    #[error("a backslash ends the text")]
    LastBackslash,
}

/// The context of the next byte.
#[derive(Clone, Copy)]
pub(crate) enum Mode {
    Plain,
    Escaped,
    Single,
    Double,
    DoubleEscaped,
}

/// What a byte does.
#[derive(Clone, Copy)]
pub(crate) enum Mark {
    Separates,
    Vanishes,
    Opens,
    Stands,
    StandsBehindBackslash,
}

fn is_blank(byte: u8) -> bool
    ensures { result ≡ is_blank byte }
{
    matches!(byte, b' ' | b'\t' | b'\n')
}

fn is_special(byte: u8) -> bool
    ensures { result ≡ is_special byte }
{
    matches!(byte, b'$' | b'`' | b'"' | b'\\')
}

impl Mode {
    /// How the next byte is read, and what this one does.
    pub(crate) fn read(self, byte: u8) -> (Mode, Mark)
        ensures mode { result.0 ≡ mode_after self byte }
        ensures mark { result.1 ≡ mark_of self byte }
    {
        match self {
            Mode::Plain => match byte {
                b'\\' => (Mode::Escaped, Mark::Vanishes),
                b'\'' => (Mode::Single, Mark::Opens),
                b'"' => (Mode::Double, Mark::Opens),
                _ if is_blank(byte) => (Mode::Plain, Mark::Separates),
                _ => (Mode::Plain, Mark::Stands),
            },
            Mode::Escaped => match byte {
                b'\n' => (Mode::Plain, Mark::Vanishes),
                _ => (Mode::Plain, Mark::Stands),
            },
            Mode::Single => match byte {
                b'\'' => (Mode::Plain, Mark::Vanishes),
                _ => (Mode::Single, Mark::Stands),
            },
            Mode::Double => match byte {
                b'"' => (Mode::Plain, Mark::Vanishes),
                b'\\' => (Mode::DoubleEscaped, Mark::Vanishes),
                _ => (Mode::Double, Mark::Stands),
            },
            Mode::DoubleEscaped => match byte {
                b'\n' => (Mode::Double, Mark::Vanishes),
                _ if is_special(byte) => (Mode::Double, Mark::Stands),
                _ => (Mode::Double, Mark::StandsBehindBackslash),
            },
        }
    }
}

fn keep(words: &mut Vec<Vec<u8>>, begun: Option<Vec<u8>>) -> Mem<()>
    ensures { OnOk result (words_of words.new.items ≡ words_of words.old.items ++ kept (begun_of begun)) }
{
    if let Some(word) = begun {
        words.push(word)?;
    }
    Ok(())
}

fn opened(alloc: Global, begun: Option<Vec<u8>>) -> Vec<u8>
    ensures { Some result.items ≡ with (begun_of begun) [] }
{
    match begun {
        Some(word) => word,
        None => Vec::new(alloc),
    }
}

fn with_byte(alloc: Global, begun: Option<Vec<u8>>, byte: u8) -> Mem<Option<Vec<u8>>>
    ensures { IfOk result (λ begun'. begun_of begun' ≡ with (begun_of begun) (byte ∷ [])) }
{
    let mut word = opened(alloc, begun);
    word.push(byte)?;
    Ok(Some(word))
}

/// The part of a word that has begun after a byte; a word that the byte ends is appended to the others.
fn take(
    alloc: Global,
    words: &mut Vec<Vec<u8>>,
    begun: Option<Vec<u8>>,
    mark: Mark,
    byte: u8,
) -> Mem<Option<Vec<u8>>>
    ensures words { OnOk result (words_of words.new.items ≡ words_of words.old.items ++ closed mark (begun_of begun)) }
    ensures begun { IfOk result (λ next. begun_of next ≡ begun_after mark byte (begun_of begun)) }
{
    match mark {
        Mark::Separates => {
            keep(words, begun)?;
            Ok(None)
        }
        Mark::Vanishes => Ok(begun),
        Mark::Opens => Ok(Some(opened(alloc, begun))),
        Mark::Stands => with_byte(alloc, begun, byte),
        Mark::StandsBehindBackslash => {
            let begun = with_byte(alloc, begun, b'\\')?;
            with_byte(alloc, begun, byte)
        }
    }
}

/// The words of a shell's text in which nothing is expanded, as a compile database has it in `command`. The errors are
/// `OpenQuote` if a quote is not closed, and `LastBackslash` if the last byte is a backslash outside quotes. The rules:
///
/// - Space, tab and LF separate words.
/// - A backslash takes the next byte as it is; with a LF after it both are dropped.
/// - In single quotes every byte is itself.
/// - In double quotes a backslash is dropped only before `$`, a backquote, `"` and `\`; with a LF after it both are dropped.
/// - Every other byte is itself, `$`, `;` and `*` too.
pub fn shell_words(alloc: Global, text: &[u8]) -> Mem<Result<Vec<Vec<u8>>, ShellError>>
    ensures words { IfOk result (λ said. IfOk said (λ words. AreWords text.now (words_of words.items))) }
    ensures broken { IfOk result (λ said. IfErr said (λ error. IsBroken text.now error)) }
{
    let mut words = Vec::new(alloc);
    let mut begun: Option<Vec<u8>> = None;
    let mut mode = Mode::Plain;
    for byte in text {
        let (next, mark) = mode.read(*byte);
        mode = next;
        begun = take(alloc, &mut words, begun, mark, *byte)?;
    }
    match mode {
        Mode::Plain => {
            keep(&mut words, begun)?;
            Ok(Ok(words))
        }
        Mode::Escaped => Ok(Err(ShellError::LastBackslash)),
        Mode::Single | Mode::Double | Mode::DoubleEscaped => Ok(Err(ShellError::OpenQuote)),
    }
}
