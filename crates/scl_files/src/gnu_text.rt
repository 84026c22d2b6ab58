//! The arguments of GNU response files.
ghost use Rattle.std.specs.Prelude.{◌≡◌, List, [], ◌++◌, OnOk, IfOk};
ghost use Rattle.std.specs.Str.{chars};
ghost use Rattle.std.specs.String.{string_bytes};
ghost use Rattle.scl_values.specs.Words.{words_of};
ghost use Rattle.scl_files.specs.GnuText.{is_gnu_separator, keep, joined, Piece, ArePieces, gnu_arguments};
ghost use Rattle.scl_files.specs.GnuReader.{mark_of, mode_after};

use scl_values::Mem;
use std::alloc::Global;
use std::mem::replace;

#[derive(Clone, Copy)]
pub(crate) enum Mode {
    Plain,
    Escaped,
    Single,
    Double,
    DoubleEscaped,
}

#[derive(Clone, Copy)]
pub(crate) enum Mark {
    Separates,
    Vanishes,
    Stands,
}

fn is_gnu_separator(c: char) -> bool
    ensures { result ≡ is_gnu_separator c }
{
    matches!(c, ' ' | '\t' | '\n' | '\u{c}' | '\r')
}

impl Mode {
    /// How the next character is read, and what this one means.
    fn read(self, c: char) -> (Mode, Mark)
        ensures mode { result.0 ≡ mode_after self c }
        ensures mark { result.1 ≡ mark_of self c }
    {
        match self {
            Mode::Plain => match c {
                '\\' => (Mode::Escaped, Mark::Vanishes),
                '\'' => (Mode::Single, Mark::Vanishes),
                '"' => (Mode::Double, Mark::Vanishes),
                _ if is_gnu_separator(c) => (Mode::Plain, Mark::Separates),
                _ => (Mode::Plain, Mark::Stands),
            },
            Mode::Escaped => (Mode::Plain, Mark::Stands),
            Mode::Single => match c {
                '\'' => (Mode::Plain, Mark::Vanishes),
                _ => (Mode::Single, Mark::Stands),
            },
            Mode::Double => match c {
                '"' => (Mode::Plain, Mark::Vanishes),
                '\\' => (Mode::DoubleEscaped, Mark::Vanishes),
                _ => (Mode::Double, Mark::Stands),
            },
            Mode::DoubleEscaped => (Mode::Double, Mark::Stands),
        }
    }
}

fn keep(arguments: &mut Vec<Vec<u8>>, argument: String) -> Mem<()>
    ensures { OnOk result (words_of arguments.new.items ≡ words_of arguments.old.items ++ keep (string_bytes argument) []) }
{
    if !argument.is_empty() {
        arguments.push(argument.into_bytes())?;
    }
    Ok(())
}

/// The arguments of a GNU response file's text, each in UTF-8 (docs/RULES.md, GNU text):
///
/// - Separators are space, tab, LF, FF and CR.
/// - A backslash takes the next character as it is, in double quotes too.
/// - No argument is empty.
pub fn split_gnu_response_file_args(alloc: Global, text: &str) -> Mem<Vec<Vec<u8>>>
    ensures arguments { IfOk result (λ v. words_of v.items ≡ gnu_arguments (chars text.now)) }
    ensures pieces { IfOk result (λ v. (ps : List Piece) → ArePieces (chars text.now) ps → words_of v.items ≡ joined [] ps) }
{
    let mut arguments = Vec::new(alloc);
    let mut argument = String::new(alloc);
    let mut mode = Mode::Plain;
    for c in text.chars() {
        let (next, mark) = mode.read(c);
        mode = next;
        match mark {
            Mark::Separates => {
                let ended = replace(&mut argument, String::new(alloc));
                keep(&mut arguments, ended)?;
            }
            Mark::Vanishes => {}
            Mark::Stands => argument.push(c)?,
        }
    }
    keep(&mut arguments, argument)?;
    Ok(arguments)
}
