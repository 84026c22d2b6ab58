//! The program's own command line.
use crate::BuiltIn;
use crate::asked::{Asked, number_of};
use crate::called::called;
use crate::fault::{Fault, warn};
use crate::known::answer_by;
use clap::error::ErrorKind;
use clap::{ArgMatches, Error};
use scl_cl::Mem;
use scl_explain::Ending;
use scl_options::whole_command;
use scl_shell::shown;
use std::alloc::Global;
use std::str;

/// The words as text, with what is no text replaced, after the program's name.
fn shown_words(alloc: Global, arguments: &[Vec<u8>]) -> Mem<Vec<String>> {
    let mut words = Vec::new(alloc);
    words.push(String::from_str(alloc, "scl")?)?;
    for argument in arguments {
        words.push(String::from_utf8_lossy(alloc, argument)?)?;
    }
    Ok(words)
}

fn count_of_words(read: &ArgMatches<'_>) -> usize {
    read.get_strs("words").map_or(0, |words| words.len())
}

/// What is wrong with the base directories, if something is.
fn wrong_base(alloc: Global, asked: &Asked<'_, '_>) -> Mem<Option<String>> {
    for dir in asked.read.get_strs("--base").unwrap_or(&[]) {
        if !dir.starts_with('/') {
            return Ok(Some(format!(in alloc; "'{dir}' is no absolute path for --base")?));
        }
    }
    Ok(None)
}

/// What is wrong with the numbers, if something is.
fn wrong_number(alloc: Global, asked: &Asked<'_, '_>) -> Mem<Option<String>> {
    for option in ["--bound", "--bytes"] {
        if let Some(text) = asked.value(option)
            && number_of(text).is_none()
        {
            return Ok(Some(format!(in alloc; "'{text}' is no number for {option}")?));
        }
    }
    Ok(None)
}

/// What is wrong with a request of `diff`, if something is.
fn wrong_diff(alloc: Global, asked: &Asked<'_, '_>) -> Mem<Option<String>> {
    if asked.name != "diff" || asked.compare(alloc)?.is_some() {
        return Ok(None);
    }
    Ok(Some(String::from_str(
        alloc,
        "diff compares two sources of entries, two -p BUILD, or after -- two command lines with -- between them",
    )?))
}

/// What is wrong with the program's own arguments, if something is: they are UTF-8, where words of a command line are any bytes.
fn wrong_text(alloc: Global, own: &[Vec<u8>]) -> Mem<Option<String>> {
    for word in own {
        if str::from_utf8(word).is_err() {
            let text = String::from_utf8_lossy(alloc, word)?;
            return Ok(Some(format!(in alloc; "'{text}' is no UTF-8")?));
        }
    }
    Ok(None)
}

/// What is wrong with the first word of a command line, if something is: no compiler's name begins as an option.
fn wrong_first(alloc: Global, asked: &Asked<'_, '_>) -> Mem<Option<String>> {
    match asked.words.first() {
        Some(word) if word.starts_with(b"-") => {
            let text = String::from_utf8_lossy(alloc, word)?;
            Ok(Some(format!(in alloc; "'{text}' is neither an option nor a compiler")?))
        }
        Some(_) | None => Ok(None),
    }
}

/// What is wrong with a request, if something is.
fn what_is_wrong(alloc: Global, own: &[Vec<u8>], asked: &Asked<'_, '_>) -> Mem<Option<String>> {
    if let Some(what) = wrong_text(alloc, own)? {
        return Ok(Some(what));
    }
    if let Some(what) = wrong_first(alloc, asked)? {
        return Ok(Some(what));
    }
    if let Some(what) = wrong_number(alloc, asked)? {
        return Ok(Some(what));
    }
    match wrong_base(alloc, asked)? {
        Some(what) => Ok(Some(what)),
        None => wrong_diff(alloc, asked),
    }
}

/// A mistake in one line: what stands after `error: ` and before the first empty line of its text.
fn mistake_line(alloc: Global, text: &str) -> Mem<String> {
    let mut line = String::new(alloc);
    for part in text.strip_prefix("error: ").unwrap_or(text).lines() {
        if part.is_empty() {
            break;
        }
        if !line.is_empty() {
            line.push(' ')?;
        }
        line.push_str(part.trim())?;
    }
    Ok(line)
}

/// Reports what is wrong with the program's own words.
fn wrong_words(rt: &HostRuntime, arguments: &[Vec<u8>], what: &str) -> Mem<Ending> {
    let what = shown(rt.alloc(), what.as_bytes())?;
    let (name, blank) = called(arguments);
    let line = format!(in rt.alloc(); "{what} (scl {name}{blank}--help says what there is)")?;
    warn(rt, &line);
    Ok(Ending::Usage)
}

/// Reports a mistake in one line, and writes help where that was requested.
fn tell(rt: &HostRuntime, arguments: &[Vec<u8>], error: &Error) -> Result<Ending, Fault> {
    if error.kind() == ErrorKind::OutOfMemory {
        return Err(Fault::Memory);
    }
    if error.use_stderr() {
        let text = format!(in rt.alloc(); "{error}")?;
        let line = mistake_line(rt.alloc(), text.as_str())?;
        return Ok(wrong_words(rt, arguments, line.as_str())?);
    }
    error.print(rt).map_err(Fault::of_output)?;
    Ok(Ending::Answered)
}

/// Does what a command requests, unless something is wrong with its words, which is reported.
fn answer_command<'m, 'a, B: BuiltIn>(
    rt: &HostRuntime,
    arguments: &'m [Vec<u8>],
    name: &'a str,
    read: &'m ArgMatches<'a>,
    built_in: &B,
) -> Result<Ending, Fault> {
    let own = arguments.len().saturating_sub(count_of_words(read));
    let asked = Asked {
        name,
        read,
        words: arguments.get(own..).unwrap_or(&[]),
    };
    match what_is_wrong(rt.alloc(), arguments.get(..own).unwrap_or(&[]), &asked)? {
        Some(what) => Ok(wrong_words(rt, arguments, what.as_str())?),
        None => answer_by(rt, built_in, &asked),
    }
}

fn matches_of<'a>(alloc: Global, words: &'a [String]) -> Result<ArgMatches<'a>, Error> {
    whole_command(alloc)?.try_get_matches_from(words)
}

/// Does what the arguments request; help is written and mistakes are reported.
pub fn answer<B: BuiltIn>(
    rt: &HostRuntime,
    arguments: &[Vec<u8>],
    built_in: &B,
) -> Result<Ending, Fault> {
    let words = shown_words(rt.alloc(), arguments)?;
    match matches_of(rt.alloc(), &words) {
        Ok(matches) => match matches.subcommand() {
            Some((name, read)) => answer_command(rt, arguments, name, read, built_in),
            None => Ok(Ending::Usage),
        },
        Err(error) => tell(rt, arguments, &error),
    }
}
