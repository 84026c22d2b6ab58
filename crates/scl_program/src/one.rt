//! The answers to one command line.
use crate::arguments::{variables, working_directory};
use crate::asked::Asked;
use crate::disk::SystemDisk;
use crate::fault::{Fault, warn};
use scl_cl::text::command::copy_words;
use scl_cl::{ColorMode, path};
use scl_describe::Catalogue;
use scl_explain::{
    Case, CaseError, CommandForm, Conditions, Ending, Form, Means, Paint, Reply, WordForm,
    check as check_reply, command as command_reply, explain as explain_reply,
};
use scl_report::{Pages, absent_text, check_kept, color_word};
use std::env::{Env, FillError};
use std::io::{IsTerminal, Write};

/// The directory that a command line is run in.
fn directory_of(rt: &HostRuntime, asked: &Asked<'_, '_>) -> Result<Vec<u8>, Fault> {
    let alloc = rt.alloc();
    match asked.value("--cwd") {
        Some(directory) if directory.starts_with('/') => {
            Ok(Vec::from_slice(alloc, directory.as_bytes())?)
        }
        Some(directory) => Ok(path::join(alloc, &working_directory(rt)?, directory.as_bytes())?),
        None => working_directory(rt),
    }
}

/// The variables that count: those that are given, and then those of this program's environment.
pub fn variables_of(
    rt: &HostRuntime,
    asked: &Asked<'_, '_>,
) -> Result<Vec<(Vec<u8>, Vec<u8>)>, Fault> {
    let mut pairs = asked.variables(rt.alloc())?;
    if !asked.has("--clear-env") {
        for pair in variables(rt)? {
            pairs.push(pair)?;
        }
    }
    Ok(pairs)
}

/// The command line of these words; none where they are no command line, which is reported.
pub fn case_of_words(
    rt: &HostRuntime,
    asked: &Asked<'_, '_>,
    words: &[Vec<u8>],
    directory: Vec<u8>,
) -> Result<Option<Case>, Fault> {
    let alloc = rt.alloc();
    let conditions = Conditions {
        cwd: directory,
        env_vars: variables_of(rt, asked)?,
        multiarch: asked.has("--multiarch"),
        settings: asked.settings(alloc)?,
    };
    let launchers = asked.values(alloc, "--launcher")?;
    let all = copy_words(alloc, words)?;
    match Case::of_words(alloc, all, &launchers, asked.compiler(), conditions)? {
        Ok(case) => Ok(Some(case)),
        Err(error) => {
            no_case(rt, &error, words)?;
            Ok(None)
        }
    }
}

/// Whether all words of a command line seem to stand in one.
fn is_whole_line(words: &[Vec<u8>]) -> bool {
    match words {
        [word] => word.contains(&b' '),
        _ => false,
    }
}

/// Reports why words are no command line.
fn no_case(rt: &HostRuntime, error: &CaseError, words: &[Vec<u8>]) -> Result<(), Fault> {
    if is_whole_line(words) {
        let hint = "give each word of the command line by itself, without quotes around them all";
        let line = format!(in rt.alloc(); "{error} ({hint})")?;
        warn(rt, &line);
    } else {
        warn(rt, error);
    }
    Ok(())
}

/// The command line of the request; none where its words are no command line, which is reported.
fn case_of(rt: &HostRuntime, asked: &Asked<'_, '_>) -> Result<Option<Case>, Fault> {
    let directory = directory_of(rt, asked)?;
    case_of_words(rt, asked, asked.words, directory)
}

/// Reports to a person at a terminal what a command line names that is not there.
fn tell_absent(rt: &HostRuntime, catalogue: &Catalogue, case: &Case) -> Result<(), Fault> {
    if rt.stderr().is_terminal() {
        let disk = SystemDisk::new(rt);
        let text = absent_text(rt.alloc(), &disk, catalogue, case)?;
        for line in text.lines() {
            warn(rt, &line);
        }
    }
    Ok(())
}

/// Writes what is said.
fn say(rt: &HostRuntime, reply: &Reply) -> Result<Ending, Fault> {
    rt.stdout()
        .write_all(&reply.output)
        .map_err(Fault::of_output)?;
    if let Some(error) = &reply.error {
        warn(rt, error);
    }
    Ok(reply.ending)
}

/// Whether the environment lets texts be coloured: it has no NO_COLOR with a value, and no dumb terminal.
fn takes_colours(rt: &HostRuntime) -> bool {
    let mut room = [0u8; 8];
    let forbids = match rt.var("NO_COLOR", &mut room) {
        Ok(length) => length > 0,
        Err(FillError::NotPresent) => false,
        Err(FillError::TooLong) => true,
    };
    let is_dumb = match rt.var("TERM", &mut room) {
        Ok(length) => room.get(..length) == Some(b"dumb".as_slice()),
        Err(_) => false,
    };
    !forbids && !is_dumb
}

fn form_of(rt: &HostRuntime, asked: &Asked<'_, '_>) -> Form {
    if asked.has("--json") {
        Form::Json
    } else if rt.stdout().is_terminal() && takes_colours(rt) {
        Form::Text(Paint::Colours)
    } else {
        Form::Text(Paint::Plain)
    }
}

/// What a command line is answered by.
fn means_of<'r, 't>(
    rt: &'r HostRuntime,
    catalogue: &'t Catalogue,
) -> Means<'t, SystemDisk<'r>, Pages> {
    Means {
        disk: SystemDisk::new(rt),
        catalogue,
        report: Pages,
    }
}

/// Says what a command line is.
pub fn explain(
    rt: &HostRuntime,
    catalogue: &Catalogue,
    asked: &Asked<'_, '_>,
) -> Result<Ending, Fault> {
    let Some(case) = case_of(rt, asked)? else {
        return Ok(Ending::Usage);
    };
    tell_absent(rt, catalogue, &case)?;
    let by = means_of(rt, catalogue);
    let reply = explain_reply(rt.alloc(), &by, &case, form_of(rt, asked))?;
    say(rt, &reply)
}

/// How the words of a command are written.
fn word_form(rt: &HostRuntime, asked: &Asked<'_, '_>) -> WordForm {
    if asked.has("-0") {
        WordForm::EndedByNul
    } else if rt.stdout().is_terminal() {
        WordForm::Shown
    } else {
        WordForm::Quoted
    }
}

/// When messages of the compiler have colours.
fn color_mode(asked: &Asked<'_, '_>) -> ColorMode {
    match asked.value("--color") {
        Some("never") => ColorMode::Off,
        Some("auto") => ColorMode::Auto,
        Some(_) | None => ColorMode::On,
    }
}

/// Puts the word before those of a command line by which its command has colours as requested, if there is one.
fn put_color(rt: &HostRuntime, asked: &Asked<'_, '_>, case: &mut Case) -> Result<(), Fault> {
    if let Some(word) = color_word(case.compiler, color_mode(asked)) {
        case.words.insert(0, Vec::from_slice(rt.alloc(), word)?)?;
    }
    Ok(())
}

/// Writes the command to run in the place of a command line.
pub fn command(
    rt: &HostRuntime,
    catalogue: &Catalogue,
    asked: &Asked<'_, '_>,
) -> Result<Ending, Fault> {
    let Some(mut case) = case_of(rt, asked)? else {
        return Ok(Ending::Usage);
    };
    put_color(rt, asked, &mut case)?;
    tell_absent(rt, catalogue, &case)?;
    let by = means_of(rt, catalogue);
    let form = CommandForm {
        words: word_form(rt, asked),
        is_strict: asked.has("--strict"),
    };
    let reply = command_reply(rt.alloc(), &by, &case, form)?;
    say(rt, &reply)
}

/// Which hazards a command line has, or whether its outcome may be kept.
fn checked(
    rt: &HostRuntime,
    catalogue: &Catalogue,
    asked: &Asked<'_, '_>,
    case: &Case,
) -> Result<Reply, Fault> {
    let (by, form) = (means_of(rt, catalogue), form_of(rt, asked));
    if asked.has("--keep") {
        return Ok(check_kept(rt.alloc(), &by.disk, catalogue, case, form)?);
    }
    Ok(check_reply(rt.alloc(), &by, case, form)?)
}

/// Says which hazards a command line has, or whether its outcome may be kept.
pub fn check(
    rt: &HostRuntime,
    catalogue: &Catalogue,
    asked: &Asked<'_, '_>,
) -> Result<Ending, Fault> {
    let Some(case) = case_of(rt, asked)? else {
        return Ok(Ending::Usage);
    };
    tell_absent(rt, catalogue, &case)?;
    let reply = checked(rt, catalogue, asked, &case)?;
    say(rt, &reply)
}
