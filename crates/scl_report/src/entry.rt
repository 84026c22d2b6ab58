//! An entry of a compile database.
use crate::batch::Batch;
use crate::foreign::is_windows;
use crate::settings::copied;
use scl_cl::{Mem, path};
use scl_explain::{Case, CaseError, Conditions};
use scl_shell::{ShellError, WindowsError, operator_at, shell_words, windows_words};
use scl_text::command::copy_pairs;
use serde_json::{Map, Value};
use std::alloc::Global;
use thiserror::Error;

/// Why a value is no entry.
#[derive(Debug, Drop, Error)]
pub enum EntryError {
    /// It is no object.
    #[error("it is no object")]
    NoObject,
    /// It has no text `directory`.
    #[error("it has no text \"directory\"")]
    NoDirectory,
    /// Its `arguments` are no array of texts.
    #[error("its \"arguments\" are no array of texts")]
    NoArguments,
    /// Its `command` is no text.
    #[error("its \"command\" is no text")]
    NoCommand,
    /// It has neither `arguments` nor `command`.
    #[error("it has neither \"arguments\" nor \"command\"")]
    NoWords,
    /// Its `command` has no words.
    #[error("its \"command\" is broken: {0}")]
    Shell(ShellError),
    /// Its `command` is one of a shell, with an operator.
    #[error("its \"command\" has the shell's operator {0}, so it is no single command line")]
    Operator(String),
    /// Its `command` is one of Windows, and has no words.
    #[error("its \"command\" is broken: {0}")]
    Windows(WindowsError),
    /// A word holds a NUL.
    #[error("a word holds a NUL, so no process can be given it")]
    Nul,
    /// Its words are no command line of a compiler that is served.
    #[error("{0}")]
    Case(CaseError),
}

/// The words of an array, if each item is a text.
fn texts_of(alloc: Global, items: &[Value]) -> Mem<Option<Vec<Vec<u8>>>> {
    let mut words = Vec::new(alloc);
    for item in items {
        match item.as_str() {
            Some(text) => words.push(Vec::from_slice(alloc, text.as_bytes())?)?,
            None => return Ok(None),
        }
    }
    Ok(Some(words))
}

fn arguments_of(alloc: Global, arguments: &Value) -> Mem<Result<Vec<Vec<u8>>, EntryError>> {
    let Some(items) = arguments.as_array() else {
        return Ok(Err(EntryError::NoArguments));
    };
    match texts_of(alloc, items)? {
        Some(words) => Ok(Ok(words)),
        None => Ok(Err(EntryError::NoArguments)),
    }
}

/// The operators of a shell, the longer ones first.
static OPERATORS: [&[u8]; 17] = [
    b"<<-", b"&&", b"||", b";;", b"<<", b">>", b"<&", b">&", b"<>", b">|", b"&", b"|", b";", b"<",
    b">", b"(", b")",
];

/// The operator with which a text begins.
fn operator_of(alloc: Global, text: &[u8]) -> Mem<String> {
    for operator in &OPERATORS {
        if text.starts_with(operator) {
            return String::from_utf8_lossy(alloc, operator);
        }
    }
    Ok(String::new(alloc))
}

fn shell_command(alloc: Global, text: &[u8]) -> Mem<Result<Vec<Vec<u8>>, EntryError>> {
    let words = match shell_words(alloc, text)? {
        Ok(words) => words,
        Err(error) => return Ok(Err(EntryError::Shell(error))),
    };
    match operator_at(text).and_then(|at| text.get(at..)) {
        Some(rest) => Ok(Err(EntryError::Operator(operator_of(alloc, rest)?))),
        None => Ok(Ok(words)),
    }
}

fn windows_command(alloc: Global, text: &[u8]) -> Mem<Result<Vec<Vec<u8>>, EntryError>> {
    match windows_words(alloc, text)? {
        Ok(words) => Ok(Ok(words)),
        Err(error) => Ok(Err(EntryError::Windows(error))),
    }
}

/// The words of a `command`, as a shell or, in a directory of Windows, as Windows splits it.
fn command_of(
    alloc: Global,
    command: &Value,
    directory: &[u8],
) -> Mem<Result<Vec<Vec<u8>>, EntryError>> {
    match command.as_str() {
        Some(text) if is_windows(directory) => windows_command(alloc, text.as_bytes()),
        Some(text) => shell_command(alloc, text.as_bytes()),
        None => Ok(Err(EntryError::NoCommand)),
    }
}

/// The words of an entry: its `arguments`, else those of its `command`.
fn words_of(
    alloc: Global,
    entry: &Map<String, Value>,
    directory: &[u8],
) -> Mem<Result<Vec<Vec<u8>>, EntryError>> {
    if let Some(arguments) = entry.get("arguments") {
        return arguments_of(alloc, arguments);
    }
    match entry.get("command") {
        Some(command) => command_of(alloc, command, directory),
        None => Ok(Err(EntryError::NoWords)),
    }
}

/// The directory of an entry: in `base`, or one of Windows as it is.
fn directory_in(alloc: Global, base: &[u8], directory: &[u8]) -> Mem<Vec<u8>> {
    if is_windows(directory) {
        Vec::from_slice(alloc, directory)
    } else {
        path::join(alloc, base, directory)
    }
}

impl<'a> Batch<'a> {
    /// The command line of an entry. The outer error is the refusal of memory.
    pub fn case_of(&self, alloc: Global, value: &Value) -> Mem<Result<Case, EntryError>> {
        let Some(entry) = value.as_object() else {
            return Ok(Err(EntryError::NoObject));
        };
        let Some(directory) = entry.get("directory").and_then(Value::as_str) else {
            return Ok(Err(EntryError::NoDirectory));
        };
        let words = match words_of(alloc, entry, directory.as_bytes())? {
            Ok(words) => words,
            Err(error) => return Ok(Err(error)),
        };
        if words.iter().any(|word| word.contains(&0)) {
            return Ok(Err(EntryError::Nul));
        }
        let conditions = Conditions {
            cwd: directory_in(alloc, &self.base, directory.as_bytes())?,
            env_vars: copy_pairs(alloc, &self.env_vars)?,
            multiarch: self.multiarch,
            settings: copied(alloc, &self.settings)?,
        };
        let case = Case::of_words(alloc, words, &self.launchers, self.named, conditions)?;
        Ok(case.map_err(EntryError::Case))
    }
}
