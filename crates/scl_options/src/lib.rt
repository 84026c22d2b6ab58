//! The command line of `scl`: its options as rows of a table, and the command that is made of them.
#![tactic(auto)]

mod rows;

use crate::rows::{ROWS, Row, Takes};
use clap::{Arg, ArgAction, Command};
use scl_help::{ABOUT, PARTS, Part, STATUSES, VERSION};
use std::alloc::{AllocError, Global};

/// An option with what it takes.
fn taking<'a>(option: Arg<'a>, takes: Takes) -> Arg<'a> {
    match takes {
        Takes::Nothing => option.action(ArgAction::SetTrue),
        Takes::One => option,
        Takes::Several => option.action(ArgAction::Append),
        Takes::NameOf(names) => option.value_parser(names),
        Takes::OneNameOf(names) => option.value_parser(names).required(true),
        Takes::PathOr(path) => option.default_value(path),
        Takes::Paths => option.num_args(1..).required(true),
        Takes::Rest => rest(option).required(true),
        Takes::RestOrNothing | Takes::NameAndRest(_) => rest(option),
    }
}

/// A value that is all that follows.
fn rest<'a>(option: Arg<'a>) -> Arg<'a> {
    option
        .num_args(1..)
        .trailing_var_arg(true)
        .allow_hyphen_values(true)
}

/// The option of a row, by its name.
fn named<'a>(alloc: Global, row: &'static Row) -> Arg<'a> {
    let option = Arg::new(alloc, row.name).help(row.help);
    if let Some(long) = row.name.strip_prefix("--") {
        return option.long(long);
    }
    match row.name.strip_prefix('-') {
        Some(short) => option.short(short.chars().next().unwrap_or('-')),
        None => option,
    }
}

fn option_of<'a>(alloc: Global, row: &'static Row) -> Arg<'a> {
    let option = taking(named(alloc, row), row.takes);
    if row.value.is_empty() {
        return option;
    }
    option.value_name(row.value)
}

/// A command with its options.
fn command_of<'a>(alloc: Global, part: &'static Part) -> Result<Command<'a>, AllocError> {
    let mut command = Command::new(alloc, part.name)
        .about(part.about)
        .after_help(part.example);
    for row in ROWS {
        if row.of.contains(&part.name) {
            command = command.arg(option_of(alloc, row))?;
        }
    }
    Ok(command)
}

/// The whole command line.
pub fn whole_command<'a>(alloc: Global) -> Result<Command<'a>, AllocError> {
    let mut whole = Command::new(alloc, "scl")
        .about(ABOUT)
        .version(VERSION)
        .after_help(STATUSES)
        .subcommand_required(true)
        .disable_help_subcommand(true);
    for part in PARTS {
        whole = whole.subcommand(command_of(alloc, part)?)?;
    }
    Ok(whole)
}
