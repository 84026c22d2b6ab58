//! The file of an effect: its names in braces, and the options whose value it has.
ghost use Rattle.std.specs.Prelude.{◌≡◌, map};
ghost use Rattle.std.specs.List.{list_any};
ghost use Rattle.scl_catalogue.specs.Views.{case_of, condition_of, question_of, tells_of};
ghost use Rattle.scl_catalogue_text.specs.Files.{asks_for_options, file_of_parts, file_read, has_its_options, has_value, is_closed, is_of_options, is_part, name_read, names_read};
ghost use Rattle.scl_catalogue_text.specs.Outcome.{Reads};

use crate::cut::{cut_at, parts};
use crate::mistake::{Mistake, Part, Stop};
use crate::names::is;
use scl_catalogue::{Case, Condition, Question, Tells, holds};
use std::alloc::Global;

/// Whether the name stands for a part of a command line.
#[tactic(auto, unfolding(crate::specs::Files::is_part))]
fn is_part(name: &[u8]) -> bool
    ensures { result ≡ is_part name.now }
{
    is(name, "value")
        || is(name, "object")
        || is(name, "object-stem")
        || is(name, "input-stem")
        || is(name, "dump")
}

fn is_closed(bytes: &[u8]) -> bool
    ensures { result ≡ is_closed bytes.now }
{
    let (_, from) = cut_at(bytes, b'}');
    !from.is_empty()
}

/// Refuses what follows an opening brace if it is no name, closing brace and text.
#[tactic(auto, unfolding(crate::specs::Files::name_read))]
fn check_name(bytes: &[u8]) -> Part<()>
    ensures { Reads (λ _. tt) result (name_read bytes.now) }
{
    let (name, behind) = cut_at(bytes, b'}');
    let Some((_, text)) = behind.split_first() else {
        return Err(Stop::Mistake(Mistake::WrongBraces));
    };
    if is_closed(text) {
        return Err(Stop::Mistake(Mistake::WrongBraces));
    }
    if !is_part(name) {
        return Err(Stop::Mistake(Mistake::UnknownName));
    }
    Ok(())
}

fn check_names(parts: &[&[u8]]) -> Part<()>
    ensures { Reads (λ _. tt) result (names_read (map (λ part. part.now) parts.now)) }
{
    for part in parts {
        check_name(part)?;
    }
    Ok(())
}

#[tactic(auto, unfolding(crate::specs::Files::file_of_parts))]
fn check_parts(parts: &[&[u8]]) -> Part<()>
    ensures { Reads (λ _. tt) result (file_of_parts (map (λ part. part.now) parts.now)) }
{
    let Some((front, names)) = parts.split_first() else {
        return Ok(());
    };
    if is_closed(front) {
        return Err(Stop::Mistake(Mistake::WrongBraces));
    }
    check_names(names)
}

/// Refuses a file with a brace that is not closed, or with a name in braces that stands for nothing.
#[tactic(auto, unfolding(crate::specs::Files::file_read))]
pub(crate) fn check_file(alloc: Global, file: &[u8]) -> Part<()>
    ensures { Reads (λ _. tt) result (file_read file.now) }
{
    let parts = parts(alloc, file, b'{')?;
    check_parts(&parts)
}

/// Whether the value of an option is reported.
fn has_value(tells: &Tells) -> bool
    ensures { result ≡ has_value (tells_of tells.now) }
{
    match tells {
        Tells::Effect(_, file) => holds(file, b"{value}"),
        Tells::Hazard(_)
        | Tells::Plain
        | Tells::Key(_)
        | Tells::Run(_)
        | Tells::Names(_)
        | Tells::Brings(_) => false,
    }
}

fn is_of_options(question: &Question) -> bool
    ensures { result ≡ is_of_options (question_of question.now) }
{
    match question {
        Question::Given(_) | Question::Inner(_) => true,
        Question::Is(_) | Question::At(_, _) => false,
    }
}

fn asks_for_options(condition: &Condition) -> bool
    ensures { result ≡ asks_for_options (condition_of condition.now) }
{
    !condition.is_denied && is_of_options(&condition.question)
}

fn some_ask_for_options(conditions: &[Condition]) -> bool
    ensures { result ≡ list_any asks_for_options (map condition_of conditions.now) }
{
    for condition in conditions {
        if asks_for_options(condition) {
            return true;
        }
    }
    false
}

/// Whether the case asks for options, if the value of one is reported.
pub(crate) fn has_its_options(tells: &Tells, case: &Case) -> bool
    ensures { result ≡ has_its_options (tells_of tells.now) (case_of case.now) }
{
    !has_value(tells) || some_ask_for_options(&case.conditions)
}
