//! The folders in which a compiler says that it searches headers.
ghost use Rattle.std.specs.Prelude.{◌≡◌, ◌++◌, [], map, IfOk, OnOk};
ghost use Rattle.std.specs.List.{flat_map};
ghost use Rattle.std.specs.Option.{option_map, unwrap_or};
ghost use Rattle.scl_values.specs.Words.{words_of};
ghost use Rattle.scl_questions.specs.Views.{question_of, written_of};
ghost use Rattle.scl_readings.specs.Folders as readings;
ghost use Rattle.scl_rounds.specs.Keys.{searches};
ghost use Rattle.scl_rounds.specs.Searches.{all_folders_on, are_all_named, asked_search, folders_on, folders_said, has_other_names, ignored_in, names_all};
ghost use Rattle.scl_rounds.specs.Views.{key_in, machine_of};

use crate::answer::Told;
use crate::run::unfailed;
use scl_key::Direct;
use scl_questions::{Language, Question, Written};
use scl_readings::{between, first_place, folders, lines_after};
use scl_text::command::{copy_words, push_word};
use scl_values::Mem;
use std::alloc::Global;

/// What asks for the folders. It is read, so its messages are in one language.
pub(crate) fn search_question(alloc: Global, words: &[Vec<u8>]) -> Mem<Question>
    ensures { IfOk result (λ question. question_of question ≡ asked_search (words_of words.now)) }
{
    Ok(Question::Run(Language::C, copy_words(alloc, words)?))
}

/// Appends lines.
fn push_lines(alloc: Global, names: &mut Vec<Vec<u8>>, lines: &[&[u8]]) -> Mem<()>
    ensures { OnOk result (words_of names.new.items ≡ words_of names.old.items ++ map (λ line. line.now) lines.now) }
{
    for line in lines {
        push_word(alloc, names, line)?;
    }
    Ok(())
}

/// Appends the folders of the list in messages, if they have one.
fn push_listed(alloc: Global, names: &mut Vec<Vec<u8>>, messages: &[u8]) -> Mem<()>
    ensures { OnOk result (words_of names.new.items ≡ words_of names.old.items ++ unwrap_or (readings.folders messages.now) []) }
{
    match folders(alloc, messages)? {
        Some(lines) => push_lines(alloc, names, &lines),
        None => Ok(()),
    }
}

/// Appends a folder that is ignored since it is not there. The line of messages is given behind its first byte.
fn push_ignored_in(alloc: Global, names: &mut Vec<Vec<u8>>, rest: &[u8]) -> Mem<()>
    ensures { OnOk result (words_of names.new.items ≡ words_of names.old.items ++ ignored_in rest.now) }
{
    if rest.starts_with(b"gnoring ") {
        if let Some(folder) = between(b"\"", b"\"", rest) {
            push_word(alloc, names, folder)?;
        }
    }
    Ok(())
}

/// Appends the folders that are ignored by these lines.
fn push_ignored(alloc: Global, names: &mut Vec<Vec<u8>>, lines: &[&[u8]]) -> Mem<()>
    ensures { OnOk result (words_of names.new.items ≡ words_of names.old.items ++ flat_map ignored_in (map (λ line. line.now) lines.now)) }
{
    for rest in lines {
        push_ignored_in(alloc, names, rest)?;
    }
    Ok(())
}

/// Appends the folders that messages name.
fn push_said(alloc: Global, names: &mut Vec<Vec<u8>>, messages: &[u8]) -> Mem<()>
    ensures { OnOk result (words_of names.new.items ≡ words_of names.old.items ++ folders_said messages.now) }
{
    push_listed(alloc, names, messages)?;
    push_ignored(alloc, names, &lines_after(alloc, b'i', messages)?)
}

/// Appends the folders that a run names.
fn push_folders(names: &mut Vec<Vec<u8>>, told: &Told<'_>, words: &[Vec<u8>]) -> Mem<()>
    ensures { OnOk result (words_of names.new.items ≡ words_of names.old.items ++ folders_on (machine_of told.now) (words_of words.now)) }
{
    let question = search_question(told.alloc, words)?;
    match unfailed(told, &question) {
        Some(written) => push_said(told.alloc, names, &written.messages),
        None => Ok(()),
    }
}

/// Appends the folders in which the compiler says that it searches.
pub(crate) fn push_all_folders(names: &mut Vec<Vec<u8>>, told: &Told<'_>) -> Mem<()>
    ensures { OnOk result (words_of names.new.items ≡ words_of names.old.items ++ all_folders_on (machine_of told.now) (searches (key_in told.now))) }
{
    for one in told.key.direct {
        if let Direct::Search(words) = one {
            push_folders(names, told, words)?;
        }
    }
    Ok(())
}

/// The folders in which the compiler says that it searches.
pub(crate) fn folders_named(told: &Told<'_>) -> Mem<Vec<Vec<u8>>>
    ensures { IfOk result (λ names. words_of names.items ≡ all_folders_on (machine_of told.now) (searches (key_in told.now))) }
{
    let mut names = Vec::new(told.alloc);
    push_all_folders(&mut names, told)?;
    Ok(names)
}

/// Whether messages name folders whose names are not those of files.
fn has_other_names(messages: &[u8]) -> bool
    ensures { result ≡ has_other_names messages.now }
{
    first_place(b"(framework directory)", messages).is_some()
        || first_place(b"(headermap)", messages).is_some()
}

/// Whether a run names all folders that are searched.
fn names_all(alloc: Global, written: Option<&Written>) -> Mem<bool>
    ensures { IfOk result (λ it. it ≡ names_all (option_map (λ it. written_of it.now) written.entry)) }
{
    match written {
        Some(written) => Ok(
            folders(alloc, &written.messages)?.is_some() && !has_other_names(&written.messages),
        ),
        None => Ok(false),
    }
}

/// Whether the compiler names all folders that it searches.
pub(crate) fn are_all_named(told: &Told<'_>) -> Mem<bool>
    ensures { IfOk result (λ it. it ≡ are_all_named (machine_of told.now) (searches (key_in told.now))) }
{
    for one in told.key.direct {
        if let Direct::Search(words) = one {
            let question = search_question(told.alloc, words)?;
            if !names_all(told.alloc, unfailed(told, &question))? {
                return Ok(false);
            }
        }
    }
    Ok(true)
}
