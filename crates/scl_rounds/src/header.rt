//! The headers that were compiled before, and that gcc may read in the place of the first one that a source includes.
ghost use Rattle.std.specs.Prelude.{◌≡◌, ◌+◌, ◌++◌, ◌∷◌, [], not, map, IfOk, OnOk, length};
ghost use Rattle.std.specs.List.{flat_map, suffix_len};
ghost use Rattle.std.specs.Option.{option_copied, option_map};
ghost use Rattle.scl_files.specs.Paths.{is_slash, join};
ghost use Rattle.scl_values.specs.Words.{words_of};
ghost use Rattle.scl_key.specs.Views.{part_of};
ghost use Rattle.scl_lookup.specs.Keys.{said};
ghost use Rattle.scl_lookup.specs.Questions.{file, names};
ghost use Rattle.scl_questions.specs.Views.{field_of, row_of, rows_of};
ghost use Rattle.scl_readings.specs.Lines.{parts};
ghost use Rattle.scl_rounds.specs.Headers.{all_inside, any_there, behind_slashes, compiled, compiled_in, folder_of, folders, folders_by, folders_in, headers, headers_told, included_as, inside, is_folder, is_there, leading_in, named, places, places_by, run_row, run_rows, unless_made, words_told};
ghost use Rattle.scl_rounds.specs.Shown.{marked};
ghost use Rattle.scl_rounds.specs.Views.{key_in, key_of, machine_of};

use crate::answer::{Told, stands, value_of};
use crate::file::files_told;
use crate::key::{Key, is_made};
use crate::row::{push_all_said, push_said};
use crate::search::push_all_folders;
use crate::shown::{each_once, marked, shown};
use scl_files::path::join;
use scl_key::Part;
use scl_questions::{Answer, Field, Question, Standing, answer_to, push_text};
use scl_readings::{Named, cut_at, files_in, leading_lines};
use scl_text::command::{push_word, push_words};
use scl_values::Mem;
use std::alloc::Global;

/// Appends the names of what is said to be this. Each stands after what it is.
pub(crate) fn push_named(
    alloc: Global,
    names: &mut Vec<Vec<u8>>,
    what: &[u8],
    searched: &[Vec<u8>],
) -> Mem<()>
    ensures { OnOk result (words_of names.new.items ≡ words_of names.old.items ++ named what.now (words_of searched.now)) }
{
    let mut rest = searched;
    while let [it, name, behind @ ..] = rest {
        if it.as_slice() == what {
            push_word(alloc, names, name)?;
        }
        rest = behind;
    }
    Ok(())
}

/// Appends the files that a text enters before any text but directives.
fn push_leading(alloc: Global, names: &mut Vec<Vec<u8>>, text: &[u8]) -> Mem<()>
    ensures { OnOk result (words_of names.new.items ≡ words_of names.old.items ++ leading_in text.now) }
{
    let directives = leading_lines(alloc, text)?;
    names.append(&mut files_in(alloc, Named::Entered, &directives)?)
}

/// Appends those that all texts enter so.
fn push_all_leading(alloc: Global, names: &mut Vec<Vec<u8>>, texts: &[&[u8]]) -> Mem<()>
    ensures { OnOk result (words_of names.new.items ≡ words_of names.old.items ++ flat_map leading_in (map (λ text. text.now) texts.now)) }
{
    for text in texts {
        push_leading(alloc, names, text)?;
    }
    Ok(())
}

/// The first headers: those that the runs enter, and those that words name.
fn headers(told: &Told<'_>, searched: &[Vec<u8>]) -> Mem<Vec<Vec<u8>>>
    ensures { IfOk result (λ names. words_of names.items ≡ headers (key_in told.now) (machine_of told.now) (words_of searched.now)) }
{
    let mut names = Vec::new(told.alloc);
    push_all_leading(told.alloc, &mut names, &shown(told)?)?;
    push_named(told.alloc, &mut names, b"header", searched)?;
    Ok(names)
}

/// Appends what follows each slash of a path.
fn push_behind_slashes(alloc: Global, names: &mut Vec<Vec<u8>>, path: &[u8]) -> Mem<()>
    ensures { OnOk result (words_of names.new.items ≡ words_of names.old.items ++ behind_slashes path.now) }
{
    for (at, byte) in path.iter().enumerate() {
        if *byte == b'/' {
            push_word(alloc, names, &path[at + 1..])?;
        }
    }
    Ok(())
}

/// Appends the names by which a source may include a header.
fn push_included_as(alloc: Global, names: &mut Vec<Vec<u8>>, header: &[u8]) -> Mem<()>
    ensures { OnOk result (words_of names.new.items ≡ words_of names.old.items ++ included_as header.now) }
{
    push_word(alloc, names, header)?;
    push_behind_slashes(alloc, names, header)
}

/// The names by which a source may include these headers.
fn all_included_as(alloc: Global, headers: &[Vec<u8>]) -> Mem<Vec<Vec<u8>>>
    ensures { IfOk result (λ names. words_of names.items ≡ flat_map included_as (words_of headers.now)) }
{
    let mut names = Vec::new(alloc);
    for header in headers {
        push_included_as(alloc, &mut names, header)?;
    }
    Ok(names)
}

/// The position after the last slash; 0 if there is none.
fn after_last_slash(path: &[u8]) -> usize
    ensures { result + suffix_len (λ byte. not (is_slash byte)) path.now ≡ length path.now }
{
    let mut at = path.len();
    while at > 0 && path[at - 1] != b'/' {
        at -= 1;
    }
    at
}

/// A path up to its last slash.
pub(crate) fn folder_of(path: &[u8]) -> &[u8]
    ensures { result.now ≡ folder_of path.now }
{
    &path[..after_last_slash(path)]
}

/// Appends the folders of these.
fn push_folders_of(alloc: Global, folders: &mut Vec<Vec<u8>>, paths: &[Vec<u8>]) -> Mem<()>
    ensures { OnOk result (words_of folders.new.items ≡ words_of folders.old.items ++ map folder_of (words_of paths.now)) }
{
    for path in paths {
        push_word(alloc, folders, folder_of(path))?;
    }
    Ok(())
}

/// Appends the parts of a list with `:` between them.
fn push_parts(alloc: Global, folders: &mut Vec<Vec<u8>>, list: &[u8]) -> Mem<()>
    ensures { OnOk result (words_of folders.new.items ≡ words_of folders.old.items ++ parts 0x3a list.now) }
{
    let mut rest = list;
    while let Some((part, behind)) = cut_at(b':', rest) {
        push_word(alloc, folders, part)?;
        rest = behind;
    }
    push_word(alloc, folders, rest)
}

/// Appends the folders in the value of a variable.
fn push_folders_in(alloc: Global, folders: &mut Vec<Vec<u8>>, value: Option<&[u8]>) -> Mem<()>
    ensures { OnOk result (words_of folders.new.items ≡ words_of folders.old.items ++ folders_in (option_copied value.entry)) }
{
    match value {
        Some(list) => push_parts(alloc, folders, list),
        None => Ok(()),
    }
}

/// Appends the folders that variables name.
fn push_folders_by(folders: &mut Vec<Vec<u8>>, told: &Told<'_>, variables: &[Vec<u8>]) -> Mem<()>
    ensures { OnOk result (words_of folders.new.items ≡ words_of folders.old.items ++ folders_by (machine_of told.now) (words_of variables.now)) }
{
    for name in variables {
        push_folders_in(told.alloc, folders, value_of(told, name)?)?;
    }
    Ok(())
}

/// The folders that words name, those of the first headers and of the input, those that variables name, and those that the compiler
/// names.
fn folders(told: &Told<'_>, headers: &[Vec<u8>], searched: &[Vec<u8>]) -> Mem<Vec<Vec<u8>>>
    ensures { IfOk result (λ them. words_of them.items ≡ folders (key_in told.now) (machine_of told.now) (words_of headers.now) (words_of searched.now)) }
{
    let mut inputs = Vec::new(told.alloc);
    push_named(told.alloc, &mut inputs, b"beside", searched)?;
    let mut variables = Vec::new(told.alloc);
    push_named(told.alloc, &mut variables, b"variable", searched)?;
    let mut folders = Vec::new(told.alloc);
    push_named(told.alloc, &mut folders, b"folder", searched)?;
    push_folders_of(told.alloc, &mut folders, headers)?;
    push_folders_of(told.alloc, &mut folders, &inputs)?;
    push_folders_by(&mut folders, told, &variables)?;
    push_all_folders(&mut folders, told)?;
    each_once(told.alloc, folders)
}

/// Appends a header that was compiled.
fn push_compiled(alloc: Global, paths: &mut Vec<Vec<u8>>, header: &[u8]) -> Mem<()>
    ensures { OnOk result (words_of paths.new.items ≡ words_of paths.old.items ++ compiled header.now ∷ []) }
{
    let mut path = Vec::from_slice(alloc, header)?;
    path.extend_from_slice(b".gch")?;
    paths.push(path)?;
    Ok(())
}

/// Appends headers that were compiled.
fn push_all_compiled(alloc: Global, paths: &mut Vec<Vec<u8>>, headers: &[Vec<u8>]) -> Mem<()>
    ensures { OnOk result (words_of paths.new.items ≡ words_of paths.old.items ++ map compiled (words_of headers.now)) }
{
    for header in headers {
        push_compiled(alloc, paths, header)?;
    }
    Ok(())
}

/// Appends them by these names in a folder.
fn push_compiled_in(
    alloc: Global,
    paths: &mut Vec<Vec<u8>>,
    names: &[Vec<u8>],
    folder: &[u8],
) -> Mem<()>
    ensures { OnOk result (words_of paths.new.items ≡ words_of paths.old.items ++ compiled_in (words_of names.now) folder.now) }
{
    for name in names {
        push_compiled(alloc, paths, &join(alloc, folder, name)?)?;
    }
    Ok(())
}

/// Them by these names in each folder.
fn compiled_in_each(alloc: Global, folders: &[Vec<u8>], names: &[Vec<u8>]) -> Mem<Vec<Vec<u8>>>
    ensures { IfOk result (λ paths. words_of paths.items ≡ flat_map (compiled_in (words_of names.now)) (words_of folders.now)) }
{
    let mut paths = Vec::new(alloc);
    for folder in folders {
        push_compiled_in(alloc, &mut paths, names, folder)?;
    }
    Ok(paths)
}

/// Appends a path, unless the command writes there.
#[tactic(auto, unfolding(crate::specs::Headers::unless_made))]
fn push_unless_made(alloc: Global, paths: &mut Vec<Vec<u8>>, key: &Key<'_>, path: &[u8]) -> Mem<()>
    ensures { OnOk result (words_of paths.new.items ≡ words_of paths.old.items ++ unless_made (key_of key.now) path.now) }
{
    if !is_made(alloc, key, path)? {
        push_word(alloc, paths, path)?;
    }
    Ok(())
}

/// The paths at which the command does not write.
fn not_made(alloc: Global, key: &Key<'_>, paths: &[Vec<u8>]) -> Mem<Vec<Vec<u8>>>
    ensures { IfOk result (λ others. words_of others.items ≡ flat_map (unless_made (key_of key.now)) (words_of paths.now)) }
{
    let mut others = Vec::new(alloc);
    for path in paths {
        push_unless_made(alloc, &mut others, key, path)?;
    }
    Ok(others)
}

/// Where compiled headers may stand: in each folder by each name, and beside each source.
fn places_by(
    alloc: Global,
    key: &Key<'_>,
    folders: &[Vec<u8>],
    names: &[Vec<u8>],
    sources: &[Vec<u8>],
) -> Mem<Vec<Vec<u8>>>
    ensures { IfOk result (λ paths. words_of paths.items ≡ places_by (key_of key.now) (words_of folders.now) (words_of names.now) (words_of sources.now)) }
{
    let mut paths = compiled_in_each(alloc, folders, names)?;
    push_all_compiled(alloc, &mut paths, sources)?;
    not_made(alloc, key, &each_once(alloc, paths)?)
}

/// Names, and the files that the runs name.
fn with_marked(told: &Told<'_>, headers: Vec<Vec<u8>>) -> Mem<Vec<Vec<u8>>>
    ensures { IfOk result (λ names. words_of names.items ≡ words_of headers.items ++ marked (key_in told.now) (machine_of told.now)) }
{
    let mut names = headers;
    names.append(&mut marked(told)?)?;
    Ok(names)
}

/// Where gcc may find what it reads in the place of the first header.
pub(crate) fn places(told: &Told<'_>, searched: &[Vec<u8>]) -> Mem<Vec<Vec<u8>>>
    ensures { IfOk result (λ paths. words_of paths.items ≡ places (key_in told.now) (machine_of told.now) (words_of searched.now)) }
{
    let headers = headers(told, searched)?;
    let folders = folders(told, &headers, searched)?;
    let names = each_once(told.alloc, all_included_as(told.alloc, &headers)?)?;
    let sources = with_marked(told, headers)?;
    places_by(told.alloc, told.key, &folders, &names, &sources)
}

/// Whether a folder stands at a path.
pub(crate) fn is_folder(told: &Told<'_>, path: &[u8]) -> Mem<bool>
    ensures { IfOk result (λ it. it ≡ is_folder (machine_of told.now (file path.now))) }
{
    match stands(told, path)? {
        Some(Standing::Folder) => Ok(true),
        Some(Standing::Regular(_) | Standing::Special | Standing::Missing) | None => Ok(false),
    }
}

/// The names in a folder, as they were answered; none, if they were not.
fn names_in<'a>(told: &Told<'a>, path: &[u8]) -> Mem<&'a [Vec<u8>]>
    ensures { IfOk result (λ them. words_of them.now ≡ machine_of told.now (names path.now)) }
{
    let question = Question::Names(Vec::from_slice(told.alloc, path)?);
    if let Some(Answer::Names(them)) = answer_to(&question, told.asked, told.answers) {
        return Ok(them.as_slice());
    }
    Ok(&[])
}

/// Appends names, each in a folder.
fn push_joined(alloc: Global, paths: &mut Vec<Vec<u8>>, folder: &[u8], names: &[Vec<u8>]) -> Mem<()>
    ensures { OnOk result (words_of paths.new.items ≡ words_of paths.old.items ++ map (join folder.now) (words_of names.now)) }
{
    for name in names {
        paths.push(join(alloc, folder, name)?)?;
    }
    Ok(())
}

/// Appends what is in a folder, if there is one.
fn push_inside(paths: &mut Vec<Vec<u8>>, told: &Told<'_>, path: &[u8]) -> Mem<()>
    ensures { OnOk result (words_of paths.new.items ≡ words_of paths.old.items ++ inside (machine_of told.now) path.now) }
{
    if is_folder(told, path)? {
        push_joined(told.alloc, paths, path, names_in(told, path)?)?;
    }
    Ok(())
}

/// What is in those of these that are folders.
pub(crate) fn all_inside(told: &Told<'_>, paths: &[Vec<u8>]) -> Mem<Vec<Vec<u8>>>
    ensures { IfOk result (λ them. words_of them.items ≡ all_inside (machine_of told.now) (words_of paths.now)) }
{
    let mut them = Vec::new(told.alloc);
    for path in paths {
        push_inside(&mut them, told, path)?;
    }
    Ok(them)
}

/// Whether anything stands at a path.
fn is_there(told: &Told<'_>, path: &[u8]) -> Mem<bool>
    ensures { IfOk result (λ it. it ≡ is_there (machine_of told.now (file path.now))) }
{
    match stands(told, path)? {
        Some(Standing::Regular(_) | Standing::Folder | Standing::Special) => Ok(true),
        Some(Standing::Missing) | None => Ok(false),
    }
}

fn any_there(told: &Told<'_>, paths: &[Vec<u8>]) -> Mem<bool>
    ensures { IfOk result (λ it. it ≡ any_there (machine_of told.now) (words_of paths.now)) }
{
    for path in paths {
        if is_there(told, path)? {
            return Ok(true);
        }
    }
    Ok(false)
}

fn said_row(alloc: Global, name: &[u8], words: &[Vec<u8>]) -> Mem<Vec<Field>>
    ensures { IfOk result (λ row. row_of row.items ≡ map said (name.now ∷ words_of words.now)) }
{
    let mut row = Vec::new(alloc);
    push_said(alloc, &mut row, name)?;
    push_all_said(alloc, &mut row, words)?;
    Ok(row)
}

/// The row of a run whole, with the words by which it asks.
fn run_row(alloc: Global, part: &Part) -> Mem<Option<Vec<Field>>>
    ensures { IfOk result (λ row. option_map (λ row. row_of row.items) row ≡ run_row (part_of part.now)) }
{
    match part {
        Part::Run(words) => Ok(Some(said_row(alloc, b"run", words)?)),
        Part::RunElse(words) => Ok(Some(said_row(alloc, b"run-else", words)?)),
        Part::Is(_)
        | Part::Output(_)
        | Part::Directory
        | Part::Compiler
        | Part::Plan(_)
        | Part::Asked(_, _)
        | Part::Pch(_)
        | Part::Sources
        | Part::Times => Ok(None),
    }
}

fn run_rows(alloc: Global, key: &Key<'_>) -> Mem<Vec<Vec<Field>>>
    ensures { IfOk result (λ rows. rows_of rows.items ≡ run_rows (key_of key.now)) }
{
    let mut rows = Vec::new(alloc);
    for part in key.parts {
        if let Some(row) = run_row(alloc, part)? {
            rows.push(row)?;
        }
    }
    Ok(rows)
}

/// The words of the runs, as one text: they say of which kind each folder is.
fn words_told(alloc: Global, key: &Key<'_>) -> Mem<Field>
    ensures { IfOk result (λ field. field_of field ≡ words_told (key_of key.now)) }
{
    let mut text = Vec::new(alloc);
    push_text(alloc, &mut text, &run_rows(alloc, key)?)?;
    Ok(Field::Said(text))
}

/// Nothing, if no compiled header is there. Else the words of the runs, all places in order with what stands there, and what is in
/// folders.
pub(crate) fn headers_told(told: &Told<'_>, paths: &[Vec<u8>]) -> Mem<Option<Vec<Field>>>
    ensures { IfOk result (λ answer. option_map (λ answer. row_of answer.items) answer ≡ headers_told (key_in told.now) (machine_of told.now) (words_of paths.now)) }
{
    if !any_there(told, paths)? {
        return Ok(Some(Vec::new(told.alloc)));
    }
    let mut all = Vec::new(told.alloc);
    push_words(told.alloc, &mut all, paths)?;
    all.append(&mut all_inside(told, paths)?)?;
    let Some(mut files) = files_told(told, &all)? else {
        return Ok(None);
    };
    let mut answer = Vec::new(told.alloc);
    answer.push(words_told(told.alloc, told.key)?)?;
    answer.append(&mut files)?;
    Ok(Some(answer))
}
