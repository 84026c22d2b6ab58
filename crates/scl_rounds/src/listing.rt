//! What a list of answers needs beside those of a key: where a run might find another file, if one comes to be there.
ghost use Rattle.std.specs.Prelude.{◌≡◌, ◌++◌, map, IfOk, OnOk};
ghost use Rattle.std.specs.List.{flat_map, list_all, list_any};
ghost use Rattle.std.specs.Option.{option_copied};
ghost use Rattle.scl_values.specs.Words.{words_of};
ghost use Rattle.scl_files.specs.Paths.{join};
ghost use Rattle.scl_key.specs.Views.{direct_of, part_of, parts_of};
ghost use Rattle.scl_rounds.specs.Keys.{headers_named};
ghost use Rattle.scl_rounds.specs.Listings.{all_regular, any_hides, beside_by, beside_on, candidates, candidates_by, candidates_from, has_loose, hides_by, in_folders, is_listed, is_loose, is_search, is_searched, names_by, names_on, naming};
ghost use Rattle.scl_rounds.specs.Searches.{all_folders_on};
ghost use Rattle.scl_rounds.specs.Shown.{content_at};
ghost use Rattle.scl_rounds.specs.Views.{key_in, key_of, machine_of};

use crate::answer::Told;
use crate::file::is_regular;
use crate::header::folder_of;
use crate::key::Key;
use crate::search::{are_all_named, folders_named};
use crate::shown::{all_sources, content_at, each_once};
use scl_files::path::join;
use scl_key::{Direct, Part};
use scl_patterns::{joined, named_in, reads_unseen};
use scl_readings::first_place;
use scl_values::Mem;
use std::alloc::Global;

fn is_search(one: &Direct) -> bool
    ensures { result ≡ is_search (direct_of one.now) }
{
    match one {
        Direct::Search(_) => true,
        Direct::Env(_) | Direct::First(_) | Direct::Named(_) | Direct::RefuseIfRead(_) => false,
    }
}

/// Whether the compiler names the folders that it searches.
pub(crate) fn is_searched(key: &Key<'_>) -> bool
    ensures { result ≡ is_searched (key_of key.now) }
{
    for one in key.direct {
        if is_search(one) {
            return true;
        }
    }
    false
}

// ---- names

/// Appends the headers that words name.
fn push_headers_named(alloc: Global, names: &mut Vec<Vec<u8>>, key: &Key<'_>) -> Mem<()>
    ensures { OnOk result (words_of names.new.items ≡ words_of names.old.items ++ headers_named (key_of key.now)) }
{
    for one in key.direct {
        if let Direct::First(header) = one {
            names.push(Vec::from_slice(alloc, header)?)?;
        }
    }
    Ok(())
}

/// The files whose text names others: the sources, and the headers that words name.
pub(crate) fn naming(told: &Told<'_>) -> Mem<Vec<Vec<u8>>>
    ensures { IfOk result (λ names. words_of names.items ≡ naming (key_in told.now) (machine_of told.now)) }
{
    let mut names = all_sources(told)?;
    push_headers_named(told.alloc, &mut names, told.key)?;
    each_once(told.alloc, names)
}

/// The names in a text.
fn names_by(alloc: Global, text: Option<&[u8]>) -> Mem<Vec<Vec<u8>>>
    ensures { IfOk result (λ names. words_of names.items ≡ names_by (option_copied text.entry)) }
{
    match text {
        Some(text) => named_in(alloc, &joined(alloc, text)?),
        None => Ok(Vec::new(alloc)),
    }
}

/// Appends the names in sources.
fn push_names(names: &mut Vec<Vec<u8>>, told: &Told<'_>, sources: &[Vec<u8>]) -> Mem<()>
    ensures { OnOk result (words_of names.new.items ≡ words_of names.old.items ++ flat_map (names_on (machine_of told.now)) (words_of sources.now)) }
{
    for source in sources {
        names.append(&mut names_by(told.alloc, content_at(told, source)?)?)?;
    }
    Ok(())
}

// ---- where files with these names may stand

/// Appends paths in a folder.
fn push_in_folder(
    alloc: Global,
    paths: &mut Vec<Vec<u8>>,
    folder: &[u8],
    names: &[Vec<u8>],
) -> Mem<()>
    ensures { OnOk result (words_of paths.new.items ≡ words_of paths.old.items ++ map (join folder.now) (words_of names.now)) }
{
    for name in names {
        paths.push(join(alloc, folder, name)?)?;
    }
    Ok(())
}

/// Appends paths in each of these folders.
fn push_in_folders(
    alloc: Global,
    paths: &mut Vec<Vec<u8>>,
    folders: &[Vec<u8>],
    names: &[Vec<u8>],
) -> Mem<()>
    ensures { OnOk result (words_of paths.new.items ≡ words_of paths.old.items ++ in_folders (words_of folders.now) (words_of names.now)) }
{
    for folder in folders {
        push_in_folder(alloc, paths, folder, names)?;
    }
    Ok(())
}

/// Appends the paths beside a source that names them.
fn push_beside_one(
    alloc: Global,
    paths: &mut Vec<Vec<u8>>,
    source: &[u8],
    text: Option<&[u8]>,
) -> Mem<()>
    ensures { OnOk result (words_of paths.new.items ≡ words_of paths.old.items ++ beside_by source.now (option_copied text.entry)) }
{
    let names = names_by(alloc, text)?;
    push_in_folder(alloc, paths, folder_of(source), &names)
}

/// Appends the paths beside each source.
fn push_beside(paths: &mut Vec<Vec<u8>>, told: &Told<'_>, sources: &[Vec<u8>]) -> Mem<()>
    ensures { OnOk result (words_of paths.new.items ≡ words_of paths.old.items ++ flat_map (beside_on (machine_of told.now)) (words_of sources.now)) }
{
    for source in sources {
        push_beside_one(told.alloc, paths, source, content_at(told, source)?)?;
    }
    Ok(())
}

/// Where files with these names may stand.
fn candidates_by(
    alloc: Global,
    folders: &[Vec<u8>],
    names: Vec<Vec<u8>>,
    beside: Vec<Vec<u8>>,
) -> Mem<Vec<Vec<u8>>>
    ensures { IfOk result (λ paths. words_of paths.items ≡ candidates_by (words_of folders.now) (words_of names.items) (words_of beside.items)) }
{
    let names = each_once(alloc, names)?;
    let mut paths = each_once(alloc, beside)?;
    push_in_folders(alloc, &mut paths, folders, &names)?;
    Ok(paths)
}

/// Where the files may stand that words and these sources name.
fn candidates_from(told: &Told<'_>, sources: &[Vec<u8>]) -> Mem<Vec<Vec<u8>>>
    ensures { IfOk result (λ paths. words_of paths.items ≡ candidates_from (key_in told.now) (machine_of told.now) (words_of sources.now)) }
{
    let folders = folders_named(told)?;
    let mut names = Vec::new(told.alloc);
    push_headers_named(told.alloc, &mut names, told.key)?;
    push_names(&mut names, told, sources)?;
    let mut beside = Vec::new(told.alloc);
    push_beside(&mut beside, told, sources)?;
    candidates_by(told.alloc, &folders, names, beside)
}

/// Where a run might find another file.
pub(crate) fn candidates(told: &Told<'_>) -> Mem<Vec<Vec<u8>>>
    ensures { IfOk result (λ paths. words_of paths.items ≡ candidates (key_in told.now) (machine_of told.now)) }
{
    let sources = naming(told)?;
    candidates_from(told, &sources)
}

// ---- whether these are all

fn hides_by(alloc: Global, text: Option<&[u8]>) -> Mem<bool>
    ensures { IfOk result (λ it. it ≡ hides_by (option_copied text.entry)) }
{
    match text {
        Some(text) => Ok(reads_unseen(&joined(alloc, text)?)),
        None => Ok(false),
    }
}

/// Whether a source reads what no name in it says.
fn any_hides(told: &Told<'_>, sources: &[Vec<u8>]) -> Mem<bool>
    ensures { IfOk result (λ it. it ≡ any_hides (machine_of told.now) (words_of sources.now)) }
{
    for source in sources {
        if hides_by(told.alloc, content_at(told, source)?)? {
            return Ok(true);
        }
    }
    Ok(false)
}

/// Whether a word may define a macro that does so, or says that the bytes of sources are other characters.
fn is_loose(word: &[u8]) -> bool
    ensures { result ≡ is_loose word.now }
{
    reads_unseen(word) && word != b"\0".as_slice()
        || first_place(b"__has_include", word).is_some()
        || word.starts_with(b"-finput-charset")
}

fn any_loose(words: &[Vec<u8>]) -> bool
    ensures { result ≡ list_any is_loose (words_of words.now) }
{
    for word in words {
        if is_loose(word) {
            return true;
        }
    }
    false
}

fn has_loose(part: &Part) -> bool
    ensures { result ≡ has_loose (part_of part.now) }
{
    match part {
        Part::Run(words) | Part::RunElse(words) => any_loose(words),
        Part::Is(_)
        | Part::Output(_)
        | Part::Directory
        | Part::Compiler
        | Part::Plan(_)
        | Part::Asked(_, _)
        | Part::Pch(_)
        | Part::Sources
        | Part::Times => false,
    }
}

fn any_has_loose(parts: &[Part]) -> bool
    ensures { result ≡ list_any has_loose (parts_of parts.now) }
{
    for part in parts {
        if has_loose(part) {
            return true;
        }
    }
    false
}

fn all_regular(told: &Told<'_>, names: &[Vec<u8>]) -> Mem<bool>
    ensures { IfOk result (λ it. it ≡ all_regular (machine_of told.now) (words_of names.now)) }
{
    for name in names {
        if !is_regular(told, name)? {
            return Ok(false);
        }
    }
    Ok(true)
}

/// Whether the answers to all that was asked, but for what runs write in the language of the environment, tell whether the runs would
/// write the same.
pub(crate) fn is_listed(told: &Told<'_>) -> Mem<bool>
    ensures { IfOk result (λ it. it ≡ is_listed (key_in told.now) (machine_of told.now)) }
{
    if !is_searched(told.key) || any_has_loose(told.key.parts) || !are_all_named(told)? {
        return Ok(false);
    }
    let sources = all_sources(told)?;
    Ok(all_regular(told, &sources)? && !any_hides(told, &naming(told)?)?)
}
