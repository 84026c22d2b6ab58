//! Looking for what is in question on a disk, and adding what is found to a view.
ghost use Rattle.std.specs.Prelude.{◌≡◌, ◌||◌, IfOk, IfErr};
ghost use Rattle.scl_values.specs.Words.{words_of};
ghost use Rattle.scl_reader.specs.QuestionsGiven.{given};
ghost use Rattle.scl_load.specs.Loads.{IsLookedFor, IsAbsent, AreAbsent, IsSame, AreSame, AreAllSame, HasNoneAsked};

use crate::disk::Disk;
use scl_reader::{Mem, Questions, View};
use std::alloc::Global;

/// The kinds of things to look for at a path.
#[derive(Clone, Copy)]
pub(crate) enum Sought {
    File,
    Directory,
    Existing,
}

fn copied(alloc: Global, path: &[u8]) -> Mem<Vec<u8>>
    ensures { IfOk result (λ copied. copied.items ≡ path.now) }
{
    Vec::from_slice(alloc, path)
}

/// Looks for a file; says whether the view has it.
pub(crate) fn look_for_file<D: Disk>(
    alloc: Global,
    disk: &D,
    view: &mut View,
    path: &[u8],
) -> Mem<Result<bool, D::Error>>
    ensures found { IfOk result (λ read. IfOk read (λ found. IsLookedFor (D.holds disk.now) (IsAbsent Sought.File path.now) (IsSame Sought.File path.now) view.old view.new found)) }
    ensures error { IfOk result (λ read. IfErr read (λ error. D.fails disk.now error)) }
{
    if view.file(path).is_some() {
        return Ok(Ok(true));
    }
    match disk.file(alloc, path)? {
        Ok(Some(bytes)) => {
            view.add_file(copied(alloc, path)?, bytes)?;
            Ok(Ok(true))
        }
        Ok(None) => Ok(Ok(false)),
        Err(error) => Ok(Err(error)),
    }
}

/// Looks for a directory; says whether the view has it.
fn look_for_directory<D: Disk>(
    alloc: Global,
    disk: &D,
    view: &mut View,
    path: &[u8],
) -> Mem<Result<bool, D::Error>>
    ensures found { IfOk result (λ read. IfOk read (λ found. IsLookedFor (D.holds disk.now) (IsAbsent Sought.Directory path.now) (IsSame Sought.Directory path.now) view.old view.new found)) }
    ensures error { IfOk result (λ read. IfErr read (λ error. D.fails disk.now error)) }
{
    if view.is_dir(path) {
        return Ok(Ok(true));
    }
    match disk.is_dir(alloc, path)? {
        Ok(true) => {
            view.add_dir(copied(alloc, path)?)?;
            Ok(Ok(true))
        }
        Ok(false) => Ok(Ok(false)),
        Err(error) => Ok(Err(error)),
    }
}

/// Looks for anything at a path; says whether the view has it.
fn look_for_existing<D: Disk>(
    alloc: Global,
    disk: &D,
    view: &mut View,
    path: &[u8],
) -> Mem<Result<bool, D::Error>>
    ensures found { IfOk result (λ read. IfOk read (λ found. IsLookedFor (D.holds disk.now) (IsAbsent Sought.Existing path.now) (IsSame Sought.Existing path.now) view.old view.new found)) }
    ensures error { IfOk result (λ read. IfErr read (λ error. D.fails disk.now error)) }
{
    if view.exists(path) {
        return Ok(Ok(true));
    }
    match disk.exists(alloc, path)? {
        Ok(true) => {
            view.add_existing(copied(alloc, path)?)?;
            Ok(Ok(true))
        }
        Ok(false) => Ok(Ok(false)),
        Err(error) => Ok(Err(error)),
    }
}

fn look_for<D: Disk>(
    alloc: Global,
    disk: &D,
    view: &mut View,
    sought: Sought,
    path: &[u8],
) -> Mem<Result<bool, D::Error>>
    ensures found { IfOk result (λ read. IfOk read (λ found. IsLookedFor (D.holds disk.now) (IsAbsent sought path.now) (IsSame sought path.now) view.old view.new found)) }
    ensures error { IfOk result (λ read. IfErr read (λ error. D.fails disk.now error)) }
{
    match sought {
        Sought::File => look_for_file(alloc, disk, view, path),
        Sought::Directory => look_for_directory(alloc, disk, view, path),
        Sought::Existing => look_for_existing(alloc, disk, view, path),
    }
}

/// Looks for each of the paths; says whether any was found.
fn look_for_each<D: Disk>(
    alloc: Global,
    disk: &D,
    view: &mut View,
    sought: Sought,
    paths: &[Vec<u8>],
) -> Mem<Result<bool, D::Error>>
    ensures found { IfOk result (λ read. IfOk read (λ found. IsLookedFor (D.holds disk.now) (AreAbsent sought (words_of paths.now)) (AreSame sought (words_of paths.now)) view.old view.new found)) }
    ensures error { IfOk result (λ read. IfErr read (λ error. D.fails disk.now error)) }
{
    let mut any = false;
    for path in paths {
        match look_for(alloc, disk, view, sought, path)? {
            Ok(found) => any = any || found,
            Err(error) => return Ok(Err(error)),
        }
    }
    Ok(Ok(any))
}

fn is_any(files: bool, directories: bool, existing: bool) -> bool
    ensures { result ≡ (files || (directories || existing)) }
{
    files || directories || existing
}

/// Looks for all that is in question; says whether any of it was found.
pub(crate) fn look_for_all<D: Disk>(
    alloc: Global,
    disk: &D,
    view: &mut View,
    questions: &Questions,
) -> Mem<Result<bool, D::Error>>
    ensures found { IfOk result (λ read. IfOk read (λ found. IsLookedFor (D.holds disk.now) (HasNoneAsked (given questions.now)) (AreAllSame (given questions.now)) view.old view.new found)) }
    ensures error { IfOk result (λ read. IfErr read (λ error. D.fails disk.now error)) }
{
    let sought = Sought::File;
    let files = match look_for_each(alloc, disk, view, sought, &questions.files)? {
        Ok(found) => found,
        Err(error) => return Ok(Err(error)),
    };
    let sought = Sought::Directory;
    let directories = match look_for_each(alloc, disk, view, sought, &questions.directories)? {
        Ok(found) => found,
        Err(error) => return Ok(Err(error)),
    };
    let sought = Sought::Existing;
    let existing = match look_for_each(alloc, disk, view, sought, &questions.existing)? {
        Ok(found) => found,
        Err(error) => return Ok(Err(error)),
    };
    Ok(Ok(is_any(files, directories, existing)))
}
