//! Entries of Windows, whose files are not here.
use scl_cl::{Compilation, CompilerArguments, Mem, ParsedArguments};
use scl_load::Disk;
use scl_shell::shown_briefly;
use std::alloc::Global;
use thiserror::Error;

/// Whether a directory is one of Windows: it begins with a drive's letter, or has a backslash.
pub(crate) fn is_windows(directory: &[u8]) -> bool {
    let has_drive = match directory {
        [letter, b':', ..] => letter.is_ascii_alphabetic(),
        _ => false,
    };
    has_drive || directory.contains(&b'\\')
}

/// The files of a system of Windows, of which nothing is known here.
#[derive(Clone, Copy)]
pub(crate) struct ForeignDisk;

/// That an answer asks what there is on a system of Windows.
#[derive(Debug, Drop, Error)]
#[error("an entry of Windows, and its answer depends on what {path} is there")]
pub(crate) struct Foreign {
    path: String,
}

fn asked(alloc: Global, path: &[u8]) -> Mem<Foreign> {
    Ok(Foreign {
        path: shown_briefly(alloc, path)?,
    })
}

impl Disk for ForeignDisk {
    type Error = Foreign;

    ghost holds = { λ _ _. ⊥ };

    ghost fails = { λ _ _. Unit {0} };

    fn file(&self, alloc: Global, path: &[u8]) -> Mem<Result<Option<Vec<u8>>, Foreign>> {
        Ok(Err(asked(alloc, path)?))
    }

    fn is_dir(&self, alloc: Global, path: &[u8]) -> Mem<Result<bool, Foreign>> {
        Ok(Err(asked(alloc, path)?))
    }

    fn exists(&self, alloc: Global, path: &[u8]) -> Mem<Result<bool, Foreign>> {
        Ok(Err(asked(alloc, path)?))
    }
}

/// A text with `/` for each backslash.
pub(crate) fn with_slashes(alloc: Global, text: &[u8]) -> Mem<Vec<u8>> {
    let mut changed = Vec::new(alloc);
    for byte in text {
        changed.push(if *byte == b'\\' { b'/' } else { *byte })?;
    }
    Ok(changed)
}

/// Texts with `/` for each backslash.
pub(crate) fn all_with_slashes(alloc: Global, texts: &[Vec<u8>]) -> Mem<Vec<Vec<u8>>> {
    let mut changed = Vec::new(alloc);
    for text in texts {
        changed.push(with_slashes(alloc, text)?)?;
    }
    Ok(changed)
}

/// Whether both are the same except for `/` in the place of backslashes.
fn are_alike(alloc: Global, one: &[Vec<u8>], other: &[Vec<u8>]) -> Mem<bool> {
    Ok(all_with_slashes(alloc, one)? == all_with_slashes(alloc, other)?)
}

/// The paths of a record: its input and outputs.
fn paths_of(alloc: Global, parsed: &ParsedArguments) -> Mem<Vec<Vec<u8>>> {
    let mut paths = Vec::new(alloc);
    paths.push(Vec::from_slice(alloc, &parsed.input)?)?;
    for output in parsed.outputs.values() {
        paths.push(Vec::from_slice(alloc, &output.path)?)?;
    }
    Ok(paths)
}

fn same_compilation(alloc: Global, one: &Compilation, other: &Compilation) -> Mem<bool> {
    if !are_alike(alloc, &one.command.arguments, &other.command.arguments)? {
        return Ok(false);
    }
    are_alike(
        alloc,
        &paths_of(alloc, &one.parsed)?,
        &paths_of(alloc, &other.parsed)?,
    )
}

/// Whether two answers are the same except for `/` in the place of backslashes.
pub(crate) fn same_answer(
    alloc: Global,
    one: &CompilerArguments<Compilation>,
    other: &CompilerArguments<Compilation>,
) -> Mem<bool> {
    match (one, other) {
        (CompilerArguments::Ok(one), CompilerArguments::Ok(other)) => {
            same_compilation(alloc, one, other)
        }
        (CompilerArguments::CannotCache(one, _), CompilerArguments::CannotCache(other, _)) => {
            let one = with_slashes(alloc, one.as_bytes())?;
            Ok(one == with_slashes(alloc, other.as_bytes())?)
        }
        (CompilerArguments::NotCompilation, CompilerArguments::NotCompilation) => Ok(true),
        _ => Ok(false),
    }
}
