//! What a command line names that is not there.
use scl_cl::{Compilation, CompilerArguments, Mem, path};
use scl_describe::Catalogue;
use scl_explain::{Case, answer_case};
use scl_load::Disk;
use scl_shell::shown_briefly;
use std::alloc::Global;

/// Appends a line that there is no such thing at a path.
fn push_absent(alloc: Global, text: &mut String, what: &str, path: &[u8]) -> Mem<()> {
    let path = shown_briefly(alloc, path)?;
    write!(text, "{what} {path} is not there\n")
}

/// Whether the disk says that there is no directory at a path. A read that fails says nothing.
fn has_no_directory<D: Disk>(alloc: Global, disk: &D, path: &[u8]) -> Mem<bool> {
    match disk.is_dir(alloc, path)? {
        Ok(is_dir) => Ok(!is_dir),
        Err(error) => {
            drop(error);
            Ok(false)
        }
    }
}

fn is_absent<D: Disk>(alloc: Global, disk: &D, path: &[u8]) -> Mem<bool> {
    match disk.exists(alloc, path)? {
        Ok(exists) => Ok(!exists),
        Err(error) => {
            drop(error);
            Ok(false)
        }
    }
}

/// The folder of a path that has one.
fn folder_of(path: &[u8]) -> Option<&[u8]> {
    let mut last = None;
    for (at, byte) in path.iter().enumerate() {
        if *byte == b'/' {
            last = Some(at);
        }
    }
    path.get(..last?.max(1))
}

fn push_paths<D: Disk>(
    alloc: Global,
    text: &mut String,
    disk: &D,
    case: &Case,
    compilation: &Compilation,
) -> Mem<()> {
    let input = path::join(alloc, &case.cwd, &compilation.parsed.input)?;
    if is_absent(alloc, disk, &input)? {
        push_absent(alloc, text, "the input", &input)?;
    }
    let Some(object) = compilation.parsed.outputs.get("obj") else {
        return Ok(());
    };
    let object = path::join(alloc, &case.cwd, &object.path)?;
    if let Some(folder) = folder_of(&object)
        && has_no_directory(alloc, disk, folder)?
    {
        push_absent(alloc, text, "the folder of the output", folder)?;
    }
    Ok(())
}

/// What a command line names that a disk does not have, a line each: its directory, or its input and the folder of its object
/// file.
pub fn absent_text<D: Disk>(
    alloc: Global,
    disk: &D,
    catalogue: &Catalogue,
    case: &Case,
) -> Mem<String> {
    let mut text = String::new(alloc);
    if has_no_directory(alloc, disk, &case.cwd)? {
        push_absent(alloc, &mut text, "the directory", &case.cwd)?;
        return Ok(text);
    }
    match answer_case(alloc, disk, catalogue, case)? {
        Ok(answered) => {
            if let CompilerArguments::Ok(compilation) = &answered.description.answer {
                push_paths(alloc, &mut text, disk, case, compilation)?;
            }
        }
        Err(error) => drop(error),
    }
    Ok(text)
}
