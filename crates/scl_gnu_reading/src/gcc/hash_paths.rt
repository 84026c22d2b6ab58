//! The paths of the files on whose contents the result of a compilation depends.
ghost use Rattle.std.specs.Prelude.{◌≡◌, ◌<◌, ◌++◌, IfOk, IfSome, length, map, position};
ghost use Rattle.scl_values.specs.Words.{words_of};
ghost use Rattle.scl_gnu_reading.specs.Kinds.{hashed};
ghost use Rattle.scl_gnu_reading.specs.Recordings.{is_equals, module_file_path, profile_in, profile_use_path, hash_path, hash_path_as};

use super::data::ArgData;
use super::hash_files::{HashRole, push_hashed};
use scl_args::{Mem, Options};
use scl_text::path::join;
use scl_text::view::View;
use std::alloc::Global;

fn equals_at(text: &[u8]) -> Option<usize>
    ensures at { result ≡ position is_equals text.now }
    ensures within { IfSome result (λ at. at < length text.now) }
{
    text.iter().position(|byte| *byte == b'=')
}

fn module_path_in(text: &[u8]) -> &[u8]
    ensures { result.now ≡ module_file_path text.now }
{
    match equals_at(text) {
        Some(at) => &text[at + 1..],
        None => text,
    }
}

/// The path of the file that the value of `-fmodule-file` names: what follows its first `=`, else all of it (docs/RULES.md,
/// Gcc).
pub fn module_file_path(alloc: Global, value: &[u8]) -> Mem<Vec<u8>>
    ensures { IfOk result (λ path. path.items ≡ module_file_path value.now) }
{
    Vec::from_slice(alloc, module_path_in(value))
}

fn profile_in(alloc: Global, is_directory: bool, path: Vec<u8>) -> Mem<Vec<u8>>
    ensures { IfOk result (λ whole. whole.items ≡ profile_in is_directory path.items) }
{
    if is_directory {
        join(alloc, &path, b"default.profdata")
    } else {
        Ok(path)
    }
}

/// The path, from a directory, of the profile that the value of `-fprofile-use` names. If the view has a directory there, it
/// is the file `default.profdata` in it (docs/RULES.md, Gcc).
pub fn resolve_profile_use_path(
    alloc: Global,
    value: &[u8],
    cwd: &[u8],
    view: &View,
) -> Mem<Vec<u8>>
    ensures { IfOk result (λ path. path.items ≡ profile_use_path value.now cwd.now view.now) }
{
    let path = join(alloc, cwd, value)?;
    let is_directory = view.is_dir(&path);
    profile_in(alloc, is_directory, path)
}

pub(crate) fn path_as(
    alloc: Global,
    role: HashRole,
    text: &[u8],
    cwd: &[u8],
    view: &View,
) -> Mem<Vec<u8>>
    ensures { IfOk result (λ path. path.items ≡ hash_path_as role text.now cwd.now view.now) }
{
    match role {
        HashRole::File => join(alloc, cwd, text),
        HashRole::Module => join(alloc, cwd, module_path_in(text)),
        HashRole::Profile => resolve_profile_use_path(alloc, text, cwd, view),
    }
}

/// The paths, from the directory, of the files that the options name: first the outer options, then the inner ones.
pub(crate) fn hash_paths(
    alloc: Global,
    options: &Options<ArgData>,
    inner: &Options<ArgData>,
    cwd: &[u8],
    view: &View,
) -> Mem<Vec<Vec<u8>>>
    ensures { IfOk result (λ paths. words_of paths.items
        ≡ map (hash_path cwd.now view.now) (hashed options.now ++ hashed inner.now)) }
{
    let mut paths = Vec::new(alloc);
    push_hashed(alloc, &mut paths, options, cwd, view)?;
    push_hashed(alloc, &mut paths, inner, cwd, view)?;
    Ok(paths)
}
