//! Words that are added to the lists of a command.
ghost use Rattle.std.specs.Prelude.{◌≡◌, ◌++◌, ◌∷◌, [], OnOk, IfOk, codes, is_some};
ghost use Rattle.scl_files.specs.Paths.{with_extension};
ghost use Rattle.scl_values.specs.Words.{words_of};
ghost use Rattle.scl_args.specs.Options.{last_flag, last_text};
ghost use Rattle.scl_gnu_reading.specs.Kinds.{of};
ghost use Rattle.scl_gnu_reading.specs.Recordings.{added_common, added_depfile, added_dependency};

use super::data::{ArgData, Kind};
use scl_args::{Mem, OfKinds, Options};
use scl_text::command::push_word;
use scl_text::path::with_extension;
use std::alloc::Global;

fn split_dwarf_word(alloc: Global, object: &[u8]) -> Mem<Vec<u8>>
    ensures { IfOk result (λ word. word.items ≡ codes "-D_gsplit_dwarf_path=" ++ with_extension object.now (codes "dwo")) }
{
    let mut word = Vec::from_slice(alloc, b"-D_gsplit_dwarf_path=")?;
    let path = with_extension(alloc, object, b"dwo")?;
    word.extend_from_slice(&path)?;
    Ok(word)
}

/// Adds to the common words the path of the split debug information.
pub(crate) fn add_split_dwarf(
    alloc: Global,
    common: &mut Vec<Vec<u8>>,
    is_split: bool,
    object: &[u8],
) -> Mem<()>
    ensures { OnOk result (words_of common.new.items ≡ words_of common.old.items ++ added_common is_split object.now) }
{
    if is_split {
        common.push(split_dwarf_word(alloc, object)?)?;
    }
    Ok(())
}

fn add_depfile(
    alloc: Global,
    dependency: &mut Vec<Vec<u8>>,
    has_path: bool,
    object: &[u8],
) -> Mem<()>
    ensures { OnOk result (words_of dependency.new.items ≡ words_of dependency.old.items ++ added_depfile has_path object.now) }
{
    if has_path {
        return Ok(());
    }
    push_word(alloc, dependency, b"-MF")?;
    dependency.push(with_extension(alloc, object, b"d")?)?;
    Ok(())
}

/// Adds to the words about dependencies the target and the file, if a target is needed.
pub(crate) fn add_dependency(
    alloc: Global,
    dependency: &mut Vec<Vec<u8>>,
    is_needed: bool,
    options: &Options<ArgData>,
    object: &[u8],
) -> Mem<()>
    ensures { OnOk result (words_of dependency.new.items ≡ words_of dependency.old.items
        ++ added_dependency is_needed (is_some (last_text (of (Kind.DepArgumentPath ∷ [])) options.now)) (last_flag (of (Kind.DepTarget ∷ [])) options.now) (last_text (of (Kind.DepTarget ∷ [])) options.now) object.now) }
{
    if !is_needed {
        return Ok(());
    }
    let flag = options
        .last_flag(&OfKinds(&[Kind::DepTarget]))
        .unwrap_or("-MT");
    let target = options
        .last_text(&OfKinds(&[Kind::DepTarget]))
        .unwrap_or(object);
    let has_path = options
        .last_text(&OfKinds(&[Kind::DepArgumentPath]))
        .is_some();
    push_word(alloc, dependency, flag.as_bytes())?;
    push_word(alloc, dependency, target)?;
    add_depfile(alloc, dependency, has_path, object)
}
