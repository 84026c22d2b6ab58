//! Which response files words ask for that a view does not have.
ghost use Rattle.std.specs.Prelude.{◌≡◌, ◌++◌, IfOk, OnOk};
ghost use Rattle.std.specs.List.{flat_map};
ghost use Rattle.scl_values.specs.Words.{words_of};
ghost use Rattle.scl_files.specs.Expand.{expand};
ghost use Rattle.scl_files.specs.Wanted.{lacked_by, wanted};

use crate::expand::ExpansionKind;
use crate::response_file::named;
use crate::view::View;
use scl_values::Mem;
use std::alloc::Global;

/// Appends the path of the file that a word names, if the view does not have it.
fn push_absent(
    alloc: Global,
    paths: &mut Vec<Vec<u8>>,
    kind: ExpansionKind,
    directory: &[u8],
    word: &[u8],
    view: &View,
) -> Mem<()>
    ensures { OnOk result (words_of paths.new.items ≡ words_of paths.old.items ++ lacked_by kind directory.now view.now.files word.now) }
{
    if let Some(path) = named(alloc, kind, directory, word)? {
        if view.file(&path).is_none() {
            paths.push(path)?;
        }
    }
    Ok(())
}

/// The paths of the files that words name and the view does not have.
fn absent_files(
    alloc: Global,
    kind: ExpansionKind,
    directory: &[u8],
    words: &[Vec<u8>],
    view: &View,
) -> Mem<Vec<Vec<u8>>>
    ensures { IfOk result (λ paths. words_of paths.items ≡ flat_map (lacked_by kind directory.now view.now.files) (words_of words.now)) }
{
    let mut paths = Vec::new(alloc);
    for word in words {
        push_absent(alloc, &mut paths, kind, directory, word, view)?;
    }
    Ok(paths)
}

/// The paths of the files that the expansion of given words would open and that the view does not have, in order, and as
/// often as they are asked for (`laws::of_wanted_files`).
#[tactic(auto, unfolding(crate::specs::Wanted::wanted))]
pub(crate) fn lacked_files(
    alloc: Global,
    kind: ExpansionKind,
    directory: &[u8],
    given: &[Vec<u8>],
    expanded: &[Vec<u8>],
    view: &View,
) -> Mem<Vec<Vec<u8>>>
    requires { words_of expanded.now ≡ expand kind directory.now view.now.files (words_of given.now) }
    ensures { IfOk result (λ paths. words_of paths.items ≡ wanted kind directory.now view.now.files (words_of given.now)) }
{
    match kind {
        ExpansionKind::Msvc => absent_files(alloc, kind, directory, given, view),
        ExpansionKind::Gnu | ExpansionKind::Diab => {
            absent_files(alloc, kind, directory, expanded, view)
        }
    }
}
