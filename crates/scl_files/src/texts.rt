//! The texts of files that are opened.
ghost use Rattle.std.specs.Prelude.{◌≡◌, ◌++◌, IfOk, OnOk};
ghost use Rattle.std.specs.Option.{option_to_list};
ghost use Rattle.scl_values.specs.Words.{words_of};
ghost use Rattle.scl_files.specs.Views.{bytes_at};
ghost use Rattle.scl_files.specs.Openings.{each_once, texts_at};

use crate::path_map::PathMap;
use crate::view::View;
use scl_values::Mem;
use std::alloc::Global;

/// Appends the text of the file at the path.
fn push_text(alloc: Global, texts: &mut Vec<Vec<u8>>, path: &[u8], view: &View) -> Mem<()>
    ensures { OnOk result (words_of texts.new.items ≡ words_of texts.old.items ++ option_to_list (bytes_at path.now view.now.files)) }
{
    if let Some(text) = view.file(path) {
        texts.push(Vec::from_slice(alloc, text)?)?;
    }
    Ok(())
}

/// The texts of the files at the paths, each once, however often its path occurs.
pub(crate) fn texts_once(alloc: Global, paths: &[Vec<u8>], view: &View) -> Mem<Vec<Vec<u8>>>
    ensures { IfOk result (λ texts. words_of texts.items ≡ texts_at view.now.files (each_once (words_of paths.now))) }
{
    let mut texts = Vec::new(alloc);
    let mut seen = PathMap::new(alloc);
    for path in paths {
        if seen.contains(path) {
            continue;
        }
        push_text(alloc, &mut texts, path, view)?;
        seen.add(Vec::from_slice(alloc, path)?, ())?;
    }
    Ok(texts)
}
