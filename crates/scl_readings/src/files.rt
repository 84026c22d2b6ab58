//! The files that directives of a preprocessed text name.
ghost use Rattle.std.specs.Prelude.{◌≡◌, ◌++◌, ℕ, List, IfOk, OnOk, map};
ghost use Rattle.std.specs.List.{cons_option};
ghost use Rattle.std.specs.Option.{option_copied, option_map};
ghost use Rattle.scl_values.specs.Words.{words_of};
ghost use Rattle.scl_readings.specs.Markers.{quoted_name, is_file, file_named, file_of, files_in};

use crate::markers::{loaded_name, marker_of};
use crate::quoted::unquoted;
use scl_values::Mem;
use std::alloc::Global;

/// Which names are wanted.
#[derive(Clone, Copy)]
pub enum Named {
    /// Those of all line markers.
    Anywhere,
    /// Those of line markers at which a file is entered.
    Entered,
    /// Those of precompiled headers that gcc loads.
    Loaded,
}

fn quoted_name(named: Named, directive: &[u8]) -> Option<&[u8]>
    ensures { option_copied result ≡ quoted_name named directive.now }
{
    match named {
        Named::Anywhere => Some(marker_of(directive)?.name),
        Named::Entered => {
            let marker = marker_of(directive)?;
            if marker.enters() {
                Some(marker.name)
            } else {
                None
            }
        }
        Named::Loaded => loaded_name(directive),
    }
}

/// Whether it is neither a place that is no file, as `<built-in>`, nor the directory of the compilation, which ends with `//`.
fn is_file(name: &[u8]) -> bool
    ensures { result ≡ is_file name.now }
{
    !(name.starts_with(b"<") && name.ends_with(b">")) && !name.ends_with(b"//")
}

fn file_named(name: Vec<u8>) -> Option<Vec<u8>>
    ensures { option_map (λ file. file.items) result ≡ file_named name.items }
{
    if is_file(&name) { Some(name) } else { None }
}

fn file_of(alloc: Global, named: Named, directive: &[u8]) -> Mem<Option<Vec<u8>>>
    ensures { IfOk result (λ file. option_map (λ name. name.items) file ≡ file_of named directive.now) }
{
    match quoted_name(named, directive) {
        Some(quoted) => Ok(file_named(unquoted(alloc, quoted)?)),
        None => Ok(None),
    }
}

fn push_file(files: &mut Vec<Vec<u8>>, file: Option<Vec<u8>>) -> Mem<()>
    ensures { OnOk result ((rest : List (List ℕ)) → words_of files.new.items ++ rest ≡ words_of files.old.items ++ cons_option (option_map (λ name. name.items) file) rest) }
{
    if let Some(name) = file {
        files.push(name)?;
    }
    Ok(())
}

/// The files that directives name, in order, each as often as it is named. The directives are without their `#` (`lines_after`).
pub fn files_in(alloc: Global, named: Named, directives: &[&[u8]]) -> Mem<Vec<Vec<u8>>>
    ensures { IfOk result (λ files. words_of files.items ≡ files_in named (map (λ directive. directive.now) directives.now)) }
{
    let mut files = Vec::new(alloc);
    for directive in directives {
        let file = file_of(alloc, named, directive)?;
        push_file(&mut files, file)?;
    }
    Ok(files)
}
