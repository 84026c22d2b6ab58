//! The dependency file that a command writes, where its record has no such output.
ghost use Rattle.std.specs.Prelude.{◌≡◌, IfOk};
ghost use Rattle.std.specs.Option.{option_copied};
ghost use Rattle.scl_text.specs.Records.{parsed_of, path_of};
ghost use Rattle.scl_key.specs.Views.{outputs_of};
ghost use Rattle.scl_reader.specs.Reads.{compiler_of, outcome_in};
ghost use Rattle.scl_describe.specs.DependencyFiles.{dependency_file, dependency_path, writes_by};
ghost use Rattle.scl_describe.specs.SettingsRead.{settings_by};

use crate::settings::Settings;
use scl_key::{Output, is_clang, is_gcc, made_beside};
use scl_reader::{Compiler, Reading};
use scl_text::Mem;
use scl_text::records::ParsedArguments;
use std::alloc::Global;

/// The path of the dependency file among outputs.
fn dependency_path(outputs: &[Output]) -> Option<&[u8]>
    ensures { option_copied result ≡ dependency_path (outputs_of outputs.now) }
{
    for output in outputs {
        if output.name.as_slice() == b"d".as_slice() {
            return Some(&output.path);
        }
    }
    None
}

/// The dependency file that the command of a record writes, where the record has no such output.
fn dependency_file(
    alloc: Global,
    compiler: Compiler,
    parsed: &ParsedArguments,
) -> Mem<Option<Vec<u8>>>
    ensures { IfOk result (λ path. path_of path ≡ dependency_file compiler (parsed_of parsed.now)) }
{
    if !(is_gcc(compiler) || is_clang(compiler)) {
        return Ok(None);
    }
    match dependency_path(&made_beside(alloc, parsed)?) {
        Some(path) => Ok(Some(Vec::from_slice(alloc, path)?)),
        None => Ok(None),
    }
}

/// The dependency file, if what is reported is wanted, or the key, with which that comes.
pub(crate) fn writes_wanted(
    alloc: Global,
    settings: &Settings,
    reading: &Reading,
) -> Mem<Option<Vec<u8>>>
    ensures { IfOk result (λ path. path_of path ≡ writes_by (settings_by settings.now) (compiler_of reading.now) (outcome_in reading.now)) }
{
    let wants = settings.wanted();
    if !(wants.tables || wants.key) {
        return Ok(None);
    }
    match reading.record() {
        Some(parsed) => dependency_file(alloc, reading.compiler(), parsed),
        None => Ok(None),
    }
}
