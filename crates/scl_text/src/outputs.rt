//! The outputs of a compilation, by their names.
ghost use Rattle.std.specs.Prelude.{◌≡◌, false, IfOk, IsOk, None, OnOk, OnErr};
ghost use Rattle.std.specs.Option.{option_copied};
ghost use Rattle.std.specs.Bool.{then_some};
ghost use Rattle.scl_text.specs.Outputs.{path_at, put_optional, put_output};
ghost use Rattle.scl_files.specs.Paths.{with_extension};
ghost use Rattle.scl_text.specs.Records.{artifact, artifacts, path_of};

use crate::records::ArtifactDescriptor;
use scl_args::Mem;
use scl_files::path::with_extension;
use std::alloc::Global;
use std::collections::BTreeMap;

/// Adds an output; it replaces one of the same name (docs/RULES.md, Records). If it fails, the outputs are unchanged.
#[tactic(auto, using(crate::proofs::OutputLemmas::put_entry))]
pub fn put_output(
    alloc: Global,
    outputs: &mut BTreeMap<String, ArtifactDescriptor>,
    name: &str,
    path: Vec<u8>,
    optional: bool,
) -> Mem<()>
    ensures ok { OnOk result (artifacts outputs.new ≡ put_output (artifacts outputs.old) (artifact name.now path.items optional)) }
    ensures err { OnErr result (artifacts outputs.new ≡ artifacts outputs.old) }
{
    let name = String::from_str(alloc, name)?;
    outputs.insert(name, ArtifactDescriptor { path, optional })?;
    Ok(())
}

/// The path of the output of this name, if there is one.
pub fn output_path<'a>(
    outputs: &'a BTreeMap<String, ArtifactDescriptor>,
    name: &str,
) -> Option<&'a [u8]>
    ensures { option_copied result ≡ path_at (artifacts outputs.now) name.now }
{
    Some(&outputs.get(name)?.path)
}

/// Adds an output if there is a path for it (docs/RULES.md, Records). If it fails, the outputs are unchanged.
pub fn put_optional(
    alloc: Global,
    outputs: &mut BTreeMap<String, ArtifactDescriptor>,
    name: &str,
    optional: bool,
    path: Option<Vec<u8>>,
) -> Mem<()>
    ensures ok { OnOk result (artifacts outputs.new ≡ put_optional (artifacts outputs.old) name.now optional (path_of path)) }
    ensures err { OnErr result (artifacts outputs.new ≡ artifacts outputs.old) }
    ensures none { path ≡ None → IsOk result }
{
    match path {
        Some(path) => put_output(alloc, outputs, name, path, optional),
        None => Ok(()),
    }
}

/// A copy of the path, if there is one. Without a path it does not fail.
pub fn copy_path(alloc: Global, path: Option<&[u8]>) -> Mem<Option<Vec<u8>>>
    ensures copy { IfOk result (λ copy. path_of copy ≡ option_copied path.entry) }
    ensures none { path.entry ≡ None → IsOk result }
{
    match path {
        Some(path) => Ok(Some(Vec::from_slice(alloc, path)?)),
        None => Ok(None),
    }
}

/// The path with this extension, if it is wanted; else None, and it does not fail.
pub fn with_extension_if(
    alloc: Global,
    is_wanted: bool,
    path: &[u8],
    extension: &[u8],
) -> Mem<Option<Vec<u8>>>
    ensures whole { IfOk result (λ whole. path_of whole ≡ then_some is_wanted (with_extension path.now extension.now)) }
    ensures none { is_wanted ≡ false → IsOk result }
{
    if !is_wanted {
        return Ok(None);
    }
    Ok(Some(with_extension(alloc, path, extension)?))
}
