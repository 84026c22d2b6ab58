//! The outputs of a compilation.
ghost use Rattle.std.specs.Prelude.{◌≡◌, IfOk};
ghost use Rattle.scl_text.specs.Records.{artifacts};
ghost use Rattle.scl_msvc_reading.specs.FoundBy.{found_of};
ghost use Rattle.scl_msvc_reading.specs.Recordings.{outputs};

use super::data::{ArgData, Kind};
use super::fixed_tests::Finding;
use scl_args::{Mem, OfKinds, Options};
use scl_text::language::Language;
use scl_text::outputs::{copy_path, put_optional, with_extension_if};
use scl_text::records::ArtifactDescriptor;
use std::alloc::Global;
use std::collections::BTreeMap;

/// The outputs of the compilation that the tests found, in the order of their names; those made from type libraries may be
/// missing.
#[tactic(auto, using(crate::proofs::OutputLaws::put_in_order))]
pub(crate) fn outputs_of(
    alloc: Global,
    options: &Options<ArgData>,
    found: &Finding,
) -> Mem<BTreeMap<String, ArtifactDescriptor>>
    ensures { IfOk result (λ made. artifacts made ≡ outputs options.now (found_of found.now)) }
{
    let module_path = options.last_text(&OfKinds(&[Kind::ClangModuleOutput]));
    let module_path = copy_path(alloc, module_path)?;
    let object = Vec::from_slice(alloc, &found.object)?;
    let database = found.program_database.as_ref().map(|path| path.as_slice());
    let database = copy_path(alloc, database)?;
    let is_cxx = found.language == Language::Cxx;
    let header = with_extension_if(alloc, is_cxx, &found.object, b"tlh")?;
    let source = with_extension_if(alloc, is_cxx, &found.object, b"tli")?;
    let mut made = BTreeMap::new(alloc);
    put_optional(alloc, &mut made, "module", false, module_path)?;
    put_optional(alloc, &mut made, "obj", false, Some(object))?;
    put_optional(alloc, &mut made, "pdb", false, database)?;
    put_optional(alloc, &mut made, "tlh", true, header)?;
    put_optional(alloc, &mut made, "tli", true, source)?;
    Ok(made)
}
