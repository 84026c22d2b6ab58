//! The outputs of a compilation.
ghost use Rattle.std.specs.Prelude.{◌≡◌, IfOk};
ghost use Rattle.scl_text.specs.Records.{artifacts};
ghost use Rattle.scl_gnu_reading.specs.FoundBy.{found_of};
ghost use Rattle.scl_gnu_reading.specs.Recordings.{outputs};

use super::data::{ArgData, Kind};
use super::fixed_tests::Finding;
use scl_args::{Mem, OfKinds, Options};
use scl_text::outputs::{copy_path, put_optional, with_extension_if};
use scl_text::records::ArtifactDescriptor;
use std::alloc::Global;
use std::collections::BTreeMap;

/// The outputs of the compilation, by name.
#[tactic(auto, using(crate::proofs::OutputLaws::put_in_order))]
pub(crate) fn outputs_of(
    alloc: Global,
    options: &Options<ArgData>,
    found: &Finding,
) -> Mem<BTreeMap<String, ArtifactDescriptor>>
    ensures { IfOk result (λ made. artifacts made ≡ outputs options.now (found_of found.now)) }
{
    let has_depfile = found.language.needs_c_preprocessing();
    let dep_path = options.last_text(&OfKinds(&[Kind::DepArgumentPath]));
    let depfile = copy_path(alloc, if has_depfile { dep_path } else { None })?;
    let diagnostics = options.last_text(&OfKinds(&[Kind::SerializeDiagnostics]));
    let diagnostics = copy_path(alloc, diagnostics)?;
    let has_dwo = options.any(&OfKinds(&[Kind::SplitDwarf]));
    let dwo = with_extension_if(alloc, has_dwo, &found.object, b"dwo")?;
    let has_notes = options.any(&OfKinds(&[Kind::Coverage, Kind::TestCoverage]));
    let gcno = with_extension_if(alloc, has_notes, &found.object, b"gcno")?;
    let module_path = found.module_path.as_ref().map(|path| path.as_slice());
    let module_path = copy_path(alloc, module_path)?;
    let object = Vec::from_slice(alloc, &found.object)?;
    let mut made = BTreeMap::new(alloc);
    put_optional(alloc, &mut made, "d", false, depfile)?;
    put_optional(alloc, &mut made, "dia", false, diagnostics)?;
    put_optional(alloc, &mut made, "dwo", true, dwo)?;
    put_optional(alloc, &mut made, "gcno", false, gcno)?;
    put_optional(alloc, &mut made, "module", false, module_path)?;
    put_optional(alloc, &mut made, "obj", false, Some(object))?;
    Ok(made)
}
