//! Files on whose contents the result of a compilation depends.
ghost use Rattle.std.specs.Prelude.{◌≡◌, IfOk, map};
ghost use Rattle.scl_values.specs.Words.{words_of};
ghost use Rattle.scl_gnu_reading.specs.Recordings.{hash_path};
ghost use Rattle.scl_msvc_reading.specs.InnerBy.{inner_of};
ghost use Rattle.scl_msvc_reading.specs.Recordings.{all_hashed};

use super::data::{ArgData, Kind};
use super::inner::InnerOptions;
use scl_args::{Mem, Options};
use scl_gnu_reading::gcc::{HashRole, NamesHashed, push_hashed};
use scl_text::view::View;
use std::alloc::Global;

impl NamesHashed for ArgData {
    ghost use Rattle.scl_msvc_reading.specs.Kinds.{hash_role};

    ghost role = { hash_role };

    fn hash_role(kind: Kind) -> Option<HashRole> {
        match kind {
            Kind::ExtraHashFile => Some(HashRole::File),
            Kind::ClangModuleFile => Some(HashRole::Module),
            _ => None,
        }
    }
}

/// The paths, from the directory, of the files that the options name: first of the outer options, then of the inner ones.
pub(crate) fn hash_paths(
    alloc: Global,
    options: &Options<ArgData>,
    inner: &InnerOptions<'_>,
    cwd: &[u8],
    view: &View,
) -> Mem<Vec<Vec<u8>>>
    ensures { IfOk result (λ paths. words_of paths.items ≡ map (hash_path cwd.now view.now) (all_hashed options.now (inner_of inner.now))) }
{
    let mut paths = Vec::new(alloc);
    push_hashed(alloc, &mut paths, options, cwd, view)?;
    push_hashed(alloc, &mut paths, inner.xclang, cwd, view)?;
    push_hashed(alloc, &mut paths, inner.clang, cwd, view)?;
    Ok(paths)
}
