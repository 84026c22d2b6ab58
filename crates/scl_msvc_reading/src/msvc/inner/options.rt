//! The options of the inner command lines.
ghost use Rattle.scl_text.specs.Stops.{Gives};
ghost use Rattle.scl_msvc_reading.specs.Readings.{inner_options, both_inner};

use super::judge::ByInnerVerdict;
use crate::msvc::data::{ArgData, Kind};
use scl_args::{OfKinds, Options};
use scl_gnu_reading::gcc;
use scl_text::Stop;
use scl_text::view::View;
use std::alloc::Global;

/// The options of the two inner command lines.
#[derive(Clone, Copy)]
pub(crate) struct InnerOptions<'a> {
    pub(crate) xclang: &'a Options<gcc::ArgData>,
    pub(crate) clang: &'a Options<gcc::ArgData>,
}

/// The options of an inner command line; its words are the values of the options of this kind.
fn inner_options(
    alloc: Global,
    options: &Options<ArgData>,
    kind: Kind,
    cwd: &[u8],
    view: &View,
) -> Result<Options<gcc::ArgData>, Stop>
    ensures { Gives (λ inner. inner) result (inner_options kind cwd.now view.now options.now) }
{
    let words = options.texts(alloc, &OfKinds(&[kind]))?;
    gcc::read_inner(alloc, words, cwd, &ByInnerVerdict, view)
}

/// The options of the two inner command lines; or the first refusal, of the line after `-Xclang` first.
pub(crate) fn both_inner(
    alloc: Global,
    options: &Options<ArgData>,
    cwd: &[u8],
    view: &View,
) -> Result<(Options<gcc::ArgData>, Options<gcc::ArgData>), Stop>
    ensures { Gives (λ both. record { xclang = both.0; clang = both.1 }) result (both_inner cwd.now view.now options.now) }
{
    let xclang = inner_options(alloc, options, Kind::XClang, cwd, view)?;
    let clang = inner_options(alloc, options, Kind::Clang, cwd, view)?;
    Ok((xclang, clang))
}
