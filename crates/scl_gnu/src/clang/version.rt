//! Which versions of Clang are new enough.
ghost use Rattle.std.specs.Prelude.{◌≡◌, IfOk, find};
ghost use Rattle.std.specs.List.{slice_split};
ghost use Rattle.std.specs.Option.{option_copied, option_map};
ghost use Rattle.std.specs.Result.{result_ok};
ghost use Rattle.semver.specs.Identifiers.{parts_of};
ghost use Rattle.semver.specs.Parse.{version_parts};
ghost use Rattle.scl_gnu.specs.Versions.{has_dot, is_space, names_at_least, version_in, without_quotes};

use scl_args::Mem;
use semver::{Error, Version};
use std::alloc::{AllocError, Global};

fn has_dot(text: &str) -> bool
    ensures { result ≡ has_dot text.now }
{
    text.as_bytes().contains(&b'.')
}

/// The first part between spaces that has a dot.
fn dotted_part(text: &str) -> Option<&str>
    ensures { option_copied result ≡ find has_dot (slice_split is_space text.now) }
{
    let mut rest = text;
    while let Some((part, behind)) = rest.split_once(' ') {
        if has_dot(part) {
            return Some(part);
        }
        rest = behind;
    }
    if has_dot(rest) { Some(rest) } else { None }
}

fn without_quotes(text: &str) -> &str
    ensures { result.now ≡ without_quotes text.now }
{
    let mut kept = text;
    while let Some(shorter) = kept.strip_suffix('"') {
        kept = shorter;
    }
    kept
}

/// The semantic version of this text, if it is one.
fn read_version(alloc: Global, text: &str) -> Mem<Option<Version>>
    ensures { IfOk result (λ version. option_map parts_of version ≡ result_ok (version_parts text.now)) }
{
    match Version::parse(alloc, text) {
        Ok(version) => Ok(Some(version)),
        Err(error) => {
            if error == Error::from(AllocError) {
                Err(AllocError)
            } else {
                Ok(None)
            }
        }
    }
}

/// The version that a text names, if it names one.
fn version_in(alloc: Global, text: &str) -> Mem<Option<Version>>
    ensures { IfOk result (λ version. option_map parts_of version ≡ version_in text.now) }
{
    match dotted_part(text) {
        Some(part) => read_version(alloc, without_quotes(part)),
        None => Ok(None),
    }
}

/// Whether the version that a text names is at least `major`.0.0.
pub(super) fn names_at_least(alloc: Global, text: &str, major: u64) -> Mem<bool>
    ensures { IfOk result (λ is_new. is_new ≡ names_at_least major text.now) }
{
    match version_in(alloc, text)? {
        Some(version) => Ok(version.cmp_precedence(&Version::new(major, 0, 0)).is_ge()),
        None => Ok(false),
    }
}
