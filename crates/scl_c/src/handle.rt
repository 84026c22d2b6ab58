//! Catalogues that C holds by a pointer.
ghost use Rattle.std.specs.Prelude.{◌≡◌, pos};
ghost use base.Fml.{Lft, Share};
ghost use types.Logic.{sem};
ghost use Rattle.scl_catalogue.specs.Views.{catalogue_of};
ghost use Rattle.scl_catalogue.specs.declared.catalogue.Catalogue.{Catalogue};
ghost use Rattle.scl_requests.specs.Requests.{AnswersBytes};
ghost use Rattle.scl_c.specs.Catalogues.{IsMade};
ghost use Rattle.scl_c.specs.Described.{AsksReadAgain, IsDescribed};
ghost use Rattle.scl_c.specs.Memory.{handed, lease, owned};

use crate::catalogue::{boxed, discard, made, unread};
use crate::described::describe_by;
use scl_describe::Catalogue;
use std::alloc::Global;

/// Reads the catalogue of a text over the built-in one, for calls by its handle. The status is 0, 3 where memory was refused, or 6
/// where a line of the text is wrong. `wanted` is then the number of the first one, and 0 with each other status; with the status 6
/// it is 0 only where a line of the built-in text itself is wrong. `handle` is as it was where the status is not 0.
#[unsafe(no_mangle)]
pub extern "C" fn scl_catalogue_new(
    alloc: Global,
    text: &[u8],
    handle: &mut *mut u8,
    wanted: &mut usize,
) -> i32
    ensures* given { sem 𝓛 (handed alloc text.now handle.new result) }
    ensures told { IsMade text.now handle.old handle.new wanted.new result }
{
    match boxed(alloc, text) {
        Ok(catalogue) => {
            *handle = Box::into_raw(catalogue) as *mut u8;
            made(wanted)
        }
        Err(error) => unread(error, wanted),
    }
}

/// `scl_describe` by the catalogue of a handle, which is only read: the caller has a lease of it, of which any number may be out at
/// once, and gets it back.
#[unsafe(no_mangle)]
pub unsafe extern "C" fn scl_catalogue_describe(
    alloc: Global,
    handle: *const u8,
    request: &[u8],
    room: &mut [u8],
    wanted: &mut usize,
) -> i32
    ghost g: { (Lft × Share) × Catalogue }
    requires* { sem 𝓛 (lease g.0 handle g.1) }
    ensures* given_back { sem 𝓛 (lease g.0 handle g.1) }
    ensures told { IsDescribed (AnswersBytes (catalogue_of g.1) request.now) request.now room.old room.new wanted.new result }
    ensures read_again { result ≡ pos 0 → AsksReadAgain request.now }
{
    describe_by(alloc, &*(handle as *const Catalogue), request, room, wanted)
}

/// Frees the catalogue of a handle.
#[unsafe(no_mangle)]
pub unsafe extern "C" fn scl_catalogue_drop(alloc: Global, handle: *mut u8)
    ghost catalogue: { Catalogue }
    requires* { sem 𝓛 (owned alloc handle catalogue) }
{
    discard(Box::from_raw(alloc, handle as *mut Catalogue));
}
