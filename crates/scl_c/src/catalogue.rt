//! Catalogues in memory.
ghost use Rattle.std.specs.Prelude.{◌≡◌, IfOk, IfErr, pos};
ghost use Rattle.std.specs.Box.{box_allocator};
ghost use Rattle.scl_catalogue.specs.Views.{catalogue_of};
ghost use Rattle.scl_catalogue_text.specs.Outcome.{ReadsText};
ghost use Rattle.scl_catalogue_default.specs.Over.{read_over, IsWrongOver};
ghost use Rattle.scl_c.specs.Catalogues.{IsUnreadBy};

use crate::status::{BAD_CATALOGUE, NO_MEMORY, TOLD};
use scl_catalogue_default::over_built_in;
use scl_catalogue_text::ReadError;
use scl_describe::Catalogue;
use std::alloc::Global;

/// A catalogue without entries, for what is answered by none.
pub(crate) fn nothing(alloc: Global) -> Catalogue {
    Catalogue {
        groups: Vec::new(alloc),
        entries: Vec::new(alloc),
    }
}

/// The catalogue of a text over the built-in one, in a block of its own.
pub(crate) fn boxed(alloc: Global, text: &[u8]) -> Result<Box<Catalogue>, ReadError>
    ensures reads { ReadsText (λ boxed. catalogue_of boxed.value) result (read_over text.now) }
    ensures allocator { IfOk result (λ boxed. box_allocator boxed ≡ alloc) }
    ensures wrong { IfErr result (IsWrongOver text.now) }
{
    let catalogue = over_built_in(alloc, text)?;
    match Box::new(alloc, catalogue) {
        Ok(boxed) => Ok(boxed),
        Err(_) => Err(ReadError::Memory),
    }
}

/// Tells that a catalogue is read.
pub(crate) fn made(wanted: &mut usize) -> i32
    ensures { (result ≡ pos 0) × (wanted.new ≡ 0) }
{
    *wanted = 0;
    TOLD
}

/// Tells why a catalogue is not read: the number of its first wrong line, or that memory was refused.
pub(crate) fn unread(error: ReadError, wanted: &mut usize) -> i32
    ensures { IsUnreadBy error wanted.new result }
{
    match error {
        ReadError::BadLine(bad) => {
            *wanted = bad.line;
            BAD_CATALOGUE
        }
        ReadError::Memory => {
            *wanted = 0;
            NO_MEMORY
        }
    }
}

/// Lets the catalogue go.
pub(crate) fn discard(catalogue: Box<Catalogue>) {
    drop(catalogue);
}
