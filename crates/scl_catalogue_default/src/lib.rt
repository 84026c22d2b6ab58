//! The catalogue that is built in: its text, and what is read of it, alone or with a catalogue of one's own over it.
#![tactic(auto)]

mod effects;
mod hazards;

ghost use Rattle.std.specs.Prelude.{◌≡◌, IfErr, IfOk};
ghost use Rattle.scl_catalogue.specs.Views.{catalogue_of};
ghost use Rattle.scl_catalogue_text.specs.Lines.{read};
ghost use Rattle.scl_catalogue_text.specs.Outcome.{ReadsText};
ghost use Rattle.scl_catalogue_default.specs.Over.{read_over, IsUnnumbered, IsWrongOver};
ghost use Rattle.scl_catalogue_default.specs.Text.{built_in_text, effects_text, hazards_text};

use crate::effects::EFFECTS;
use crate::hazards::HAZARDS;
use scl_catalogue::Catalogue;
use scl_catalogue_text::{BadLine, ReadError, read};
use scl_values::Mem;
use std::alloc::Global;

// (the tactics don't take a text of this size)
#[tactic(none)]
fn hazard_bytes() -> &'static [u8]
    ensures { result.now ≡ hazards_text }
{
    HAZARDS.as_bytes()
}

#[tactic(none)]
fn effect_bytes() -> &'static [u8]
    ensures { result.now ≡ effects_text }
{
    EFFECTS.as_bytes()
}

/// The whole text.
#[tactic(auto, unfolding(crate::specs::Text::built_in_text))]
fn built_in_bytes(alloc: Global) -> Mem<Vec<u8>>
    ensures { IfOk result (λ text. text.items ≡ built_in_text) }
{
    let mut text = Vec::from_slice(alloc, hazard_bytes())?;
    text.extend_from_slice(effect_bytes())?;
    Ok(text)
}

/// The catalogue that is built in. A line of its text that is wrong is reported by its number, as one of any text; the
/// repository's gate runs this, so none is.
pub fn built_in(alloc: Global) -> Result<Catalogue, ReadError>
    ensures { ReadsText catalogue_of result (read built_in_text) }
{
    let text = built_in_bytes(alloc)?;
    let catalogue = read(alloc, &text)?;
    Ok(catalogue)
}

/// The error without the number of its line.
fn unnumbered(error: ReadError) -> ReadError
    ensures { IsUnnumbered error result }
{
    match error {
        ReadError::BadLine(bad) => ReadError::BadLine(BadLine {
            line: 0,
            mistake: bad.mistake,
        }),
        ReadError::Memory => ReadError::Memory,
    }
}

/// The catalogue of this text, and after it those built-in entries of whose names it has none. The first line of the text that is
/// wrong is reported by its number, from 1 on. Only where the built-in text is wrong, the number is 0.
#[tactic(auto, unfolding(crate::specs::Over::read_over))]
pub fn over_built_in(alloc: Global, text: &[u8]) -> Result<Catalogue, ReadError>
    ensures reads { ReadsText catalogue_of result (read_over text.now) }
    ensures wrong { IfErr result (IsWrongOver text.now) }
{
    let own = read(alloc, text)?;
    match built_in(alloc) {
        Ok(base) => {
            let both = own.over(alloc, base)?;
            Ok(both)
        }
        Err(error) => Err(unnumbered(error)),
    }
}
