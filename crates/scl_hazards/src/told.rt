//! What a catalogue says of a command line.
ghost use Rattle.std.specs.Prelude.{◌≡◌, IfOk};
ghost use Rattle.std.specs.Option.{option_copied, option_map};
ghost use Rattle.scl_catalogue.specs.Views.{line_of};
ghost use Rattle.scl_hazards.specs.Told.{given, nothing, told_of};

use crate::hazard::{Hazard, hazards_among};
use crate::known::Known;
use scl_catalogue::Line;
use scl_effects::{Effect, effects_among, unknown_of};
use scl_values::Mem;
use std::alloc::Global;

/// What is reported of a command line.
#[derive(Debug, Drop)]
pub struct Told<'a> {
    /// What its compiler does differently with the built command, in the order of the catalogue.
    pub hazards: Vec<Hazard<'a>>,
    /// What its compiler reads, writes, asks and loads, in the order of the catalogue.
    pub effects: Vec<Effect>,
    /// The word or flag of the first option of which nothing is known.
    pub unknown: Option<Vec<u8>>,
}

fn copied(alloc: Global, name: Option<&[u8]>) -> Mem<Option<Vec<u8>>>
    ensures { IfOk result (λ copied. option_map (λ name. name.items) copied ≡ option_copied name.entry) }
{
    match name {
        Some(name) => Ok(Some(Vec::from_slice(alloc, name)?)),
        None => Ok(None),
    }
}

/// What is reported of a line that has a record.
#[tactic(auto, unfolding(crate::specs::Told::told_of))]
pub(crate) fn told_of<'a>(alloc: Global, known: &Known<'a>, line: &Line<'_>) -> Mem<Told<'a>>
    ensures { IfOk result (λ told. given told ≡ told_of known.now (line_of line.now)) }
{
    let entries = known.catalogue().found(alloc, line)?;
    let hazards = hazards_among(alloc, &entries)?;
    let effects = effects_among(alloc, line, &entries)?;
    let unknown = copied(alloc, unknown_of(known.catalogue(), line))?;
    Ok(Told {
        hazards,
        effects,
        unknown,
    })
}

/// What is reported of a line that has none.
pub(crate) fn nothing<'a>(alloc: Global) -> Told<'a>
    ensures { given result ≡ nothing }
{
    Told {
        hazards: Vec::new(alloc),
        effects: Vec::new(alloc),
        unknown: None,
    }
}
