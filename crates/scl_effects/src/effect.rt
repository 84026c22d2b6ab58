//! Something that a compiler reads, writes, asks or loads.
ghost use Rattle.std.specs.Prelude.{◌≡◌, IfOk};
ghost use Rattle.scl_catalogue.specs.Views.{line_of};
ghost use Rattle.scl_effects.specs.Effects.{effect_of};

use crate::file::{filled, is_like, without_star};
use scl_catalogue::{Line, Verb};
use scl_values::Mem;
use std::alloc::Global;
use std::marker::Model;

/// What is done with a file of a name, or with each whose name begins so; or what is asked.
#[derive(Debug, Drop)]
pub struct Effect {
    verb: Verb,
    is_like: bool,
    name: Vec<u8>,
}

impl Model for Effect {
    ghost use Rattle.scl_effects.specs.Effects.{Effect};

    ghost Value = { Effect };

    ghost view = { λ e. record { verb = e.verb; is_like = e.is_like; name = e.name.items } };
}

impl Effect {
    /// What is done.
    pub fn verb(&self) -> Verb
        ensures { result ≡ self.now.verb }
    {
        self.verb
    }

    /// Whether it is done with files whose names begin so.
    pub fn is_like(&self) -> bool
        ensures { result ≡ self.now.is_like }
    {
        self.is_like
    }

    /// The name, or its beginning.
    pub fn name(&self) -> &[u8]
        ensures { result.now ≡ self.now.name }
    {
        &self.name
    }
}

/// An effect by the pattern of its name, of an option with this value.
pub(crate) fn effect_of(
    alloc: Global,
    line: &Line<'_>,
    verb: Verb,
    file: &[u8],
    value: &[u8],
) -> Mem<Effect>
    ensures { IfOk result (λ effect. effect ≡ effect_of (line_of line.now) verb file.now value.now) }
{
    let name = filled(alloc, line, value, without_star(file))?;
    Ok(Effect {
        verb,
        is_like: is_like(file),
        name,
    })
}
