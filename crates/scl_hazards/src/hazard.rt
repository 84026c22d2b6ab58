//! Hazards, as a catalogue states them.
ghost use Rattle.std.specs.Prelude.{◌≡◌, ◌++◌, map, IfOk, OnOk};
ghost use Rattle.scl_catalogue.specs.Views.{entry_of};
ghost use Rattle.scl_hazards.specs.Hazards.{hazard_told, listed, hazards_among};

use scl_catalogue::{Danger, Entry, Tells};
use scl_values::Mem;
use std::alloc::Global;
use std::marker::Model;

/// A kind of command lines for which a compiler does something else with the built command than with the given one.
#[derive(Debug, Drop)]
pub struct Hazard<'a> {
    danger: Danger,
    name: &'a [u8],
    consequence: &'a [u8],
}

impl<'a> Model for Hazard<'a> {
    ghost use Rattle.scl_hazards.specs.Hazards.{Hazard};

    ghost Value = { Hazard };

    ghost view = { λ h. record { danger = h.danger; name = h.name.now; consequence = h.consequence.now } };
}

impl<'a> Hazard<'a> {
    /// What it makes of the built command.
    pub fn danger(&self) -> Danger
        ensures { result ≡ self.now.danger }
    {
        self.danger
    }

    /// Its name, as programs print it.
    pub fn name(&self) -> &'a [u8]
        ensures { result.now ≡ self.now.name }
    {
        self.name
    }

    /// What happens with the built command, as a sentence for people.
    pub fn consequence(&self) -> &'a [u8]
        ensures { result.now ≡ self.now.consequence }
    {
        self.consequence
    }
}

/// The hazard that an entry states, if it states one.
pub fn hazard_of(entry: &Entry) -> Option<Hazard<'_>>
    ensures { result ≡ hazard_told (entry_of entry.now) }
{
    match &entry.tells {
        Tells::Hazard(danger) => Some(Hazard {
            danger: *danger,
            name: &entry.name,
            consequence: &entry.says,
        }),
        Tells::Effect(_, _)
        | Tells::Plain
        | Tells::Key(_)
        | Tells::Run(_)
        | Tells::Names(_)
        | Tells::Brings(_) => None,
    }
}

/// Appends the hazard that an entry states, if it states one.
fn push_hazard<'a>(hazards: &mut Vec<Hazard<'a>>, entry: &'a Entry) -> Mem<()>
    ensures { OnOk result (hazards.new.items ≡ hazards.old.items ++ listed (hazard_told (entry_of entry.now))) }
{
    if let Some(hazard) = hazard_of(entry) {
        hazards.push(hazard)?;
    }
    Ok(())
}

/// The hazards among entries, in their order.
pub(crate) fn hazards_among<'a>(alloc: Global, entries: &[&'a Entry]) -> Mem<Vec<Hazard<'a>>>
    ensures { IfOk result (λ hazards. hazards.items ≡ hazards_among (map (λ entry. entry_of entry.now) entries.now)) }
{
    let mut hazards = Vec::new(alloc);
    for entry in entries {
        push_hazard(&mut hazards, entry)?;
    }
    Ok(hazards)
}
