//! Hazards, for a person.
ghost use Rattle.std.specs.Prelude.{◌≡◌, ◌++◌, OnOk, IfOk};
ghost use Rattle.scl_explain.specs.Replies.{hazard_line, hazards_text};

use scl_hazards::Hazard;
use scl_reader::Mem;
use scl_shell::shown;
use std::alloc::Global;

/// Appends the names of hazards to a text.
pub fn push_hazard_names(alloc: Global, text: &mut String, hazards: &[Hazard<'_>]) -> Mem<()> {
    for (at, hazard) in hazards.iter().enumerate() {
        let name = shown(alloc, hazard.name())?;
        let before = if at == 0 { "" } else { ", " };
        write!(text, "{before}{name}")?;
    }
    Ok(())
}

fn push_hazard_line(alloc: Global, text: &mut Vec<u8>, hazard: &Hazard<'_>) -> Mem<()>
    ensures { OnOk result (text.new.items ≡ text.old.items ++ hazard_line hazard.now) }
{
    let name = shown(alloc, hazard.name())?;
    let consequence = shown(alloc, hazard.consequence())?;
    text.extend_from_slice(name.as_bytes())?;
    text.extend_from_slice(b": ")?;
    text.extend_from_slice(consequence.as_bytes())?;
    text.push(b'\n')?;
    Ok(())
}

/// A line for each hazard, with what happens.
pub(crate) fn hazards_text(alloc: Global, hazards: &[Hazard<'_>]) -> Mem<Vec<u8>>
    ensures { IfOk result (λ text. text.items ≡ hazards_text hazards.now) }
{
    let mut text = Vec::new(alloc);
    for hazard in hazards {
        push_hazard_line(alloc, &mut text, hazard)?;
    }
    Ok(text)
}

/// That hazards keep a command from being written, if there are some.
pub(crate) fn hazards_line(alloc: Global, hazards: &[Hazard<'_>]) -> Mem<Option<String>> {
    if hazards.is_empty() {
        return Ok(None);
    }
    let mut text = String::from_str(alloc, "hazards: ")?;
    push_hazard_names(alloc, &mut text, hazards)?;
    Ok(Some(text))
}
