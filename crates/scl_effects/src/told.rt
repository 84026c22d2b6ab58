//! What entries state of a line.
ghost use Rattle.std.specs.Prelude.{◌≡◌, ◌++◌, map, IfOk, OnOk};
ghost use Rattle.std.specs.List.{flat_map};
ghost use Rattle.scl_catalogue.specs.Views.{entry_of, line_of, seen_of, tells_of};
ghost use Rattle.scl_effects.specs.Effects.{effects_among, effects_told, value_of, value_spoken, values_filled};

use crate::effect::{Effect, effect_of};
use crate::file::has_value;
use scl_catalogue::{Entry, Level, Line, Seen, Standing, Tells, behind_equals};
use scl_values::Mem;
use std::alloc::Global;

/// The value of an option.
fn value_of<'a>(option: &Seen<'a>) -> &'a [u8]
    ensures { result.now ≡ value_of (seen_of option.now) }
{
    match option.standing {
        Standing::Raw | Standing::Known => option.value,
        Standing::Unknown => behind_equals(option.name),
    }
}

/// Appends the value of the option if the entry speaks of it.
fn push_value<'a>(
    values: &mut Vec<&'a [u8]>,
    line: &Line<'_>,
    entry: &Entry,
    level: Level,
    option: &Seen<'a>,
) -> Mem<()>
    ensures { OnOk result (map (λ value. value.now) values.new.items ≡ map (λ value. value.now) values.old.items ++ value_spoken (line_of line.now) (entry_of entry.now) level (seen_of option.now)) }
{
    if entry.speaks_of(line.compiler, line.version, level, option) {
        values.push(value_of(option))?;
    }
    Ok(())
}

/// Appends the values of these options that the entry speaks of.
fn push_values<'a>(
    values: &mut Vec<&'a [u8]>,
    line: &Line<'_>,
    entry: &Entry,
    level: Level,
    options: &[Seen<'a>],
) -> Mem<()>
    ensures { OnOk result (map (λ value. value.now) values.new.items ≡ map (λ value. value.now) values.old.items ++ flat_map (value_spoken (line_of line.now) (entry_of entry.now) level) (map seen_of options.now)) }
{
    for option in options {
        push_value(values, line, entry, level, option)?;
    }
    Ok(())
}

/// The values that an entry's pattern is filled with: if it has a value, those that the entry speaks of, else an empty one.
fn values_filled<'a>(
    alloc: Global,
    line: &Line<'a>,
    entry: &Entry,
    file: &[u8],
) -> Mem<Vec<&'a [u8]>>
    ensures { IfOk result (λ values. map (λ value. value.now) values.items ≡ values_filled (line_of line.now) (entry_of entry.now) file.now) }
{
    let mut values = Vec::new(alloc);
    if has_value(file) {
        push_values(&mut values, line, entry, Level::Outer, line.options)?;
        push_values(&mut values, line, entry, Level::Inner, line.inner)?;
    } else {
        values.push(&[])?;
    }
    Ok(values)
}

/// Appends the effects that an entry states.
fn push_told(alloc: Global, effects: &mut Vec<Effect>, line: &Line<'_>, entry: &Entry) -> Mem<()>
    ensures { OnOk result (effects.new.items ≡ effects.old.items ++ effects_told (line_of line.now) (entry_of entry.now) (tells_of entry.now.tells)) }
{
    let Tells::Effect(verb, file) = &entry.tells else {
        return Ok(());
    };
    for value in &values_filled(alloc, line, entry, file)? {
        effects.push(effect_of(alloc, line, *verb, file, value)?)?;
    }
    Ok(())
}

/// The effects that entries state of a line, in their order.
pub fn effects_among(alloc: Global, line: &Line<'_>, entries: &[&Entry]) -> Mem<Vec<Effect>>
    ensures { IfOk result (λ effects. effects.items ≡ effects_among (line_of line.now) (map (λ entry. entry_of entry.now) entries.now)) }
{
    let mut effects = Vec::new(alloc);
    for entry in entries {
        push_told(alloc, &mut effects, line, entry)?;
    }
    Ok(effects)
}
