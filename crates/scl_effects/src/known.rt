//! Options of which it is known what they read, write, ask and load.
ghost use Rattle.std.specs.Prelude.{◌≡◌, map};
ghost use Rattle.std.specs.List.{list_any};
ghost use Rattle.std.specs.Option.{option_copied, option_map};
ghost use Rattle.scl_catalogue.specs.Views.{catalogue_of, entry_of, line_of, seen_of, tells_of};
ghost use Rattle.scl_effects.specs.Known.{first_unknown, is_of_effects, knows, unknown_of};

use scl_catalogue::{Catalogue, Entry, Level, Line, Numbers, Seen, Tells};

/// Whether an entry states what options do, or that they do nothing.
fn is_of_effects(tells: &Tells) -> bool
    ensures { result ≡ is_of_effects (tells_of tells.now) }
{
    match tells {
        Tells::Effect(_, _) | Tells::Plain => true,
        Tells::Hazard(_) | Tells::Key(_) | Tells::Run(_) | Tells::Names(_) | Tells::Brings(_) =>
            false,
    }
}

/// Whether one of the entries states what the option does.
#[tactic(auto, unfolding(scl_catalogue::specs::Speaking::speaks_of))]
fn one_knows(entries: &[Entry], line: &Line<'_>, level: Level, option: &Seen<'_>) -> bool
    ensures { result ≡ list_any (knows (line_of line.now) level (seen_of option.now)) (map entry_of entries.now) }
{
    let numbers = Numbers::of(option);
    for entry in entries {
        if entry.may_speak(&numbers)
            && is_of_effects(&entry.tells)
            && entry.speaks_of(line.compiler, line.version, level, option)
        {
            return true;
        }
    }
    false
}

/// The name of the first of these options of which nothing is known.
fn first_unknown<'a>(
    catalogue: &Catalogue,
    line: &Line<'_>,
    level: Level,
    options: &[Seen<'a>],
) -> Option<&'a [u8]>
    ensures { option_copied result ≡ option_map (λ option. option.name) (first_unknown (catalogue_of catalogue.now) (line_of line.now) level (map seen_of options.now)) }
{
    for option in options {
        if !one_knows(&catalogue.entries, line, level, option) {
            return Some(option.name);
        }
    }
    None
}

/// The word or flag of the first option of which the catalogue does not know what it reads, writes, asks and loads. The options
/// of the line come before the inner ones; an entry counts whether it is there or not.
pub fn unknown_of<'a>(catalogue: &Catalogue, line: &Line<'a>) -> Option<&'a [u8]>
    ensures { option_copied result ≡ unknown_of (catalogue_of catalogue.now) (line_of line.now) }
{
    if let Some(name) = first_unknown(catalogue, line, Level::Outer, line.options) {
        return Some(name);
    }
    first_unknown(catalogue, line, Level::Inner, line.inner)
}
