//! A key, and which of its parts the first round answers.
ghost use Rattle.std.specs.Prelude.{◌≡◌, IfOk};
ghost use Rattle.scl_key.specs.Views.{part_of};
ghost use Rattle.scl_rounds.specs.Keys.{asks_early, is_early, is_made, is_output_at};
ghost use Rattle.scl_rounds.specs.Views.{key_of};

use scl_files::path::{join, same_path};
use scl_key::{Ask, Direct, Part};
use scl_values::Mem;
use std::alloc::Global;

/// A key, and where its names are looked for.
#[derive(Debug, Drop)]
pub struct Key<'a> {
    /// The directory of the compiler.
    pub place: &'a [u8],
    /// Its parts.
    pub parts: &'a [Part],
    /// What finds it without a run; empty, if nothing does.
    pub direct: &'a [Direct],
}

fn asks_early(ask: Ask) -> bool
    ensures { result ≡ asks_early ask }
{
    match ask {
        Ask::Env | Ask::Unset | Ask::File | Ask::Maybe | Ask::Regular => true,
        Ask::SourcesIfShown | Ask::RefuseIfShown => false,
    }
}

/// Whether the first round answers a part.
pub(crate) fn is_early(part: &Part) -> bool
    ensures { result ≡ is_early (part_of part.now) }
{
    match part {
        Part::Is(_) | Part::Output(_) | Part::Compiler => true,
        Part::Asked(ask, _) => asks_early(*ask),
        Part::Directory
        | Part::Plan(_)
        | Part::Run(_)
        | Part::RunElse(_)
        | Part::Pch(_)
        | Part::Sources
        | Part::Times => false,
    }
}

/// Whether a part is an output at this path.
fn is_output_at(alloc: Global, place: &[u8], path: &[u8], part: &Part) -> Mem<bool>
    ensures { IfOk result (λ it. it ≡ is_output_at place.now path.now (part_of part.now)) }
{
    match part {
        Part::Output(output) => {
            let made = join(alloc, place, &output.path)?;
            Ok(same_path(&made, &join(alloc, place, path)?))
        }
        Part::Is(_)
        | Part::Directory
        | Part::Compiler
        | Part::Plan(_)
        | Part::Asked(_, _)
        | Part::Run(_)
        | Part::RunElse(_)
        | Part::Pch(_)
        | Part::Sources
        | Part::Times => Ok(false),
    }
}

/// Whether the command writes at this path.
pub(crate) fn is_made(alloc: Global, key: &Key<'_>, path: &[u8]) -> Mem<bool>
    ensures { IfOk result (λ it. it ≡ is_made (key_of key.now) path.now) }
{
    for part in key.parts {
        if is_output_at(alloc, key.place, path, part)? {
            return Ok(true);
        }
    }
    Ok(false)
}
