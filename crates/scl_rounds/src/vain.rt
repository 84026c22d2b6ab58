//! Where nothing may be kept, by the answers so far: nothing more is asked.
ghost use Rattle.std.specs.Prelude.{◌≡◌, IfOk};
ghost use Rattle.std.specs.Option.{option_map};
ghost use Rattle.scl_key.specs.Views.{part_of};
ghost use Rattle.scl_questions.specs.Views.{written_of};
ghost use Rattle.scl_rounds.specs.Vain.{forbids, hides, hides_by, hides_else, is_forbidden, is_hidden, is_hidden_else, is_vain};
ghost use Rattle.scl_rounds.specs.Views.{key_in, machine_of};

use crate::answer::{Told, answer};
use crate::key::is_early;
use crate::plan::planned;
use crate::question::Phase;
use crate::run::{has_failed, may_fail, names_sources, ran};
use scl_key::Part;
use scl_questions::Written;
use scl_values::Mem;
use std::alloc::Global;

/// Whether nothing may be kept, by what the first round answers to a part.
fn forbids(told: &Told<'_>, part: &Part) -> Mem<bool>
    ensures { IfOk result (λ it. it ≡ forbids (key_in told.now) (machine_of told.now) (part_of part.now)) }
{
    Ok(is_early(part) && answer(told, part)?.is_none())
}

/// Whether nothing may be kept, by what the first round answers.
fn is_forbidden(told: &Told<'_>) -> Mem<bool>
    ensures { IfOk result (λ it. it ≡ is_forbidden (key_in told.now) (machine_of told.now)) }
{
    for part in told.key.parts {
        if forbids(told, part)? {
            return Ok(true);
        }
    }
    Ok(false)
}

/// Whether a run failed that may not, or its text hides its sources.
fn hides(alloc: Global, ran: Option<&Written>, may_fail: bool) -> Mem<bool>
    ensures { IfOk result (λ it. it ≡ hides may_fail (option_map (λ it. written_of it.now) ran.entry)) }
{
    match ran {
        Some(written) => Ok(!names_sources(alloc, &written.output)?),
        None => Ok(!may_fail),
    }
}

/// Whether nothing may be kept, by what a run or a plan wrote.
fn hides_by(told: &Told<'_>, part: &Part) -> Mem<bool>
    ensures { IfOk result (λ it. it ≡ hides_by (key_in told.now) (machine_of told.now) (part_of part.now)) }
{
    match part {
        Part::Plan(words) => Ok(planned(told, words)?.is_none()),
        Part::Run(words) => hides(told.alloc, ran(told, words)?, may_fail(told.key)),
        Part::Is(_)
        | Part::Output(_)
        | Part::Directory
        | Part::Compiler
        | Part::Asked(_, _)
        | Part::RunElse(_)
        | Part::Pch(_)
        | Part::Sources
        | Part::Times => Ok(false),
    }
}

/// Whether nothing may be kept, by what the runs and plans wrote.
fn is_hidden(told: &Told<'_>) -> Mem<bool>
    ensures { IfOk result (λ it. it ≡ is_hidden (key_in told.now) (machine_of told.now)) }
{
    for part in told.key.parts {
        if hides_by(told, part)? {
            return Ok(true);
        }
    }
    Ok(false)
}

/// Whether nothing may be kept, by what a run wrote in the place of one that failed.
fn hides_else(told: &Told<'_>, part: &Part) -> Mem<bool>
    ensures { IfOk result (λ it. it ≡ hides_else (key_in told.now) (machine_of told.now) (part_of part.now)) }
{
    if let Part::RunElse(words) = part {
        if has_failed(told)? {
            return hides(told.alloc, ran(told, words)?, false);
        }
    }
    Ok(false)
}

/// Whether nothing may be kept, by what the runs wrote in the place of those that failed.
fn is_hidden_else(told: &Told<'_>) -> Mem<bool>
    ensures { IfOk result (λ it. it ≡ is_hidden_else (key_in told.now) (machine_of told.now)) }
{
    for part in told.key.parts {
        if hides_else(told, part)? {
            return Ok(true);
        }
    }
    Ok(false)
}

/// Whether a round is in vain, since nothing may be kept.
pub(crate) fn is_vain(told: &Told<'_>, phase: Phase) -> Mem<bool>
    ensures { IfOk result (λ it. it ≡ is_vain (key_in told.now) phase (machine_of told.now)) }
{
    match phase {
        Phase::First | Phase::Details | Phase::Inside => Ok(false),
        Phase::Runs => is_forbidden(told),
        Phase::RunsElse => is_hidden(told),
        Phase::Files => is_hidden_else(told),
    }
}
