//! What a database has, for a person.
use crate::batch::Named;
use crate::nothing::nothing_text;
use crate::tally::Keeps;
use scl_cl::{Compilation, CompilerArguments, Mem};
use scl_explain::{
    Answered, Case, Counts, Met, cached_text, push_hazard_names, refusal_text, unrunnable_text,
};
use scl_hazards::{Catalogue, Hazard, hazard_of};
use scl_reasons::sentence;
use scl_shell::{shown, shown_briefly};
use std::alloc::Global;
use std::collections::BTreeMap;

/// How many lines of one sort are written, and how many entries in one line.
const MOST: usize = 20;

const MOST_ENTRIES: usize = 4;

fn push_place(alloc: Global, text: &mut String, entry: u64, file: &str) -> Mem<()> {
    if file.is_empty() {
        write!(text, "entry {entry}")
    } else {
        let file = shown_briefly(alloc, file.as_bytes())?;
        write!(text, "entry {entry}, {file}")
    }
}

pub(crate) fn push_more(text: &mut String, count: usize) -> Mem<()> {
    if count > MOST {
        let more = count - MOST;
        write!(text, "      and {more} more\n")?;
    }
    Ok(())
}

pub(crate) fn push_met(alloc: Global, text: &mut String, name: &str, met: &Met) -> Mem<()> {
    let times = met.times;
    write!(text, "  {times:>6}  {name} (")?;
    push_place(alloc, text, met.entry, met.file.as_str())?;
    text.push_str(")\n")
}

/// The reasons for which entries are refused, with a sentence for people.
fn push_reasons(alloc: Global, text: &mut String, reasons: &BTreeMap<String, Met>) -> Mem<()> {
    for (reason, met) in reasons.iter() {
        push_met(alloc, text, reason.as_str(), met)?;
        let sentence = sentence(reason.as_str());
        write!(text, "          {sentence}\n")?;
    }
    Ok(())
}

/// A hazard of entries, if some have it, with what happens.
fn push_hazard(alloc: Global, text: &mut String, counts: &Counts, hazard: &Hazard<'_>) -> Mem<()> {
    let Some(met) = counts.hazards.get(hazard.name()) else {
        return Ok(());
    };
    push_met(alloc, text, shown(alloc, hazard.name())?.as_str(), met)?;
    let consequence = shown(alloc, hazard.consequence())?;
    write!(text, "          {consequence}\n")
}

/// The hazards of entries, in the order of the catalogue.
fn push_hazards(
    alloc: Global,
    text: &mut String,
    catalogue: &Catalogue,
    counts: &Counts,
) -> Mem<()> {
    let hazardous = counts.hazardous;
    write!(text, "with a hazard: {hazardous}\n")?;
    for entry in &catalogue.entries {
        if let Some(hazard) = hazard_of(entry) {
            push_hazard(alloc, text, counts, &hazard)?;
        }
    }
    Ok(())
}

fn push_told(text: &mut String, title: &str, told: &[(u64, String)]) -> Mem<()> {
    if told.is_empty() {
        return Ok(());
    }
    let count = told.len();
    write!(text, "{title}: {count}\n")?;
    for (entry, why) in told.iter().take(MOST) {
        write!(text, "      entry {entry}: {why}\n")?;
    }
    push_more(text, count)
}

fn push_entries(text: &mut String, entries: &[u64]) -> Mem<()> {
    for (at, entry) in entries.iter().take(MOST_ENTRIES).enumerate() {
        let before = if at == 0 { " " } else { ", " };
        write!(text, "{before}{entry}")?;
    }
    if entries.len() > MOST_ENTRIES {
        let more = entries.len() - MOST_ENTRIES;
        write!(text, " and {more} more")?;
    }
    Ok(())
}

fn push_output(alloc: Global, text: &mut String, path: &[u8], entries: &[u64]) -> Mem<()> {
    text.push_str("      ")?;
    text.push_str(shown_briefly(alloc, path)?.as_str())?;
    text.push_str(": entries")?;
    push_entries(text, entries)?;
    text.push('\n')
}

/// The outputs that several entries write.
fn push_shared_outputs(alloc: Global, text: &mut String, counts: &Counts) -> Mem<()> {
    let mut shared = 0usize;
    for (path, entries) in counts.outputs.iter() {
        if entries.len() < 2 {
            continue;
        }
        if shared == 0 {
            text.push_str("written by several entries:\n")?;
        }
        shared = shared.saturating_add(1);
        if shared <= MOST {
            push_output(alloc, text, path, entries)?;
        }
    }
    push_more(text, shared)
}

fn push_missing(alloc: Global, text: &mut String, counts: &Counts) -> Mem<()> {
    if counts.missing.is_empty() {
        return Ok(());
    }
    text.push_str("response files that are not there:\n")?;
    for (path, met) in counts.missing.iter().take(MOST) {
        let times = met.times;
        write!(text, "  {times:>6}  ")?;
        text.push_str(shown_briefly(alloc, path)?.as_str())?;
        text.push_str(" (")?;
        push_place(alloc, text, met.entry, met.file.as_str())?;
        text.push_str(")\n")?;
    }
    push_more(text, counts.missing.len())
}

fn refused_entries(counts: &Counts) -> u64 {
    let mut all = 0u64;
    for met in counts.refused.values() {
        all = all.saturating_add(met.times);
    }
    all
}

/// What was counted over a database, for a person.
pub(crate) fn summary(
    alloc: Global,
    catalogue: &Catalogue,
    counts: &Counts,
    keeps: Option<&Keeps>,
) -> Mem<String> {
    let mut text = String::new(alloc);
    let (entries, ok, none) = (counts.entries, counts.ok, counts.not_compilation);
    let refused = refused_entries(counts);
    write!(text, "entries: {entries}\n")?;
    write!(text, "can be cached: {ok}\n")?;
    if counts.unkept > 0 {
        let unkept = counts.unkept;
        write!(text, "may not be kept in the cache: {unkept}\n")?;
    }
    if let Some(keeps) = keeps {
        keeps.push(alloc, &mut text)?;
    }
    push_hazards(alloc, &mut text, catalogue, counts)?;
    write!(text, "compile nothing: {none}\n")?;
    write!(text, "cannot be cached: {refused}\n")?;
    push_reasons(alloc, &mut text, &counts.refused)?;
    push_told(&mut text, "no command lines", &counts.broken)?;
    push_told(&mut text, "files that cannot be read", &counts.unread)?;
    push_shared_outputs(alloc, &mut text, counts)?;
    push_missing(alloc, &mut text, counts)?;
    Ok(text)
}

/// The hazards of an entry, if it has some.
fn push_named(alloc: Global, text: &mut String, hazards: &[Hazard<'_>]) -> Mem<()> {
    if !hazards.is_empty() {
        text.push_str("; hazards: ")?;
        push_hazard_names(alloc, text, hazards)?;
    }
    Ok(())
}

/// Whether a command can be run, and its outcome be kept.
fn push_compiled(
    alloc: Global,
    text: &mut String,
    program: &[u8],
    compilation: &Compilation,
) -> Mem<()> {
    match unrunnable_text(alloc, program, &compilation.command.arguments)? {
        Some(why) => text.push_str(why.as_str()),
        None => text.push_str(cached_text(compilation.cacheable)),
    }
}

/// Appends what a command line is answered.
fn push_outcome(alloc: Global, text: &mut String, case: &Case, answered: &Answered<'_>) -> Mem<()> {
    let described = &answered.description;
    match &described.answer {
        CompilerArguments::Ok(compilation) => {
            push_compiled(alloc, text, &case.program, compilation)?;
            push_named(alloc, text, &described.told.hazards)
        }
        CompilerArguments::CannotCache(reason, more) => {
            let missing = &answered.missing_files;
            let refusal = refusal_text(alloc, reason, more.as_deref(), missing)?;
            text.push_str(refusal.as_str())
        }
        CompilerArguments::NotCompilation => {
            let nothing = nothing_text(alloc, &described.options)?;
            text.push_str(nothing.as_str())
        }
    }
}

/// What a command line is answered, in one line.
pub(crate) fn outcome_text(alloc: Global, case: &Case, answered: &Answered<'_>) -> Mem<String> {
    let mut text = String::new(alloc);
    push_outcome(alloc, &mut text, case, answered)?;
    Ok(text)
}

/// An entry and its outcome, in one line.
pub(crate) fn entry_line(
    alloc: Global,
    named: Named<'_>,
    case: &Case,
    answered: &Answered<'_>,
) -> Mem<String> {
    let mut text = String::new(alloc);
    push_place(alloc, &mut text, named.entry, named.file)?;
    text.push_str(": ")?;
    push_outcome(alloc, &mut text, case, answered)?;
    text.push('\n')?;
    Ok(text)
}
