//! The macros that a command defines, and its key without them.
ghost use Rattle.std.specs.Prelude.{◌≡◌, ◌++◌, filter, map, IfOk, OnOk};
ghost use Rattle.std.specs.Cmp.Lexicographic.{pointwise};
ghost use Rattle.std.specs.List.{list_all};
ghost use Rattle.std.specs.Option.{option_map, option_to_list};
ghost use Rattle.std.specs.Str.{bytes_eq};
ghost use Rattle.scl_values.specs.Words.{words_of};
ghost use Rattle.scl_key.specs.Views.{part_of, parts_of};
ghost use Rattle.scl_shared_key.specs.Objects.{is_macro};
ghost use Rattle.scl_delivered.specs.Macros.{are_defined, defines, left_of, macro_in, macro_told, macros_in, others, reads_macros, run_in, runs_in, without_macros};

use scl_key::Part;
use scl_shared_key::is_macro;
use scl_text::Mem;
use scl_text::command::push_word;
use std::alloc::Global;

/// The macro that a fact tells, if it is a common word of the command that defines one.
fn macro_told(row: &[Vec<u8>]) -> Option<&[u8]>
    ensures { option_map (λ word. word.now) result ≡ macro_told (words_of row.now) }
{
    match row {
        [name, word] if name.as_slice() == b"common".as_slice() && is_macro(word) => Some(word),
        _ => None,
    }
}

/// Appends the macro that a fact tells, if it tells one.
fn push_macro_told(alloc: Global, macros: &mut Vec<Vec<u8>>, row: &[Vec<u8>]) -> Mem<()>
    ensures { OnOk result (words_of macros.new.items ≡ words_of macros.old.items ++ option_to_list (macro_told (words_of row.now))) }
{
    if let Some(word) = macro_told(row) {
        push_word(alloc, macros, word)?;
    }
    Ok(())
}

/// Appends the macro that a part tells, if it tells one.
fn push_macro(alloc: Global, macros: &mut Vec<Vec<u8>>, part: &Part) -> Mem<()>
    ensures { OnOk result (words_of macros.new.items ≡ words_of macros.old.items ++ macro_in (part_of part.now)) }
{
    match part {
        Part::Is(row) => push_macro_told(alloc, macros, row),
        Part::Output(_)
        | Part::Directory
        | Part::Compiler
        | Part::Plan(_)
        | Part::Asked(_, _)
        | Part::Run(_)
        | Part::RunElse(_)
        | Part::Pch(_)
        | Part::Sources
        | Part::Times => Ok(()),
    }
}

/// The macros that the command defines.
pub(crate) fn macros_in(alloc: Global, parts: &[Part]) -> Mem<Vec<Vec<u8>>>
    ensures { IfOk result (λ macros. words_of macros.items ≡ macros_in (parts_of parts.now)) }
{
    let mut macros = Vec::new(alloc);
    for part in parts {
        push_macro(alloc, &mut macros, part)?;
    }
    Ok(macros)
}

/// Appends the words of a run, if the part is one.
fn push_run<'a>(runs: &mut Vec<&'a [Vec<u8>]>, part: &'a Part) -> Mem<()>
    ensures { OnOk result (map (λ run. words_of run.now) runs.new.items ≡ map (λ run. words_of run.now) runs.old.items ++ run_in (part_of part.now)) }
{
    match part {
        Part::Run(words) | Part::RunElse(words) => runs.push(words.as_slice())?,
        Part::Is(_)
        | Part::Output(_)
        | Part::Directory
        | Part::Compiler
        | Part::Plan(_)
        | Part::Asked(_, _)
        | Part::Pch(_)
        | Part::Sources
        | Part::Times => {}
    }
    Ok(())
}

/// The words of each run.
pub(crate) fn runs_in<'a>(alloc: Global, parts: &'a [Part]) -> Mem<Vec<&'a [Vec<u8>]>>
    ensures { IfOk result (λ runs. map (λ run. words_of run.now) runs.items ≡ runs_in (parts_of parts.now)) }
{
    let mut runs = Vec::new(alloc);
    for part in parts {
        push_run(&mut runs, part)?;
    }
    Ok(runs)
}

/// Whether words read a file of macros, which no line marker names.
fn reads_macros(words: &[Vec<u8>]) -> bool
    ensures { result ≡ reads_macros (words_of words.now) }
{
    for word in words {
        if word.starts_with(b"-imacros") {
            return true;
        }
    }
    false
}

/// Whether the macros among words are these, in this order.
fn has_macros(macros: &[Vec<u8>], words: &[Vec<u8>]) -> bool
    ensures { result ≡ pointwise bytes_eq (filter is_macro (words_of words.now)) (words_of macros.now) }
{
    let mut left = macros;
    for word in words {
        if is_macro(word) {
            let [first, rest @ ..] = left else {
                return false;
            };
            if word.as_slice() != first.as_slice() {
                return false;
            }
            left = rest;
        }
    }
    left.is_empty()
}

/// Whether words define these macros, in this order and no more.
fn defines(macros: &[Vec<u8>], words: &[Vec<u8>]) -> bool
    ensures { result ≡ defines (words_of macros.now) (words_of words.now) }
{
    has_macros(macros, words) && !reads_macros(words)
}

/// Whether each run defines these macros and no more.
fn all_define(macros: &[Vec<u8>], runs: &[&[Vec<u8>]]) -> bool
    ensures { result ≡ list_all (defines (words_of macros.now)) (map (λ run. words_of run.now) runs.now) }
{
    for run in runs {
        if !defines(macros, run) {
            return false;
        }
    }
    true
}

/// Whether there are macros and a run, and each run defines these macros and no more.
pub(crate) fn are_defined(macros: &[Vec<u8>], runs: &[&[Vec<u8>]]) -> bool
    ensures { result ≡ are_defined (words_of macros.now) (map (λ run. words_of run.now) runs.now) }
{
    !macros.is_empty() && !runs.is_empty() && all_define(macros, runs)
}

/// The words that define no macros.
fn others(alloc: Global, words: Vec<Vec<u8>>) -> Mem<Vec<Vec<u8>>>
    ensures { IfOk result (λ left. words_of left.items ≡ others (words_of words.items)) }
{
    let mut left = Vec::with_capacity(alloc, words.len())?;
    for word in words {
        if !is_macro(&word) {
            left.push(word)?;
        }
    }
    Ok(left)
}

/// Appends a part without macros, unless it tells one.
fn push_left(alloc: Global, left: &mut Vec<Part>, part: Part) -> Mem<()>
    ensures { OnOk result (parts_of left.new.items ≡ parts_of left.old.items ++ left_of (part_of part)) }
{
    match part {
        Part::Is(row) => {
            if macro_told(&row).is_none() {
                left.push(Part::Is(row))?;
            }
        }
        Part::Plan(words) => left.push(Part::Plan(others(alloc, words)?))?,
        other => left.push(other)?,
    }
    Ok(())
}

/// The parts without macros.
pub(crate) fn without_macros(alloc: Global, parts: Vec<Part>) -> Mem<Vec<Part>>
    ensures { IfOk result (λ left. parts_of left.items ≡ without_macros (parts_of parts.items)) }
{
    let mut left = Vec::with_capacity(alloc, parts.len())?;
    for part in parts {
        push_left(alloc, &mut left, part)?;
    }
    Ok(left)
}
