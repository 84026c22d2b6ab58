//! What a compiler says by `-###` that it would run.
ghost use Rattle.std.specs.Prelude.{◌≡◌, ◌==◌, ◌++◌, ◌∷◌, [], ◌≤◌, length, IfOk, OnOk};
ghost use Rattle.std.specs.List.{flat_map, list_any, prefix_len};
ghost use Rattle.std.specs.Option.{option_copied, option_map};
ghost use Rattle.scl_values.specs.Words.{words_of};
ghost use Rattle.scl_key.specs.Views.{part_of};
ghost use Rattle.scl_lookup.specs.Keys.{said, summed as summed_field};
ghost use Rattle.scl_lookup.specs.Questions.{program};
ghost use Rattle.scl_questions.specs.Views.{question_of, row_of, written_of};
ghost use Rattle.scl_readings.specs.Lines.{parts};
ghost use Rattle.scl_rounds.specs.Plans.{after_equals, after_name, asked_plan, beside_by, beside_in, called_by, called_in, cleaned, files_in_plan, if_beside, is_beside, is_in_name, is_input, is_input_at, is_name, plan_told, planned_on, program_row, programs_told, there_row, there_told, words_in};
ghost use Rattle.scl_rounds.specs.Views.{key_in, key_of, machine_of};

use crate::answer::{Told, stands};
use crate::key::{Key, is_made};
use crate::run::unfailed;
use crate::shown::{each_once, input_of};
use scl_driver_texts::{Splitter, split};
use scl_files::path::{join, same_path};
use scl_key::Part;
use scl_questions::{Field, Language, Question, Standing, Written, program};
use scl_readings::{cut_at, first_place, lines_after};
use scl_text::command::{push_word, push_words};
use scl_values::Mem;
use std::alloc::Global;

/// What asks for a plan. It is read, so its messages are in one language.
pub(crate) fn plan_question(alloc: Global, words: &[Vec<u8>]) -> Mem<Question>
    ensures { IfOk result (λ question. question_of question ≡ asked_plan (words_of words.now)) }
{
    let mut all = Vec::new(alloc);
    push_word(alloc, &mut all, b"-###")?;
    push_words(alloc, &mut all, words)?;
    Ok(Question::Run(Language::C, all))
}

/// What the compiler wrote, if it did not fail.
pub(crate) fn planned<'a>(told: &Told<'a>, words: &[Vec<u8>]) -> Mem<Option<&'a Written>>
    ensures { IfOk result (λ plan. option_map (λ it. written_of it.now) plan ≡ planned_on (machine_of told.now) (words_of words.now)) }
{
    let question = plan_question(told.alloc, words)?;
    Ok(unfailed(told, &question))
}

/// Whether a byte may stand in a name.
fn is_in_name(byte: u8) -> bool
    ensures { result ≡ is_in_name byte }
{
    !matches!(byte, b'\n' | b'"' | b' ' | b'\t' | 0xB | 0xC | b'\r')
}

fn name_length(text: &[u8]) -> usize
    ensures count { result ≡ prefix_len is_in_name text.now }
    ensures within { result ≤ length text.now }
{
    let mut count = 0;
    while count < text.len() && is_in_name(text[count]) {
        count += 1;
    }
    count
}

/// What follows a name of which the first bytes stand there.
fn after_name(text: &[u8]) -> &[u8]
    ensures { result.now ≡ after_name text.now }
{
    &text[name_length(text)..]
}

/// Appends what stands between the bytes NUL, each part without the name that it begins with.
fn push_after_names(cleaned: &mut Vec<u8>, text: &[u8]) -> Mem<()>
    ensures { OnOk result (cleaned.new.items ≡ cleaned.old.items ++ flat_map after_name (parts 0 text.now)) }
{
    let mut rest = text;
    while let Some((part, behind)) = cut_at(0, rest) {
        cleaned.extend_from_slice(after_name(part))?;
        rest = behind;
    }
    cleaned.extend_from_slice(after_name(rest))
}

/// A plan without the names of temporary files: NUL stands in place of their folder.
fn cleaned(alloc: Global, text: &[u8]) -> Mem<Vec<u8>>
    ensures { IfOk result (λ it. it.items ≡ cleaned text.now) }
{
    match cut_at(0, text) {
        Some((first, behind)) => {
            let mut cleaned = Vec::from_slice(alloc, first)?;
            push_after_names(&mut cleaned, behind)?;
            Ok(cleaned)
        }
        None => Vec::from_slice(alloc, text),
    }
}

/// The words of a command.
fn words_in(alloc: Global, command: &[u8]) -> Mem<Vec<Vec<u8>>>
    ensures { IfOk result (λ words. words_of words.items ≡ words_in command.now) }
{
    match split(alloc, Splitter::Libiberty, command)? {
        Some(words) => Ok(words),
        None => Ok(Vec::new(alloc)),
    }
}

/// Appends the program that a command calls.
fn push_called(alloc: Global, names: &mut Vec<Vec<u8>>, command: &[u8]) -> Mem<()>
    ensures { OnOk result (words_of names.new.items ≡ words_of names.old.items ++ called_by command.now) }
{
    let words = words_in(alloc, command)?;
    match words.as_slice() {
        [word, ..] => push_word(alloc, names, word),
        [] => Ok(()),
    }
}

/// The programs that a plan calls.
pub(crate) fn called_in(alloc: Global, text: &[u8]) -> Mem<Vec<Vec<u8>>>
    ensures { IfOk result (λ names. words_of names.items ≡ called_in text.now) }
{
    let commands = lines_after(alloc, b' ', text)?;
    let mut names = Vec::new(alloc);
    for command in &commands {
        push_called(alloc, &mut names, command)?;
    }
    each_once(alloc, names)
}

/// Whether a part is the input at this path.
fn is_input_at(alloc: Global, place: &[u8], path: &[u8], part: &Part) -> Mem<bool>
    ensures { IfOk result (λ it. it ≡ is_input_at place.now path.now (part_of part.now)) }
{
    match input_of(part) {
        Some(input) => {
            let input = join(alloc, place, input)?;
            Ok(same_path(&input, &join(alloc, place, path)?))
        }
        None => Ok(false),
    }
}

/// Whether the input stands at this path.
fn is_input(alloc: Global, key: &Key<'_>, path: &[u8]) -> Mem<bool>
    ensures { IfOk result (λ it. it ≡ is_input (key_of key.now) path.now) }
{
    for part in key.parts {
        if is_input_at(alloc, key.place, path, part)? {
            return Ok(true);
        }
    }
    Ok(false)
}

fn has_nul(name: &[u8]) -> bool
    ensures { result ≡ list_any (λ byte. byte == 0) name.now }
{
    for byte in name {
        if *byte == 0 {
            return true;
        }
    }
    false
}

/// Whether it is no option and no temporary file.
fn is_name(name: &[u8]) -> bool
    ensures { result ≡ is_name name.now }
{
    !name.is_empty() && !name.starts_with(b"-") && !has_nul(name)
}

/// Whether a command reads it beside the input, or writes it beside its outputs.
fn is_beside(alloc: Global, key: &Key<'_>, name: &[u8]) -> Mem<bool>
    ensures { IfOk result (λ it. it ≡ is_beside (key_of key.now) name.now) }
{
    Ok(is_name(name) && !is_made(alloc, key, name)? && !is_input(alloc, key, name)?)
}

fn push_if_beside(alloc: Global, names: &mut Vec<Vec<u8>>, key: &Key<'_>, name: &[u8]) -> Mem<()>
    ensures { OnOk result (words_of names.new.items ≡ words_of names.old.items ++ if_beside (key_of key.now) name.now) }
{
    if is_beside(alloc, key, name)? {
        push_word(alloc, names, name)?;
    }
    Ok(())
}

/// What follows the first `=` in a word.
fn after_equals(word: &[u8]) -> Option<&[u8]>
    ensures { option_copied result ≡ after_equals word.now }
{
    match first_place(b"=", word) {
        Some(at) => Some(&word[at + 1..]),
        None => None,
    }
}

/// Appends the files that a word of a command names.
fn push_beside(alloc: Global, names: &mut Vec<Vec<u8>>, key: &Key<'_>, word: &[u8]) -> Mem<()>
    ensures { OnOk result (words_of names.new.items ≡ words_of names.old.items ++ beside_in (key_of key.now) word.now) }
{
    push_if_beside(alloc, names, key, word)?;
    match after_equals(word) {
        Some(name) => push_if_beside(alloc, names, key, name),
        None => Ok(()),
    }
}

/// Appends the files that a command names.
fn push_all_beside(
    alloc: Global,
    names: &mut Vec<Vec<u8>>,
    key: &Key<'_>,
    command: &[u8],
) -> Mem<()>
    ensures { OnOk result (words_of names.new.items ≡ words_of names.old.items ++ beside_by (key_of key.now) command.now) }
{
    let words = words_in(alloc, command)?;
    for word in &words {
        push_beside(alloc, names, key, word)?;
    }
    Ok(())
}

/// The files that a plan names.
pub(crate) fn files_in_plan(alloc: Global, key: &Key<'_>, text: &[u8]) -> Mem<Vec<Vec<u8>>>
    ensures { IfOk result (λ names. words_of names.items ≡ files_in_plan (key_of key.now) text.now) }
{
    let commands = lines_after(alloc, b' ', text)?;
    let mut names = Vec::new(alloc);
    for command in &commands {
        push_all_beside(alloc, &mut names, key, command)?;
    }
    each_once(alloc, names)
}

/// A name, and a sum.
fn summed(alloc: Global, name: &[u8], sum: &[u8]) -> Mem<Vec<Field>>
    ensures { IfOk result (λ row. row_of row.items ≡ said name.now ∷ summed_field sum.now ∷ []) }
{
    let mut row = Vec::new(alloc);
    row.push(Field::Said(Vec::from_slice(alloc, name)?))?;
    row.push(Field::Summed(Vec::from_slice(alloc, sum)?))?;
    Ok(row)
}

/// A name and the bytes of its file; nothing of a folder, or where there is nothing; none: there is what is no file.
fn there_row(told: &Told<'_>, name: &[u8]) -> Mem<Option<Vec<Field>>>
    ensures { IfOk result (λ row. option_map (λ row. row_of row.items) row ≡ there_row (machine_of told.now) name.now) }
{
    match stands(told, name)? {
        Some(Standing::Regular(sum)) => Ok(Some(summed(told.alloc, name, sum)?)),
        Some(Standing::Folder | Standing::Missing) | None => Ok(Some(Vec::new(told.alloc))),
        Some(Standing::Special) => Ok(None),
    }
}

/// The files of these names that are there; none: there is what is no file.
fn there_told(told: &Told<'_>, names: &[Vec<u8>]) -> Mem<Option<Vec<Field>>>
    ensures { IfOk result (λ answer. option_map (λ answer. row_of answer.items) answer ≡ there_told (machine_of told.now) (words_of names.now)) }
{
    let mut answer = Vec::new(told.alloc);
    for name in names {
        match there_row(told, name)? {
            Some(mut row) => answer.append(&mut row)?,
            None => return Ok(None),
        }
    }
    Ok(Some(answer))
}

/// A name, and the sum of its program, if there is one.
fn program_row(told: &Told<'_>, name: &[u8]) -> Mem<Vec<Field>>
    ensures { IfOk result (λ row. row_of row.items ≡ program_row name.now (machine_of told.now (program name.now))) }
{
    match program(told.alloc, name, told.asked, told.answers)? {
        Some(it) => summed(told.alloc, name, &it.sum),
        None => Ok(Vec::new(told.alloc)),
    }
}

fn push_programs_told(answer: &mut Vec<Field>, told: &Told<'_>, names: &[Vec<u8>]) -> Mem<()>
    ensures { OnOk result (row_of answer.new.items ≡ row_of answer.old.items ++ programs_told (machine_of told.now) (words_of names.now)) }
{
    for name in names {
        answer.append(&mut program_row(told, name)?)?;
    }
    Ok(())
}

/// What is hashed of a plan; none: it names what is no file.
pub(crate) fn plan_told(told: &Told<'_>, text: &[u8]) -> Mem<Option<Vec<Field>>>
    ensures { IfOk result (λ answer. option_map (λ answer. row_of answer.items) answer ≡ plan_told (key_in told.now) (machine_of told.now) text.now) }
{
    let files = files_in_plan(told.alloc, told.key, text)?;
    let Some(mut there) = there_told(told, &files)? else {
        return Ok(None);
    };
    let mut answer = Vec::new(told.alloc);
    answer.push(Field::Said(cleaned(told.alloc, text)?))?;
    answer.append(&mut there)?;
    push_programs_told(&mut answer, told, &called_in(told.alloc, text)?)?;
    Ok(Some(answer))
}
