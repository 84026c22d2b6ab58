//! What the runs of a key write.
ghost use Rattle.std.specs.Prelude.{◌≡◌, IfOk};
ghost use Rattle.std.specs.Option.{option_map};
ghost use Rattle.scl_values.specs.Words.{words_of};
ghost use Rattle.scl_key.specs.Views.{part_of};
ghost use Rattle.scl_lookup.specs.Keys.{ran_on, unfailed};
ghost use Rattle.scl_questions.specs.Answers.{reply_to, written_in};
ghost use Rattle.scl_questions.specs.Views.{question_of, questions_of, replies_of, row_of, written_of};
ghost use Rattle.scl_rounds.specs.Runs.{entered_in, fails, has_failed, has_marker, is_else, is_fleeting, is_sound, loaded_in, marked_in, may_fail, names_sources, no_text, outputs_told, run_told, written_told};
ghost use Rattle.scl_rounds.specs.Views.{key_in, key_of, machine_of};

use crate::answer::Told;
use crate::file::{Flaw, any_flawed, files_told};
use crate::key::Key;
use scl_key::Part;
use scl_questions::{Answer, Field, Language, Question, Written, answer_to};
use scl_readings::{Named, files_in, lines_after, marker_of};
use scl_text::command::copy_words;
use scl_values::Mem;
use std::alloc::Global;

/// What was written, by the answer to a question, if the run did not fail.
pub(crate) fn unfailed<'a>(told: &Told<'a>, question: &Question) -> Option<&'a Written>
    ensures { option_map (λ it. written_of it.now) result ≡ unfailed (written_in (reply_to (question_of question.now) (questions_of told.now.asked.now) (replies_of told.now.answers.now))) }
{
    if let Some(Answer::Written(written)) = answer_to(question, told.asked, told.answers) {
        if written.status == 0 {
            return Some(written);
        }
    }
    None
}

/// What a run wrote, if it did not fail.
pub(crate) fn ran<'a>(told: &Told<'a>, words: &[Vec<u8>]) -> Mem<Option<&'a Written>>
    ensures { IfOk result (λ ran. option_map (λ it. written_of it.now) ran ≡ ran_on (machine_of told.now) (words_of words.now)) }
{
    let question = Question::Run(Language::Own, copy_words(told.alloc, words)?);
    Ok(unfailed(told, &question))
}

/// Whether a run may fail: the key has others in its place.
pub(crate) fn may_fail(key: &Key<'_>) -> bool
    ensures { result ≡ may_fail (key_of key.now) }
{
    for part in key.parts {
        if let Part::RunElse(_) = part {
            return true;
        }
    }
    false
}

fn fails(told: &Told<'_>, part: &Part) -> Mem<bool>
    ensures { IfOk result (λ it. it ≡ fails (machine_of told.now) (part_of part.now)) }
{
    match part {
        Part::Run(words) => Ok(ran(told, words)?.is_none()),
        Part::Is(_)
        | Part::Output(_)
        | Part::Directory
        | Part::Compiler
        | Part::Plan(_)
        | Part::Asked(_, _)
        | Part::RunElse(_)
        | Part::Pch(_)
        | Part::Sources
        | Part::Times => Ok(false),
    }
}

/// Whether a run failed, so that the others are needed.
pub(crate) fn has_failed(told: &Told<'_>) -> Mem<bool>
    ensures { IfOk result (λ it. it ≡ has_failed (key_in told.now) (machine_of told.now)) }
{
    for part in told.key.parts {
        if fails(told, part)? {
            return Ok(true);
        }
    }
    Ok(false)
}

fn has_marker(alloc: Global, text: &[u8]) -> Mem<bool>
    ensures { IfOk result (λ it. it ≡ has_marker text.now) }
{
    let directives = lines_after(alloc, b'#', text)?;
    for directive in &directives {
        if marker_of(directive).is_some() {
            return Ok(true);
        }
    }
    Ok(false)
}

/// Whether a text names its sources: it is empty, or has a line marker.
pub(crate) fn names_sources(alloc: Global, text: &[u8]) -> Mem<bool>
    ensures { IfOk result (λ it. it ≡ names_sources text.now) }
{
    Ok(text.is_empty() || has_marker(alloc, text)?)
}

/// The precompiled headers that the compiler loads in place of texts.
pub(crate) fn loaded_in(alloc: Global, text: &[u8]) -> Mem<Vec<Vec<u8>>>
    ensures { IfOk result (λ names. words_of names.items ≡ loaded_in text.now) }
{
    files_in(alloc, Named::Loaded, &lines_after(alloc, b'#', text)?)
}

/// The files that line markers name.
pub(crate) fn marked_in(alloc: Global, text: &[u8]) -> Mem<Vec<Vec<u8>>>
    ensures { IfOk result (λ names. words_of names.items ≡ marked_in text.now) }
{
    files_in(alloc, Named::Anywhere, &lines_after(alloc, b'#', text)?)
}

/// The files that a text enters.
pub(crate) fn entered_in(alloc: Global, text: &[u8]) -> Mem<Vec<Vec<u8>>>
    ensures { IfOk result (λ names. words_of names.items ≡ entered_in text.now) }
{
    files_in(alloc, Named::Entered, &lines_after(alloc, b'#', text)?)
}

/// Whether the compilation may read other bytes than the run: of a pipe or a device, or of another header than one that is gone.
fn is_fleeting(told: &Told<'_>, text: &[u8]) -> Mem<bool>
    ensures { IfOk result (λ it. it ≡ is_fleeting (machine_of told.now) text.now) }
{
    Ok(
        any_flawed(told, Flaw::Special, &marked_in(told.alloc, text)?)?
            || any_flawed(told, Flaw::Gone, &entered_in(told.alloc, text)?)?,
    )
}

/// Whether the sources of a text are known, and can be read again.
fn is_sound(told: &Told<'_>, text: &[u8]) -> Mem<bool>
    ensures { IfOk result (λ it. it ≡ is_sound (machine_of told.now) text.now) }
{
    Ok(names_sources(told.alloc, text)? && !is_fleeting(told, text)?)
}

/// Both outputs of a run and the bytes of its own file.
fn outputs_told(alloc: Global, written: &Written) -> Mem<Vec<Field>>
    ensures { IfOk result (λ answer. row_of answer.items ≡ outputs_told (written_of written.now)) }
{
    let mut answer = Vec::new(alloc);
    answer.push(Field::Said(Vec::from_slice(alloc, &written.output)?))?;
    answer.push(Field::Said(Vec::from_slice(alloc, &written.messages)?))?;
    answer.push(Field::Said(Vec::from_slice(alloc, &written.own)?))?;
    Ok(answer)
}

/// The outputs of a run, and the headers that its text loads; nothing may be kept if the text is not sound, or a header is no
/// file.
fn written_told(told: &Told<'_>, written: &Written) -> Mem<Option<Vec<Field>>>
    ensures { IfOk result (λ answer. option_map (λ answer. row_of answer.items) answer ≡ written_told (machine_of told.now) (written_of written.now)) }
{
    if !is_sound(told, &written.output)? {
        return Ok(None);
    }
    let loaded = loaded_in(told.alloc, &written.output)?;
    let Some(mut headers) = files_told(told, &loaded)? else {
        return Ok(None);
    };
    let mut answer = outputs_told(told.alloc, written)?;
    answer.append(&mut headers)?;
    Ok(Some(answer))
}

/// That there is no text.
pub(crate) fn no_text(alloc: Global) -> Mem<Vec<Field>>
    ensures { IfOk result (λ answer. row_of answer.items ≡ no_text) }
{
    let mut answer = Vec::new(alloc);
    answer.push(Field::Said(Vec::from_slice(alloc, b"-")?))?;
    Ok(answer)
}

/// What a run wrote, or that it failed, if it may fail.
pub(crate) fn run_told(
    told: &Told<'_>,
    ran: Option<&Written>,
    may_fail: bool,
) -> Mem<Option<Vec<Field>>>
    ensures { IfOk result (λ answer. option_map (λ answer. row_of answer.items) answer ≡ run_told (machine_of told.now) may_fail (option_map (λ it. written_of it.now) ran.entry)) }
{
    match ran {
        Some(written) => written_told(told, written),
        None if may_fail => Ok(Some(no_text(told.alloc)?)),
        None => Ok(None),
    }
}
