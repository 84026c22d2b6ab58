//! What is answered to a request for a lookup.
ghost use Rattle.std.specs.Prelude.{◌≡◌, ◌++◌, IfOk, OnOk, MatchResult, Ok, Err};
ghost use Rattle.scl_catalogue.specs.Views.{catalogue_of};
ghost use Rattle.scl_cl.specs.Drafts.{asked_by};
ghost use Rattle.scl_describe.specs.DescriptionsGiven.{kept_told, text_given};
ghost use Rattle.scl_description.specs.Lines.{lines_of};
ghost use Rattle.scl_description.specs.Rows.{entries_text};
ghost use Rattle.scl_questions.specs.Views.{replies_of};
ghost use Rattle.scl_talks.specs.Next.{begun_entries, first_entries, kept_entries, looked};
ghost use Rattle.scl_talks.specs.Talks.{looked_up, talk_of, text_for};

use crate::name::first_name;
use crate::next::tell_kept;
use crate::talk::Talk;
use scl_cl::{Request, read_lines};
use scl_describe::{Catalogue, Description, Kept, too_many_words};
use scl_description::tell_word;
use scl_questions::Answer;
use scl_text::TooManyWords;
use scl_values::Mem;
use std::alloc::Global;

/// Appends where lists of answers may stand.
fn push_first(alloc: Global, text: &mut Vec<u8>, place: &[u8], kept: &Kept) -> Mem<()>
    ensures { OnOk result (text.new.items ≡ text.old.items ++ entries_text (first_entries place.now text.old.items (kept_told kept.now))) }
{
    match kept {
        Kept::Under(_) => {
            let name = first_name(alloc, place, text)?;
            tell_word(text, "first", &name)
        }
        Kept::Nothing | Kept::Unknown(_) | Kept::Not(_) => Ok(()),
    }
}

/// Appends where lists of answers may stand, if there is no answer yet.
fn push_begun(
    alloc: Global,
    text: &mut Vec<u8>,
    place: &[u8],
    answers: &[Answer],
    kept: &Kept,
) -> Mem<()>
    ensures { OnOk result (text.new.items ≡ text.old.items ++ entries_text (begun_entries place.now text.old.items (replies_of answers.now) (kept_told kept.now))) }
{
    match answers {
        [] => push_first(alloc, text, place, kept),
        [_, ..] => Ok(()),
    }
}

/// Appends what to look up next after these answers.
fn push_next(
    alloc: Global,
    text: &mut Vec<u8>,
    place: &[u8],
    answers: &[Answer],
    kept: &Kept,
) -> Mem<()>
    ensures { OnOk result (text.new.items ≡ text.old.items ++ entries_text (kept_entries place.now (replies_of answers.now) (kept_told kept.now))) }
{
    tell_kept(alloc, text, place, answers, kept)
}

/// The text of a description, where lists of answers may stand, and what to look up next after these answers.
fn text_of(
    alloc: Global,
    place: &[u8],
    answers: &[Answer],
    described: Description<'_>,
) -> Mem<Vec<u8>>
    ensures { IfOk result (λ text. text.items ≡ looked place.now (replies_of answers.now) (text_given described.entry) (kept_told described.entry.kept)) }
{
    let mut text = described.text(alloc)?;
    push_begun(alloc, &mut text, place, answers, &described.kept)?;
    push_next(alloc, &mut text, place, answers, &described.kept)?;
    Ok(text)
}

/// The description of the answer to a request, and what to look up next.
fn text_for(alloc: Global, catalogue: &Catalogue, talk: &Talk, request: &Request) -> Mem<Vec<u8>>
    ensures { IfOk result (λ text. text.items ≡ text_for (catalogue_of catalogue.now) (talk_of talk.now).settings (talk_of talk.now).replies (asked_by request.now)) }
{
    let (compiler, line) = (request.compiler, request.line());
    match compiler.read(alloc, &line, talk.settings.limits)? {
        Ok(reading) => {
            let settings = &talk.settings;
            let described = Description::of_reading(alloc, catalogue, settings, reading, &line)?;
            text_of(alloc, &request.directory, &talk.answers, described)
        }
        Err(TooManyWords) => too_many_words(alloc),
    }
}

/// What is answered to the lines after the first, `lookup`, by what a catalogue knows of compilers: a description's rows, and what
/// to look up next (docs/PROTOCOL.md, A lookup). An error is the number of the bad line.
pub fn looked_up(alloc: Global, catalogue: &Catalogue, bytes: &[u8]) -> Mem<Result<Vec<u8>, u64>>
    ensures { IfOk result (λ said. MatchResult said (λ text. looked_up (catalogue_of catalogue.now) (lines_of bytes.now) ≡ Ok text.items) (λ number. looked_up (catalogue_of catalogue.now) (lines_of bytes.now) ≡ Err number)) }
{
    let mut talk = Talk::new(alloc);
    match read_lines(alloc, None, 2, bytes, &mut talk)? {
        Ok(request) => {
            talk.want_key();
            Ok(Ok(text_for(alloc, catalogue, &talk, &request)?))
        }
        Err(number) => Ok(Err(number)),
    }
}
