//! Only the hazards of a command line.
ghost use Rattle.std.specs.Prelude.{◌⊎◌, IfOk};
ghost use Rattle.scl_catalogue.specs.Views.{catalogue_of};
ghost use Rattle.scl_reader.specs.AnswersGiven.{answer_of};
ghost use Rattle.scl_explain.specs.Replies.{IsChecked};
ghost use Rattle.scl_explain.specs.Said.{IsCheckedReply, IsSaid, IsUnread};

use crate::answered::{Answered, answer_case};
use crate::case::Case;
use crate::hazards::hazards_text;
use crate::refusal::ending_line;
use crate::reply::{Form, Reply, unread};
use crate::report::{Means, Report};
use crate::status::{Ending, are_named};
use scl_load::Disk;
use scl_reader::Mem;
use std::alloc::Global;
use std::fmt::Display;

/// What is written.
fn check_bytes<R: Report>(
    alloc: Global,
    case: &Case,
    answered: &Answered<'_>,
    form: Form,
    report: &R,
) -> Mem<Vec<u8>>
    ensures { IfOk result (λ text. IsChecked form answered.now.description.told.hazards.items text.items) }
{
    match form {
        Form::Text(_) => hazards_text(alloc, &answered.description.told.hazards),
        Form::Json => Ok(report.hazards(alloc, case, answered)?.into_bytes()),
    }
}

/// The line of standard error, for a person.
fn error_line<R: Report>(
    alloc: Global,
    case: &Case,
    answered: &Answered<'_>,
    form: Form,
    report: &R,
) -> Mem<Option<String>> {
    match form {
        Form::Text(_) => ending_line(alloc, case, answered, report),
        Form::Json => Ok(None),
    }
}

/// The hazards of a command line that is answered, as `check` writes them.
pub fn check_reply<R: Report>(
    alloc: Global,
    case: &Case,
    answered: &Answered<'_>,
    form: Form,
    report: &R,
) -> Mem<Reply>
    ensures { IfOk result (λ reply. IsCheckedReply form case.now reply (answer_of answered.now.description.answer) answered.now.description.told.hazards.items) }
{
    let described = &answered.description;
    Ok(Reply {
        output: check_bytes(alloc, case, answered, form, report)?,
        error: error_line(alloc, case, answered, form, report)?,
        ending: Ending::of_answer(
            &case.program,
            &described.answer,
            are_named(&described.told.hazards),
        ),
    })
}

/// The hazards of a command line, a line each, or for machines as the report writes them. It ends as the answer does where there
/// is no command, and by a word that holds a NUL where the command has one. A hazard, an outcome that may not be kept, and a file
/// that can't be read are ends of their own.
#[tactic(auto, using(crate::proofs::ReplyLaws::is_unread))]
pub fn check<D: Disk, R: Report>(
    alloc: Global,
    by: &Means<'_, D, R>,
    case: &Case,
    form: Form,
) -> Mem<Reply>
where
    D::Error: Display,
    ensures { IfOk result (λ reply. IsUnread (D.holds by.now.disk) (D.fails by.now.disk) case.now reply ⊎ IsSaid (catalogue_of by.now.catalogue.now) (D.holds by.now.disk) case.now (IsCheckedReply form case.now reply)) }
{
    match answer_case(alloc, &by.disk, by.catalogue, case)? {
        Ok(answered) => check_reply(alloc, case, &answered, form, &by.report),
        Err(error) => unread(alloc, &error),
    }
}
