//! The command to run in the place of a command line.
ghost use Rattle.std.specs.Prelude.{◌≡◌, ◌⊎◌, IfOk};
ghost use Rattle.scl_catalogue.specs.Views.{catalogue_of};
ghost use Rattle.scl_reader.specs.AnswersGiven.{answer_of};
ghost use Rattle.scl_explain.specs.Replies.{command_written, is_barred, some_concern_files};
ghost use Rattle.scl_explain.specs.Said.{IsCommanded, IsSaid, IsUnread};

use crate::answered::{Answered, answer_case};
use crate::case::Case;
use crate::hazards::hazards_line;
use crate::nuls::some_hold_nul;
use crate::refusal::ending_line;
use crate::reply::{Reply, unread};
use crate::report::{Means, Report};
use crate::status::Ending;
use crate::words::{WordForm, command_text};
use scl_describe::concerns_files;
use scl_hazards::Hazard;
use scl_load::Disk;
use scl_reader::{Compilation, CompilerArguments, Mem};
use std::alloc::Global;
use std::fmt::Display;

/// How a command is written.
#[derive(Clone, Copy)]
pub struct CommandForm {
    /// How its words are written.
    pub words: WordForm,
    /// Whether none is written where a hazard is named that concerns files.
    pub is_strict: bool,
}

/// Whether a hazard concerns files.
fn some_concern_files(hazards: &[Hazard<'_>]) -> bool
    ensures { result ≡ some_concern_files hazards.now }
{
    for hazard in hazards {
        if concerns_files(hazard.danger()) {
            return true;
        }
    }
    false
}

/// Whether no command is written, since a form is strict and a hazard concerns files.
fn is_barred(is_strict: bool, hazards: &[Hazard<'_>]) -> bool
    ensures { result ≡ is_barred is_strict hazards.now }
{
    is_strict && some_concern_files(hazards)
}

/// The command, where there is one and it is not barred.
fn command_bytes(
    alloc: Global,
    program: &[u8],
    answer: &CompilerArguments<Compilation>,
    is_barred: bool,
    form: WordForm,
) -> Mem<Vec<u8>>
    ensures { IfOk result (λ text. text.items ≡ command_written form program.now (answer_of answer.now) is_barred) }
{
    match answer {
        CompilerArguments::Ok(compilation) if !is_barred => {
            let words = &compilation.command.arguments;
            if some_hold_nul(program, words) {
                Ok(Vec::new(alloc))
            } else {
                command_text(alloc, program, words, form)
            }
        }
        CompilerArguments::Ok(_)
        | CompilerArguments::CannotCache(_, _)
        | CompilerArguments::NotCompilation => Ok(Vec::new(alloc)),
    }
}

/// Why no command is written, if none is, or that its result may not be kept.
fn error_line<R: Report>(
    alloc: Global,
    case: &Case,
    answered: &Answered<'_>,
    is_barred: bool,
    report: &R,
) -> Mem<Option<String>> {
    if matches!(
        Ending::of_answer(&case.program, &answered.description.answer, is_barred),
        Ending::Hazard
    ) {
        hazards_line(alloc, &answered.description.told.hazards)
    } else {
        ending_line(alloc, case, answered, report)
    }
}

fn command_reply<R: Report>(
    alloc: Global,
    case: &Case,
    answered: &Answered<'_>,
    form: CommandForm,
    report: &R,
) -> Mem<Reply>
    ensures { IfOk result (λ reply. IsCommanded form case.now reply (answer_of answered.now.description.answer) answered.now.description.told.hazards.items) }
{
    let answer = &answered.description.answer;
    let bars = is_barred(form.is_strict, &answered.description.told.hazards);
    Ok(Reply {
        output: command_bytes(alloc, &case.program, answer, bars, form.words)?,
        error: error_line(alloc, case, answered, bars, report)?,
        ending: Ending::of_answer(&case.program, answer, bars),
    })
}

/// The command to run in the place of a command line, quoted for a shell or each word with a NUL after it. Nothing is written
/// where there is none, where a word of it holds a NUL, and of a strict form where a hazard concerns files. Then it ends as such, and
/// so says the line of standard error, with why the report says that nothing is compiled. That its result may not be kept is
/// said there too.
#[tactic(auto, using(crate::proofs::ReplyLaws::is_unread))]
pub fn command<D: Disk, R: Report>(
    alloc: Global,
    by: &Means<'_, D, R>,
    case: &Case,
    form: CommandForm,
) -> Mem<Reply>
where
    D::Error: Display,
    ensures { IfOk result (λ reply. IsUnread (D.holds by.now.disk) (D.fails by.now.disk) case.now reply ⊎ IsSaid (catalogue_of by.now.catalogue.now) (D.holds by.now.disk) case.now (IsCommanded form case.now reply)) }
{
    match answer_case(alloc, &by.disk, by.catalogue, case)? {
        Ok(answered) => command_reply(alloc, case, &answered, form, &by.report),
        Err(error) => unread(alloc, &error),
    }
}
