//! What a command line is.
ghost use Rattle.std.specs.Prelude.{◌≡◌, ◌⊎◌, IfOk};
ghost use Rattle.scl_explain.specs.Said.{IsFailure, IsUnread};
ghost use Rattle.scl_explain.specs.declared.status.Ending.TheVariants as ending;

use crate::answered::answer_case;
use crate::case::Case;
use crate::report::{Means, Report};
use crate::status::Ending;
use scl_load::{Disk, LoadError};
use scl_reader::Mem;
use std::alloc::Global;
use std::fmt::Display;

/// What the program says, and how it ends.
#[derive(Debug, Drop)]
pub struct Reply {
    /// What it writes to standard output.
    pub output: Vec<u8>,
    /// The line that it writes to standard error, if it writes one.
    pub error: Option<String>,
    /// How it ends.
    pub ending: Ending,
}

/// Whether texts are coloured.
#[derive(Clone, Copy)]
pub enum Paint {
    /// For a terminal.
    Colours,
    /// For a file or a pipe.
    Plain,
}

/// How answers are written.
#[derive(Clone, Copy)]
pub enum Form {
    /// For a person.
    Text(Paint),
    /// For machines.
    Json,
}

/// Why a disk gives no answer, in a line.
pub fn load_error_text<E: Display>(alloc: Global, error: &LoadError<E>) -> Mem<String> {
    match error {
        LoadError::Disk(error) => format!(in alloc; "{error}"),
        LoadError::TooManyWords => String::from_str(
            alloc,
            "the response files give too many words",
        ),
        LoadError::TooManyRounds => {
            String::from_str(alloc, "too many response files name each the next")
        }
    }
}

/// What is said where a disk gives no answer.
pub fn unread<E: Display>(alloc: Global, error: &LoadError<E>) -> Mem<Reply>
    ensures { IfOk result IsFailure }
{
    Ok(Reply {
        output: Vec::new(alloc),
        error: Some(load_error_text(alloc, error)?),
        ending: Ending::FileFailed,
    })
}

/// What a command line is, as the report writes it. It ends as answered whatever the answer is, and as a failed file where one
/// can't be read.
#[tactic(auto, using(crate::proofs::ReplyLaws::is_unread))]
pub fn explain<D: Disk, R: Report>(
    alloc: Global,
    by: &Means<'_, D, R>,
    case: &Case,
    form: Form,
) -> Mem<Reply>
where
    D::Error: Display,
    ensures { IfOk result (λ reply. IsUnread (D.holds by.now.disk) (D.fails by.now.disk) case.now reply ⊎ (reply.ending ≡ ending.Answered)) }
{
    match answer_case(alloc, &by.disk, by.catalogue, case)? {
        Ok(answered) => Ok(Reply {
            output: by
                .report
                .explanation(alloc, case, &answered, form)?
                .into_bytes(),
            error: None,
            ending: Ending::Answered,
        }),
        Err(error) => unread(alloc, &error),
    }
}
