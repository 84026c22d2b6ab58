//! Only whether the outcome of a command line may be kept under a key.
use crate::keep::kept_texts;
use crate::pages::Pages;
use scl_cl::{CompilerArguments, Mem};
use scl_describe::{Catalogue, Kept};
use scl_explain::{Answered, Case, Ending, Form, Reply, answer_case, check_reply, unread};
use scl_load::Disk;
use std::alloc::Global;
use std::fmt::Display;

/// A line for each row `keep`.
fn kept_lines(alloc: Global, kept: &Kept) -> Mem<Vec<u8>> {
    let mut text = String::new(alloc);
    for said in &kept_texts(alloc, kept)? {
        write!(text, "keep {said}\n")?;
    }
    Ok(text.into_bytes())
}

/// What is said of keeping what a command makes; where no command can be run, what `check` says.
fn kept_reply(alloc: Global, case: &Case, answered: &Answered<'_>, form: Form) -> Mem<Reply> {
    let mut reply = check_reply(alloc, case, answered, form, &Pages)?;
    let (answer, kept) = (&answered.description.answer, &answered.description.kept);
    if let CompilerArguments::Ok(compilation) = answer
        && reply.ending != Ending::HoldsNul
    {
        if let Form::Text(_) = form {
            reply.output = kept_lines(alloc, kept)?;
        }
        reply.ending = Ending::of_keeping(compilation.cacheable, kept);
    }
    Ok(reply)
}

/// Whether the outcome of a command line may be kept under a key: a line for each row `keep`, or for machines the object that
/// `check` writes. It ends as answered where it may, as command lines without equal keys do where not, and as `check` does where
/// no command can be run.
pub fn check_kept<D: Disk>(
    alloc: Global,
    disk: &D,
    catalogue: &Catalogue,
    case: &Case,
    form: Form,
) -> Mem<Reply>
where
    D::Error: Display,
{
    match answer_case(alloc, disk, catalogue, case)? {
        Ok(answered) => kept_reply(alloc, case, &answered, form),
        Err(error) => unread(alloc, &error),
    }
}
