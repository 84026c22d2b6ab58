//! The answers to one command line, written.
ghost use Rattle.std.specs.Prelude.{[], string_bytes, IfOk};
ghost use Rattle.scl_report.specs.Objects.{IsLine, IsObject, IsWritten};

use crate::json::answer_line;
use crate::nothing::nothing_text;
use crate::page::explanation;
use scl_cl::Mem;
use scl_explain::{Answered, Case, Form, Report};
use std::alloc::Global;

/// Writes pages for people, and JSON for machines.
#[derive(Clone, Copy)]
pub struct Pages;

impl Report for Pages {
    fn explanation(
        &self,
        alloc: Global,
        case: &Case,
        answered: &Answered<'_>,
        form: Form,
    ) -> Mem<String>
        ensures { IfOk result (λ text. IsWritten form case.now answered.now (string_bytes text)) }
    {
        match form {
            Form::Text(paint) => explanation(alloc, case, answered, paint),
            Form::Json => answer_line(alloc, case, answered),
        }
    }

    fn nothing(&self, alloc: Global, case: &Case, answered: &Answered<'_>) -> Mem<String> {
        nothing_text(alloc, &answered.description.options)
    }

    fn hazards(&self, alloc: Global, case: &Case, answered: &Answered<'_>) -> Mem<String>
        ensures { IfOk result (λ line. IsLine (IsObject [] case.now answered.now) (string_bytes line)) }
    {
        answer_line(alloc, case, answered)
    }
}
