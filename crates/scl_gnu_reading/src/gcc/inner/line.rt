//! An inner command line, read.
ghost use Rattle.std.specs.Prelude.{◌≡◌, false, IfOk};
ghost use Rattle.scl_files.specs.Expanded.{expanded_of};
ghost use Rattle.scl_values.specs.Tables.{owner_in};
ghost use Rattle.scl_values.specs.Words.{words_of};
ghost use Rattle.scl_text.specs.ReadLines.{line_read};
ghost use Rattle.scl_gnu_reading.specs.ClangRows.{clang_tables};
ghost use Rattle.scl_gnu_reading.specs.Reads.{IsInnerRead};

use crate::clang;
use crate::gcc::data::ArgData;
use scl_args::Mem;
use scl_text::view::View;
use scl_text::{
    Expanded, ExpansionKind, Judge, Limits, ReadLine, Sourced, TooManyWords, expand_line,
};
use std::alloc::Global;

/// The line of expanded words.
fn cut_inner<J: Judge<ArgData>>(
    alloc: Global,
    judge: &J,
    expanded: Expanded,
) -> Mem<ReadLine<ArgData>>
    ensures { IfOk result (λ line. line ≡ line_read (J.verdict judge.now) (owner_in clang_tables) false (expanded_of expanded)) }
{
    let trees = clang::trees(alloc)?;
    ReadLine::read(alloc, &trees, false, judge, expanded)
}

/// The inner command line of these words, with response files expanded, cut by Clang's tables and judged; `--` does not end
/// options (docs/RULES.md, Inner command lines). If its words or openings of files exceed the limits, the result is
/// `TooManyWords`.
pub fn read_inner_line<J: Judge<ArgData>>(
    alloc: Global,
    judge: &J,
    handed: Sourced,
    cwd: &[u8],
    view: &View,
    most: Limits,
) -> Mem<Result<ReadLine<ArgData>, TooManyWords>>
    ensures { IfOk result (λ said. IsInnerRead (J.verdict judge.now) most cwd.now view.now (words_of handed.words.items) handed.ats.items said) }
{
    match expand_line(alloc, ExpansionKind::Gnu, cwd, handed, view, most)? {
        Ok(expanded) => {
            let line = cut_inner(alloc, judge, expanded)?;
            Ok(Ok(line))
        }
        Err(too_many) => Ok(Err(too_many)),
    }
}
