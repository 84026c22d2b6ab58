//! The options of an inner command line.
ghost use Rattle.scl_values.specs.Words.{words_of};
ghost use Rattle.scl_text.specs.Stops.{Gives};
ghost use Rattle.scl_gnu_reading.specs.Inners.{inner_reading};

use crate::clang;
use crate::gcc::data::ArgData;
use scl_args::Options;
use scl_text::view::View;
use scl_text::{ExpansionKind, Judge, Stop, judge_words};
use std::alloc::Global;

/// The options of an inner command line, cut by Clang's tables; `--` does not end options. Or the first refusal, for an empty
/// value or by the judge, or that of a last flag without a value (docs/RULES.md, Inner command lines). The directory and the
/// view are for response files. The only other error is a refused allocation.
pub fn read_inner<J: Judge<ArgData>>(
    alloc: Global,
    words: Vec<Vec<u8>>,
    cwd: &[u8],
    judge: &J,
    view: &View,
) -> Result<Options<ArgData>, Stop>
    ensures { Gives (λ options. options) result (inner_reading (J.verdict judge.now) cwd.now view.now (words_of words.items)) }
{
    if words.as_slice().is_empty() {
        return Ok(Options::new(Vec::new(alloc)));
    }
    judge_words(
        alloc,
        ExpansionKind::Gnu,
        words,
        cwd,
        clang::trees(alloc)?,
        false,
        judge,
        view,
    )
}
