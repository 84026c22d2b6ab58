//! The options of words, judged: those of a command line, and those of an inner one.
ghost use Rattle.std.specs.Prelude.{◌≡◌, IfOk, IsTrue, map};
ghost use Rattle.scl_values.specs.Cuts.{is_dangling};
ghost use Rattle.scl_values.specs.Seen.{seen, shown};
ghost use Rattle.scl_values.specs.Tables.{owner_in, tables_hold_values};
ghost use Rattle.scl_values.specs.Words.{words_of};
ghost use Rattle.scl_text.specs.JudgedWords.{cut_line, judged_cut, judged_words};
ghost use Rattle.scl_text.specs.Stops.{Gives};

use crate::judge::{Judge, judge_all};
use crate::stop::Stop;
use scl_args::{CutWords, ExactArg, Mem, Options, ReadArg, SearchableArgInfo, cut_options};
use scl_files::expand::{ExpansionKind, expand_words};
use scl_files::view::View;
use std::alloc::Global;

/// What the words are cut into, with response files of this kind expanded, from the directory. Nothing is judged
/// (docs/RULES.md, Expansion, and Cutting).
pub fn cut_line<T: ExactArg, S: SearchableArgInfo<T> + Drop>(
    alloc: Global,
    kind: ExpansionKind,
    words: Vec<Vec<u8>>,
    cwd: &[u8],
    arg_info: S,
    double_dashes: bool,
    view: &View,
) -> Mem<CutWords<T>>
    requires { IsTrue (tables_hold_values T.holds_value (S.tables arg_info)) }
    ensures options { IfOk result (λ line. map (seen T.kind_of T.word_of) line.options.items
        ≡ map shown (cut_line kind (S.tables arg_info) double_dashes cwd.now view.now (words_of words.items)).options) }
    ensures end { IfOk result (λ line. line.is_dangling
        ≡ is_dangling (cut_line kind (S.tables arg_info) double_dashes cwd.now view.now (words_of words.items)).end) }
{
    let words = expand_words(alloc, kind, cwd, words, view)?;
    cut_options(alloc, words, arg_info, double_dashes)
}

/// The options of words without response files, if none is refused and the last flag has its value. Else the first refusal,
/// for an empty value or by the judge, or that of a dangling end (docs/RULES.md, Readings). The only other error is a refused
/// allocation.
pub fn judge_cut<T: ExactArg + ReadArg, S: SearchableArgInfo<T> + Drop, J: Judge<T>>(
    alloc: Global,
    words: Vec<Vec<u8>>,
    arg_info: S,
    double_dashes: bool,
    judge: &J,
) -> Result<Options<T>, Stop>
    requires { IsTrue (tables_hold_values T.holds_value (S.tables arg_info)) }
    ensures { Gives (λ options. options) result
        (judged_cut (J.verdict judge.now) (owner_in (S.tables arg_info)) double_dashes (words_of words.items)) }
{
    let cut = cut_options(alloc, words, &arg_info, double_dashes)?;
    judge_all(alloc, judge, &arg_info, cut)
}

/// The options of words with response files of this kind expanded, from the directory, if none is refused and the last flag
/// has its value. Else the first refusal, for an empty value or by the judge, or that of a dangling end (docs/RULES.md,
/// Readings, and Expansion). The only other error is a refused allocation.
pub fn judge_words<T: ExactArg + ReadArg, S: SearchableArgInfo<T> + Drop, J: Judge<T>>(
    alloc: Global,
    kind: ExpansionKind,
    words: Vec<Vec<u8>>,
    cwd: &[u8],
    arg_info: S,
    double_dashes: bool,
    judge: &J,
    view: &View,
) -> Result<Options<T>, Stop>
    requires { IsTrue (tables_hold_values T.holds_value (S.tables arg_info)) }
    ensures { Gives (λ options. options) result
        (judged_words kind (J.verdict judge.now) (S.tables arg_info) double_dashes cwd.now view.now (words_of words.items)) }
{
    let line = cut_line(alloc, kind, words, cwd, &arg_info, double_dashes, view)?;
    judge_all(alloc, judge, &arg_info, line)
}
