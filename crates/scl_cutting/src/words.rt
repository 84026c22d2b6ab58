//! All words of a command line, cut into options at once.
ghost use Rattle.std.specs.Prelude.{◌≡◌, All, IfOk, IsTrue, map, true, false, Some};
ghost use Rattle.scl_values.specs.Tables.{owner_in, tables_hold_values};
ghost use Rattle.scl_values.specs.Cuts.{cut, is_dangling};
ghost use Rattle.scl_values.specs.Seen.{seen, shown};
ghost use Rattle.scl_cutting.specs.Iter.{AreItemsOf};
ghost use Rattle.scl_cutting.specs.Runs.{items_of, dangles_by};
ghost use Rattle.scl_values.specs.Texts.{is_delimited_by_ascii};
ghost use Rattle.scl_values.specs.Words.{words_of};

use crate::iter::ArgsIter;
use crate::shrinking::ShrinkingIter;
use scl_tables::SearchableArgInfo;
use scl_values::{ArgParseError, Argument, ArgumentValue, ExactArg, Mem};
use std::alloc::{AllocError, Global};

fn cutter<T: ArgumentValue, S: SearchableArgInfo<T> + Drop>(
    alloc: Global,
    words: Vec<Vec<u8>>,
    arg_info: S,
    double_dashes: bool,
) -> ArgsIter<ShrinkingIter<Vec<u8>>, T, S>
    ensures words { result.arguments ≡ words.items }
    ensures arg_info { result.arg_info ≡ arg_info }
    ensures state { (result.double_dashes ≡ double_dashes) × (result.only_raw ≡ false) × (result.ended ≡ false) }
{
    let arguments = ArgsIter::new(alloc, ShrinkingIter::new(words), arg_info);
    if double_dashes {
        arguments.with_double_dashes()
    } else {
        arguments
    }
}

/// Cuts all words; gives the options, and the error that ended cutting if there was one (docs/RULES.md, Cutting). The call
/// itself fails only if the list of options can't be allocated. Each option can be printed as texts.
pub fn cut_words<T: ArgumentValue, S: SearchableArgInfo<T> + Drop>(
    alloc: Global,
    words: Vec<Vec<u8>>,
    arg_info: S,
    double_dashes: bool,
) -> Mem<(Vec<Argument<T>>, Option<ArgParseError>)>
    ensures items { IfOk result (λ r. AreItemsOf T.make_gives (cut (owner_in (S.tables arg_info)) double_dashes (words_of words.items)) (items_of r.0.items r.1)) }
    ensures texts { IfOk result (λ r. All (λ option. is_delimited_by_ascii option ≡ true) r.0.items) }
{
    let mut options = Vec::with_capacity(alloc, words.len())?;
    let mut arguments = cutter(alloc, words, arg_info, double_dashes);
    while let Some(item) = arguments.next() {
        match item {
            Ok(option) => options.push(option)?,
            Err(error) => return Ok((options, Some(error))),
        }
    }
    Ok((options, None))
}

/// Whether an error ended cutting. If every value can be made, that is the last flag without its value.
fn dangles_by(end: Option<ArgParseError>) -> Mem<bool>
    ensures { IfOk result (λ dangles. dangles_by end ≡ Some dangles) }
{
    match end {
        None => Ok(false),
        Some(ArgParseError::Memory) => Err(AllocError),
        Some(
            ArgParseError::UnexpectedEndOfArgs
            | ArgParseError::InvalidUnicode(_)
            | ArgParseError::Other(_),
        ) => Ok(true),
    }
}

/// The options that words are cut into (docs/RULES.md, Cutting).
#[derive(Debug, PartialEq, Eq, Drop)]
pub struct CutWords<T> {
    /// The options in order.
    pub options: Vec<Argument<T>>,
    /// Whether the last flag has no value.
    pub is_dangling: bool,
}

/// Cuts all words by tables in which the kinds of rows that take a value hold one: so every value can be made (docs/RULES.md,
/// Cutting). Each option can be printed as texts.
pub fn cut_options<T: ExactArg, S: SearchableArgInfo<T> + Drop>(
    alloc: Global,
    words: Vec<Vec<u8>>,
    arg_info: S,
    double_dashes: bool,
) -> Mem<CutWords<T>>
    requires { IsTrue (tables_hold_values T.holds_value (S.tables arg_info)) }
    ensures options { IfOk result (λ r. map (seen T.kind_of T.word_of) r.options.items
        ≡ map shown (cut (owner_in (S.tables arg_info)) double_dashes (words_of words.items)).options) }
    ensures end { IfOk result (λ r. r.is_dangling ≡ is_dangling (cut (owner_in (S.tables arg_info)) double_dashes (words_of words.items)).end) }
    ensures texts { IfOk result (λ r. All (λ option. is_delimited_by_ascii option ≡ true) r.options.items) }
{
    let (options, end) = cut_words(alloc, words, arg_info, double_dashes)?;
    let is_dangling = dangles_by(end)?;
    Ok(CutWords {
        options,
        is_dangling,
    })
}
