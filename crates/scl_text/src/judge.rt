//! Verdicts on a finished list of options.
ghost use Rattle.std.specs.Prelude.{◌≡◌, List, [], map, IfOk};
ghost use Rattle.std.specs.Option.{option_map};
ghost use Rattle.scl_args.specs.Empties.{refusing_empty};
ghost use Rattle.scl_values.specs.Seen.{seen};
ghost use Rattle.scl_args.specs.Options.{first_verdict, judged};
ghost use Rattle.scl_values.specs.Tables.{owner_in};
ghost use Rattle.scl_text.specs.Reasons.{argument_parse, empty_value};
ghost use Rattle.scl_text.specs.Refusals.{verdict_of};
ghost use Rattle.scl_text.specs.Stops.{Gives};

use crate::reasons::EMPTY_VALUE;
use crate::refusal::{Refusal, argument_parse, cannot_cache};
use crate::stop::Stop;
use scl_args::{
    Argument, ArgumentValue, CutWords, Mem, Options, ReadArg, SearchableArgInfo, has_empty_value,
};
use std::alloc::Global;

/// A judge says why options are refused; each is judged given those before it (docs/RULES.md, Lists of options).
pub trait Judge<T: ArgumentValue> {
    ghost use Rattle.std.specs.Prelude.{◌≡◌, List, Option, IfOk, map};
    ghost use Rattle.std.specs.Option.{option_map};
    ghost use Rattle.scl_values.specs.Seen.{Seen, seen};
    ghost use Rattle.scl_text.specs.Records.{Verdict};
    ghost use Rattle.scl_text.specs.Refusals.{verdict_of};

    /// Why an option is refused, given those before it, if it is.
    ghost verdict: { Self → List (Seen T.Kind) → Seen T.Kind → Option Verdict };

    /// Why the option is refused, if it is.
    fn judge(
        &self,
        alloc: Global,
        before: &[Argument<T>],
        option: &Argument<T>,
    ) -> Mem<Option<Refusal>>
        ensures { IfOk result (λ refusal. option_map verdict_of refusal
            ≡ verdict self.now (map (seen T.kind_of T.word_of) before.now) (seen T.kind_of T.word_of option.now)) };
}

/// The refusal of an option, given those before it: of an empty value if its row in the tables has an either shape, else the
/// judge's (docs/RULES.md, Readings).
pub fn refusal_of<T: ReadArg, S: SearchableArgInfo<T>, J: Judge<T>>(
    alloc: Global,
    judge: &J,
    arg_info: &S,
    before: &[Argument<T>],
    option: &Argument<T>,
) -> Mem<Option<Refusal>>
    ensures { IfOk result (λ refusal. option_map verdict_of refusal
        ≡ refusing_empty (owner_in (S.tables arg_info.now)) empty_value (J.verdict judge.now) (map (seen T.kind_of T.word_of) before.now) (seen T.kind_of T.word_of option.now)) }
{
    if has_empty_value(arg_info, option) {
        return Ok(Some(cannot_cache(EMPTY_VALUE)));
    }
    judge.judge(alloc, before, option)
}

/// The refusal of the first option that is refused: for an empty value of an either row, else by the judge (docs/RULES.md,
/// Readings).
fn first_refusal<T: ReadArg, S: SearchableArgInfo<T>, J: Judge<T>>(
    alloc: Global,
    judge: &J,
    arg_info: &S,
    options: &[Argument<T>],
) -> Mem<Option<Refusal>>
    ensures { IfOk result (λ refusal. option_map verdict_of refusal
        ≡ first_verdict (refusing_empty (owner_in (S.tables arg_info.now)) empty_value (J.verdict judge.now)) [] (map (seen T.kind_of T.word_of) options.now)) }
{
    for (i, option) in options.iter().enumerate() {
        if let Some(refusal) = refusal_of(alloc, judge, arg_info, &options[..i], option)? {
            return Ok(Some(refusal));
        }
    }
    Ok(None)
}

/// The finished list of the options that words were cut into by the tables. It is refused as its first refused option is, for
/// an empty value or by the judge; else for a last flag without a value (docs/RULES.md, Readings). The only other error is a
/// refused allocation.
pub fn judge_all<T: ReadArg, S: SearchableArgInfo<T>, J: Judge<T>>(
    alloc: Global,
    judge: &J,
    arg_info: &S,
    cut: CutWords<T>,
) -> Result<Options<T>, Stop>
    ensures { Gives (λ options. options) result
        (judged (refusing_empty (owner_in (S.tables arg_info.now)) empty_value (J.verdict judge.now)) argument_parse (map (seen T.kind_of T.word_of) cut.options.items) cut.is_dangling) }
{
    if let Some(refusal) = first_refusal(alloc, judge, arg_info, &cut.options)? {
        return Err(Stop::Refused(refusal));
    }
    if cut.is_dangling {
        let refusal = argument_parse(alloc)?;
        return Err(Stop::Refused(refusal));
    }
    Ok(Options::new(cut.options))
}
