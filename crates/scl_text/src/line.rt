//! A command line, given or inner, cut and judged: its options, and what is said of them.
ghost use Rattle.std.specs.Prelude.{◌≡◌, [], None, IfOk, IsTrue, drop, length, map, unwrap_or};
ghost use Rattle.std.specs.Option.{option_and_then, option_copied, option_map};
ghost use Rattle.scl_args.specs.Empties.{refusing_empty};
ghost use Rattle.scl_args.specs.Options.{last, texts};
ghost use Rattle.scl_text.specs.Refusals.{verdict_of};
ghost use Rattle.scl_text.specs.Stops.{Gives};
ghost use Rattle.scl_text.specs.Reasons.{argument_parse};
ghost use Rattle.scl_values.specs.Cuts.{cut, is_dangling};
ghost use Rattle.scl_values.specs.Seen.{seen, shown};
ghost use Rattle.scl_values.specs.Spell.{spelled};
ghost use Rattle.scl_values.specs.Tables.{owner_in, tables_hold_values};
ghost use Rattle.scl_values.specs.Words.{words_of};
ghost use Rattle.scl_text.specs.Lines.{ats_cut, dangled_by, dangled_of, first_some, line_by, line_options, line_refusal, no_line, ats_passing, refusals_after, verdicts_of};
ghost use Rattle.scl_text.specs.Reasons.{empty_value};

use crate::command::copy_words;
use crate::judge::{Judge, refusal_of};
use crate::refusal::{Refusal, argument_parse};
use crate::stop::Stop;
use scl_args::{
    ArgDisposition, Argument, ArgumentValue, ExactArg, Mem, Options, ReadArg, SearchableArgInfo,
    Test, cut_options, texts,
};
use scl_files::{Sourced, behind, first_at};
use std::alloc::Global;
use std::marker::Model;

/// A last flag without its value.
#[derive(Debug, Drop)]
pub struct Dangling<K> {
    /// The word that has the flag.
    pub word: Vec<u8>,
    /// The flag and the kind of the row that owns the word, if one does.
    pub owner: Option<(&'static str, K)>,
    /// The index of the given word from which the word came, if it came from one.
    pub at: Option<usize>,
}

/// A command line, given or inner, cut and judged.
#[derive(Drop)]
pub struct Line<T: ReadArg> {
    options: Options<T>,
    ats: Vec<Option<usize>>,
    refusals: Vec<Option<Refusal>>,
    dangling: Option<Dangling<T::Kind>>,
}

impl<T: ReadArg> Model for Line<T> {
    ghost use Rattle.std.specs.Option.{option_map};
    ghost use Rattle.scl_text.specs.Lines.{JudgedLine, dangled_of, verdicts_of};

    ghost Value = { JudgedLine T.Kind };

    ghost view = { λ l. record { options = l.options; ats = l.ats.items; refusals = verdicts_of l.refusals.items; dangling = option_map dangled_of l.dangling } };
}

/// The number of words that the option was cut from.
pub fn word_count<T: ArgumentValue>(option: &Argument<T>) -> usize
    ensures { result ≡ length (spelled (seen T.kind_of T.word_of option.now)) }
{
    match option {
        Argument::Raw(_)
        | Argument::UnknownFlag(_)
        | Argument::Flag(_, _)
        | Argument::WithValue(
            _,
            _,
            ArgDisposition::CanBeSeparated(_) | ArgDisposition::Concatenated(_),
        ) => 1,
        Argument::WithValue(
            _,
            _,
            ArgDisposition::Separated | ArgDisposition::CanBeConcatenated(_),
        ) => 2,
    }
}

/// Of each option, the index of its first word.
fn ats_of<T: ArgumentValue>(
    alloc: Global,
    options: &[Argument<T>],
    ats: &[Option<usize>],
) -> Mem<Vec<Option<usize>>>
    ensures { IfOk result (λ own. own.items ≡ ats_cut (map (seen T.kind_of T.word_of) options.now) ats.now) }
{
    let mut own = Vec::new(alloc);
    let mut left = ats;
    for option in options {
        own.push(first_at(left))?;
        left = behind(left, word_count(option));
    }
    Ok(own)
}

/// Of each option, why it is refused given those before it, if it is.
fn refusals_of<T: ReadArg, S: SearchableArgInfo<T>, J: Judge<T>>(
    alloc: Global,
    arg_info: &S,
    judge: &J,
    options: &[Argument<T>],
) -> Mem<Vec<Option<Refusal>>>
    ensures { IfOk result (λ refusals. verdicts_of refusals.items
        ≡ refusals_after (refusing_empty (owner_in (S.tables arg_info.now)) empty_value (J.verdict judge.now)) [] (map (seen T.kind_of T.word_of) options.now)) }
{
    let mut refusals = Vec::new(alloc);
    for (i, option) in options.iter().enumerate() {
        refusals.push(refusal_of(alloc, judge, arg_info, &options[..i], option)?)?;
    }
    Ok(refusals)
}

/// The last word; the empty word if there is none.
fn last_word(words: &[Vec<u8>]) -> &[u8]
    ensures { result.now ≡ unwrap_or (last (words_of words.now)) [] }
{
    match words.last() {
        Some(word) => word,
        None => &[],
    }
}

/// The last index, if there is one.
#[tactic(auto, using(crate::proofs::LineLaws::last_is))]
fn last_at(ats: &[Option<usize>]) -> Option<usize>
    ensures { result ≡ option_and_then (λ at. at) (last ats.now) }
{
    match ats.last() {
        Some(at) => *at,
        None => None,
    }
}

/// The end of words whose last word is a flag without its value.
fn dangling_of<T: ArgumentValue, S: SearchableArgInfo<T>>(
    arg_info: &S,
    at: Option<usize>,
    word: Vec<u8>,
) -> Dangling<T::Kind>
    ensures { let owner = owner_in (S.tables arg_info.now) word.items in
        dangled_of result ≡ record { word = word.items; flag = option_map (λ row. row.flag) owner; kind = option_map (λ row. row.kind) owner; at = at } }
{
    let owner = match arg_info.search(&word) {
        Some(owner) => Some((owner.flag(), owner.kind())),
        None => None,
    };
    Dangling { word, owner, at }
}

/// The end of words, if the last flag has no value.
fn dangling_unless<T: ArgumentValue, S: SearchableArgInfo<T>>(
    alloc: Global,
    arg_info: &S,
    is_dangling: bool,
    words: &[Vec<u8>],
    ats: &[Option<usize>],
) -> Mem<Option<Dangling<T::Kind>>>
    ensures { IfOk result (λ dangling. option_map dangled_of dangling ≡ dangled_by (owner_in (S.tables arg_info.now)) is_dangling (words_of words.now) ats.now) }
{
    if !is_dangling {
        return Ok(None);
    }
    let word = Vec::from_slice(alloc, last_word(words))?;
    Ok(Some(dangling_of(arg_info, last_at(ats), word)))
}

/// The first refusal, copied, if there is one.
fn first_some(alloc: Global, refusals: &[Option<Refusal>]) -> Mem<Option<Refusal>>
    ensures { IfOk result (λ refusal. option_map verdict_of refusal ≡ first_some (verdicts_of refusals.now)) }
{
    for refusal in refusals {
        if let Some(refusal) = refusal {
            return Ok(Some(refusal.copy(alloc)?));
        }
    }
    Ok(None)
}

/// The refusal of a dangling end.
fn end_refusal<K>(alloc: Global, dangling: &Option<Dangling<K>>) -> Mem<Option<Refusal>>
    ensures { IfOk result (λ refusal. option_map verdict_of refusal ≡ option_map (λ d. argument_parse) (option_map dangled_of dangling.now)) }
{
    match dangling {
        Some(_) => Ok(Some(argument_parse(alloc)?)),
        None => Ok(None),
    }
}

/// The indices of the options that pass.
fn ats_passing<T: ArgumentValue, P: Test<T>>(
    alloc: Global,
    options: &[Argument<T>],
    ats: &[Option<usize>],
    test: &P,
) -> Mem<Vec<Option<usize>>>
    ensures { IfOk result (λ own. own.items ≡ ats_passing (P.passes test.now) (map (seen T.kind_of T.word_of) options.now) ats.now) }
{
    let mut own = Vec::new(alloc);
    let mut left = ats;
    for option in options {
        if test.passes(option) {
            own.push(first_at(left))?;
        }
        left = behind(left, 1);
    }
    Ok(own)
}

impl<T: ReadArg> Line<T> {
    /// The line without words.
    pub fn none(alloc: Global) -> Line<T>
        ensures { result ≡ no_line }
    {
        Line {
            options: Options::new(Vec::new(alloc)),
            ats: Vec::new(alloc),
            refusals: Vec::new(alloc),
            dangling: None,
        }
    }

    /// Its options.
    pub fn options(&self) -> &Options<T>
        ensures { result.now ≡ self.now.options }
    {
        &self.options
    }

    /// Of each option, the index of the given word from which it came, if it came from one.
    pub fn ats(&self) -> &[Option<usize>]
        ensures { result.now ≡ self.now.ats }
    {
        &self.ats
    }

    /// Of each option, why it is refused given those before it, if it is.
    pub fn refusals(&self) -> &[Option<Refusal>]
        ensures { verdicts_of result.now ≡ self.now.refusals }
    {
        &self.refusals
    }

    /// The last flag, if it has no value.
    pub fn dangling(&self) -> Option<&Dangling<T::Kind>>
        ensures { option_map (λ d. dangled_of d.now) result ≡ self.now.dangling }
    {
        match &self.dangling {
            Some(dangling) => Some(dangling),
            None => None,
        }
    }

    /// The first refusal, copied, if there is one.
    pub fn refusal(&self, alloc: Global) -> Mem<Option<Refusal>>
        ensures { IfOk result (λ refusal. option_map verdict_of refusal ≡ line_refusal self.now) }
    {
        match first_some(alloc, &self.refusals)? {
            Some(refusal) => Ok(Some(refusal)),
            None => end_refusal(alloc, &self.dangling),
        }
    }

    /// Stops with the first refusal, if there is one; else only if an allocation fails.
    pub fn check(&self, alloc: Global) -> Result<(), Stop>
        ensures { Gives (λ _. self.now.options) result (line_options self.now) }
    {
        match self.refusal(alloc)? {
            Some(refusal) => Err(Stop::Refused(refusal)),
            None => Ok(()),
        }
    }

    /// The words for an inner command line: the texts of the options that pass, with the indices of these options.
    #[tactic(auto, using(crate::proofs::LineLaws::passing_count, crate::proofs::LineLaws::words_count))]
    pub fn handed_on<P: Test<T>>(&self, alloc: Global, test: &P) -> Mem<Sourced>
        ensures words { IfOk result (λ inner. words_of inner.words.items ≡ texts (P.passes test.now) self.now.options) }
        ensures ats { IfOk result (λ inner. inner.ats.items ≡ ats_passing (P.passes test.now) self.now.options self.now.ats) }
    {
        let options = self.options.as_slice();
        let words = texts(alloc, options, test)?;
        let ats = ats_passing(alloc, options, &self.ats, test)?;
        Ok(Sourced { words, ats })
    }
}

impl<T: ExactArg + ReadArg> Line<T> {
    /// The line of these words, cut by the tables and judged. It does not stop at a refusal.
    #[tactic(auto, unfolding(crate::specs::Lines::line_by))]
    pub fn read<S: SearchableArgInfo<T>, J: Judge<T>>(
        alloc: Global,
        arg_info: &S,
        double_dashes: bool,
        judge: &J,
        words: &[Vec<u8>],
        ats: &[Option<usize>],
    ) -> Mem<Line<T>>
        requires { IsTrue (tables_hold_values T.holds_value (S.tables arg_info.now)) }
        ensures { IfOk result (λ line. line ≡ line_by (J.verdict judge.now) (owner_in (S.tables arg_info.now)) double_dashes (words_of words.now) ats.now) }
    {
        let copies = copy_words(alloc, words)?;
        let cut = cut_options(alloc, copies, arg_info, double_dashes)?;
        let own = ats_of(alloc, &cut.options, ats)?;
        let refusals = refusals_of(alloc, arg_info, judge, &cut.options)?;
        let dangling = dangling_unless(alloc, arg_info, cut.is_dangling, words, ats)?;
        Ok(Line {
            options: Options::new(cut.options),
            ats: own,
            refusals,
            dangling,
        })
    }
}
