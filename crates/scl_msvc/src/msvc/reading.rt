//! A command line of cl or clang-cl, read with the words of its environment.
ghost use Rattle.std.specs.Prelude.{◌≡◌, ◌++◌, ℕ, true, false, List, length, IfOk, MatchResult, None, replicate};
ghost use Rattle.scl_files.specs.Sources.{indices};
ghost use Rattle.scl_text.specs.Commands.{pairs_of};
ghost use Rattle.scl_values.specs.Words.{words_of};
ghost use Rattle.scl_msvc.specs.Reads.{ats_between, is_read_within, is_surrounded_within, read_between, surrounded_read};

use super::environment::surroundings;
use scl_args::Mem;
use scl_msvc_reading::msvc::MsvcReading;
use scl_text::command::{append_words, copy_words, push_words};
use scl_text::view::View;
use scl_text::{ExpansionKind, Limits, Sourced, Stop, TooManyWords, expand_line};
use std::alloc::{AllocError, Global};

/// The indices of words between others: those of the given words, and none for the others.
fn ats_between(
    alloc: Global,
    front: usize,
    own: &[Option<usize>],
    back: usize,
) -> Mem<Vec<Option<usize>>>
    ensures { IfOk result (λ ats. ats.items ≡ replicate front None ++ own.now ++ replicate back None) }
{
    let mut ats = vec![in alloc; None; front]?;
    ats.extend_from_slice(own)?;
    let behind = vec![in alloc; None; back]?;
    ats.extend_from_slice(&behind)?;
    Ok(ats)
}

/// The given words between those of the environment.
fn words_between(
    alloc: Global,
    words: &[Vec<u8>],
    front: &[Vec<u8>],
    back: &[Vec<u8>],
) -> Mem<Sourced>
    ensures words { IfOk result (λ all. words_of all.words.items ≡ words_of front.now ++ words_of words.now ++ words_of back.now) }
    ensures ats { IfOk result (λ all. all.ats.items ≡ ats_between (words_of words.now) (words_of front.now, words_of back.now)) }
{
    let given = Sourced::given(alloc, copy_words(alloc, words)?)?;
    let ats = ats_between(alloc, front.len(), &given.ats, back.len())?;
    let mut all = copy_words(alloc, front)?;
    append_words(&mut all, given.words)?;
    push_words(alloc, &mut all, back)?;
    Ok(Sourced { words: all, ats })
}

/// A command line between words of its environment.
fn read_between(
    alloc: Global,
    words: &[Vec<u8>],
    front: Vec<Vec<u8>>,
    back: Vec<Vec<u8>>,
    cwd: &[u8],
    is_clang: bool,
    view: &View,
    most: Limits,
) -> Mem<Result<MsvcReading, TooManyWords>>
    ensures { IfOk result (λ said. let both : List (List ℕ) × List (List ℕ) = (words_of front.items, words_of back.items) in let within = is_read_within most is_clang cwd.now view.now (words_of words.now) both in
        MatchResult said (λ reading. (within ≡ true) × (reading ≡ read_between is_clang cwd.now view.now (words_of words.now) both)) (λ _. within ≡ false)) }
{
    let all = words_between(alloc, words, &front, &back)?;
    let mut environment = front;
    append_words(&mut environment, back)?;
    match expand_line(alloc, ExpansionKind::Msvc, cwd, all, view, most)? {
        Ok(expanded) => {
            MsvcReading::read(alloc, environment, expanded, cwd, is_clang, view, most)
        }
        Err(too_many) => Ok(Err(too_many)),
    }
}

/// The reading of a command line between the words that its environment adds, if the words and openings of files of it and
/// of each of its inner lines are within the limits; else `TooManyWords`. If the value of a variable is not a text, it is refused before it
/// is read (docs/RULES.md, Msvc).
pub fn read_surrounded(
    alloc: Global,
    words: &[Vec<u8>],
    cwd: &[u8],
    env_vars: &[(Vec<u8>, Vec<u8>)],
    is_clang: bool,
    view: &View,
    most: Limits,
) -> Mem<Result<MsvcReading, TooManyWords>>
    ensures { IfOk result (λ said. let within = is_surrounded_within most is_clang cwd.now (pairs_of env_vars.now) view.now (words_of words.now) in
        MatchResult said (λ reading. (within ≡ true) × (reading ≡ surrounded_read is_clang cwd.now (pairs_of env_vars.now) view.now (words_of words.now))) (λ _. within ≡ false)) }
{
    match surroundings(alloc, env_vars) {
        Ok((front, back)) => { read_between(alloc, words, front, back, cwd, is_clang, view, most) }
        Err(Stop::Refused(broken)) => {
            let outcome = broken.into_answer();
            Ok(Ok(MsvcReading::refused(alloc, is_clang, outcome)))
        }
        Err(Stop::Memory) => Err(AllocError),
    }
}
