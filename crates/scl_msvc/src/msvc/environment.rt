//! What the environment adds to a command line: words before and after its own.
ghost use Rattle.std.specs.Prelude.{◌≡◌, IfOk};
ghost use Rattle.std.specs.Option.{option_copied, option_map};
ghost use Rattle.scl_values.specs.Words.{words_of};
ghost use Rattle.scl_text.specs.Commands.{pairs_of};
ghost use Rattle.scl_text.specs.Records.{because};
ghost use Rattle.scl_text.specs.Stops.{Gives};
ghost use Rattle.scl_msvc.specs.Environment.{is_variable, without_cl_env_vars, value_of, gives_words, with_equals, words_in, variable_words, surrounded, surroundings};

use scl_args::Mem;
use scl_text::command::append_words;
use scl_text::refusal::cannot_cache;
use scl_text::{Stop, from_local_codepage, msvc_words};
use std::alloc::Global;

/// The variable whose words come before those of a command line.
const FRONT_VARIABLE: &[u8] = b"CL";

/// The variable whose words come after those of a command line.
const BACK_VARIABLE: &[u8] = b"_CL_";

fn is_variable(key: &[u8]) -> bool
    ensures { result ≡ is_variable key.now }
{
    key == FRONT_VARIABLE || key == BACK_VARIABLE
}

/// The environment of a compile command: the pairs whose key is neither `CL` nor `_CL_`; upper and lower case differ
/// (docs/RULES.md, Msvc).
pub fn without_cl_env_vars(
    alloc: Global,
    env_vars: &[(Vec<u8>, Vec<u8>)],
) -> Mem<Vec<(Vec<u8>, Vec<u8>)>>
    ensures { IfOk result (λ kept. pairs_of kept.items ≡ without_cl_env_vars (pairs_of env_vars.now)) }
{
    let mut kept = Vec::new(alloc);
    for (key, value) in env_vars {
        if !is_variable(key) {
            let key = Vec::from_slice(alloc, key)?;
            kept.push((key, Vec::from_slice(alloc, value)?))?;
        }
    }
    Ok(kept)
}

/// The value of the first pair with the key.
fn value_of<'a>(env_vars: &'a [(Vec<u8>, Vec<u8>)], key: &[u8]) -> Option<&'a [u8]>
    ensures { option_copied result ≡ value_of key.now (pairs_of env_vars.now) }
{
    for (name, value) in env_vars {
        if name.as_slice() == key {
            return Some(value);
        }
    }
    None
}

/// Whether the environment has one of the two variables.
pub(super) fn gives_words(env_vars: &[(Vec<u8>, Vec<u8>)]) -> bool
    ensures { result ≡ gives_words (pairs_of env_vars.now) }
{
    value_of(env_vars, FRONT_VARIABLE).is_some() || value_of(env_vars, BACK_VARIABLE).is_some()
}

/// Replaces the first `#` by `=`.
#[tactic(auto, using(crate::proofs::EnvironmentLemmas::equals_put))]
fn put_equals(word: &mut [u8])
    ensures { word.new ≡ with_equals word.old }
{
    for byte in word {
        if *byte == b'#' {
            *byte = b'=';
            return;
        }
    }
}

/// The words of a value, if it is a text.
fn words_in(alloc: Global, value: &[u8]) -> Mem<Option<Vec<Vec<u8>>>>
    ensures { IfOk result (λ words. option_map (λ w. words_of w.items) words ≡ words_in value.now) }
{
    let Some(text) = from_local_codepage(alloc, value)? else {
        return Ok(None);
    };
    let mut words = msvc_words(alloc, &text)?;
    for word in words.iter_mut() {
        put_equals(word);
    }
    Ok(Some(words))
}

/// The words of a variable; refused with this reason if its value is not a text.
fn variable_words(
    alloc: Global,
    value: Option<&[u8]>,
    broken: &'static str,
) -> Result<Vec<Vec<u8>>, Stop>
    ensures { Gives (λ words. words_of words.items) result (variable_words (because broken.now) (option_copied value.entry)) }
{
    let Some(value) = value else {
        return Ok(Vec::new(alloc));
    };
    Ok(words_in(alloc, value)?.ok_or(cannot_cache(broken))?)
}

/// The words that an environment adds to a command line: those of `CL` before its own, and those of `_CL_` after them
/// (docs/RULES.md, Msvc). It is refused if a value is not a text; the only other error is a refused allocation.
pub fn surroundings(
    alloc: Global,
    env_vars: &[(Vec<u8>, Vec<u8>)],
) -> Result<(Vec<Vec<u8>>, Vec<Vec<u8>>), Stop>
    ensures { Gives (λ both. (words_of both.0.items, words_of both.1.items)) result (surroundings (pairs_of env_vars.now)) }
{
    let front = value_of(env_vars, FRONT_VARIABLE);
    let front = variable_words(alloc, front, "CL environment variable value broken")?;
    let back = value_of(env_vars, BACK_VARIABLE);
    let back = variable_words(alloc, back, "_CL_ environment variable value broken")?;
    Ok((front, back))
}

/// The given words between those that the environment adds: of `CL` before them and of `_CL_` after them. If there are
/// neither, the given words are returned without a copy. It is refused if a value is not a text.
#[tactic(auto, using(crate::proofs::EnvironmentLemmas::surrounded_by_none, crate::proofs::EnvironmentLemmas::surrounded_by_both, crate::proofs::EnvironmentLemmas::surrounded_stops))]
pub(super) fn surround(
    alloc: Global,
    arguments: Vec<Vec<u8>>,
    env_vars: &[(Vec<u8>, Vec<u8>)],
) -> Result<Vec<Vec<u8>>, Stop>
    ensures { Gives (λ words. words_of words.items) result (surrounded (pairs_of env_vars.now) (words_of arguments.items)) }
{
    if !gives_words(env_vars) {
        return Ok(arguments);
    }
    let (mut words, back) = surroundings(alloc, env_vars)?;
    append_words(&mut words, arguments)?;
    append_words(&mut words, back)?;
    Ok(words)
}
