//! From which given word a word came.
ghost use Rattle.std.specs.Prelude.{◌≡◌, [], ◌++◌, IfOk, OnOk, length, drop, replicate};
ghost use Rattle.scl_values.specs.Words.{words_of};
ghost use Rattle.scl_files.specs.Sources.{first_at, indices};

use scl_values::Mem;
use std::alloc::Global;

/// Words, and of each the index of the given word from which it came, if it came from one.
#[derive(Debug, Drop)]
pub struct Sourced {
    /// The words.
    pub words: Vec<Vec<u8>>,
    /// The indices, one for each word.
    pub ats: Vec<Option<usize>>,
    ghost counted: { length ats.items ≡ length words.items },
}

/// The indices of `count` given words.
#[tactic(auto, using(crate::proofs::SourceLaws::indices_more))]
fn indices(alloc: Global, count: usize) -> Mem<Vec<Option<usize>>>
    ensures { IfOk result (λ ats. ats.items ≡ indices count) }
{
    let mut ats = Vec::new(alloc);
    for i in 0..count {
        ats.push(Some(i))?;
    }
    Ok(ats)
}

impl Sourced {
    /// Given words, each with its own index.
    #[tactic(auto, using(crate::proofs::SourceLaws::indices_count, crate::proofs::SourceLaws::words_count))]
    pub fn given(alloc: Global, words: Vec<Vec<u8>>) -> Mem<Sourced>
        ensures words { IfOk result (λ given. given.words ≡ words) }
        ensures ats { IfOk result (λ given. given.ats.items ≡ indices (length (words_of words.items))) }
    {
        let ats = indices(alloc, words.len())?;
        Ok(Sourced { words, ats })
    }
}

/// The first index, if there is one.
pub fn first_at(ats: &[Option<usize>]) -> Option<usize>
    ensures { result ≡ first_at ats.now }
{
    match ats {
        [at, ..] => *at,
        [] => None,
    }
}

/// The indices after the first `count`.
pub fn behind(ats: &[Option<usize>], count: usize) -> &[Option<usize>]
    ensures { result.now ≡ drop count ats.now }
{
    &ats[count.min(ats.len())..]
}

/// Appends an index `count` times.
pub(crate) fn push_at(ats: &mut Vec<Option<usize>>, at: Option<usize>, count: usize) -> Mem<()>
    ensures { OnOk result (ats.new.items ≡ ats.old.items ++ replicate count at) }
{
    for _i in 0..count {
        ats.push(at)?;
    }
    Ok(())
}
