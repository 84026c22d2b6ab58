//! What follows from the definitions of a command's texts, and of what is compared of two keys.
ghost use Rattle.scl_explain.specs.Laws.{EndedWordsAreReadBack, EndedWordsAreOne, RowsAreHashedAsParts};

/// Laws of words that a NUL ends each, as `xargs -0` reads them:
///
/// - `read_back`: words without a NUL, of which `command` writes the text, are read back;
/// - `one`: no text has two lists of words.
#[tactic(auto, using(crate::proofs::NulLaws::nul_laws))]
pub fn of_ended_words()
    ensures read_back { EndedWordsAreReadBack }
    ensures one { EndedWordsAreOne }
{}

/// The law of what is compared of two keys: of the row of a part it is what a cache hashes, by the laws of hits of `scl_key`.
#[tactic(auto, using(crate::proofs::HashedLaws::hashed_laws))]
pub fn of_hashed_rows()
    ensures { RowsAreHashedAsParts }
{}
