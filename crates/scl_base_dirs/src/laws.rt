//! What follows from the definitions. Each law is a clause of a function with an empty body.
ghost use Rattle.scl_base_dirs.specs.Laws.{BasesAreLongestFits, WordsAreReadBack, PathsAreReadBack, PathsWithoutBaseStand, OnlyTheBaseDiffers, OneBaseIsLikeAnother, TextsWithoutMarkersStand};

/// Laws of paths and words that are told by their bases:
///
/// - `longest_fits`: the base of a path is the directory with its number, fits the path, and no longer one does;
/// - `paths_are_read_back`, `words_are_read_back`: `unmapped` gives back what was told; so no two paths, and no two words, are
///   told alike;
/// - `others_stand`: a path without a base and without a NUL is told as it is;
/// - `only_the_base_differs`, `one_base_is_like_another`: paths that differ in the base alone are told alike.
#[tactic(auto, using(crate::proofs::BaseLaws::base_laws, crate::proofs::BackLaws::back_laws))]
pub fn of_bases()
    ensures longest_fits { BasesAreLongestFits }
    ensures paths_are_read_back { PathsAreReadBack }
    ensures words_are_read_back { WordsAreReadBack }
    ensures others_stand { PathsWithoutBaseStand }
    ensures only_the_base_differs { OnlyTheBaseDiffers }
    ensures one_base_is_like_another { OneBaseIsLikeAnother }
{}

/// The law of texts: one without line markers is unchanged.
#[tactic(auto, using(crate::proofs::TextLaws::texts_without_markers_stand))]
pub fn of_texts()
    ensures { TextsWithoutMarkersStand }
{}
