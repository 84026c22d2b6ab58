//! What follows from the definitions. Each law is a clause of a function with an empty body.
ghost use Rattle.scl_shared_key.specs.Laws.{FrontsTellNamings, OnlyTheBaseDiffers, PathsWithoutBaseStand, RowsAreReadBack};

/// Laws of rows that are told by base directories:
///
/// - `rows_are_read_back`: `unmapped` gives back each field of the rows that are told; so no two keys are told alike;
/// - `others_stand`: a path without a base and without a NUL stands as it is;
/// - `only_the_base_differs`: paths that differ in the base alone are told alike.
#[tactic(auto, using(crate::proofs::SharedLaws::shared_laws))]
pub fn of_shared_keys()
    ensures rows_are_read_back { RowsAreReadBack }
    ensures others_stand { PathsWithoutBaseStand }
    ensures only_the_base_differs { OnlyTheBaseDiffers }
{}

/// The law of words that make an object name something: what stands before the first `/` of a word tells what, if the names in
/// the entries that say so are beginnings or whole texts without a `/`, and each has the numbers of its cases.
#[tactic(auto, using(crate::proofs::FrontLaws::fronts_tell_namings))]
pub fn of_namings()
    ensures { FrontsTellNamings }
{}
