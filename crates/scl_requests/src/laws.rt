//! What follows from the definitions. Each law is a clause of a function with an empty body.
ghost use Rattle.scl_requests.specs.SharedLaws.{FrontsTell, ObjectsMadeAlikeSayTheSame, OneBaseSuffices, OnlyTheBasesDiffer, RowsAreToldAlike};
ghost use Rattle.scl_requests.specs.TextLaws.{TextsEndAlike};

/// Laws of keys of two checkouts that differ in their base directories alone:
///
/// - `rows_are_told_alike`: their rows are told alike;
/// - `only_the_bases_differ`: they are told as one key, if what is said of their objects is the same, and these name no directory.
#[tactic(auto, using(crate::proofs::SharedLaws::shared_laws))]
pub fn of_checkouts()
    ensures rows_are_told_alike { RowsAreToldAlike }
    ensures only_the_bases_differ { OnlyTheBasesDiffer }
{}

/// Laws of what two checkouts have in common:
///
/// - `one_base_suffices`: of one base no more need be known than where a component ends;
/// - `fronts_tell`: where the value of a word begins, is told by what stands before its first `/`; and what it makes the object
///   name, if no name in the entries that say so has a `/`;
/// - `made_alike`: of objects that are made alike, with words that make them name the same, the same is said.
#[tactic(auto, using(crate::proofs::VerdictLaws::verdict_laws))]
pub fn of_what_is_said()
    ensures one_base_suffices { OneBaseSuffices }
    ensures fronts_tell { FrontsTell }
    ensures made_alike { ObjectsMadeAlikeSayTheSame }
{}

/// The law of descriptions of two checkouts: those whose keys differ in the bases alone have the same rows at the end, and no
/// other rows of a key.
#[tactic(auto, using(crate::proofs::TextLaws::texts_end_alike))]
pub fn of_descriptions()
    ensures { TextsEndAlike }
{}
