//! What follows from the definitions. Each law is a clause of a function with an empty body.
ghost use Rattle.scl_delivered.specs.Hits.{DeliveredDirectHitsAreRight, DeliveredHitsAreRight, DirectHitsWithDirectoriesAreRight, HitsWithDirectoriesAreRight, NothingIsToldWithoutDirectories, ToldKeysStandApart};
ghost use Rattle.scl_delivered.specs.Laws.{DeliveredKeysDecide, KeptMacrosStand, MacrosStandInRuns, NamedKeysStand, PartsAreToldAsRows, ToldPartsAreReadBack};

/// Laws of parts that are told by base directories:
///
/// - `as_rows`: the row of a part that is told has the fields of its row, told;
/// - `are_read_back`: parts are read back from those that are told; so no two are told alike.
pub fn of_told_parts()
    ensures as_rows { PartsAreToldAsRows }
    ensures are_read_back { ToldPartsAreReadBack }
{}

/// Laws of keys as they are delivered:
///
/// - `named_keys_stand`: where the object may name a directory, a key is as it is without directories;
/// - `kept_macros_stand`: macros that are kept stand where they are;
/// - `macros_stand_in_runs`: each run has the macros that stand at the end, all of them and no other;
/// - `delivered_keys_decide`: keys that are delivered alike differ at most in where their macros stand.
pub fn of_delivered_keys()
    ensures named_keys_stand { NamedKeysStand }
    ensures kept_macros_stand { KeptMacrosStand }
    ensures macros_stand_in_runs { MacrosStandInRuns }
    ensures delivered_keys_decide { DeliveredKeysDecide }
{}

/// Laws of hits under keys as they are delivered, without base directories:
///
/// - `hits_are_right`: suppose a compiler makes the same files whenever facts, answers and the macros that count are the same.
///   Then a hit gives what a compilation would give, also if it was made with other macros that do not count;
/// - `direct_hits_are_right`: suppose the first key of direct mode and a list decide what runs show, and which macros count. If
///   both are as they were, the key is the one that runs would give.
pub fn of_hits()
    ensures hits_are_right { DeliveredHitsAreRight }
    ensures direct_hits_are_right { DeliveredDirectHitsAreRight }
{}

/// Laws of hits for two lines that are read with the same base directories:
///
/// - `hits_are_right`: suppose also that no two answers are told alike. Then a hit gives what a compilation would give, whether
///   keys are told by the directories or not;
/// - `direct_hits_are_right`: direct hits are right too. A key that is told has no direct mode;
/// - `told_keys_stand_apart`: no key that is told is hashed as one that is not;
/// - `nothing_is_told_without_directories`: without directories the same is hashed as in `of_hits`.
pub fn of_hits_with_directories()
    ensures hits_are_right { HitsWithDirectoriesAreRight }
    ensures direct_hits_are_right { DirectHitsWithDirectoriesAreRight }
    ensures told_keys_stand_apart { ToldKeysStandApart }
    ensures nothing_is_told_without_directories { NothingIsToldWithoutDirectories }
{}
