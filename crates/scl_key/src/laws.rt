//! Laws of the definitions of keys, each a clause of a function that does nothing.
ghost use Rattle.std.specs.Prelude.{◌≡◌, true};
ghost use Rattle.scl_key.specs.Laws.{DirectHitsAreRight, HitsAreRight, KeysDecideCommands, KeysReadBack};
ghost use Rattle.scl_catalogue.specs.contracts.entry.BringsPartialEq.TheImpl as brought;
ghost use Rattle.scl_catalogue.specs.declared.entry.Brings.{Brings};

/// The law of `==`: what words bring in is one where it is equal.
pub fn of_equality()
    ensures brought_are_told_apart { (a b : Brings) → brought.ghosts.eq a b ≡ true → a ≡ b }
{}

/// Laws of keys (docs/RULES.md, Keys):
///
/// - `keys_read_back`: a key can be read back from its rows, so two keys with the same text are equal;
/// - `keys_decide_commands`: if the keys of two command lines have the same facts, the two have the same compiler, record and
///   command, except for words that every run shows;
/// - `hits_are_right`: suppose a compiler makes the same files whenever facts and answers are the same. Then a hit gives
///   what a compilation would give;
/// - `direct_hits_are_right`: suppose the first key of direct mode and a list decide what runs show. If both are as they were,
///   the key is the one that runs would give.
pub fn of_keys()
    ensures keys_read_back { KeysReadBack }
    ensures keys_decide_commands { KeysDecideCommands }
    ensures hits_are_right { HitsAreRight }
    ensures direct_hits_are_right { DirectHitsAreRight }
{}
