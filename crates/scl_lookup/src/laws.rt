//! What follows from the definitions. Each law is a clause of a function with an empty body.
ghost use Rattle.std.specs.Prelude.{List};
ghost use Rattle.scl_lookup.specs.Callers.{LookupsEnd};
ghost use Rattle.scl_lookup.specs.Framing.{FramingDecides};
ghost use Rattle.scl_lookup.specs.Keys.{LookupsGiveKeys, Row, TextsDecideAnswers, TwoRoundsSuffice};
ghost use Rattle.scl_lookup.specs.Lists.{KeysAreDecided, ListsAreRight};
ghost use Rattle.scl_lookup.specs.Lookups.{BothAreBoth, BothAreWithin};
ghost use Rattle.scl_lookup.specs.Worlds.{HitsAreRight};

/// The law of framing: framed texts are one only if all their pieces are.
pub fn of_framing()
    ensures { FramingDecides }
{}

/// Laws of lookups:
///
/// - `end`: with an honest caller a lookup ends after as many rounds as it has, with the value on the machine;
/// - `both`: two that are asked at once have both values;
/// - `within`: and take no more rounds than one.
pub fn of_lookups()
    ensures end { LookupsEnd (List Row) }
    ensures both { BothAreBoth (List Row) }
    ensures within { BothAreWithin (List Row) }
{}

/// Laws of keys:
///
/// - `give`: a lookup of a key gives its rows;
/// - `rounds`: after two rounds at most;
/// - `decide`: where the text that is hashed is one, each part says the same, and each answer is one.
pub fn of_keys()
    ensures give { LookupsGiveKeys }
    ensures rounds { TwoRoundsSuffice }
    ensures decide { TextsDecideAnswers }
{}

/// Hits are right: where the name is one, no two byte strings of the two machines have one sum, and compilers are well-behaved,
/// the outcome is one.
pub fn of_hits()
    ensures { HitsAreRight }
{}

/// Laws of lists, for direct mode:
///
/// - `decided`: a key is decided by what was asked for it;
/// - `right`: where a list holds, and runs are decided by it, the key is that which runs would give.
pub fn of_lists()
    ensures decided { KeysAreDecided (List Row) }
    ensures right { ListsAreRight (List Row) }
{}
