//! A law of the definition of entries, a clause of a function that does nothing.
ghost use Rattle.scl_catalogue.specs.Laws.{NumbersPassOverNone};

/// The law of numbers: an entry that `Entry::new` makes speaks of an option exactly if one of its cases does.
pub fn of_numbers()
    ensures numbers_pass_over_none { NumbersPassOverNone }
{}
