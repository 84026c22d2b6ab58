//! What follows from the definitions. Each law is a clause of a function with an empty body.
ghost use Rattle.std.specs.Prelude.{List};
ghost use Rattle.scl_lookup.specs.Keys.{Row};
ghost use Rattle.scl_questions.specs.Talks.{TalksEnd};

/// The law of talks: a caller that answers truly gets the value on its machine, in as many rounds as there are.
pub fn of_talks()
    ensures { TalksEnd (List Row) }
{}
