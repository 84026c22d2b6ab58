//! What follows from the definitions. The law is a clause of a function with an empty body.
ghost use Rattle.scl_rounds.specs.Rounds.{RoundsGiveRows};

/// The law of rounds: in as many of them a caller that answers truly gets the rows on its machine.
pub fn of_rounds()
    ensures { RoundsGiveRows }
{}
