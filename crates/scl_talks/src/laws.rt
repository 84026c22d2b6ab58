//! What follows from the definitions. Each law is a clause of a function with an empty body.
ghost use Rattle.scl_talks.specs.Names.{TextsAreOfOneRelease};

/// The law of names: an update finds nothing that another release kept. Where the text that is hashed is one, so are the release, the
/// rules and the rows of the key.
pub fn of_names()
    ensures { TextsAreOfOneRelease }
{}
