//! What follows from the definitions of texts. Each law is a clause of a function with an empty body.
ghost use Rattle.scl_driver_texts.specs.InPlaceLaws.{TextsHeldOnceServe};

/// The law of texts of response files (docs/RULES.md, Expansion). For every test of texts: some text of the expanded files
/// passes exactly if some text does of those that are held once for each file.
pub fn of_texts_in_place()
    ensures texts_held_once_serve { TextsHeldOnceServe }
{}
