//! Laws of the definitions of loads, each a clause of a function that does nothing.
ghost use Rattle.std.specs.Prelude.{◌≡◌, true};
ghost use Rattle.scl_files.specs.contracts.expand.ExpansionKindPartialEq.TheImpl as expansions;
ghost use Rattle.scl_files.specs.declared.expand.ExpansionKind.{ExpansionKind};

/// The law of `==` of kinds of response files: what is equal is one.
pub fn of_equality()
    ensures expansions_are_told_apart { (a b : ExpansionKind) → expansions.ghosts.eq a b ≡ true → a ≡ b }
{}
