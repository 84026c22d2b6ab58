//! What follows from the definitions of a description's JSON. Each law is a clause of a function with an empty body.
ghost use Rattle.scl_json.specs.Laws.{EachRowHasAMember, WhatIsWrittenIsJson};

/// The law of what is written: it is JSON, whatever the bytes of the rows are.
#[tactic(auto, using(crate::proofs::JsonLaws::json_laws))]
pub fn of_json()
    ensures { WhatIsWrittenIsJson }
{}

/// The law of members: the table has one for each row of a description.
#[tactic(auto, unfolding(crate::specs::Members::table, scl_description::specs::Names::parts))]
pub fn of_members()
    ensures { EachRowHasAMember }
{}
