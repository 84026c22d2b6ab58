//! Any number of tables as one.
ghost use Rattle.std.specs.Prelude.{◌≡◌};

use crate::rows::{Probes, SearchableArgInfo};
use crate::table::longer;
use scl_values::{ArgInfo, ArgumentValue};
use std::marker::Model;

/// Any number of tables, or of other things that are searched, in their order (docs/RULES.md, Owners).
#[derive(Drop)]
pub struct Tables<S> {
    members: Vec<S>,
}

impl<S> Model for Tables<S> {
    ghost use Rattle.std.specs.Prelude.{List};

    ghost Value = { List S };

    ghost view = { λ tables. tables.members.items };
}

impl<S> Tables<S> {
    /// The members of the list as one; an empty list finds nothing. It allocates nothing.
    pub fn new(list: Vec<S>) -> Tables<S>
        ensures { result ≡ list.items }
    {
        Tables { members: list }
    }
}

impl<T: ArgumentValue, S: SearchableArgInfo<T>> SearchableArgInfo<T> for Tables<S> {
    ghost use Rattle.std.specs.List.{flat_map};

    ghost tables = { flat_map S.tables };

    #[tactic(auto, using(crate::proofs::TablesLemmas::longer_longer, crate::proofs::TablesLemmas::owner_left, crate::proofs::TablesLemmas::looks_left))]
    fn search_counted(&self, key: &[u8], probes: &mut Probes) -> Option<&ArgInfo<T>> {
        let mut owner = None;
        for member in &self.members {
            let found = member.search_counted(key, probes);
            owner = longer(owner, found);
        }
        owner
    }
}
