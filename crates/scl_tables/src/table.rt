//! Tables, references to what can be searched, and pairs.
ghost use Rattle.std.specs.Prelude.{[], ◌∷◌, ◌++◌, ◌≡◌};
ghost use Rattle.scl_values.specs.Row.{row_at};
ghost use Rattle.scl_values.specs.Tables.{longer};

use crate::rows::{FlagTable, Probes, SearchableArgInfo};
use crate::search::longest_fit;
use scl_values::{ArgInfo, ArgRow, ArgumentValue};

impl<'a, T: ArgumentValue> SearchableArgInfo<T> for FlagTable<'a, T> {
    ghost tables = { λ table. table ∷ [] };

    #[tactic(auto, using(crate::proofs::TablesLemmas::owner_finds_ascii_delimiter))]
    fn search_counted(&self, key: &[u8], probes: &mut Probes) -> Option<&ArgInfo<T>> {
        longest_fit(self.store(), key, probes)
    }
}

impl<'a, T: ArgumentValue, S: SearchableArgInfo<T>> SearchableArgInfo<T> for &'a S {
    ghost tables = { λ table. S.tables table.now };

    fn search_counted(&self, key: &[u8], probes: &mut Probes) -> Option<&ArgInfo<T>> {
        (**self).search_counted(key, probes)
    }
}

/// Of two rows the one with the longer flag; of equally long flags the second.
pub(crate) fn longer<'a, K>(
    first: Option<&'a ArgRow<K>>,
    second: Option<&'a ArgRow<K>>,
) -> Option<&'a ArgRow<K>>
    ensures { row_at result ≡ longer (row_at first.entry) (row_at second.entry) }
{
    match (first, second) {
        (Some(first), Some(second)) => {
            if second.flag().len() < first.flag().len() {
                Some(first)
            } else {
                Some(second)
            }
        }
        (None, other) => other,
        (other, None) => other,
    }
}

impl<T: ArgumentValue, A: SearchableArgInfo<T>, B: SearchableArgInfo<T>> SearchableArgInfo<T>
    for (A, B) {
    ghost tables = { λ pair. A.tables pair.0 ++ B.tables pair.1 };

    #[tactic(auto, using(crate::proofs::TablesLemmas::owner_in_append, crate::proofs::TablesLemmas::looks_in_append))]
    fn search_counted(&self, key: &[u8], probes: &mut Probes) -> Option<&ArgInfo<T>> {
        let first = self.0.search_counted(key, probes);
        let second = self.1.search_counted(key, probes);
        longer(first, second)
    }
}
