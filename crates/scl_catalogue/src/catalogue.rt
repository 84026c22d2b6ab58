//! A catalogue, and those of its entries that a command line has.
ghost use Rattle.std.specs.Prelude.{◌≡◌, true, filter, map, IfOk};
ghost use Rattle.std.specs.List.{list_all};
ghost use Rattle.scl_catalogue.specs.Found.{found, is_there};
ghost use Rattle.scl_catalogue.specs.Keyed.{is_keyed};
ghost use Rattle.scl_catalogue.specs.Views.{catalogue_of, entry_of, line_of, seen_of};

use crate::condition::LineKeys;
use crate::entry::Entry;
use crate::line::Line;
use crate::test::Group;
use scl_values::Mem;
use std::alloc::Global;

/// Groups of options, and the entries that speak of them.
#[derive(Debug, Drop)]
pub struct Catalogue {
    /// The groups that have a name.
    pub groups: Vec<Group>,
    /// The entries, in the order in which they are reported.
    pub entries: Vec<Entry>,
}

/// The entries that are there in a line whose options have these numbers, in their order.
fn those_there<'a>(
    alloc: Global,
    entries: &'a [Entry],
    line: &Line<'_>,
    keys: &LineKeys,
) -> Mem<Vec<&'a Entry>>
    requires options { list_all (is_keyed keys.now.options) (map seen_of line.now.options.now) ≡ true }
    requires inner { list_all (is_keyed keys.now.inner) (map seen_of line.now.inner.now) ≡ true }
    ensures { IfOk result (λ kept. map (λ entry. entry_of entry.now) kept.items ≡ filter (is_there (line_of line.now)) (map entry_of entries.now)) }
{
    let mut kept = Vec::new(alloc);
    for entry in entries {
        if entry.is_there(line, keys) {
            kept.push(entry)?;
        }
    }
    Ok(kept)
}

impl Catalogue {
    /// The entries that are there, in their order.
    pub fn found<'a>(&'a self, alloc: Global, line: &Line<'_>) -> Mem<Vec<&'a Entry>>
        ensures { IfOk result (λ entries. map (λ entry. entry_of entry.now) entries.items ≡ found (catalogue_of self.now) (line_of line.now)) }
    {
        let keys = LineKeys::of(line);
        let kept = those_there(alloc, &self.entries, line, &keys)?;
        Ok(kept)
    }
}
