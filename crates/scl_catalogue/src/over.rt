//! A catalogue of one's own over another.
ghost use Rattle.std.specs.Prelude.{◌≡◌, map, IfOk};
ghost use Rattle.scl_catalogue.specs.Over.{is_named, not_named_in, over};
ghost use Rattle.scl_catalogue.specs.Views.{catalogue_of, entry_of};

use crate::catalogue::Catalogue;
use crate::entry::Entry;
use scl_values::Mem;
use std::alloc::Global;

fn is_named(entries: &[Entry], name: &[u8]) -> bool
    ensures { result ≡ is_named (map entry_of entries.now) name.now }
{
    for entry in entries {
        if entry.name.as_slice() == name {
            return true;
        }
    }
    false
}

/// The entries whose name none of one's own has.
fn not_named_in(alloc: Global, own: &[Entry], entries: Vec<Entry>) -> Mem<Vec<Entry>>
    ensures { IfOk result (λ kept. map entry_of kept.items ≡ not_named_in (map entry_of own.now) (map entry_of entries.items)) }
{
    let mut kept = Vec::with_capacity(alloc, entries.len())?;
    for entry in entries {
        if !is_named(own, &entry.name) {
            kept.push(entry)?;
        }
    }
    Ok(kept)
}

impl Catalogue {
    /// This catalogue, and after it the groups of the base, and those of its entries that have another name than each of
    /// this one's.
    pub fn over(self, alloc: Global, base: Catalogue) -> Mem<Catalogue>
        ensures { IfOk result (λ both. catalogue_of both ≡ over (catalogue_of self) (catalogue_of base)) }
    {
        let Catalogue {
            mut groups,
            mut entries,
        } = self;
        let Catalogue {
            groups: mut more,
            entries: base,
        } = base;
        let mut kept = not_named_in(alloc, &entries, base)?;
        groups.append(&mut more)?;
        entries.append(&mut kept)?;
        Ok(Catalogue { groups, entries })
    }
}
