//! Documents of JSON that are made of rows (docs/PROTOCOL.md, JSON).
ghost use Rattle.std.specs.Prelude.{◌≡◌, ◌++◌, ◌∷◌, [], IfOk};
ghost use Rattle.scl_description.specs.RowLists.{held};
ghost use Rattle.scl_description.specs.Rows.{entry_rows};
ghost use Rattle.scl_describe.specs.Descriptions.{version_entry};
ghost use Rattle.scl_json.specs.Objects.{entries_in, json_of};
ghost use Rattle.scl_report.specs.Firsts.{texts};

use scl_cl::Mem;
use scl_description::{RowList, tell_word};
use scl_json::json_of;
use std::alloc::Global;

/// The rows of a document of which only its version is said.
pub(crate) fn versioned(alloc: Global) -> Mem<RowList>
    ensures { IfOk result (λ rows. held rows ≡ entry_rows version_entry) }
{
    let mut rows = RowList::new(alloc);
    tell_word(&mut rows, "version", b"1")?;
    Ok(rows)
}

/// The object with these members first, and those of these rows.
pub(crate) fn object_with(alloc: Global, firsts: &[&str], rows: &RowList) -> Mem<Vec<u8>>
    ensures { IfOk result (λ object. object.items ≡ json_of (entries_in (texts firsts.now) (held rows.now))) }
{
    json_of(alloc, firsts, rows.rows())
}

/// The same in a line.
pub(crate) fn document_of(alloc: Global, firsts: &[&str], rows: &RowList) -> Mem<Vec<u8>>
    ensures { IfOk result (λ document. document.items ≡ json_of (entries_in (texts firsts.now) (held rows.now)) ++ 10 ∷ []) }
{
    let mut document = object_with(alloc, firsts, rows)?;
    document.push(b'\n')?;
    Ok(document)
}
