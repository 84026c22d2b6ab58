//! Why a command line compiles nothing.
ghost use Rattle.std.specs.Prelude.{◌≡◌, map};
ghost use Rattle.std.specs.List.{list_any};
ghost use Rattle.scl_rows.specs.Rows.{told};
ghost use Rattle.scl_report.specs.Nothing.{asks_for_assembly, is_other_mode, why_nothing};

use scl_cl::Mem;
use scl_rows::Row;
use scl_text::refusal::Refusal;
use std::alloc::Global;

/// Whether the option asks for something else than to compile.
#[tactic(auto, unfolding(crate::specs::Nothing::is_other_mode))]
fn is_other_mode(row: &Row) -> bool
    ensures { result ≡ is_other_mode (told row.now) }
{
    match &row.refusal {
        Some(Refusal::NotCompilation) => true,
        Some(Refusal::CannotCache(_, _)) | None => false,
    }
}

/// Whether the option is `-S`, which asks for assembly, and which the tables of most compilers have not.
#[tactic(auto, unfolding(crate::specs::Nothing::asks_for_assembly))]
fn asks_for_assembly(row: &Row) -> bool
    ensures { result ≡ asks_for_assembly (told row.now) }
{
    match row.given.first() {
        Some(word) => row.flag.is_none() && word.as_slice() == b"-S".as_slice(),
        None => false,
    }
}

fn some_ask_for_assembly(rows: &[Row]) -> bool
    ensures { result ≡ list_any asks_for_assembly (map told rows.now) }
{
    for row in rows {
        if asks_for_assembly(row) {
            return true;
        }
    }
    false
}

/// Why a line with these rows compiles nothing: the first flag that asks for something else, or that none asks to compile.
pub(crate) fn why_nothing(rows: &[Row]) -> &'static str
    ensures { result.now ≡ why_nothing (map told rows.now) }
{
    for row in rows {
        if is_other_mode(row) {
            return row.flag.unwrap_or("another mode");
        }
    }
    if some_ask_for_assembly(rows) {
        "-S"
    } else {
        "no flag says to compile and not to link"
    }
}

/// That a line with these rows compiles nothing, and why.
pub(crate) fn nothing_text(alloc: Global, rows: &[Row]) -> Mem<String> {
    let why = why_nothing(rows);
    format!(in alloc; "compiles nothing: {why}")
}
