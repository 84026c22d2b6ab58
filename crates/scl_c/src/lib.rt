//! The layer for C: a static library, whose header is `capi/scl.h`.
#![tactic(auto)]

mod catalogue;
mod described;
mod handle;
mod status;
mod text;

ghost use Rattle.std.specs.Prelude.{◌≡◌, ◌<◌, codes, pos};
ghost use Rattle.std.specs.Fmt.{decimal};
ghost use Rattle.scl_description.specs.Rows.{lone, row_entry};
ghost use Rattle.scl_description.specs.Lines.{lines_of};
ghost use Rattle.scl_describe.specs.Descriptions.{version_entry};
ghost use Rattle.scl_requests.specs.Requests.{is_described, kind_of};
ghost use Rattle.scl_cl.specs.Program.{program_answer};
ghost use Rattle.scl_c.specs.Catalogues.{IsDescribedBy, IsDescribedWhere, IsFirstWrongLine};
ghost use Rattle.scl_c.specs.Described.{AsksReadAgain};
ghost use Rattle.scl_c.specs.Texts.{IsTextGiven, HoldsReadAgain};
ghost use Rattle.scl_catalogue_default.specs.Over.{read_over};
ghost use Rattle.scl_catalogue_default.specs.Text.{built_in_text};
ghost use Rattle.scl_catalogue_text.specs.Lines.{read};

use catalogue::{nothing, unread};
pub use handle::{scl_catalogue_describe, scl_catalogue_drop, scl_catalogue_new};
use scl_catalogue_default::over_built_in;
use scl_cl::Commands;
use scl_requests::asks_description;
use std::alloc::Global;

/// The version of the protocol.
const PROTOCOL: u32 = 1;

/// The version of the protocol, as the row `version` says it.
#[unsafe(no_mangle)]
pub extern "C" fn scl_version() -> u32
    ensures { version_entry ≡ row_entry (codes "version") (lone (decimal result)) }
{
    PROTOCOL
}

/// Answers the request whose text is in memory by the text of its answer, as `ccline` does (docs/RULES.md, Requests and
/// Answers). The status is 0 where the whole text stands at the front of `room`, 1 where it is longer than `room`, 2 for a
/// bad line, 3 where memory was refused. `wanted` is then the length of the text (0, 1), the number of the bad line, or 0.
/// The rest of `room`, and all of it where the status is not 0, is as it was.
#[unsafe(no_mangle)]
pub extern "C" fn scl_run(alloc: Global, request: &[u8], room: &mut [u8], wanted: &mut usize) -> i32
    ensures told { IsTextGiven (λ said. program_answer request.now ≡ said) room.old room.new wanted.new result }
    ensures read_again { result ≡ pos 0 → HoldsReadAgain request.now room.old room.new wanted.new }
{
    text::respond(alloc, &Commands, request, room, wanted)
}

/// Answers the request whose text is in memory by a description of its answer, or by what its first line asks, as `describe`
/// does (docs/PROTOCOL.md), by the built-in catalogue, which is read anew where a description is requested. The statuses, `wanted` and `room` are as those of
/// `scl_run`, but that the status is 5, in place of 2, where the bad line is one of a setting.
/// It is 6 where a line of the built-in text itself is wrong, of which `wanted` is then the number: the repository's gate reads
/// that text, so none is.
#[tactic(auto, using(crate::proofs::AgainLemmas::asks_again, crate::proofs::CatalogueLemmas::with_description, crate::proofs::CatalogueLemmas::without_description))]
#[unsafe(no_mangle)]
pub extern "C" fn scl_describe(
    alloc: Global,
    request: &[u8],
    room: &mut [u8],
    wanted: &mut usize,
) -> i32
    ensures told { IsDescribedWhere (is_described (kind_of (lines_of request.now))) (read built_in_text) request.now room.old room.new wanted.new result }
    ensures read_again { result ≡ pos 0 → AsksReadAgain request.now }
{
    if asks_description(request) {
        described::describe_by_built_in(alloc, request, room, wanted)
    } else {
        described::describe_by(alloc, &nothing(alloc), request, room, wanted)
    }
}

/// The same by a catalogue whose text is in memory (catalogue/README.md), over the built-in one. The status is 6 where a line of
/// that text is wrong: `wanted` is then the number of the first one, and the request is not read.
#[tactic(auto, using(crate::proofs::AgainLemmas::asks_again, crate::proofs::CatalogueLemmas::by_catalogue, crate::proofs::CatalogueLemmas::by_unread, crate::proofs::CatalogueLemmas::never_told, crate::proofs::CatalogueLemmas::first_wrong, crate::proofs::CatalogueLemmas::never_wrong))]
#[unsafe(no_mangle)]
pub extern "C" fn scl_describe_with(
    alloc: Global,
    catalogue: &[u8],
    request: &[u8],
    room: &mut [u8],
    wanted: &mut usize,
) -> i32
    ensures told { IsDescribedBy (read_over catalogue.now) request.now room.old room.new wanted.new result }
    ensures read_again { result ≡ pos 0 → AsksReadAgain request.now }
    ensures wrong { result ≡ pos 6 → 0 < wanted.new → IsFirstWrongLine catalogue.now wanted.new }
{
    match over_built_in(alloc, catalogue) {
        Ok(catalogue) => described::describe_by(alloc, &catalogue, request, room, wanted),
        Err(error) => unread(error, wanted),
    }
}
