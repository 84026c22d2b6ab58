//! Descriptions in memory, by a catalogue.
ghost use Rattle.std.specs.Prelude.{◌≡◌, pos};
ghost use Rattle.scl_catalogue.specs.Views.{catalogue_of};
ghost use Rattle.scl_requests.specs.Requests.{AnswersBytes};
ghost use Rattle.scl_catalogue_default.specs.Text.{built_in_text};
ghost use Rattle.scl_catalogue_text.specs.Lines.{read};
ghost use Rattle.scl_c.specs.Catalogues.{IsDescribedBy};
ghost use Rattle.scl_c.specs.Described.{is_setting, line_at, AsksReadAgain, IsDescribed};

use crate::catalogue::unread;
use crate::status::{BAD, NEWER};
use crate::text::respond;
use scl_catalogue_default::built_in;
use scl_describe::Catalogue;
use scl_description::{cut_at, next_line};
use scl_requests::Requests;
use std::alloc::Global;

/// The line of a number, of which the first is 1; an empty one where there is none.
fn line_at(bytes: &[u8], number: usize) -> &[u8]
    ensures { result.now ≡ line_at number bytes.now }
{
    let mut before = number.saturating_sub(1);
    let mut left = bytes;
    while let Some((line, rest)) = next_line(left) {
        if before == 0 {
            return line;
        }
        before -= 1;
        left = rest;
    }
    &[]
}

/// Whether a line is one of a setting.
fn is_setting(line: &[u8]) -> bool
    ensures { result ≡ is_setting line.now }
{
    match cut_at(b' ', line) {
        Some((keyword, _)) => keyword == b"setting".as_slice(),
        None => false,
    }
}

/// Puts the description of the answer to a request, with the hazards that the catalogue knows.
#[tactic(auto, using(crate::proofs::DescribedLemmas::given_otherwise, crate::proofs::DescribedLemmas::given_newer, crate::proofs::DescribedLemmas::given_bad))]
pub(crate) fn describe_by(
    alloc: Global,
    catalogue: &Catalogue,
    request: &[u8],
    room: &mut [u8],
    wanted: &mut usize,
) -> i32
    ensures { IsDescribed (AnswersBytes (catalogue_of catalogue.now) request.now) request.now room.old room.new wanted.new result }
{
    let status = respond(alloc, &Requests { catalogue }, request, room, wanted);
    if status != BAD {
        return status;
    }
    if is_setting(line_at(request, *wanted)) {
        NEWER
    } else {
        BAD
    }
}

/// The same by the built-in catalogue.
#[tactic(auto, using(crate::proofs::AgainLemmas::asks_again, crate::proofs::CatalogueLemmas::by_catalogue, crate::proofs::CatalogueLemmas::by_unread, crate::proofs::CatalogueLemmas::never_told))]
pub(crate) fn describe_by_built_in(
    alloc: Global,
    request: &[u8],
    room: &mut [u8],
    wanted: &mut usize,
) -> i32
    ensures told { IsDescribedBy (read built_in_text) request.now room.old room.new wanted.new result }
    ensures read_again { result ≡ pos 0 → AsksReadAgain request.now }
{
    match built_in(alloc) {
        Ok(catalogue) => describe_by(alloc, &catalogue, request, room, wanted),
        Err(error) => unread(error, wanted),
    }
}
