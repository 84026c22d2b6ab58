//! Requests of each kind.
ghost use Rattle.std.specs.Prelude.{◌≡◌, drop};
ghost use Rattle.scl_description.specs.Lines.{lines_of};
ghost use Rattle.scl_requests.specs.Requests.{is_described, kind_in, kind_of};

use crate::depfile::depfile_said;
use crate::joining::joined;
use crate::making::made_by;
use crate::mapping::mapped;
use crate::naming::named;
use scl_cl::{Mem, Service};
use scl_describe::{Catalogue, Descriptions};
use scl_description::next_line;
use scl_talks::looked_up;
use std::alloc::Global;

/// What a request asks.
#[derive(Debug, Clone, Copy, PartialEq, Eq)]
pub enum Kind {
    /// What a program's name means.
    Name,
    /// The text of several runs of the preprocessor.
    Join,
    /// A preprocessed text told by base directories.
    Map,
    /// A dependency file.
    Depfile,
    /// Which release answers.
    MadeBy,
    /// What to look up next.
    Lookup,
    /// A description.
    Description,
}

/// What a request asks whose first line this is.
fn kind_in(line: &[u8]) -> Kind
    ensures { result ≡ kind_in line.now }
{
    if line == b"name".as_slice() {
        Kind::Name
    } else if line == b"join".as_slice() {
        Kind::Join
    } else if line == b"map".as_slice() {
        Kind::Map
    } else if line == b"depfile".as_slice() {
        Kind::Depfile
    } else if line == b"made-by".as_slice() {
        Kind::MadeBy
    } else if line == b"lookup".as_slice() {
        Kind::Lookup
    } else {
        Kind::Description
    }
}

/// What a request asks.
fn kind_of(bytes: &[u8]) -> Kind
    ensures { result ≡ kind_of (lines_of bytes.now) }
{
    match next_line(bytes) {
        Some((line, _)) => kind_in(line),
        None => Kind::Description,
    }
}

/// Whether a description is requested, or a lookup, which begins with one. All else is answered without what is known of compilers, so who answers that need not
/// read a catalogue.
pub fn asks_description(bytes: &[u8]) -> bool
    ensures { result ≡ is_described (kind_of (lines_of bytes.now)) }
{
    match kind_of(bytes) {
        Kind::Description | Kind::Lookup => true,
        Kind::Name | Kind::Join | Kind::Map | Kind::Depfile | Kind::MadeBy => false,
    }
}

/// What comes after the first line.
fn after_first(bytes: &[u8]) -> &[u8]
    ensures { lines_of result.now ≡ drop 1 (lines_of bytes.now) }
{
    match next_line(bytes) {
        Some((_, rest)) => rest,
        None => bytes,
    }
}

/// Answers a request by what its first line asks: what the name of a program means (`name`), the text of several runs of the
/// preprocessor (`join`), a preprocessed text told by base directories (`map`), a dependency file (`depfile`), which
/// release answers (`made-by`), what to look up next (`lookup`), and else a description, with what a catalogue knows of compilers (docs/PROTOCOL.md, A request).
#[derive(Debug, Clone, Copy)]
pub struct Requests<'a> {
    /// What is known of compilers.
    pub catalogue: &'a Catalogue,
}

impl<'a> Service for Requests<'a> {
    ghost use Rattle.scl_catalogue.specs.Views.{catalogue_of};
    ghost use Rattle.scl_requests.specs.Requests.{AnswersBytes};

    ghost answers = { λ service bytes said. AnswersBytes (catalogue_of service.catalogue.now) bytes said };

    #[tactic(auto, using(crate::proofs::RequestLaws::name_said, crate::proofs::RequestLaws::join_said, crate::proofs::RequestLaws::map_said, crate::proofs::RequestLaws::depfile_said, crate::proofs::RequestLaws::made_by_said, crate::proofs::RequestLaws::lookup_said, crate::proofs::RequestLaws::description_said))]
    fn answer(&self, alloc: Global, bytes: Vec<u8>) -> Mem<Result<Vec<u8>, u64>> {
        match kind_of(&bytes) {
            Kind::Name => Ok(named(alloc, after_first(&bytes))?),
            Kind::Join => Ok(joined(alloc, after_first(&bytes))?),
            Kind::Map => Ok(mapped(alloc, after_first(&bytes))?),
            Kind::Depfile => Ok(depfile_said(alloc, after_first(&bytes))?),
            Kind::MadeBy => Ok(made_by(alloc, after_first(&bytes))?),
            Kind::Lookup => Ok(looked_up(alloc, self.catalogue, after_first(&bytes))?),
            Kind::Description => {
                let descriptions = Descriptions {
                    catalogue: self.catalogue,
                };
                descriptions.answer(alloc, bytes)
            }
        }
    }
}
