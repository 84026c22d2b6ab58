//! The rows of the command lines of Msvc's cl and of clang-cl.
ghost use Rattle.std.specs.Prelude.{◌≡◌, IfOk, map};
ghost use Rattle.scl_msvc_reading.specs.Data.{kind_of, word_of};
ghost use Rattle.scl_values.specs.Seen.{seen};
ghost use Rattle.scl_rows.specs.MsvcRows.{destination_at, msvc_rows, unlisted, unlisted_kind};
ghost use Rattle.scl_rows.specs.Rows.{told};

use crate::destination::Destination;
use crate::gnu::raw_goes;
use crate::line::push_line;
use crate::origin::Origin;
use crate::row::Row;
use crate::ways::Ways;
use scl_args::{Argument, Mem, NormalizedDisposition, ReadArg, ShortFlagsJoined, Sides};
use scl_gnu_reading::gcc;
use scl_msvc_reading::msvc::{
    ArgData, ExternalIncludesApart, Kind, MsvcReading, Place, inner_place_of, place_of,
};
use std::alloc::Global;

/// The destination of an option whose words go to no list.
fn unlisted_kind(kind: Kind) -> Destination
    ensures { result ≡ unlisted_kind kind }
{
    match kind {
        Kind::SuppressCompilation => Destination::Refused,
        Kind::DoCompilation => Destination::CompileFlag,
        Kind::Output => Destination::Output,
        Kind::CInput => Destination::Input,
        Kind::CxxInput => Destination::Input,
        Kind::DepFile => Destination::DependencyFile,
        Kind::XClang => Destination::HandedOn,
        Kind::Clang => Destination::HandedOn,
        _ => Destination::Ignored,
    }
}

fn unlisted(option: &Argument<ArgData>) -> Destination
    ensures { result ≡ unlisted (seen kind_of word_of option.now) }
{
    match option {
        Argument::Raw(word) => raw_goes(word),
        Argument::UnknownFlag(_) => Destination::Ignored,
        Argument::Flag(_, value) | Argument::WithValue(_, value, _) => unlisted_kind(value.kind()),
    }
}

/// The destination of a place; `other` if the place is no list.
fn destination_at(place: Place, other: Destination) -> Destination
    ensures { result ≡ destination_at place other }
{
    match place {
        Place::Common => Destination::Common,
        Place::Unhashed => Destination::Unhashed,
        Place::Preprocessor => Destination::Preprocessor,
        Place::Dependency => Destination::Dependency,
        Place::Nowhere => other,
        Place::Refused => Destination::Refused,
    }
}

/// Where outer options go.
#[derive(Drop)]
struct Outer;

impl Sides for Outer {
    ghost use Rattle.scl_msvc_reading.specs.Places.{side_of_flag};

    ghost side = { λ _. side_of_flag };

    fn side(&self, flag: &str) -> NormalizedDisposition {
        ExternalIncludesApart.side(flag)
    }
}

impl Ways<ArgData> for Outer {
    ghost use Rattle.scl_rows.specs.MsvcRows.{outer_goes};
    ghost use Rattle.scl_rows.specs.declared.origin.Origin.TheVariants as origins;

    ghost goes = { λ _. outer_goes };

    ghost comes = { λ _. origins.Given };

    fn destination(&self, option: &Argument<ArgData>) -> Destination {
        destination_at(place_of(option), unlisted(option))
    }

    fn origin(&self) -> Origin {
        Origin::Given
    }
}

/// Where inner options go, by the flag of their line.
#[derive(Drop)]
struct Inner(Origin);

impl Sides for Inner {
    ghost use Rattle.scl_args.specs.Options.{side_of_flag};

    ghost side = { λ _. side_of_flag };

    fn side(&self, flag: &str) -> NormalizedDisposition {
        ShortFlagsJoined.side(flag)
    }
}

impl Ways<gcc::ArgData> for Inner {
    ghost use Rattle.scl_rows.specs.MsvcRows.{inner_goes};

    ghost goes = { λ _. inner_goes };

    ghost comes = { λ inner. inner.0 };

    fn destination(&self, option: &Argument<gcc::ArgData>) -> Destination {
        destination_at(inner_place_of(option), Destination::Ignored)
    }

    fn origin(&self) -> Origin {
        self.0
    }
}

/// The rows of a command line of cl or clang-cl (docs/RULES.md, Rows of options): those of its options, of the options after
/// `-Xclang`, and of those after `-clang:`. None if its environment is refused.
pub fn msvc_rows(alloc: Global, reading: &MsvcReading) -> Mem<Vec<Row>>
    ensures { IfOk result (λ rows. map told rows.items ≡ msvc_rows reading.now) }
{
    let mut rows = Vec::new(alloc);
    push_line(alloc, &mut rows, reading.outer(), &Outer)?;
    push_line(alloc, &mut rows, reading.xclang(), &Inner(Origin::Xclang))?;
    push_line(
        alloc,
        &mut rows,
        reading.clang(),
        &Inner(Origin::ClangColon),
    )?;
    Ok(rows)
}
