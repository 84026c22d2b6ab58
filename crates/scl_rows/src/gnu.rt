//! The rows of the command lines of Gcc and Clang.
ghost use Rattle.std.specs.Prelude.{◌≡◌, IfOk, map};
ghost use Rattle.scl_gnu_reading.specs.Data.{kind_of, word_of};
ghost use Rattle.scl_values.specs.Seen.{seen};
ghost use Rattle.scl_rows.specs.GnuRows.{destination_at, gnu_rows, raw_goes, unlisted, unlisted_kind};
ghost use Rattle.scl_rows.specs.Rows.{told};

use crate::added::rows_recorded;
use crate::destination::Destination;
use crate::line::push_line;
use crate::origin::Origin;
use crate::row::{Row, append_rows};
use crate::ways::Ways;
use scl_args::{Argument, Mem, NormalizedDisposition, ReadArg, ShortFlagsJoined, Sides};
use scl_gnu_reading::gcc::{ArgData, GnuReading, Kind, Place, inner_place_of, place_of};
use std::alloc::Global;

/// The destination of an option whose words go to no list.
fn unlisted_kind(kind: Kind) -> Destination
    ensures { result ≡ unlisted_kind kind }
{
    match kind {
        Kind::DiagnosticsColor => Destination::Color,
        Kind::DiagnosticsColorFlag => Destination::Color,
        Kind::DepTarget => Destination::DependencyTarget,
        Kind::DoCompilation => Destination::CompileFlag,
        Kind::Language => Destination::Language,
        Kind::Output => Destination::Output,
        Kind::SerializeDiagnostics => Destination::Output,
        Kind::XClang => Destination::HandedOn,
        _ => Destination::Ignored,
    }
}

/// The destination of a raw word.
pub(crate) fn raw_goes(word: &[u8]) -> Destination
    ensures { result ≡ raw_goes word.now }
{
    if word == b"--".as_slice() {
        Destination::Mark
    } else {
        Destination::Input
    }
}

fn unlisted(option: &Argument<ArgData>) -> Destination
    ensures { result ≡ unlisted (seen kind_of word_of option.now) }
{
    match option {
        Argument::Raw(word) => raw_goes(word),
        Argument::UnknownFlag(_) => Destination::Ignored,
        Argument::Flag(_, value) | Argument::WithValue(_, value, _) => unlisted_kind(value.kind()),
    }
}

/// The destination of a place; `other` if the place is no list.
fn destination_at(place: Place, other: Destination) -> Destination
    ensures { result ≡ destination_at place other }
{
    match place {
        Place::Common => Destination::Common,
        Place::Unhashed => Destination::Unhashed,
        Place::Arch => Destination::Architecture,
        Place::Preprocessor => Destination::Preprocessor,
        Place::Dependency => Destination::Dependency,
        Place::Nowhere => other,
        Place::Refused => Destination::Refused,
    }
}

/// Where outer options go.
#[derive(Drop)]
struct Outer;

impl Sides for Outer {
    ghost use Rattle.scl_args.specs.Options.{side_of_flag};

    ghost side = { λ _. side_of_flag };

    fn side(&self, flag: &str) -> NormalizedDisposition {
        ShortFlagsJoined.side(flag)
    }
}

impl Ways<ArgData> for Outer {
    ghost use Rattle.scl_rows.specs.GnuRows.{outer_goes};
    ghost use Rattle.scl_rows.specs.declared.origin.Origin.TheVariants as origins;

    ghost goes = { λ _. outer_goes };

    ghost comes = { λ _. origins.Given };

    fn destination(&self, option: &Argument<ArgData>) -> Destination {
        destination_at(place_of(option), unlisted(option))
    }

    fn origin(&self) -> Origin {
        Origin::Given
    }
}

/// Where inner options go.
#[derive(Drop)]
struct Inner;

impl Sides for Inner {
    ghost use Rattle.scl_args.specs.Options.{side_of_flag};

    ghost side = { λ _. side_of_flag };

    fn side(&self, flag: &str) -> NormalizedDisposition {
        ShortFlagsJoined.side(flag)
    }
}

impl Ways<ArgData> for Inner {
    ghost use Rattle.scl_rows.specs.GnuRows.{inner_goes};
    ghost use Rattle.scl_rows.specs.declared.origin.Origin.TheVariants as origins;

    ghost goes = { λ _. inner_goes };

    ghost comes = { λ _. origins.Xclang };

    fn destination(&self, option: &Argument<ArgData>) -> Destination {
        destination_at(inner_place_of(option), Destination::Ignored)
    }

    fn origin(&self) -> Origin {
        Origin::Xclang
    }
}

/// The rows of a command line of Gcc or Clang: those of its options, then those of inner options, then those that the rules
/// add to a compilation (docs/RULES.md, Rows of options).
pub fn gnu_rows(alloc: Global, reading: &GnuReading) -> Mem<Vec<Row>>
    ensures { IfOk result (λ rows. map told rows.items ≡ gnu_rows reading.now) }
{
    let mut rows = Vec::new(alloc);
    push_line(alloc, &mut rows, reading.outer(), &Outer)?;
    push_line(alloc, &mut rows, reading.inner(), &Inner)?;
    let options = reading.outer().line().options();
    append_rows(&mut rows, rows_recorded(alloc, options, reading.outcome())?)?;
    Ok(rows)
}
