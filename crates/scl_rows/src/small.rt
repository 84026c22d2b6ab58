//! The rows of the command lines of Diab and TaskingVX.
ghost use Rattle.std.specs.Prelude.{◌≡◌, IfOk, map};
ghost use Rattle.scl_rows.specs.Rows.{told};
ghost use Rattle.scl_rows.specs.SmallRows.{destination_at, small_rows};

use crate::destination::Destination;
use crate::line::push_line;
use crate::origin::Origin;
use crate::row::Row;
use crate::ways::Ways;
use scl_args::{Argument, Mem, NormalizedDisposition, ShortFlagsJoined, Sides};
use scl_kinds::NamedKind;
use scl_small::{Place, Placed, Rules, SmallReading, place_of};
use std::alloc::Global;

/// The destination of a place.
fn destination_at(place: Place) -> Destination
    ensures { result ≡ destination_at place }
{
    match place {
        Place::Input => Destination::Input,
        Place::CompileFlag => Destination::CompileFlag,
        Place::Output => Destination::Output,
        Place::DepFile => Destination::DependencyFile,
        Place::Common => Destination::Common,
        Place::Preprocessor => Destination::Preprocessor,
        Place::Dependency => Destination::Dependency,
        Place::Refused => Destination::Refused,
        Place::NotCompilation => Destination::Refused,
    }
}

/// Where options go, by their places.
#[derive(Drop)]
struct ByPlace;

impl Sides for ByPlace {
    ghost use Rattle.scl_args.specs.Options.{side_of_flag};

    ghost side = { λ _. side_of_flag };

    fn side(&self, flag: &str) -> NormalizedDisposition {
        ShortFlagsJoined.side(flag)
    }
}

impl<T: Placed> Ways<T> for ByPlace {
    ghost use Rattle.scl_small.specs.Places.{place_of};
    ghost use Rattle.scl_rows.specs.SmallRows.{destination_at};
    ghost use Rattle.scl_rows.specs.declared.origin.Origin.TheVariants as origins;

    ghost goes = { λ _ o. destination_at (place_of T.place o) };

    ghost comes = { λ _. origins.Given };

    fn destination(&self, option: &Argument<T>) -> Destination {
        destination_at(place_of(option))
    }

    fn origin(&self) -> Origin {
        Origin::Given
    }
}

/// The rows of a command line of Diab or TaskingVX, those of its options (docs/RULES.md, Rows of options).
pub fn small_rows<T: Rules>(alloc: Global, reading: &SmallReading<T>) -> Mem<Vec<Row>>
where
    T::Kind: NamedKind,
    ensures { IfOk result (λ rows. map told rows.items ≡ small_rows T.Kind.name_of T.place reading.now) }
{
    let mut rows = Vec::new(alloc);
    push_line(alloc, &mut rows, reading.outer(), &ByPlace)?;
    Ok(rows)
}
