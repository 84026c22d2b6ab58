//! Where the words of inner options go.
ghost use Rattle.std.specs.Prelude.{◌≡◌};
ghost use Rattle.scl_values.specs.Seen.{seen};
ghost use Rattle.scl_gnu_reading.specs.Data.{kind_of, word_of};
ghost use Rattle.scl_gnu_reading.specs.Inners.{inner_place, inner_place_of};

use crate::gcc::data::{ArgData, Kind};
use crate::gcc::place::{Place, places_of_kind};
use scl_args::{Argument, ReadArg, Test};

/// Where the words of an inner option of the kind go.
pub(crate) fn inner_place_of_kind(kind: Kind) -> Place
    ensures { result ≡ inner_place kind }
{
    places_of_kind(kind).1
}

/// Where the words of the inner option go: of a raw word to the common words; an unknown flag is refused.
pub fn inner_place_of(option: &Argument<ArgData>) -> Place
    ensures { result ≡ inner_place_of (seen kind_of word_of option.now) }
{
    match option {
        Argument::Raw(_) => Place::Common,
        Argument::UnknownFlag(_) => Place::Refused,
        Argument::Flag(_, value) | Argument::WithValue(_, value, _) => {
            inner_place_of_kind(value.kind())
        }
    }
}

/// The test for inner options whose words go to this place.
#[derive(Clone, Copy)]
pub(crate) struct Inside(pub(crate) Place);

impl Test<ArgData> for Inside {
    ghost use Rattle.scl_gnu_reading.specs.Inners.{goes_inside_to};

    ghost passes = { λ test. goes_inside_to test.0 };

    fn passes(&self, option: &Argument<ArgData>) -> bool {
        inner_place_of(option) == self.0
    }
}
