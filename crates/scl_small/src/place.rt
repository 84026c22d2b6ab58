//! Where options go.
ghost use Rattle.std.specs.Prelude.{◌≡◌};
ghost use Rattle.std.specs.Option.{option_map};
ghost use Rattle.scl_values.specs.Seen.{seen};
ghost use Rattle.scl_text.specs.Refusals.{verdict_of};
ghost use Rattle.scl_small.specs.Places.{place_of, refused_at};
ghost use Rattle.scl_small.specs.declared.place.Place.{Place};

use scl_args::{Argument, ExactArg, ReadArg, Test};
use scl_text::refusal::Refusal;

/// Where an option goes, or how it ends the reading (docs/RULES.md, Diab and TaskingVX).
#[derive(Clone, Copy, Debug, PartialEq, Eq)]
pub enum Place {
    /// It is an input.
    Input,
    /// It requests a compilation.
    CompileFlag,
    /// It gives the path of the object file.
    Output,
    /// It gives the path of the dependency file.
    DepFile,
    /// The list of common words.
    Common,
    /// The list of words for the preprocessor.
    Preprocessor,
    /// The list of words about dependencies.
    Dependency,
    /// It is refused, by its flag.
    Refused,
    /// The line compiles nothing.
    NotCompilation,
}

/// The values of a compiler's options, and where each option goes.
pub trait Placed: ExactArg + ReadArg {
    /// Where the options of a kind go.
    ghost place: { Self.Kind → Place };

    /// Where the options of the kind go.
    fn place(kind: Self::Kind) -> Place
        ensures { result ≡ place kind };
}

/// Where the option goes: a raw word to the inputs, an unknown flag to the common words, any other by its kind.
pub fn place_of<T: Placed>(option: &Argument<T>) -> Place
    ensures { result ≡ place_of T.place (seen T.kind_of T.word_of option.now) }
{
    match option {
        Argument::Raw(_) => Place::Input,
        Argument::UnknownFlag(_) => Place::Common,
        Argument::Flag(_, value) | Argument::WithValue(_, value, _) => T::place(value.kind()),
    }
}

impl<T: Placed> Test<T> for Place {
    ghost use Rattle.scl_small.specs.Places.{goes_to};

    ghost passes = { goes_to T.place };

    fn passes(&self, option: &Argument<T>) -> bool {
        place_of(option) == *self
    }
}

/// The refusal of an option, if its place is one.
pub(crate) fn refuse_by_place<T: Placed>(option: &Argument<T>) -> Option<Refusal>
    ensures { option_map verdict_of result ≡ refused_at T.place (seen T.kind_of T.word_of option.now) }
{
    match place_of(option) {
        Place::Refused => Some(Refusal::CannotCache(option.flag(), None)),
        Place::NotCompilation => Some(Refusal::NotCompilation),
        Place::Input
        | Place::CompileFlag
        | Place::Output
        | Place::DepFile
        | Place::Common
        | Place::Preprocessor
        | Place::Dependency => None,
    }
}
