//! Where the words of options go.
ghost use Rattle.std.specs.Prelude.{◌≡◌};
ghost use Rattle.scl_values.specs.Seen.{seen};
ghost use Rattle.scl_gnu_reading.specs.Data.{kind_of, word_of};
ghost use Rattle.scl_gnu_reading.specs.Places.{place, place_of, places_of};

use super::data::{ArgData, Kind};
use scl_args::{Argument, ReadArg, Test};

/// Where the words of an option go: to a list of the command, or to none; or the option is refused (docs/RULES.md, Gcc).
#[derive(Clone, Copy, Debug, PartialEq, Eq)]
pub enum Place {
    /// The list of common words.
    Common,
    /// The list of words that do not change the result.
    Unhashed,
    /// The list of words that name architectures.
    Arch,
    /// The list of words for the preprocessor.
    Preprocessor,
    /// The list of words about dependencies.
    Dependency,
    /// No list.
    Nowhere,
    /// The option is refused, by its flag.
    Refused,
}

/// Where the words of options of the kind go: of outer options, and of inner ones, after `-Xclang`.
pub(crate) fn places_of_kind(kind: Kind) -> (Place, Place)
    ensures { result ≡ places_of kind }
{
    match kind {
        Kind::TooHardFlag => (Place::Refused, Place::Refused),
        Kind::TooHard => (Place::Refused, Place::Refused),
        Kind::DiagnosticsColor => (Place::Nowhere, Place::Common),
        Kind::DiagnosticsColorFlag => (Place::Nowhere, Place::Common),
        Kind::NoDiagnosticsColorFlag => (Place::Common, Place::Common),
        Kind::Arch => (Place::Arch, Place::Common),
        Kind::Coverage => (Place::Common, Place::Refused),
        Kind::TestCoverage => (Place::Common, Place::Refused),
        Kind::DepArgumentPath => (Place::Dependency, Place::Dependency),
        Kind::DepTarget => (Place::Nowhere, Place::Dependency),
        Kind::NeedDepTarget => (Place::Dependency, Place::Dependency),
        Kind::DoCompilation => (Place::Nowhere, Place::Refused),
        Kind::ExtraHashFile => (Place::Common, Place::Common),
        Kind::ExtraHashFileClangModuleFile => (Place::Common, Place::Common),
        Kind::Language => (Place::Nowhere, Place::Refused),
        Kind::SplitDwarf => (Place::Common, Place::Refused),
        Kind::Output => (Place::Nowhere, Place::Refused),
        Kind::PassThrough => (Place::Common, Place::Common),
        Kind::PassThroughFlag => (Place::Common, Place::Common),
        Kind::PassThroughPath => (Place::Common, Place::Common),
        Kind::PreprocessorArgument => (Place::Preprocessor, Place::Preprocessor),
        Kind::PreprocessorArgumentFlag => (Place::Preprocessor, Place::Preprocessor),
        Kind::PreprocessorArgumentPath => (Place::Preprocessor, Place::Preprocessor),
        Kind::ProfileGenerate => (Place::Common, Place::Refused),
        Kind::ClangProfileUse => (Place::Common, Place::Refused),
        Kind::SerializeDiagnostics => (Place::Nowhere, Place::Common),
        Kind::UnhashedFlag => (Place::Unhashed, Place::Unhashed),
        Kind::Unhashed => (Place::Unhashed, Place::Unhashed),
        Kind::PedanticFlag => (Place::Common, Place::Refused),
        Kind::Standard => (Place::Common, Place::Refused),
        Kind::XClang => (Place::Nowhere, Place::Refused),
        Kind::ModuleOnlyFlag => (Place::Common, Place::Refused),
        Kind::ClangModuleOutput => (Place::Common, Place::Refused),
        Kind::IntegratedAs => (Place::Common, Place::Refused),
        Kind::NoIntegratedAs => (Place::Common, Place::Refused),
    }
}

/// Where the words of an option of the kind go.
pub(crate) fn place_of_kind(kind: Kind) -> Place
    ensures { result ≡ place kind }
{
    places_of_kind(kind).0
}

/// Where the words of the option go: of an unknown flag to the common words; of a raw word to no list.
pub fn place_of(option: &Argument<ArgData>) -> Place
    ensures { result ≡ place_of (seen kind_of word_of option.now) }
{
    match option {
        Argument::Raw(_) => Place::Nowhere,
        Argument::UnknownFlag(_) => Place::Common,
        Argument::Flag(_, value) | Argument::WithValue(_, value, _) => place_of_kind(value.kind()),
    }
}

impl Test<ArgData> for Place {
    ghost use Rattle.scl_gnu_reading.specs.Places.{goes_to};

    ghost passes = { goes_to };

    fn passes(&self, option: &Argument<ArgData>) -> bool {
        place_of(option) == *self
    }
}
