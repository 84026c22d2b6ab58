//! Where the words of inner options go.
ghost use Rattle.std.specs.Prelude.{◌≡◌};
ghost use Rattle.scl_values.specs.Seen.{seen};
ghost use Rattle.scl_gnu_reading.specs.Data.{kind_of, word_of};
ghost use Rattle.scl_msvc_reading.specs.Inners.{inner_place, inner_place_of};

use crate::msvc::place::Place;
use scl_args::{Argument, ReadArg, Test};
use scl_gnu_reading::gcc::{ArgData, Kind};

/// Where the words of an inner option of the kind go.
pub(crate) fn inner_place_of_kind(kind: Kind) -> Place
    ensures { result ≡ inner_place kind }
{
    match kind {
        Kind::TooHardFlag => Place::Refused,
        Kind::TooHard => Place::Refused,
        Kind::DiagnosticsColor => Place::Common,
        Kind::DiagnosticsColorFlag => Place::Common,
        Kind::NoDiagnosticsColorFlag => Place::Common,
        Kind::Arch => Place::Common,
        Kind::Coverage => Place::Refused,
        Kind::TestCoverage => Place::Refused,
        Kind::DepArgumentPath => Place::Dependency,
        Kind::DepTarget => Place::Dependency,
        Kind::NeedDepTarget => Place::Dependency,
        Kind::DoCompilation => Place::Refused,
        Kind::ExtraHashFile => Place::Common,
        Kind::ExtraHashFileClangModuleFile => Place::Refused,
        Kind::Language => Place::Refused,
        Kind::SplitDwarf => Place::Refused,
        Kind::Output => Place::Refused,
        Kind::PassThrough => Place::Common,
        Kind::PassThroughFlag => Place::Common,
        Kind::PassThroughPath => Place::Common,
        Kind::PreprocessorArgument => Place::Preprocessor,
        Kind::PreprocessorArgumentFlag => Place::Preprocessor,
        Kind::PreprocessorArgumentPath => Place::Preprocessor,
        Kind::ProfileGenerate => Place::Common,
        Kind::ClangProfileUse => Place::Common,
        Kind::SerializeDiagnostics => Place::Common,
        Kind::UnhashedFlag => Place::Unhashed,
        Kind::Unhashed => Place::Unhashed,
        Kind::PedanticFlag => Place::Common,
        Kind::Standard => Place::Common,
        Kind::XClang => Place::Refused,
        Kind::ModuleOnlyFlag => Place::Refused,
        Kind::ClangModuleOutput => Place::Refused,
        Kind::IntegratedAs => Place::Refused,
        Kind::NoIntegratedAs => Place::Refused,
    }
}

/// Where the words of the inner option go; a word without an owner goes to the common words.
pub fn inner_place_of(option: &Argument<ArgData>) -> Place
    ensures { result ≡ inner_place_of (seen kind_of word_of option.now) }
{
    match option {
        Argument::Raw(_) | Argument::UnknownFlag(_) => Place::Common,
        Argument::Flag(_, value) | Argument::WithValue(_, value, _) => {
            inner_place_of_kind(value.kind())
        }
    }
}

/// The test for inner options whose words go to this place.
#[derive(Clone, Copy)]
pub(crate) struct Inside(pub(crate) Place);

impl Test<ArgData> for Inside {
    ghost use Rattle.scl_msvc_reading.specs.Inners.{goes_inside_to};

    ghost passes = { λ test. goes_inside_to test.0 };

    fn passes(&self, option: &Argument<ArgData>) -> bool {
        inner_place_of(option) == self.0
    }
}
