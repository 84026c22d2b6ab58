//! Where the words of options go.
ghost use Rattle.std.specs.Prelude.{◌≡◌};
ghost use Rattle.scl_values.specs.Seen.{seen};
ghost use Rattle.scl_msvc_reading.specs.Data.{kind_of, word_of};
ghost use Rattle.scl_msvc_reading.specs.Places.{place, place_of, side_of_flag};

use super::data::{ArgData, Kind};
use scl_args::{Argument, NormalizedDisposition, ReadArg, Sides, Test};

/// Where the words of an option go: to a list of the command, or to none; or the option is refused (docs/RULES.md, Msvc).
#[derive(Clone, Copy, Debug, PartialEq, Eq)]
pub enum Place {
    /// The list of common words.
    Common,
    /// The list of words that do not change the result.
    Unhashed,
    /// The list of words for the preprocessor.
    Preprocessor,
    /// The list of words about dependencies.
    Dependency,
    /// No list.
    Nowhere,
    /// The option is refused, by its flag.
    Refused,
}

/// Where the words of an option of the kind go.
pub(crate) fn place_of_kind(kind: Kind) -> Place
    ensures { result ≡ place kind }
{
    match kind {
        Kind::TooHardFlag => Place::Refused,
        Kind::TooHard => Place::Refused,
        Kind::TooHardPath => Place::Refused,
        Kind::SuppressCompilation => Place::Nowhere,
        Kind::DoCompilation => Place::Nowhere,
        Kind::Output => Place::Nowhere,
        Kind::CInput => Place::Nowhere,
        Kind::CxxInput => Place::Nowhere,
        Kind::ClangLanguage => Place::Common,
        Kind::ClangModuleFile => Place::Common,
        Kind::ClangModuleOutput => Place::Common,
        Kind::ExtraHashFile => Place::Common,
        Kind::DebugInfo => Place::Common,
        Kind::ProgramDatabase => Place::Common,
        Kind::DepFile => Place::Nowhere,
        Kind::ShowIncludes => Place::Dependency,
        Kind::PreprocessorArgument => Place::Preprocessor,
        Kind::PreprocessorArgumentPath => Place::Preprocessor,
        Kind::ExternalIncludePath => Place::Common,
        Kind::PassThrough => Place::Common,
        Kind::PassThroughWithPath => Place::Common,
        Kind::PassThroughWithSuffix => Place::Common,
        Kind::XClang => Place::Nowhere,
        Kind::Clang => Place::Nowhere,
        Kind::Ignore => Place::Nowhere,
        Kind::IgnoreWithSuffix => Place::Nowhere,
    }
}

/// Where the words of the option go: of an unknown flag to the common words; of a raw word to no list.
pub fn place_of(option: &Argument<ArgData>) -> Place
    ensures { result ≡ place_of (seen kind_of word_of option.now) }
{
    match option {
        Argument::Raw(_) => Place::Nowhere,
        Argument::UnknownFlag(_) => Place::Common,
        Argument::Flag(_, value) | Argument::WithValue(_, value, _) => place_of_kind(value.kind()),
    }
}

impl Test<ArgData> for Place {
    ghost use Rattle.scl_msvc_reading.specs.Places.{goes_to};

    ghost passes = { goes_to };

    fn passes(&self, option: &Argument<ArgData>) -> bool {
        place_of(option) == *self
    }
}

/// Flags are joined to their values, except those of folders of external includes.
#[derive(Clone, Copy)]
pub struct ExternalIncludesApart;

impl Sides for ExternalIncludesApart {
    ghost use Rattle.scl_msvc_reading.specs.Places.{side_of_flag};

    ghost side = { λ _. side_of_flag };

    fn side(&self, flag: &str) -> NormalizedDisposition {
        if flag == "-external:I" || flag == "/external:I" {
            NormalizedDisposition::Separated
        } else {
            NormalizedDisposition::Concatenated
        }
    }
}
