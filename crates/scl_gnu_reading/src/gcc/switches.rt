//! What options switch: the colour of messages, the assembler, and what a cache of preprocessor runs can see.
ghost use Rattle.std.specs.Prelude.{◌≡◌};
ghost use Rattle.std.specs.Option.{option_copied};
ghost use Rattle.scl_values.specs.Seen.{seen};
ghost use Rattle.scl_gnu_reading.specs.Data.{kind_of, word_of};
ghost use Rattle.scl_gnu_reading.specs.Kinds.{color_named, color_of, is_hiding_flag, color_mode, external_assembler, hiding_flag};

use super::data::{ArgData, Kind};
use scl_args::{Argument, OfKinds, Options, Test};
use scl_text::records::ColorMode;

/// The colour mode that a value requests.
fn color_named(value: &[u8]) -> ColorMode
    ensures { result ≡ color_named value.now }
{
    if value == b"".as_slice() || value == b"always".as_slice() {
        ColorMode::On
    } else if value == b"never".as_slice() {
        ColorMode::Off
    } else {
        ColorMode::Auto
    }
}

fn color_of(option: &Argument<ArgData>) -> ColorMode
    ensures { result ≡ color_of (seen kind_of word_of option.now) }
{
    match option {
        Argument::Raw(_) | Argument::UnknownFlag(_) => ColorMode::Auto,
        Argument::Flag(_, value) | Argument::WithValue(_, value, _) => match value {
            ArgData::DiagnosticsColor(word) => color_named(word),
            ArgData::DiagnosticsColorFlag => ColorMode::On,
            ArgData::NoDiagnosticsColorFlag => ColorMode::Off,
            _ => ColorMode::Auto,
        },
    }
}

/// The colour mode that is requested last.
pub(crate) fn color_mode(options: &Options<ArgData>) -> Option<ColorMode>
    ensures { result ≡ color_mode options.now }
{
    let kinds = [
        Kind::DiagnosticsColor,
        Kind::DiagnosticsColorFlag,
        Kind::NoDiagnosticsColorFlag,
    ];
    Some(color_of(options.last_by(&OfKinds(&kinds))?))
}

/// Whether the assembler that is requested last is a separate program.
pub(crate) fn external_assembler(options: &Options<ArgData>) -> Option<bool>
    ensures { result ≡ external_assembler options.now }
{
    let asked = options.last_by(&OfKinds(&[Kind::IntegratedAs, Kind::NoIntegratedAs]))?;
    Some(OfKinds(&[Kind::NoIntegratedAs]).passes(asked))
}

fn is_hiding_flag(flag: &str) -> bool
    ensures { result ≡ is_hiding_flag flag.now }
{
    flag == "-Wp" || flag == "-Xpreprocessor"
}

/// The options whose requests to the preprocessor a cache of preprocessor runs can't see.
struct Hiding;

impl Test<ArgData> for Hiding {
    ghost use Rattle.scl_gnu_reading.specs.Kinds.{is_hiding};

    ghost passes = { λ _. is_hiding };

    fn passes(&self, option: &Argument<ArgData>) -> bool {
        match option {
            Argument::Raw(_) | Argument::UnknownFlag(_) => false,
            Argument::Flag(flag, value) | Argument::WithValue(flag, value, _) => {
                matches!(value, ArgData::PreprocessorArgument(_)) && is_hiding_flag(flag)
            }
        }
    }
}

/// The flag of the last of those options, as bytes.
pub(crate) fn hiding_flag(options: &Options<ArgData>) -> Option<&'static [u8]>
    ensures { option_copied result ≡ hiding_flag options.now }
{
    Some(options.last_flag(&Hiding)?.as_bytes())
}
