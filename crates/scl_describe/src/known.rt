//! What is known of the compiler that is run.
ghost use Rattle.std.specs.Prelude.{◌≡◌, IfOk};
ghost use Rattle.std.specs.Option.{option_copied};
ghost use Rattle.scl_catalogue.specs.Views.{catalogue_of, lexicon_of as lexicon_told};
ghost use Rattle.scl_describe.specs.Hazards.{catalogued, known_by, lexicon_by, major_and_minor, version_told};
ghost use Rattle.scl_describe.specs.SettingsRead.{settings_by};

use crate::settings::Settings;
use scl_catalogue::{Compiler as Catalogued, Lexicon};
use scl_catalogue_text::version;
use scl_description::cut_at;
use scl_hazards::{Catalogue, Known, Version};
use scl_reader::{Compiler, is_apple};
use scl_text::Mem;
use std::alloc::Global;

/// What of a version's text counts: what stands before its second dot.
fn major_and_minor(text: &[u8]) -> &[u8]
    ensures { result.now ≡ major_and_minor text.now }
{
    let Some((major, rest)) = cut_at(b'.', text) else {
        return text;
    };
    let Some((minor, _)) = cut_at(b'.', rest) else {
        return text;
    };
    &text[..major.len() + 1 + minor.len()]
}

/// The version that a text names; if it names none, every version is meant.
fn version_told(text: Option<&str>) -> Option<Version>
    ensures { result ≡ version_told (option_copied text.entry) }
{
    match text {
        Some(text) => version(major_and_minor(text.as_bytes())),
        None => None,
    }
}

/// The compiler by which a catalogue names this one.
pub fn catalogued(compiler: Compiler) -> Catalogued
    ensures { result ≡ catalogued compiler }
{
    match compiler {
        Compiler::Gcc | Compiler::Gxx => Catalogued::Gcc,
        Compiler::Clang | Compiler::Clangxx => Catalogued::Clang,
        Compiler::Cl => Catalogued::Cl,
        Compiler::ClangCl => Catalogued::ClangCl,
        Compiler::Diab => Catalogued::Diab,
        Compiler::Tasking => Catalogued::Tasking,
    }
}

/// What a catalogue says of the words of a compiler's command, of the version that settings give, if they do.
pub(crate) fn lexicon_of<'a>(
    alloc: Global,
    catalogue: &'a Catalogue,
    settings: &Settings,
    compiler: Compiler,
) -> Mem<Lexicon<'a>>
    ensures { IfOk result (λ lexicon. lexicon_told lexicon ≡ lexicon_by (catalogue_of catalogue.now) (settings_by settings.now).version compiler) }
{
    let version = version_told(settings.version.as_deref());
    Lexicon::of(alloc, catalogue, catalogued(compiler), version)
}

/// What a catalogue knows of the compiler whose version settings give, if they do.
pub(crate) fn known_of<'a>(catalogue: &'a Catalogue, settings: &Settings) -> Known<'a>
    ensures { result ≡ known_by (catalogue_of catalogue.now) (settings_by settings.now).version }
{
    let version = settings.version.as_deref();
    Known::new(catalogue, version_told(version), is_apple(version))
}
