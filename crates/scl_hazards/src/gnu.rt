//! What is reported of gcc's and clang's command lines.
ghost use Rattle.std.specs.Prelude.{◌≡◌, IfOk, map, unwrap_or, []};
ghost use Rattle.scl_catalogue.specs.Views.{line_of, seen_of};
ghost use Rattle.scl_values.specs.Words.{words_of};
ghost use Rattle.scl_text.specs.Commands.{object_of};
ghost use Rattle.scl_text.specs.Records.{parsed_of};
ghost use Rattle.scl_hazards.specs.GnuHazards.{compiler_of, gnu_facts, gnu_inner, gnu_line, gnu_options, gnu_told, line_told, splitter_of};
ghost use Rattle.scl_hazards.specs.Told.{given, told_of};

use crate::known::Known;
use crate::language::{is_other_language, language_name};
use crate::seen::{BothSeen, Kinded, is_hidden, options_seen};
use crate::targets::{has_other_target, is_renamed};
use crate::told::{Told, nothing, told_of};
use scl_args::{Argument, Mem};
use scl_catalogue::{Compiler, Facts, Line, Seen};
use scl_driver_texts::{Splitter, splits_otherwise};
use scl_gnu_reading::gcc::{ArgData, GnuReading, Kind, Place, place_of};
use scl_kinds::NamedKind;
use scl_text::outputs::output_path;
use scl_text::path::extension;
use scl_text::records::{CCompilerKind, CompilerArguments};
use scl_text::{ExpansionKind, ParsedArguments};
use std::alloc::Global;

impl Kinded for ArgData {
    ghost use Rattle.scl_gnu_reading.specs.Places.{goes_to};
    ghost use Rattle.scl_gnu_reading.specs.declared.gcc.place.Place.TheVariants as places;
    ghost use Rattle.scl_kinds.specs.KindNames.{gnu_kind_text};

    ghost kind_text = { gnu_kind_text };

    ghost is_common = { goes_to places.Common };

    fn kind_text(kind: Kind) -> &'static [u8] {
        kind.text().as_bytes()
    }

    fn is_common(option: &Argument<ArgData>) -> bool {
        place_of(option) == Place::Common
    }
}

/// The compiler that a catalogue calls so.
fn compiler_of(kind: CCompilerKind) -> Compiler
    ensures { result ≡ compiler_of kind }
{
    if kind == CCompilerKind::Clang {
        Compiler::Clang
    } else {
        Compiler::Gcc
    }
}

/// How it splits texts.
fn splitter_of(kind: CCompilerKind) -> Splitter
    ensures { result ≡ splitter_of kind }
{
    if kind == CCompilerKind::Clang {
        Splitter::LlvmGnu
    } else {
        Splitter::Libiberty
    }
}

/// The path of the record's object, empty where it has none.
pub(crate) fn object_of(parsed: &ParsedArguments) -> &[u8]
    ensures { result.now ≡ unwrap_or (object_of (parsed_of parsed.now)) [] }
{
    match output_path(&parsed.outputs, "obj") {
        Some(path) => path,
        None => &[],
    }
}

/// The options of the line and of its inner one.
fn both_seen(alloc: Global, reading: &GnuReading) -> Mem<BothSeen<'_>>
    ensures outer { IfOk result (λ both. map seen_of both.outer.items ≡ gnu_options reading.now) }
    ensures inner { IfOk result (λ both. map seen_of both.inner.items ≡ gnu_inner reading.now) }
{
    let line = reading.outer();
    let outer = options_seen(alloc, line.words(), line.line().options().as_slice())?;
    let inner_options = reading.inner().line().options().as_slice();
    let inner = options_seen(alloc, reading.handed(), inner_options)?;
    Ok(BothSeen { outer, inner })
}

/// A reading that has a record, and whether a precompiled header lies beside a file that its line includes.
#[derive(Drop)]
struct Recorded<'r> {
    reading: &'r GnuReading,
    parsed: &'r ParsedArguments,
    has_precompiled_header: bool,
}

impl<'r> Recorded<'r> {
    fn facts(&self, alloc: Global, is_apple: bool, options: &[Seen<'_>]) -> Mem<Facts>
        ensures { IfOk result (λ facts. facts ≡ gnu_facts is_apple self.now.has_precompiled_header self.now.reading.now (parsed_of self.now.parsed.now) (map seen_of options.now)) }
    {
        let (reading, object) = (self.reading, object_of(self.parsed));
        let (input, language) = (&self.parsed.input, self.parsed.language);
        let (splitter, texts) = (splitter_of(reading.kind()), reading.outer().texts());
        Ok(Facts {
            is_plusplus: reading.plusplus(),
            is_apple,
            is_preprocessed: language.needs_c_preprocessing(),
            is_other_language: is_other_language(reading.plusplus(), input, language, options),
            is_split_otherwise: splits_otherwise(alloc, splitter, ExpansionKind::Gnu, texts)?,
            is_environment_split_otherwise: false,
            is_input_hidden: is_hidden(input),
            is_object_hidden: is_hidden(object),
            has_other_target: has_other_target(options, object),
            is_object_renamed: is_renamed(alloc, input, object)?,
            has_precompiled_header: self.has_precompiled_header,
        })
    }

    /// The command line with these facts and these options.
    fn line(&'r self, known: &Known<'_>, facts: Facts, options: &'r BothSeen<'r>) -> Line<'r>
        ensures { line_of result ≡ line_told known.now.version self.now.reading.now (parsed_of self.now.parsed.now) facts (map seen_of options.now.outer.items) (map seen_of options.now.inner.items) }
    {
        let outer = self.reading.outer();
        Line {
            compiler: compiler_of(self.reading.kind()),
            version: known.version(),
            facts,
            options: &options.outer,
            inner: &options.inner,
            words: outer.words(),
            files: outer.texts(),
            environment: &[],
            language: language_name(self.parsed.language),
            input: &self.parsed.input,
            extension: extension(&self.parsed.input),
            object: object_of(self.parsed),
        }
    }

    /// What is reported of the command line.
    fn told<'a>(&self, alloc: Global, known: &Known<'a>) -> Mem<Told<'a>>
        ensures { IfOk result (λ told. given told ≡ told_of known.now (gnu_line known.now self.now.has_precompiled_header self.now.reading.now (parsed_of self.now.parsed.now))) }
    {
        let options = both_seen(alloc, self.reading)?;
        let facts = self.facts(alloc, known.is_apple(), &options.outer)?;
        let line = self.line(known, facts, &options);
        told_of(alloc, known, &line)
    }
}

/// What is reported of a command line of gcc or clang: exactly the hazards and effects of which the catalogue has a case that is
/// there, in its order, and the first option of which nothing is known; nothing where the line has no record (docs/RULES.md,
/// Hazards). Whoever sees the files says whether a precompiled header lies beside a file that the line includes, in a folder
/// where it is searched for.
#[tactic(auto, unfolding(crate::specs::GnuHazards::gnu_told))]
pub fn gnu_told<'a>(
    alloc: Global,
    known: &Known<'a>,
    reading: &GnuReading,
    has_precompiled_header: bool,
) -> Mem<Told<'a>>
    ensures { IfOk result (λ told. given told ≡ gnu_told known.now has_precompiled_header reading.now) }
{
    match reading.outcome() {
        CompilerArguments::Ok(parsed) => {
            let recorded = Recorded {
                reading,
                parsed,
                has_precompiled_header,
            };
            recorded.told(alloc, known)
        }
        CompilerArguments::CannotCache(_, _) | CompilerArguments::NotCompilation => {
            Ok(nothing(alloc))
        }
    }
}
