//! What is reported of Diab's and TaskingVX's command lines.
ghost use Rattle.std.specs.Prelude.{◌≡◌, IfOk, map};
ghost use Rattle.scl_catalogue.specs.Views.{line_of, seen_of};
ghost use Rattle.scl_text.specs.Records.{parsed_of};
ghost use Rattle.scl_hazards.specs.SmallHazards.{diab_told, line_told, small_facts, small_line, small_told, tasking_told};
ghost use Rattle.scl_hazards.specs.Told.{given, told_of};

use crate::gnu::object_of;
use crate::known::Known;
use crate::language::language_name;
use crate::seen::{Kinded, is_hidden, options_seen};
use crate::told::{Told, nothing, told_of};
use scl_args::{Argument, Mem};
use scl_catalogue::{Compiler, Facts, Line, Seen};
use scl_kinds::NamedKind;
use scl_small::{Place, Rules, SmallReading, diab, place_of, tasking_vx};
use scl_text::ParsedArguments;
use scl_text::path::extension;
use scl_text::records::CompilerArguments;
use std::alloc::Global;

impl Kinded for diab::ArgData {
    ghost use Rattle.scl_small.specs.DiabReading.{place};
    ghost use Rattle.scl_small.specs.Places.{goes_to};
    ghost use Rattle.scl_small.specs.declared.place.Place.TheVariants as places;
    ghost use Rattle.scl_kinds.specs.KindNames.{diab_kind_text};

    ghost kind_text = { diab_kind_text };

    ghost is_common = { goes_to place places.Common };

    fn kind_text(kind: diab::Kind) -> &'static [u8] {
        kind.text().as_bytes()
    }

    fn is_common(option: &Argument<diab::ArgData>) -> bool {
        place_of(option) == Place::Common
    }
}

impl Kinded for tasking_vx::ArgData {
    ghost use Rattle.scl_small.specs.Places.{goes_to};
    ghost use Rattle.scl_small.specs.TaskingReading.{place};
    ghost use Rattle.scl_small.specs.declared.place.Place.TheVariants as places;
    ghost use Rattle.scl_kinds.specs.KindNames.{tasking_kind_text};

    ghost kind_text = { tasking_kind_text };

    ghost is_common = { goes_to place places.Common };

    fn kind_text(kind: tasking_vx::Kind) -> &'static [u8] {
        kind.text().as_bytes()
    }

    fn is_common(option: &Argument<tasking_vx::ArgData>) -> bool {
        place_of(option) == Place::Common
    }
}

fn small_facts(parsed: &ParsedArguments) -> Facts
    ensures { result ≡ small_facts (parsed_of parsed.now) }
{
    Facts {
        is_plusplus: false,
        is_apple: false,
        is_preprocessed: parsed.language.needs_c_preprocessing(),
        is_other_language: false,
        is_split_otherwise: false,
        is_environment_split_otherwise: false,
        is_input_hidden: is_hidden(&parsed.input),
        is_object_hidden: is_hidden(object_of(parsed)),
        has_other_target: false,
        is_object_renamed: false,
        has_precompiled_header: false,
    }
}

/// The command line with this record and these options.
fn line_told<'a, T: Rules>(
    compiler: Compiler,
    known: &Known<'_>,
    reading: &'a SmallReading<T>,
    parsed: &'a ParsedArguments,
    options: &'a [Seen<'a>],
) -> Line<'a>
    ensures { line_of result ≡ line_told compiler known.now.version reading.now (parsed_of parsed.now) (map seen_of options.now) }
{
    let outer = reading.outer();
    Line {
        compiler,
        version: known.version(),
        facts: small_facts(parsed),
        options,
        inner: &[],
        words: outer.words(),
        files: outer.texts(),
        environment: &[],
        language: language_name(parsed.language),
        input: &parsed.input,
        extension: extension(&parsed.input),
        object: object_of(parsed),
    }
}

/// What is reported of a command line of this compiler that has this record.
fn told_with<'r, 'a, T: Rules + Kinded>(
    alloc: Global,
    compiler: Compiler,
    known: &Known<'a>,
    reading: &'r SmallReading<T>,
    parsed: &'r ParsedArguments,
) -> Mem<Told<'a>>
    ensures { IfOk result (λ told. given told ≡ told_of known.now (small_line T.kind_text T.is_common compiler known.now reading.now (parsed_of parsed.now))) }
{
    let outer = reading.outer();
    let options = options_seen(alloc, outer.words(), outer.line().options().as_slice())?;
    let line = line_told(compiler, known, reading, parsed, &options);
    told_of(alloc, known, &line)
}

/// What is reported of a command line of this compiler.
#[tactic(auto, unfolding(crate::specs::SmallHazards::small_told))]
fn small_told<'a, T: Rules + Kinded>(
    alloc: Global,
    compiler: Compiler,
    known: &Known<'a>,
    reading: &SmallReading<T>,
) -> Mem<Told<'a>>
    ensures { IfOk result (λ told. given told ≡ small_told T.kind_text T.is_common compiler known.now reading.now) }
{
    match reading.outcome() {
        CompilerArguments::Ok(parsed) => told_with(alloc, compiler, known, reading, parsed),
        CompilerArguments::CannotCache(_, _) | CompilerArguments::NotCompilation => {
            Ok(nothing(alloc))
        }
    }
}

/// What is reported of a command line of Diab, as of one of gcc; nothing where the line has no record (docs/RULES.md,
/// Hazards).
pub fn diab_told<'a>(
    alloc: Global,
    known: &Known<'a>,
    reading: &SmallReading<diab::ArgData>,
) -> Mem<Told<'a>>
    ensures { IfOk result (λ told. given told ≡ diab_told known.now reading.now) }
{
    small_told(alloc, Compiler::Diab, known, reading)
}

/// What is reported of a command line of TaskingVX, as of one of Diab.
pub fn tasking_told<'a>(
    alloc: Global,
    known: &Known<'a>,
    reading: &SmallReading<tasking_vx::ArgData>,
) -> Mem<Told<'a>>
    ensures { IfOk result (λ told. given told ≡ tasking_told known.now reading.now) }
{
    small_told(alloc, Compiler::Tasking, known, reading)
}
