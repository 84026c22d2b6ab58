//! What is reported of cl's and clang-cl's command lines.
ghost use Rattle.std.specs.Prelude.{◌≡◌, IfOk, map};
ghost use Rattle.std.specs.Option.{option_copied};
ghost use Rattle.scl_catalogue.specs.Views.{line_of, seen_of};
ghost use Rattle.scl_msvc.specs.Environment.{value_of};
ghost use Rattle.scl_text.specs.Commands.{pairs_of};
ghost use Rattle.scl_text.specs.Records.{parsed_of};
ghost use Rattle.scl_hazards.specs.ClangClHazards.{cl_compiler, cl_facts, cl_inner, cl_line, cl_options, line_told, msvc_told, splits_environment, splits_value};
ghost use Rattle.scl_hazards.specs.Told.{given, told_of};

use crate::gnu::object_of;
use crate::known::Known;
use crate::language::language_name;
use crate::seen::{BothSeen, Kinded, is_hidden, options_seen};
use crate::told::{Told, nothing, told_of};
use scl_args::{Argument, Mem};
use scl_catalogue::{Compiler, Facts, Line};
use scl_driver_texts::{Splitter, is_split_otherwise, splits_otherwise};
use scl_kinds::NamedKind;
use scl_msvc_reading::msvc::{ArgData, Kind, MsvcReading, Place, place_of};
use scl_text::path::extension;
use scl_text::records::CompilerArguments;
use scl_text::{ExpansionKind, ParsedArguments};
use std::alloc::Global;

impl Kinded for ArgData {
    ghost use Rattle.scl_msvc_reading.specs.Places.{goes_to};
    ghost use Rattle.scl_msvc_reading.specs.declared.msvc.place.Place.TheVariants as places;
    ghost use Rattle.scl_kinds.specs.KindNames.{cl_kind_text};

    ghost kind_text = { cl_kind_text };

    ghost is_common = { goes_to places.Common };

    fn kind_text(kind: Kind) -> &'static [u8] {
        kind.text().as_bytes()
    }

    fn is_common(option: &Argument<ArgData>) -> bool {
        place_of(option) == Place::Common
    }
}

/// The compiler that a catalogue calls so.
fn cl_compiler(is_clang: bool) -> Compiler
    ensures { result ≡ cl_compiler is_clang }
{
    if is_clang {
        Compiler::ClangCl
    } else {
        Compiler::Cl
    }
}

/// The value of the first pair with the key.
fn value_of<'a>(env_vars: &'a [(Vec<u8>, Vec<u8>)], key: &[u8]) -> Option<&'a [u8]>
    ensures { option_copied result ≡ value_of key.now (pairs_of env_vars.now) }
{
    for (name, value) in env_vars {
        if name.as_slice() == key {
            return Some(value);
        }
    }
    None
}

/// Whether the value of a variable is split differently: it is a text of UTF-8, as a file that begins with the mark.
fn splits_value(alloc: Global, value: Option<&[u8]>) -> Mem<bool>
    ensures { IfOk result (λ it_is. it_is ≡ splits_value (option_copied value.entry)) }
{
    let Some(value) = value else {
        return Ok(false);
    };
    let mut text = Vec::from_slice(alloc, b"\xEF\xBB\xBF")?;
    text.extend_from_slice(value)?;
    is_split_otherwise(alloc, Splitter::LlvmWindows, ExpansionKind::Msvc, &text)
}

fn splits_environment(alloc: Global, env_vars: &[(Vec<u8>, Vec<u8>)]) -> Mem<bool>
    ensures { IfOk result (λ it_is. it_is ≡ splits_environment (pairs_of env_vars.now)) }
{
    let front = splits_value(alloc, value_of(env_vars, b"CL"))?;
    let back = splits_value(alloc, value_of(env_vars, b"_CL_"))?;
    Ok(front || back)
}

/// The options of the line and of its inner one.
fn both_seen(alloc: Global, reading: &MsvcReading) -> Mem<BothSeen<'_>>
    ensures outer { IfOk result (λ both. map seen_of both.outer.items ≡ cl_options reading.now) }
    ensures inner { IfOk result (λ both. map seen_of both.inner.items ≡ cl_inner reading.now) }
{
    let line = reading.outer();
    let outer = options_seen(alloc, line.words(), line.line().options().as_slice())?;
    let inner_options = reading.inner().line().options().as_slice();
    let inner = options_seen(alloc, reading.handed(), inner_options)?;
    Ok(BothSeen { outer, inner })
}

fn cl_facts(
    alloc: Global,
    reading: &MsvcReading,
    env_vars: &[(Vec<u8>, Vec<u8>)],
    parsed: &ParsedArguments,
) -> Mem<Facts>
    ensures { IfOk result (λ facts. facts ≡ cl_facts (pairs_of env_vars.now) reading.now (parsed_of parsed.now)) }
{
    let (texts, msvc) = (reading.outer().texts(), ExpansionKind::Msvc);
    Ok(Facts {
        is_plusplus: false,
        is_apple: false,
        is_preprocessed: parsed.language.needs_c_preprocessing(),
        is_other_language: false,
        is_split_otherwise: splits_otherwise(alloc, Splitter::LlvmWindows, msvc, texts)?,
        is_environment_split_otherwise: splits_environment(alloc, env_vars)?,
        is_input_hidden: is_hidden(&parsed.input),
        is_object_hidden: is_hidden(object_of(parsed)),
        has_other_target: false,
        is_object_renamed: false,
        has_precompiled_header: false,
    })
}

/// The command line with this record, these facts and these options.
fn line_told<'a>(
    known: &Known<'_>,
    reading: &'a MsvcReading,
    parsed: &'a ParsedArguments,
    facts: Facts,
    options: &'a BothSeen<'a>,
) -> Line<'a>
    ensures { line_of result ≡ line_told known.now.version reading.now (parsed_of parsed.now) facts (map seen_of options.now.outer.items) (map seen_of options.now.inner.items) }
{
    let outer = reading.outer();
    Line {
        compiler: cl_compiler(reading.is_clang()),
        version: known.version(),
        facts,
        options: &options.outer,
        inner: &options.inner,
        words: outer.words(),
        files: outer.texts(),
        environment: reading.environment(),
        language: language_name(parsed.language),
        input: &parsed.input,
        extension: extension(&parsed.input),
        object: object_of(parsed),
    }
}

/// What is reported of a command line that has this record, in this environment.
fn told_with<'r, 'a>(
    alloc: Global,
    known: &Known<'a>,
    reading: &'r MsvcReading,
    env_vars: &[(Vec<u8>, Vec<u8>)],
    parsed: &'r ParsedArguments,
) -> Mem<Told<'a>>
    ensures { IfOk result (λ told. given told ≡ told_of known.now (cl_line known.now (pairs_of env_vars.now) reading.now (parsed_of parsed.now))) }
{
    let options = both_seen(alloc, reading)?;
    let facts = cl_facts(alloc, reading, env_vars, parsed)?;
    let line = line_told(known, reading, parsed, facts, &options);
    told_of(alloc, known, &line)
}

/// What is reported of a command line of cl or of clang-cl, read in this environment, as of one of gcc; nothing where the line
/// has no record (docs/RULES.md, Hazards).
#[tactic(auto, unfolding(crate::specs::ClangClHazards::msvc_told))]
pub fn msvc_told<'a>(
    alloc: Global,
    known: &Known<'a>,
    reading: &MsvcReading,
    env_vars: &[(Vec<u8>, Vec<u8>)],
) -> Mem<Told<'a>>
    ensures { IfOk result (λ told. given told ≡ msvc_told known.now (pairs_of env_vars.now) reading.now) }
{
    match reading.outcome() {
        CompilerArguments::Ok(parsed) => told_with(alloc, known, reading, env_vars, parsed),
        CompilerArguments::CannotCache(_, _) | CompilerArguments::NotCompilation => {
            Ok(nothing(alloc))
        }
    }
}
