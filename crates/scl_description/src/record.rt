//! The record of a command line, as rows.
ghost use Rattle.std.specs.Prelude.{◌≡◌, codes, OnOk};
ghost use Rattle.scl_text.specs.Records.{artifact, artifacts, parsed_of};
ghost use Rattle.scl_description.specs.Rows.{entry_rows, lone, row_entry, rows_of};
ghost use Rattle.scl_description.specs.Records.{language_text, color_text, output_rest, outputs_entry, source_entries, output_entries, list_entries, file_entries, switch_entries, record_entries};
ghost use Rattle.scl_description.specs.Takers.{Adds};

use crate::taker::{TakesRows, tell_maybe, tell_word, tell_words, tell_yes};
use scl_text::Mem;
use scl_text::language::Language;
use scl_text::records::{ArtifactDescriptor, ColorMode, ParsedArguments};
use std::collections::BTreeMap;

/// The name of a language in a description.
fn language_name(language: Language) -> &'static str
    ensures { result.now ≡ language_text language }
{
    match language {
        Language::Assembler => "Assembler",
        Language::AssemblerToPreprocess => "AssemblerToPreprocess",
        Language::C => "C",
        Language::CHeader => "CHeader",
        Language::GenericHeader => "GenericHeader",
        Language::Cxx => "Cxx",
        Language::CxxHeader => "CxxHeader",
        Language::CxxModule => "CxxModule",
        Language::ObjectiveC => "ObjectiveC",
        Language::ObjectiveCHeader => "ObjectiveCHeader",
        Language::ObjectiveCxx => "ObjectiveCxx",
        Language::ObjectiveCxxHeader => "ObjectiveCxxHeader",
        Language::Cuda => "Cuda",
        Language::Rust => "Rust",
        Language::Hip => "Hip",
    }
}

/// The name of a colour mode in a description.
fn color_name(mode: ColorMode) -> &'static str
    ensures { result.now ≡ color_text mode }
{
    match mode {
        ColorMode::Off => "off",
        ColorMode::On => "on",
        ColorMode::Auto => "auto",
    }
}

/// Tells the row of an output.
fn tell_output<R: TakesRows>(rows: &mut R, name: &str, output: &ArtifactDescriptor) -> Mem<()>
    ensures { OnOk result (Adds R.has rows.old rows.new (entry_rows (row_entry (codes "output") (output_rest (artifact name.now output.now.path.items output.now.optional))))) }
{
    let path = output.path.as_slice();
    if output.optional {
        rows.take("output", &[name.as_bytes(), path, b"optional"], &[])
    } else {
        rows.take("output", &[name.as_bytes(), path], &[])
    }
}

/// Tells a row for each output.
fn tell_outputs<R: TakesRows>(
    rows: &mut R,
    outputs: &BTreeMap<String, ArtifactDescriptor>,
) -> Mem<()>
    ensures { OnOk result (Adds R.has rows.old rows.new (entry_rows (outputs_entry (artifacts outputs.now)))) }
{
    for (name, output) in outputs.iter() {
        tell_output(rows, name.as_str(), output)?;
    }
    Ok(())
}

/// Tells the row of a language.
fn tell_language<R: TakesRows>(rows: &mut R, language: Language) -> Mem<()>
    ensures { OnOk result (Adds R.has rows.old rows.new (entry_rows (row_entry (codes "language") (lone (language_text language))))) }
{
    tell_word(rows, "language", language_name(language).as_bytes())
}

/// Tells the row of a colour mode.
fn tell_color<R: TakesRows>(rows: &mut R, mode: ColorMode) -> Mem<()>
    ensures { OnOk result (Adds R.has rows.old rows.new (entry_rows (row_entry (codes "color") (lone (color_text mode))))) }
{
    tell_word(rows, "color", color_name(mode).as_bytes())
}

/// Tells the rows of what is compiled, and how.
fn tell_source<R: TakesRows>(rows: &mut R, parsed: &ParsedArguments) -> Mem<()>
    ensures { OnOk result (Adds R.has rows.old rows.new (rows_of (source_entries (parsed_of parsed.now)))) }
{
    tell_word(rows, "input", &parsed.input)?;
    tell_yes(rows, "double-dash-input", parsed.double_dash_input)?;
    tell_language(rows, parsed.language)?;
    tell_word(rows, "compilation-flag", &parsed.compilation_flag)
}

/// Tells the rows of the outputs and of the dependency file.
fn tell_made<R: TakesRows>(rows: &mut R, parsed: &ParsedArguments) -> Mem<()>
    ensures { OnOk result (Adds R.has rows.old rows.new (rows_of (output_entries (parsed_of parsed.now)))) }
{
    tell_maybe(rows, "depfile", parsed.depfile.as_deref())?;
    tell_outputs(rows, &parsed.outputs)
}

/// Tells the rows of the lists of words.
fn tell_lists<R: TakesRows>(rows: &mut R, parsed: &ParsedArguments) -> Mem<()>
    ensures { OnOk result (Adds R.has rows.old rows.new (rows_of (list_entries (parsed_of parsed.now)))) }
{
    tell_words(rows, "dependency", &parsed.dependency_args)?;
    tell_words(rows, "preprocessor", &parsed.preprocessor_args)?;
    tell_words(rows, "common", &parsed.common_args)?;
    tell_words(rows, "arch", &parsed.arch_args)?;
    tell_words(rows, "unhashed", &parsed.unhashed_args)
}

/// Tells the rows of the files that are read besides the input.
fn tell_files<R: TakesRows>(rows: &mut R, parsed: &ParsedArguments) -> Mem<()>
    ensures { OnOk result (Adds R.has rows.old rows.new (rows_of (file_entries (parsed_of parsed.now)))) }
{
    tell_words(rows, "dist", &parsed.extra_dist_files)?;
    tell_words(rows, "hash", &parsed.extra_hash_files)
}

/// Tells the rows of the remaining fields.
fn tell_switches<R: TakesRows>(rows: &mut R, parsed: &ParsedArguments) -> Mem<()>
    ensures { OnOk result (Adds R.has rows.old rows.new (rows_of (switch_entries (parsed_of parsed.now)))) }
{
    tell_yes(rows, "external-assembler", parsed.uses_external_assembler)?;
    tell_yes(rows, "show-includes", parsed.msvc_show_includes)?;
    tell_yes(rows, "explicit-language", parsed.msvc_explicit_language)?;
    tell_yes(rows, "profile-generate", parsed.profile_generate)?;
    tell_color(rows, parsed.color_mode)?;
    tell_yes(
        rows,
        "no-rewrite-includes-only",
        parsed.suppress_rewrite_includes_only,
    )?;
    let why = parsed.too_hard_for_preprocessor_cache_mode.as_deref();
    tell_maybe(rows, "too-hard", why)
}

/// Tells the rows of a record: all of them, each once, in one order. It is read back from them (`laws::of_descriptions`;
/// docs/RULES.md, Descriptions).
pub fn tell_record<R: TakesRows>(rows: &mut R, parsed: &ParsedArguments) -> Mem<()>
    ensures { OnOk result (Adds R.has rows.old rows.new (rows_of (record_entries (parsed_of parsed.now)))) }
{
    tell_source(rows, parsed)?;
    tell_made(rows, parsed)?;
    tell_lists(rows, parsed)?;
    tell_files(rows, parsed)?;
    tell_switches(rows, parsed)
}
