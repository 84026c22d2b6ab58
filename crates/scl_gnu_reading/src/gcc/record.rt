//! The record of a compilation.
ghost use Rattle.std.specs.Prelude.{◌≡◌, ◌++◌, ◌∷◌, [], IfOk};
ghost use Rattle.std.specs.Option.{option_copied};
ghost use Rattle.scl_text.specs.Records.{parsed_of};
ghost use Rattle.scl_values.specs.Words.{words_of};
ghost use Rattle.scl_gnu_reading.specs.FoundBy.{found_of};
ghost use Rattle.scl_gnu_reading.specs.Kinds.{any};
ghost use Rattle.scl_gnu_reading.specs.Recordings.{has_extensions, added_common, all_words_at, dependency_words, needs_target, suppresses_rewritten_includes, record_of};

use super::added_words::{add_dependency, add_split_dwarf};
use super::data::{ArgData, Kind};
use super::fixed_tests::Finding;
use super::hash_paths::hash_paths;
use super::inner::push_inner;
use super::inputs::Inputs;
use super::outputs::outputs_of;
use super::place::Place;
use super::switches::{color_mode, external_assembler, hiding_flag};
use scl_args::{Mem, OfKinds, Options, ShortFlagsJoined};
use scl_text::language::Language;
use scl_text::outputs::copy_path;
use scl_text::records::{CCompilerKind, ColorMode, ParsedArguments};
use scl_text::view::View;
use std::alloc::Global;

/// Whether the standard, or its absence, allows GNU's extensions.
fn has_extensions(standard: Option<&[u8]>) -> bool
    ensures { result ≡ has_extensions (option_copied standard.entry) }
{
    match standard {
        None => true,
        Some(text) => text.starts_with(b"gnu"),
    }
}

/// Whether the words about dependencies need a target (docs/RULES.md, Gcc).
pub fn needs_target(language: Language, options: &Options<ArgData>) -> bool
    ensures { result ≡ needs_target language options.now }
{
    language.needs_c_preprocessing() && options.any(&OfKinds(&[Kind::NeedDepTarget]))
}

/// The words of this place: those of the outer options, then those of the inner ones.
fn all_words_at(
    alloc: Global,
    options: &Options<ArgData>,
    inner: &Options<ArgData>,
    there: Place,
) -> Mem<Vec<Vec<u8>>>
    ensures { IfOk result (λ words. words_of words.items ≡ all_words_at there options.now inner.now) }
{
    let mut words = options.list(alloc, &ShortFlagsJoined, &there)?;
    push_inner(alloc, &mut words, inner, there)?;
    Ok(words)
}

fn dependency_words(
    alloc: Global,
    options: &Options<ArgData>,
    inner: &Options<ArgData>,
    found: &Finding,
) -> Mem<Vec<Vec<u8>>>
    ensures { IfOk result (λ words. words_of words.items ≡ dependency_words options.now inner.now (found_of found.now)) }
{
    let mut words = all_words_at(alloc, options, inner, Place::Dependency)?;
    let is_needed = needs_target(found.language, options);
    add_dependency(alloc, &mut words, is_needed, options, &found.object)?;
    Ok(words)
}

/// The two long lists: the preprocessor's words and the common ones. They take ownership of the outer options' words.
fn long_lists(
    alloc: Global,
    options: Options<ArgData>,
    inner: &Options<ArgData>,
    object: &[u8],
) -> Mem<(Vec<Vec<u8>>, Vec<Vec<u8>>)>
    ensures preprocessor { IfOk result (λ lists. words_of lists.0.items ≡ all_words_at Place.Preprocessor options inner.now) }
    ensures common { IfOk result (λ lists. words_of lists.1.items
        ≡ all_words_at Place.Common options inner.now ++ added_common (any (Kind.SplitDwarf ∷ []) options) object.now) }
{
    let is_split = options.any(&OfKinds(&[Kind::SplitDwarf]));
    let (mut preprocessor, mut common) = options.into_two_lists(
        alloc,
        &ShortFlagsJoined,
        &Place::Preprocessor,
        &Place::Common,
    )?;
    push_inner(alloc, &mut preprocessor, inner, Place::Preprocessor)?;
    push_inner(alloc, &mut common, inner, Place::Common)?;
    add_split_dwarf(alloc, &mut common, is_split, object)?;
    Ok((preprocessor, common))
}

/// Whether rewritten includes would change the messages of a pedantic Gcc.
fn suppresses_rewritten_includes(kind: CCompilerKind, options: &Options<ArgData>) -> bool
    ensures { result ≡ suppresses_rewritten_includes kind options.now }
{
    kind == CCompilerKind::Gcc
        && options.any(&OfKinds(&[Kind::PedanticFlag]))
        && has_extensions(options.last_text(&OfKinds(&[Kind::Standard])))
}

/// The two long lists, as `long_lists` gives them, made of copies.
fn copied_lists(
    alloc: Global,
    options: &Options<ArgData>,
    inner: &Options<ArgData>,
    object: &[u8],
) -> Mem<(Vec<Vec<u8>>, Vec<Vec<u8>>)>
    ensures preprocessor { IfOk result (λ lists. words_of lists.0.items ≡ all_words_at Place.Preprocessor options.now inner.now) }
    ensures common { IfOk result (λ lists. words_of lists.1.items
        ≡ all_words_at Place.Common options.now inner.now ++ added_common (any (Kind.SplitDwarf ∷ []) options.now) object.now) }
{
    let preprocessor = all_words_at(alloc, options, inner, Place::Preprocessor)?;
    let mut common = all_words_at(alloc, options, inner, Place::Common)?;
    let is_split = options.any(&OfKinds(&[Kind::SplitDwarf]));
    add_split_dwarf(alloc, &mut common, is_split, object)?;
    Ok((preprocessor, common))
}

/// The record of the compilation that the tests found, without its input and its two long lists.
fn short_record(
    alloc: Global,
    options: &Options<ArgData>,
    inner: &Options<ArgData>,
    found: &Finding,
    kind: CCompilerKind,
    cwd: &[u8],
    view: &View,
) -> Mem<ParsedArguments>
    ensures { IfOk result (λ parsed. let f = found_of found.now in record (parsed_of parsed) {
      input = f.input;
      preprocessor_args = all_words_at Place.Preprocessor options.now inner.now;
      common_args = all_words_at Place.Common options.now inner.now ++ added_common (any (Kind.SplitDwarf ∷ []) options.now) f.object;
    } ≡ record_of kind cwd.now view.now options.now inner.now f) }
{
    let outputs = outputs_of(alloc, options, found)?;
    let dependency_args = dependency_words(alloc, options, inner, found)?;
    let profile = OfKinds(&[Kind::Coverage, Kind::TestCoverage, Kind::ProfileGenerate]);
    let compile_flag = Vec::from_slice(alloc, found.compile_flag.as_bytes())?;
    Ok(ParsedArguments {
        double_dash_input: options.is_behind_dashes(&Inputs),
        outputs,
        dependency_args,
        arch_args: all_words_at(alloc, options, inner, Place::Arch)?,
        unhashed_args: all_words_at(alloc, options, inner, Place::Unhashed)?,
        extra_hash_files: hash_paths(alloc, options, inner, cwd, view)?,
        uses_external_assembler: external_assembler(options).unwrap_or(
            kind != CCompilerKind::Clang,
        ),
        profile_generate: options.any(&profile),
        color_mode: color_mode(options).unwrap_or(ColorMode::Auto),
        suppress_rewrite_includes_only: suppresses_rewritten_includes(kind, options),
        too_hard_for_preprocessor_cache_mode: copy_path(alloc, hiding_flag(options))?,
        ..ParsedArguments::bare(alloc, Vec::new(alloc), found.language, compile_flag)
    })
}

/// The record of the compilation that the tests found.
pub(crate) fn record_of(
    alloc: Global,
    options: Options<ArgData>,
    inner: &Options<ArgData>,
    found: Finding,
    kind: CCompilerKind,
    cwd: &[u8],
    view: &View,
) -> Mem<ParsedArguments>
    ensures { IfOk result (λ parsed. parsed_of parsed ≡ record_of kind cwd.now view.now options inner.now (found_of found)) }
{
    let parsed = short_record(alloc, &options, inner, &found, kind, cwd, view)?;
    let (preprocessor_args, common_args) = long_lists(alloc, options, inner, &found.object)?;
    Ok(ParsedArguments {
        input: found.input,
        preprocessor_args,
        common_args,
        ..parsed
    })
}

/// The same record, made of copies of the options' words.
pub(crate) fn record_beside(
    alloc: Global,
    options: &Options<ArgData>,
    inner: &Options<ArgData>,
    found: Finding,
    kind: CCompilerKind,
    cwd: &[u8],
    view: &View,
) -> Mem<ParsedArguments>
    ensures { IfOk result (λ parsed. parsed_of parsed ≡ record_of kind cwd.now view.now options.now inner.now (found_of found)) }
{
    let parsed = short_record(alloc, options, inner, &found, kind, cwd, view)?;
    let (preprocessor_args, common_args) = copied_lists(alloc, options, inner, &found.object)?;
    Ok(ParsedArguments {
        input: found.input,
        preprocessor_args,
        common_args,
        ..parsed
    })
}
