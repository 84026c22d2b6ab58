//! The record of a compilation.
ghost use Rattle.std.specs.Prelude.{◌≡◌, IfOk};
ghost use Rattle.scl_values.specs.Words.{words_of};
ghost use Rattle.scl_text.specs.Records.{parsed_of};
ghost use Rattle.scl_msvc_reading.specs.FoundBy.{found_of};
ghost use Rattle.scl_msvc_reading.specs.InnerBy.{inner_of};
ghost use Rattle.scl_msvc_reading.specs.Recordings.{all_words_at, writes_profile, record_of};

use super::data::{ArgData, Kind};
use super::fixed_tests::Finding;
use super::hash_files::hash_paths;
use super::inner::{InnerOptions, push_inner};
use super::inputs::{Inputs, has_explicit_language};
use super::outputs::outputs_of;
use super::place::{ExternalIncludesApart, Place};
use scl_args::{Mem, OfKinds, Options};
use scl_gnu_reading::gcc;
use scl_text::outputs::copy_path;
use scl_text::records::ParsedArguments;
use scl_text::view::View;
use std::alloc::Global;

/// The words of this place: those of the outer options, then those of the inner ones.
fn all_words_at(
    alloc: Global,
    options: &Options<ArgData>,
    inner: &InnerOptions<'_>,
    there: Place,
) -> Mem<Vec<Vec<u8>>>
    ensures { IfOk result (λ words. words_of words.items ≡ all_words_at there options.now (inner_of inner.now)) }
{
    let mut words = options.list(alloc, &ExternalIncludesApart, &there)?;
    push_inner(alloc, &mut words, inner, there)?;
    Ok(words)
}

/// The two long lists: the preprocessor's words and the common ones. They take ownership of the outer options' words.
fn long_lists(
    alloc: Global,
    options: Options<ArgData>,
    inner: &InnerOptions<'_>,
) -> Mem<(Vec<Vec<u8>>, Vec<Vec<u8>>)>
    ensures preprocessor { IfOk result (λ lists. words_of lists.0.items ≡ all_words_at Place.Preprocessor options (inner_of inner.now)) }
    ensures common { IfOk result (λ lists. words_of lists.1.items ≡ all_words_at Place.Common options (inner_of inner.now)) }
{
    let (mut preprocessor, mut common) = options.into_two_lists(
        alloc,
        &ExternalIncludesApart,
        &Place::Preprocessor,
        &Place::Common,
    )?;
    push_inner(alloc, &mut preprocessor, inner, Place::Preprocessor)?;
    push_inner(alloc, &mut common, inner, Place::Common)?;
    Ok((preprocessor, common))
}

/// Whether the compiled program writes a profile when it runs; only inner options request it.
fn writes_profile(inner: &InnerOptions<'_>) -> bool
    ensures { result ≡ writes_profile (inner_of inner.now) }
{
    let profile = OfKinds(&[gcc::Kind::ProfileGenerate]);
    inner.xclang.any(&profile) || inner.clang.any(&profile)
}

/// The record of the compilation that the tests found, without its input and its two long lists.
fn short_record(
    alloc: Global,
    options: &Options<ArgData>,
    inner: &InnerOptions<'_>,
    found: &Finding,
    cwd: &[u8],
    view: &View,
) -> Mem<ParsedArguments>
    ensures { IfOk result (λ parsed. let f = found_of found.now in record (parsed_of parsed) {
      input = f.input;
      preprocessor_args = all_words_at Place.Preprocessor options.now (inner_of inner.now);
      common_args = all_words_at Place.Common options.now (inner_of inner.now);
    } ≡ record_of cwd.now view.now options.now (inner_of inner.now) f) }
{
    let outputs = outputs_of(alloc, options, found)?;
    let depfile = options.last_text(&OfKinds(&[Kind::DepFile]));
    let flag = Vec::from_slice(alloc, found.compile_flag.as_bytes())?;
    Ok(ParsedArguments {
        double_dash_input: options.is_behind_dashes(&Inputs),
        depfile: copy_path(alloc, depfile)?,
        outputs,
        dependency_args: all_words_at(alloc, options, inner, Place::Dependency)?,
        unhashed_args: all_words_at(alloc, options, inner, Place::Unhashed)?,
        extra_hash_files: hash_paths(alloc, options, inner, cwd, view)?,
        msvc_show_includes: options.any(&OfKinds(&[Kind::ShowIncludes])),
        msvc_explicit_language: has_explicit_language(options),
        profile_generate: writes_profile(inner),
        ..ParsedArguments::bare(alloc, Vec::new(alloc), found.language, flag)
    })
}

/// The record of the compilation that the tests found.
pub(crate) fn record_of(
    alloc: Global,
    options: Options<ArgData>,
    inner: &InnerOptions<'_>,
    found: Finding,
    cwd: &[u8],
    view: &View,
) -> Mem<ParsedArguments>
    ensures { IfOk result (λ parsed. parsed_of parsed ≡ record_of cwd.now view.now options (inner_of inner.now) (found_of found)) }
{
    let parsed = short_record(alloc, &options, inner, &found, cwd, view)?;
    let (preprocessor_args, common_args) = long_lists(alloc, options, inner)?;
    Ok(ParsedArguments {
        input: found.input,
        preprocessor_args,
        common_args,
        ..parsed
    })
}

/// The same record, made of copies of the options' words.
pub(crate) fn record_beside(
    alloc: Global,
    options: &Options<ArgData>,
    inner: &InnerOptions<'_>,
    found: Finding,
    cwd: &[u8],
    view: &View,
) -> Mem<ParsedArguments>
    ensures { IfOk result (λ parsed. parsed_of parsed ≡ record_of cwd.now view.now options.now (inner_of inner.now) (found_of found)) }
{
    let parsed = short_record(alloc, options, inner, &found, cwd, view)?;
    let preprocessor_args = all_words_at(alloc, options, inner, Place::Preprocessor)?;
    let common_args = all_words_at(alloc, options, inner, Place::Common)?;
    Ok(ParsedArguments {
        input: found.input,
        preprocessor_args,
        common_args,
        ..parsed
    })
}
