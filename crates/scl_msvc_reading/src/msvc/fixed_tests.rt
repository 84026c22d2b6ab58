//! The tests after the verdicts of the options.
ghost use Rattle.std.specs.Prelude.{◌≡◌, IfOk, codes};
ghost use Rattle.std.specs.Option.{option_copied, option_map};
ghost use Rattle.scl_values.specs.Words.{words_of};
ghost use Rattle.scl_files.specs.Paths.{file_name, join, with_extension};
ghost use Rattle.scl_text.specs.Records.{path_of};
ghost use Rattle.scl_text.specs.Refusals.{verdict_of};
ghost use Rattle.scl_text.specs.Stops.{Gives};
ghost use Rattle.scl_msvc_reading.specs.FixedTests.{module_verdict, input_unless, language_of, names_folder, with_default_extension, object_path, program_database, found};
ghost use Rattle.scl_msvc_reading.specs.FoundBy.{found_of};

use super::data::{ArgData, Kind};
use super::inputs::{Inputs, explicit_language, has_explicit_language};
use super::judge::refuse_if;
use scl_args::{Mem, OfKinds, Options};
use scl_text::Stop;
use scl_text::language::Language;
use scl_text::path::{extension, file_name, join, with_extension};
use scl_text::reasons::{INVALID_INPUT_FILE, UNKNOWN_SOURCE_LANGUAGE};
use scl_text::refusal::{Refusal, cannot_cache, one_input};
use std::alloc::Global;

/// What the tests find.
#[derive(Drop)]
pub(crate) struct Finding {
    pub(crate) compile_flag: &'static str,
    pub(crate) input: Vec<u8>,
    pub(crate) language: Language,
    pub(crate) object: Vec<u8>,
    pub(crate) program_database: Option<Vec<u8>>,
}

/// Why a module is refused: it has no output path, or there is such a path without a module, or a flag gives the input another
/// language.
fn judge_module(is_compiled: bool, is_named: bool, has_language: bool) -> Option<Refusal>
    ensures { option_map verdict_of result ≡ module_verdict is_compiled is_named has_language }
{
    if is_compiled != is_named {
        return Some(Refusal::CannotCache(
            "-x c++-module without -fmodule-output= or vice versa",
            None,
        ));
    }
    refuse_if(is_compiled && has_language, "-x c++-module with /Tc or /Tp")
}

/// The only input. Several inputs are refused; else this refusal counts, if there is one.
fn input_unless(
    alloc: Global,
    refusal: Option<Refusal>,
    inputs: Vec<Vec<u8>>,
) -> Result<Vec<u8>, Stop>
    ensures { Gives (λ input. input.items) result (input_unless (option_map verdict_of refusal) (words_of inputs.items)) }
{
    if inputs.len() > 1 {
        drop(refusal);
        return one_input(alloc, inputs);
    }
    match refusal {
        Some(refusal) => Err(Stop::Refused(refusal)),
        None => one_input(alloc, inputs),
    }
}

fn language_of(is_module: bool, explicit: Option<Language>, input: &[u8]) -> Option<Language>
    ensures { result ≡ language_of is_module explicit input.now }
{
    if is_module {
        return Some(Language::CxxModule);
    }
    match explicit {
        Some(language) => Some(language),
        None => Language::from_file_name(input),
    }
}

fn names_folder(path: &[u8]) -> bool
    ensures { result ≡ names_folder path.now }
{
    path.ends_with(b"/") || path.ends_with(b"\\")
}

/// The path, with this extension if it has none.
fn with_default_extension(alloc: Global, path: &[u8], default: &[u8]) -> Mem<Vec<u8>>
    ensures { IfOk result (λ whole. whole.items ≡ with_default_extension path.now default.now) }
{
    match extension(path) {
        Some(_) => Vec::from_slice(alloc, path),
        None => with_extension(alloc, path, default),
    }
}

/// The object in the folder, with the input's file name.
fn object_in(alloc: Global, folder: &[u8], input: &[u8]) -> Mem<Option<Vec<u8>>>
    ensures { IfOk result (λ object. path_of object ≡ option_map (λ name. with_extension (join folder.now name) (codes "obj")) (file_name input.now)) }
{
    let Some(name) = file_name(input) else {
        return Ok(None);
    };
    let path = join(alloc, folder, name)?;
    Ok(Some(with_extension(alloc, &path, b"obj")?))
}

fn object_path(alloc: Global, output: Option<&[u8]>, input: &[u8]) -> Mem<Option<Vec<u8>>>
    ensures { IfOk result (λ object. path_of object ≡ object_path (option_copied output.entry) input.now) }
{
    match output {
        None => Ok(Some(with_extension(alloc, input, b"obj")?)),
        Some(path) if names_folder(path) => object_in(alloc, path, input),
        Some(path) => Ok(Some(with_default_extension(alloc, path, b"obj")?)),
    }
}

/// The path of debug information, if it goes to a separate file; then the line must have it.
fn program_database(
    alloc: Global,
    is_apart: bool,
    path: Option<&[u8]>,
) -> Result<Option<Vec<u8>>, Stop>
    ensures { Gives path_of result (program_database is_apart (option_copied path.entry)) }
{
    if !is_apart {
        return Ok(None);
    }
    match path {
        Some(path) if !names_folder(path) => {
            Ok(Some(with_default_extension(alloc, path, b"pdb")?))
        }
        Some(_) | None => Err(Stop::Refused(cannot_cache("shared pdb"))),
    }
}

/// The tests, in order.
pub(crate) fn apply_fixed_tests(
    alloc: Global,
    options: &Options<ArgData>,
    is_clang: bool,
) -> Result<Finding, Stop>
    ensures { Gives found_of result (found is_clang options.now) }
{
    let compile_flag = options
        .last_flag(&OfKinds(&[Kind::DoCompilation]))
        .ok_or(Refusal::NotCompilation)?;
    let is_module = options.any(&OfKinds(&[Kind::ClangLanguage]));
    let is_named = options.any(&OfKinds(&[Kind::ClangModuleOutput]));
    let refusal = judge_module(is_module, is_named, has_explicit_language(options));
    let input = input_unless(alloc, refusal, options.texts(alloc, &Inputs)?)?;
    let language = language_of(is_module, explicit_language(options), &input);
    let language = language.ok_or(cannot_cache(UNKNOWN_SOURCE_LANGUAGE))?;
    let output = options.last_text(&OfKinds(&[Kind::Output]));
    let object = object_path(alloc, output, &input)?.ok_or(cannot_cache(INVALID_INPUT_FILE))?;
    let is_apart = !is_clang && options.any(&OfKinds(&[Kind::DebugInfo]));
    let path = options.last_text(&OfKinds(&[Kind::ProgramDatabase]));
    let program_database = program_database(alloc, is_apart, path)?;
    Ok(Finding {
        compile_flag,
        input,
        language,
        object,
        program_database,
    })
}
