//! The tests after the verdicts of the options.
ghost use Rattle.std.specs.Prelude.{◌≡◌, ◌++◌, IfOk, codes, unwrap_or, [], ◌∷◌};
ghost use Rattle.std.specs.Option.{option_copied};
ghost use Rattle.scl_files.specs.Paths.{extension};
ghost use Rattle.scl_text.specs.Records.{path_of};
ghost use Rattle.scl_text.specs.Stops.{Gives};
ghost use Rattle.scl_gnu_reading.specs.FixedTests.{driven, language_of, object_path, with_pcm, module_path_of, module_path_unless, found};
ghost use Rattle.scl_gnu_reading.specs.FoundBy.{found_of};
ghost use Rattle.scl_args.specs.Options.{last_text};
ghost use Rattle.scl_gnu_reading.specs.Kinds.{any, of};

use super::data::{ArgData, Kind};
use super::inputs::Inputs;
use scl_args::{Mem, OfKinds, Options};
use scl_text::Stop;
use scl_text::language::Language;
use scl_text::path::{extension, file_name, with_extension, with_file_name};
use scl_text::reasons::{INVALID_INPUT_FILE, UNKNOWN_SOURCE_LANGUAGE};
use scl_text::refusal::{Refusal, cannot_cache, one_input};
use std::alloc::Global;

/// What the tests find.
#[derive(Drop)]
pub struct Finding {
    /// The flag that requests a compilation.
    pub compile_flag: &'static str,
    /// The only input.
    pub input: Vec<u8>,
    /// Its language.
    pub language: Language,
    /// The path of the object.
    pub object: Vec<u8>,
    /// The path of the module, if there is one.
    pub module_path: Option<Vec<u8>>,
}

/// The language for the driver: a C++ driver takes C files as C++.
fn driven(plusplus: bool, language: Language) -> Language
    ensures { result ≡ driven plusplus language }
{
    if plusplus && language == Language::C {
        Language::Cxx
    } else {
        language
    }
}

fn language_of(plusplus: bool, text: Option<&[u8]>, input: &[u8]) -> Option<Language>
    ensures { result ≡ language_of plusplus (option_copied text.entry) input.now }
{
    match text {
        Some(text) => Language::from_gcc_arg(text),
        None => Some(driven(plusplus, Language::from_file_name(input)?)),
    }
}

fn object_path(alloc: Global, output: Option<&[u8]>, input: &[u8]) -> Mem<Option<Vec<u8>>>
    ensures { IfOk result (λ object. path_of object ≡ object_path (option_copied output.entry) input.now) }
{
    if let Some(path) = output {
        return Ok(Some(Vec::from_slice(alloc, path)?));
    }
    match file_name(input) {
        Some(name) => Ok(Some(with_extension(alloc, name, b"o")?)),
        None => Ok(None),
    }
}

fn pcm_extension(alloc: Global, path: &[u8]) -> Mem<Vec<u8>>
    ensures { IfOk result (λ word. word.items ≡ unwrap_or (extension path.now) [] ++ codes ".pcm") }
{
    let mut word = Vec::from_slice(alloc, extension(path).unwrap_or(&[]))?;
    word.extend_from_slice(b".pcm")?;
    Ok(word)
}

fn with_pcm(alloc: Global, path: &[u8]) -> Mem<Vec<u8>>
    ensures { IfOk result (λ whole. whole.items ≡ with_pcm path.now) }
{
    let extension = pcm_extension(alloc, path)?;
    with_extension(alloc, path, &extension)
}

fn module_path_of(
    alloc: Global,
    text: Option<&[u8]>,
    input: &[u8],
    object: &[u8],
) -> Result<Option<Vec<u8>>, Stop>
    ensures { Gives path_of result (module_path_of (option_copied text.entry) input.now object.now) }
{
    match text {
        None => Ok(None),
        Some([_, path @ ..]) => Ok(Some(Vec::from_slice(alloc, path)?)),
        Some([]) => {
            let name = file_name(input).ok_or(cannot_cache(INVALID_INPUT_FILE))?;
            let beside = with_file_name(alloc, object, name)?;
            Ok(Some(with_pcm(alloc, &beside)?))
        }
    }
}

fn module_path(
    alloc: Global,
    options: &Options<ArgData>,
    input: &[u8],
    object: &[u8],
) -> Result<Option<Vec<u8>>, Stop>
    ensures { Gives path_of result
        (module_path_unless (any (Kind.ModuleOnlyFlag ∷ []) options.now) (last_text (of (Kind.ClangModuleOutput ∷ [])) options.now) input.now object.now) }
{
    if options.any(&OfKinds(&[Kind::ModuleOnlyFlag])) {
        return Ok(None);
    }
    let text = options.last_text(&OfKinds(&[Kind::ClangModuleOutput]));
    module_path_of(alloc, text, input, object)
}

/// What the tests find, in order, in options that are not refused; `plusplus` is set for a C++ driver (docs/RULES.md, Gcc).
/// It stops at the first test that refuses; the only other error is a refused allocation.
pub fn apply_fixed_tests(
    alloc: Global,
    options: &Options<ArgData>,
    plusplus: bool,
) -> Result<Finding, Stop>
    ensures { Gives found_of result (found plusplus options.now) }
{
    let compile_flag = options
        .last_flag(&OfKinds(&[Kind::DoCompilation]))
        .ok_or(Refusal::NotCompilation)?;
    let input = one_input(alloc, options.texts(alloc, &Inputs)?)?;
    let text = options.last_text(&OfKinds(&[Kind::Language]));
    let language = language_of(plusplus, text, &input);
    let language = language.ok_or(cannot_cache(UNKNOWN_SOURCE_LANGUAGE))?;
    let output = options.last_text(&OfKinds(&[Kind::Output]));
    let object = object_path(alloc, output, &input)?.ok_or(cannot_cache(INVALID_INPUT_FILE))?;
    let module_path = module_path(alloc, options, &input, &object)?;
    Ok(Finding {
        compile_flag,
        input,
        language,
        object,
        module_path,
    })
}
