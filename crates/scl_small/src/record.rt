//! The record.
ghost use Rattle.std.specs.Prelude.{◌≡◌, ◌∷◌, [], IfOk, false, codes};
ghost use Rattle.std.specs.Option.{option_copied};
ghost use Rattle.scl_text.specs.Records.{parsed_of, path_of, artifact, artifacts};
ghost use Rattle.scl_small.specs.Readings.{record_of, object_path, dependency_path};

use crate::place::{Place, Placed};
use scl_args::{Options, ShortFlagsJoined};
use scl_text::Mem;
use scl_text::language::Language;
use scl_text::outputs::put_output;
use scl_text::path::with_extension;
use scl_text::records::{ArtifactDescriptor, ParsedArguments};
use std::alloc::Global;
use std::collections::BTreeMap;

/// The path of the object file: the one that is requested, else the input with extension `o`.
fn object_path(alloc: Global, output: Option<&[u8]>, input: &[u8]) -> Mem<Vec<u8>>
    ensures { IfOk result (λ path. path.items ≡ object_path (option_copied output.entry) input.now) }
{
    match output {
        Some(path) => Vec::from_slice(alloc, path),
        None => with_extension(alloc, input, b"o"),
    }
}

/// The path of the dependency file, if one is requested; for an empty path the input with extension `d`.
fn dependency_path(alloc: Global, depfile: Option<&[u8]>, input: &[u8]) -> Mem<Option<Vec<u8>>>
    ensures { IfOk result (λ path. path_of path ≡ dependency_path (option_copied depfile.entry) input.now) }
{
    match depfile {
        Some([]) => Ok(Some(with_extension(alloc, input, b"d")?)),
        Some(path) => Ok(Some(Vec::from_slice(alloc, path)?)),
        None => Ok(None),
    }
}

/// The outputs of a compilation: the object file.
fn outputs_of(alloc: Global, object: Vec<u8>) -> Mem<BTreeMap<String, ArtifactDescriptor>>
    ensures { IfOk result (λ outputs. artifacts outputs ≡ artifact (codes "obj") object.items false ∷ []) }
{
    let mut outputs = BTreeMap::new(alloc);
    put_output(alloc, &mut outputs, "obj", object, false)?;
    Ok(outputs)
}

/// The record of a compilation with this flag, of an input in this language.
pub(crate) fn record_of<T: Placed>(
    alloc: Global,
    options: Options<T>,
    flag: &str,
    input: Vec<u8>,
    language: Language,
) -> Mem<ParsedArguments>
    ensures { IfOk result (λ parsed. parsed_of parsed ≡ record_of T.place options flag.now input.items language) }
{
    let object = object_path(alloc, options.last_text(&Place::Output), &input)?;
    let depfile = dependency_path(alloc, options.last_text(&Place::DepFile), &input)?;
    let outputs = outputs_of(alloc, object)?;
    let dependency_args = options.list(alloc, &ShortFlagsJoined, &Place::Dependency)?;
    let (preprocessor_args, common_args) = options.into_two_lists(
        alloc,
        &ShortFlagsJoined,
        &Place::Preprocessor,
        &Place::Common,
    )?;
    let flag = Vec::from_slice(alloc, flag.as_bytes())?;
    Ok(ParsedArguments {
        depfile,
        outputs,
        dependency_args,
        preprocessor_args,
        common_args,
        ..ParsedArguments::bare(alloc, input, language, flag)
    })
}

/// The same, with copies of the options' words.
pub(crate) fn record_beside<T: Placed>(
    alloc: Global,
    options: &Options<T>,
    flag: &str,
    input: Vec<u8>,
    language: Language,
) -> Mem<ParsedArguments>
    ensures { IfOk result (λ parsed. parsed_of parsed ≡ record_of T.place options.now flag.now input.items language) }
{
    let object = object_path(alloc, options.last_text(&Place::Output), &input)?;
    let depfile = dependency_path(alloc, options.last_text(&Place::DepFile), &input)?;
    let outputs = outputs_of(alloc, object)?;
    let dependency_args = options.list(alloc, &ShortFlagsJoined, &Place::Dependency)?;
    let preprocessor_args = options.list(alloc, &ShortFlagsJoined, &Place::Preprocessor)?;
    let common_args = options.list(alloc, &ShortFlagsJoined, &Place::Common)?;
    let flag = Vec::from_slice(alloc, flag.as_bytes())?;
    Ok(ParsedArguments {
        depfile,
        outputs,
        dependency_args,
        preprocessor_args,
        common_args,
        ..ParsedArguments::bare(alloc, input, language, flag)
    })
}
