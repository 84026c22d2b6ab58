//! The files that come out: those of the record, and those that it does not name.
ghost use Rattle.std.specs.Prelude.{◌≡◌, ◌++◌, ◌∷◌, [], map, None, IfOk, OnOk};
ghost use Rattle.std.specs.List.{filter_map, last_or};
ghost use Rattle.std.specs.Option.{option_copied, option_to_list};
ghost use Rattle.scl_values.specs.Words.{words_of};
ghost use Rattle.scl_text.specs.Records.{artifact, artifacts, parsed_of};
ghost use Rattle.scl_key.specs.Made.{dependency_files, diagnostics_files, handed_file, joined_file, made, made_beside, named_file, unless_comma, unless_had, written_file};
ghost use Rattle.scl_key.specs.Views.{outputs_of};

use crate::effect::{has_comma, push_behind};
use crate::part::Output;
use scl_text::Mem;
use scl_text::outputs::output_path;
use scl_text::records::{ArtifactDescriptor, ParsedArguments};
use std::alloc::Global;
use std::collections::BTreeMap;

fn unless_comma(text: &[u8]) -> Option<&[u8]>
    ensures { option_copied result ≡ unless_comma text.now }
{
    if has_comma(text) { None } else { Some(text) }
}

/// The file of dependencies that a word passes to the preprocessor, and nothing else.
pub(crate) fn handed_file(word: &[u8]) -> Option<&[u8]>
    ensures { option_copied result ≡ handed_file word.now }
{
    if let Some(text) = word.strip_prefix(b"-Wp,-MD,") {
        unless_comma(text)
    } else if let Some(text) = word.strip_prefix(b"-Wp,-MMD,") {
        unless_comma(text)
    } else {
        None
    }
}

/// The file of dependencies that a word names which is joined to its flag.
pub(crate) fn joined_file(word: &[u8]) -> Option<&[u8]>
    ensures { option_copied result ≡ joined_file word.now }
{
    word.strip_prefix(b"-MF")
}

/// Appends a file, if there is one.
fn push_some<'a>(files: &mut Vec<&'a [u8]>, file: Option<&'a [u8]>) -> Mem<()>
    ensures { OnOk result (map (λ f. f.now) files.new.items ≡ map (λ f. f.now) files.old.items ++ option_to_list (option_copied file.entry)) }
{
    if let Some(file) = file {
        files.push(file)?;
    }
    Ok(())
}

/// Appends the files of dependencies that words pass to the preprocessor.
fn push_handed<'a>(files: &mut Vec<&'a [u8]>, words: &'a [Vec<u8>]) -> Mem<()>
    ensures { OnOk result (map (λ file. file.now) files.new.items ≡ map (λ file. file.now) files.old.items ++ filter_map handed_file (words_of words.now)) }
{
    for word in words {
        push_some(files, handed_file(word))?;
    }
    Ok(())
}

/// Appends the files of dependencies that are joined to their flag.
fn push_joined<'a>(files: &mut Vec<&'a [u8]>, words: &'a [Vec<u8>]) -> Mem<()>
    ensures { OnOk result (map (λ file. file.now) files.new.items ≡ map (λ file. file.now) files.old.items ++ filter_map joined_file (words_of words.now)) }
{
    for word in words {
        push_some(files, joined_file(word))?;
    }
    Ok(())
}

/// The last of these, if there is one.
fn last_of<'a>(files: &[&'a [u8]]) -> Option<&'a [u8]>
    ensures { option_copied result ≡ last_or None (map (λ file. file.now) files.now) }
{
    match files.last() {
        Some(file) => Some(*file),
        None => None,
    }
}

/// Appends the file that is named last, among the words about dependencies or joined to its flag among the common words.
fn push_named<'a>(
    alloc: Global,
    files: &mut Vec<&'a [u8]>,
    dependency: &'a [Vec<u8>],
    common: &'a [Vec<u8>],
) -> Mem<()>
    ensures { OnOk result (map (λ file. file.now) files.new.items ≡ map (λ file. file.now) files.old.items ++ named_file (words_of dependency.now) (words_of common.now)) }
{
    let mut named = Vec::new(alloc);
    push_behind(&mut named, b"-MF", dependency)?;
    push_joined(&mut named, common)?;
    push_some(files, last_of(&named))
}

/// Appends the file that is named last, if one is written.
fn push_written<'a>(
    alloc: Global,
    files: &mut Vec<&'a [u8]>,
    parsed: &'a ParsedArguments,
) -> Mem<()>
    ensures { OnOk result (map (λ file. file.now) files.new.items ≡ map (λ file. file.now) files.old.items ++ written_file (parsed_of parsed.now)) }
{
    if parsed.language.needs_c_preprocessing() {
        push_named(alloc, files, &parsed.dependency_args, &parsed.common_args)
    } else {
        Ok(())
    }
}

/// The files of dependencies.
pub(crate) fn dependency_files<'a>(alloc: Global, parsed: &'a ParsedArguments) -> Mem<Vec<&'a [u8]>>
    ensures { IfOk result (λ files. map (λ file. file.now) files.items ≡ dependency_files (parsed_of parsed.now)) }
{
    let mut files = Vec::new(alloc);
    push_written(alloc, &mut files, parsed)?;
    push_handed(&mut files, &parsed.preprocessor_args)?;
    push_handed(&mut files, &parsed.common_args)?;
    push_some(&mut files, parsed.depfile.as_deref())?;
    Ok(files)
}

/// The files of diagnostics.
fn diagnostics_files<'a>(alloc: Global, parsed: &'a ParsedArguments) -> Mem<Vec<&'a [u8]>>
    ensures { IfOk result (λ files. map (λ file. file.now) files.items ≡ diagnostics_files (parsed_of parsed.now)) }
{
    let mut files = Vec::new(alloc);
    let flag = b"--serialize-diagnostics";
    push_behind(&mut files, flag, &parsed.preprocessor_args)?;
    push_behind(&mut files, flag, &parsed.common_args)?;
    Ok(files)
}

/// Appends an output.
fn push_output(
    alloc: Global,
    outputs: &mut Vec<Output>,
    name: &str,
    path: &[u8],
    optional: bool,
) -> Mem<()>
    ensures { OnOk result (outputs_of outputs.new.items ≡ outputs_of outputs.old.items ++ artifact name.now path.now optional ∷ []) }
{
    let name = Vec::from_slice(alloc, name.as_bytes())?;
    let path = Vec::from_slice(alloc, path)?;
    outputs.push(Output {
        name,
        path,
        optional,
    })?;
    Ok(())
}

/// Appends the outputs of a record.
fn push_had(
    alloc: Global,
    outputs: &mut Vec<Output>,
    had: &BTreeMap<String, ArtifactDescriptor>,
) -> Mem<()>
    ensures { OnOk result (outputs_of outputs.new.items ≡ outputs_of outputs.old.items ++ artifacts had.now) }
{
    for (name, output) in had.iter() {
        push_output(alloc, outputs, name.as_str(), &output.path, output.optional)?;
    }
    Ok(())
}

/// Appends the outputs of this name, unless the record has it.
fn push_lacking(
    alloc: Global,
    outputs: &mut Vec<Output>,
    name: &str,
    paths: &[&[u8]],
    parsed: &ParsedArguments,
) -> Mem<()>
    ensures { OnOk result (outputs_of outputs.new.items ≡ outputs_of outputs.old.items ++ unless_had name.now (map (λ path. path.now) paths.now) (parsed_of parsed.now)) }
{
    if output_path(&parsed.outputs, name).is_some() {
        return Ok(());
    }
    for path in paths {
        push_output(alloc, outputs, name, path, false)?;
    }
    Ok(())
}

/// Appends the files that come out beside the outputs of a record.
fn push_beside(alloc: Global, outputs: &mut Vec<Output>, parsed: &ParsedArguments) -> Mem<()>
    ensures { OnOk result (outputs_of outputs.new.items ≡ outputs_of outputs.old.items ++ made_beside (parsed_of parsed.now)) }
{
    let mut files = dependency_files(alloc, parsed)?;
    files.truncate(1);
    push_lacking(alloc, outputs, "d", &files, parsed)?;
    let files = diagnostics_files(alloc, parsed)?;
    push_lacking(alloc, outputs, "dia", &files, parsed)
}

/// The files that come out beside the outputs of a record: the first dependency file and the files of diagnostics that words name,
/// unless the record has an output of that name.
pub fn made_beside(alloc: Global, parsed: &ParsedArguments) -> Mem<Vec<Output>>
    ensures { IfOk result (λ outputs. outputs_of outputs.items ≡ made_beside (parsed_of parsed.now)) }
{
    let mut outputs = Vec::new(alloc);
    push_beside(alloc, &mut outputs, parsed)?;
    Ok(outputs)
}

/// All files that come out.
pub(crate) fn made(alloc: Global, parsed: &ParsedArguments) -> Mem<Vec<Output>>
    ensures { IfOk result (λ outputs. outputs_of outputs.items ≡ made (parsed_of parsed.now)) }
{
    let mut outputs = Vec::new(alloc);
    push_had(alloc, &mut outputs, &parsed.outputs)?;
    push_beside(alloc, &mut outputs, parsed)?;
    Ok(outputs)
}
