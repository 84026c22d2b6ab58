//! Copies of records.
ghost use Rattle.std.specs.Prelude.{◌≡◌, ◌↔◌, IfOk, Err, None};
ghost use Rattle.scl_text.specs.Commands.{object_of};
ghost use Rattle.scl_text.specs.Records.{artifacts, parsed_of, path_of};

use crate::command::copy_words;
use crate::outputs::output_path;
use crate::records::{ArtifactDescriptor, CommandError, ParsedArguments};
use scl_args::Mem;
use std::alloc::Global;
use std::collections::BTreeMap;

fn copy_path(alloc: Global, path: &Option<Vec<u8>>) -> Mem<Option<Vec<u8>>>
    ensures { IfOk result (λ copy. path_of copy ≡ path_of path.now) }
{
    match path {
        Some(path) => Ok(Some(Vec::from_slice(alloc, path)?)),
        None => Ok(None),
    }
}

impl Clone for ArtifactDescriptor {
    ghost use Rattle.std.specs.Prelude.{◌≡◌};

    ghost is_clone = { λ output copy. (copy.path.items ≡ output.path.items) × (copy.optional ≡ output.optional) };

    fn clone(&self) -> Mem<ArtifactDescriptor> {
        Ok(ArtifactDescriptor {
            path: Vec::from_slice(*self.path.allocator(), &self.path)?,
            optional: self.optional,
        })
    }
}

fn copy_outputs(
    outputs: &BTreeMap<String, ArtifactDescriptor>,
) -> Mem<BTreeMap<String, ArtifactDescriptor>>
    ensures { IfOk result (λ copies. artifacts copies ≡ artifacts outputs.now) }
{
    let copies = outputs.clone()?;
    Ok(copies)
}

impl ParsedArguments {
    /// A copy of the record.
    pub fn copy(&self, alloc: Global) -> Mem<ParsedArguments>
        ensures { IfOk result (λ copy. parsed_of copy ≡ parsed_of self.now) }
    {
        Ok(ParsedArguments {
            input: Vec::from_slice(alloc, &self.input)?,
            double_dash_input: self.double_dash_input,
            language: self.language,
            compilation_flag: Vec::from_slice(alloc, &self.compilation_flag)?,
            depfile: copy_path(alloc, &self.depfile)?,
            outputs: copy_outputs(&self.outputs)?,
            dependency_args: copy_words(alloc, &self.dependency_args)?,
            preprocessor_args: copy_words(alloc, &self.preprocessor_args)?,
            common_args: copy_words(alloc, &self.common_args)?,
            arch_args: copy_words(alloc, &self.arch_args)?,
            unhashed_args: copy_words(alloc, &self.unhashed_args)?,
            extra_dist_files: copy_words(alloc, &self.extra_dist_files)?,
            extra_hash_files: copy_words(alloc, &self.extra_hash_files)?,
            uses_external_assembler: self.uses_external_assembler,
            msvc_show_includes: self.msvc_show_includes,
            msvc_explicit_language: self.msvc_explicit_language,
            profile_generate: self.profile_generate,
            color_mode: self.color_mode,
            suppress_rewrite_includes_only: self.suppress_rewrite_includes_only,
            too_hard_for_preprocessor_cache_mode: copy_path(
                alloc,
                &self.too_hard_for_preprocessor_cache_mode,
            )?,
        })
    }

    /// A copy of a record that has a command. The error is `MissingObj` exactly if the record has no output `obj`, else
    /// `Memory`.
    pub fn copy_for_command(&self, alloc: Global) -> Result<ParsedArguments, CommandError>
        ensures copy { IfOk result (λ copy. parsed_of copy ≡ parsed_of self.now) }
        ensures missing { (result ≡ Err CommandError.MissingObj) ↔ (object_of (parsed_of self.now) ≡ None) }
    {
        if output_path(&self.outputs, "obj").is_none() {
            return Err(CommandError::MissingObj);
        }
        Ok(self.copy(alloc)?)
    }
}
