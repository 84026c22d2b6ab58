//! The builder of Msvc's compile commands.
ghost use Rattle.std.specs.Prelude.{◌≡◌, ◌++◌, ◌↔◌, IfOk, Err, None, codes};
ghost use Rattle.scl_text.specs.Commands.{pairs_of, object_of};
ghost use Rattle.scl_text.specs.Compilers.{IsBuiltCommand};
ghost use Rattle.scl_text.specs.Records.{parsed_of};
ghost use Rattle.scl_msvc.specs.Building.{command, cacheable};
ghost use Rattle.scl_msvc.specs.Environment.{without_cl_env_vars};

use super::environment::without_cl_env_vars;
use super::words::{Lists, append_lists, push_input};
use scl_args::Mem;
use scl_text::command::{CommandWords, append_words, compile_command};
use scl_text::outputs::output_path;
use scl_text::path::join;
use scl_text::records::{Cacheable, CommandError, ParsedArguments, SingleCompileCommand};
use scl_text::view::View;
use std::alloc::Global;

fn object_word(alloc: Global, object: &[u8]) -> Mem<Vec<u8>>
    ensures { IfOk result (λ word. word.items ≡ codes "-Fo" ++ object.now) }
{
    let mut word = Vec::from_slice(alloc, b"-Fo")?;
    word.extend_from_slice(object)?;
    Ok(word)
}

/// The words of Msvc's compile commands.
struct Command;

impl CommandWords for Command {
    ghost use Rattle.scl_msvc.specs.Building.{command_words};

    ghost words = { λ _. command_words };

    fn words(&self, alloc: Global, parsed: ParsedArguments, object: &[u8]) -> Mem<Vec<Vec<u8>>> {
        let mut input = Vec::new(alloc);
        push_input(alloc, &mut input, &parsed)?;
        let ParsedArguments {
            compilation_flag,
            preprocessor_args: preprocessor,
            dependency_args: dependency,
            unhashed_args: unhashed,
            common_args: common,
            ..
        } = parsed;
        let lists = Lists {
            preprocessor,
            dependency,
            unhashed,
            common,
        };
        let mut words = Vec::new(alloc);
        words.push(compilation_flag)?;
        words.push(object_word(alloc, object)?)?;
        append_lists(&mut words, lists)?;
        append_words(&mut words, input)?;
        Ok(words)
    }
}

/// Whether the result can be cached: not if debug information would be appended to a file.
fn cacheable(alloc: Global, parsed: &ParsedArguments, cwd: &[u8], view: &View) -> Mem<Cacheable>
    ensures { IfOk result (λ kept. kept ≡ cacheable (parsed_of parsed.now) cwd.now view.now) }
{
    let Some(database) = output_path(&parsed.outputs, "pdb") else {
        return Ok(Cacheable::Yes);
    };
    if view.exists(&join(alloc, cwd, database)?) {
        Ok(Cacheable::No)
    } else {
        Ok(Cacheable::Yes)
    }
}

/// The compile command of a record, in the environment without `CL` and `_CL_`, and whether its result can be cached: not if
/// debug information goes to a file that exists (docs/RULES.md, Msvc). It takes ownership of the record. The error is
/// `MissingObj` exactly if the record has no output `obj`, else `Memory`.
pub fn generate_compile_commands_owned(
    alloc: Global,
    executable: &[u8],
    parsed: ParsedArguments,
    cwd: &[u8],
    env_vars: &[(Vec<u8>, Vec<u8>)],
    view: &View,
) -> Result<(SingleCompileCommand, Cacheable), CommandError>
    ensures command { IfOk result (λ built. IsBuiltCommand built.0 built.1 (command (parsed_of parsed)) executable.now (without_cl_env_vars (pairs_of env_vars.now)) cwd.now (cacheable (parsed_of parsed) cwd.now view.now)) }
    ensures missing { (result ≡ Err CommandError.MissingObj) ↔ (object_of (parsed_of parsed) ≡ None) }
{
    if output_path(&parsed.outputs, "obj").is_none() {
        return Err(CommandError::MissingObj);
    }
    let cacheable = cacheable(alloc, &parsed, cwd, view)?;
    let env_vars = without_cl_env_vars(alloc, env_vars)?;
    compile_command(
        alloc, &Command, executable, parsed, cwd, &env_vars, cacheable,
    )
}

/// What `generate_compile_commands_owned` gives, with a copy of the record; the errors are the same.
pub fn generate_compile_commands(
    alloc: Global,
    executable: &[u8],
    parsed: &ParsedArguments,
    cwd: &[u8],
    env_vars: &[(Vec<u8>, Vec<u8>)],
    view: &View,
) -> Result<(SingleCompileCommand, Cacheable), CommandError>
    ensures command { IfOk result (λ built. IsBuiltCommand built.0 built.1 (command (parsed_of parsed.now)) executable.now (without_cl_env_vars (pairs_of env_vars.now)) cwd.now (cacheable (parsed_of parsed.now) cwd.now view.now)) }
    ensures missing { (result ≡ Err CommandError.MissingObj) ↔ (object_of (parsed_of parsed.now) ≡ None) }
{
    let parsed = parsed.copy_for_command(alloc)?;
    generate_compile_commands_owned(alloc, executable, parsed, cwd, env_vars, view)
}
