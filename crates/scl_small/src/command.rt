//! The compile command of Diab and TaskingVX.
ghost use Rattle.std.specs.Prelude.{◌≡◌, ◌↔◌, Err, IfOk, None};
ghost use Rattle.scl_text.specs.Commands.{pairs_of, object_of};
ghost use Rattle.scl_text.specs.Compilers.{IsBuiltCommand};
ghost use Rattle.scl_text.specs.Records.{parsed_of};
ghost use Rattle.scl_small.specs.Command.{command};

use scl_text::command::{CommandWords, append_words, compile_command, push_word};
use scl_text::records::{Cacheable, CommandError, ParsedArguments, SingleCompileCommand};
use scl_text::{Mem, View};
use std::alloc::Global;

/// The words of the compile command of Diab and TaskingVX.
struct Command;

impl CommandWords for Command {
    ghost use Rattle.scl_small.specs.Command.{command_words};

    ghost words = { λ _. command_words };

    fn words(&self, alloc: Global, parsed: ParsedArguments, object: &[u8]) -> Mem<Vec<Vec<u8>>> {
        let ParsedArguments {
            input,
            compilation_flag,
            preprocessor_args,
            unhashed_args,
            common_args,
            ..
        } = parsed;
        let mut words = Vec::new(alloc);
        words.push(compilation_flag)?;
        words.push(input)?;
        push_word(alloc, &mut words, b"-o")?;
        push_word(alloc, &mut words, object)?;
        append_words(&mut words, preprocessor_args)?;
        append_words(&mut words, unhashed_args)?;
        append_words(&mut words, common_args)?;
        Ok(words)
    }
}

/// The compile command of a record; its result can be cached (docs/RULES.md, Diab and TaskingVX). It takes ownership of the
/// record. The error is `MissingObj` exactly if the record has no output `obj`, else `Memory`. The view is not used.
pub fn generate_compile_commands_owned(
    alloc: Global,
    executable: &[u8],
    parsed: ParsedArguments,
    cwd: &[u8],
    env_vars: &[(Vec<u8>, Vec<u8>)],
    _view: &View,
) -> Result<(SingleCompileCommand, Cacheable), CommandError>
    ensures command { IfOk result (λ built. IsBuiltCommand built.0 built.1 (command (parsed_of parsed)) executable.now (pairs_of env_vars.now) cwd.now Cacheable.Yes) }
    ensures missing { (result ≡ Err CommandError.MissingObj) ↔ (object_of (parsed_of parsed) ≡ None) }
{
    compile_command(
        alloc,
        &Command,
        executable,
        parsed,
        cwd,
        env_vars,
        Cacheable::Yes,
    )
}

/// What `generate_compile_commands_owned` gives, with a copy of the record; the errors are the same.
pub fn generate_compile_commands(
    alloc: Global,
    executable: &[u8],
    parsed: &ParsedArguments,
    cwd: &[u8],
    env_vars: &[(Vec<u8>, Vec<u8>)],
    view: &View,
) -> Result<(SingleCompileCommand, Cacheable), CommandError>
    ensures command { IfOk result (λ built. IsBuiltCommand built.0 built.1 (command (parsed_of parsed.now)) executable.now (pairs_of env_vars.now) cwd.now Cacheable.Yes) }
    ensures missing { (result ≡ Err CommandError.MissingObj) ↔ (object_of (parsed_of parsed.now) ≡ None) }
{
    let parsed = parsed.copy_for_command(alloc)?;
    generate_compile_commands_owned(alloc, executable, parsed, cwd, env_vars, view)
}
