//! What every builder of a command uses: appending words, copies, and the command of its parts.
ghost use Rattle.std.specs.Prelude.{◌≡◌, ◌↔◌, ◌++◌, ◌∷◌, [], false, OnOk, OnErr, IfOk, IsOk, Err, None};
ghost use Rattle.std.specs.Option.{option_map};
ghost use Rattle.std.specs.String.{string_bytes};
ghost use Rattle.scl_values.specs.Words.{words_of};
ghost use Rattle.scl_args.specs.Options.{dash_words};
ghost use Rattle.scl_args.specs.Wrapped.{HasFirstOf};
ghost use Rattle.scl_text.specs.Commands.{Builds, pairs_of, object_of, command_by};
ghost use Rattle.scl_text.specs.Compilers.{IsBuiltCommand};
ghost use Rattle.scl_text.specs.Records.{parsed_of};

use crate::outputs::output_path;
use crate::records::{Cacheable, CommandError, ParsedArguments, SingleCompileCommand};
use scl_args::Mem;
use std::alloc::Global;

/// Appends a copy of a word. If it fails, the list is unchanged.
pub fn push_word(alloc: Global, list: &mut Vec<Vec<u8>>, word: &[u8]) -> Mem<()>
    ensures ok { OnOk result (words_of list.new.items ≡ words_of list.old.items ++ word.now ∷ []) }
    ensures err { OnErr result (list.new.items ≡ list.old.items) }
{
    list.push(Vec::from_slice(alloc, word)?)?;
    Ok(())
}

/// Appends copies of words. If it fails, the first of them may have been appended.
pub fn push_words(alloc: Global, list: &mut Vec<Vec<u8>>, words: &[Vec<u8>]) -> Mem<()>
    ensures ok { OnOk result (words_of list.new.items ≡ words_of list.old.items ++ words_of words.now) }
    ensures err { OnErr result (HasFirstOf (words_of list.old.items) (words_of words.now) (words_of list.new.items)) }
{
    for word in words {
        push_word(alloc, list, word)?;
    }
    Ok(())
}

/// Copies of words.
pub fn copy_words(alloc: Global, words: &[Vec<u8>]) -> Mem<Vec<Vec<u8>>>
    ensures { IfOk result (λ copies. words_of copies.items ≡ words_of words.now) }
{
    let mut copies = Vec::with_capacity(alloc, words.len())?;
    push_words(alloc, &mut copies, words)?;
    Ok(copies)
}

/// Appends words. If it fails, the list is unchanged.
pub fn append_words(list: &mut Vec<Vec<u8>>, words: Vec<Vec<u8>>) -> Mem<()>
    ensures ok { OnOk result (words_of list.new.items ≡ words_of list.old.items ++ words_of words.items) }
    ensures err { OnErr result (list.new.items ≡ list.old.items) }
{
    let mut words = words;
    list.append(&mut words)
}

/// Appends `--` if an input follows it. If it fails, the list is unchanged.
pub fn push_dashes(alloc: Global, list: &mut Vec<Vec<u8>>, is_behind_dashes: bool) -> Mem<()>
    ensures ok { OnOk result (words_of list.new.items ≡ words_of list.old.items ++ dash_words is_behind_dashes) }
    ensures err { OnErr result (list.new.items ≡ list.old.items) }
    ensures none { is_behind_dashes ≡ false → IsOk result }
{
    if is_behind_dashes {
        push_word(alloc, list, b"--")?;
    }
    Ok(())
}

/// A copy of a text, if there is one. Without a text it does not fail.
pub fn copy_text(alloc: Global, text: &Option<String>) -> Mem<Option<String>>
    ensures copy { IfOk result (λ copy. option_map string_bytes copy ≡ option_map string_bytes text.now) }
    ensures none { option_map string_bytes text.now ≡ None → IsOk result }
{
    match text {
        Some(text) => Ok(Some(String::from_str(alloc, text.as_str())?)),
        None => Ok(None),
    }
}

/// Copies of pairs of a key and a value.
pub fn copy_pairs(alloc: Global, pairs: &[(Vec<u8>, Vec<u8>)]) -> Mem<Vec<(Vec<u8>, Vec<u8>)>>
    ensures { IfOk result (λ copies. pairs_of copies.items ≡ pairs_of pairs.now) }
{
    let mut copies = Vec::new(alloc);
    for (key, value) in pairs {
        let key = Vec::from_slice(alloc, key)?;
        let value = Vec::from_slice(alloc, value)?;
        copies.push((key, value))?;
    }
    Ok(copies)
}

/// The command of a program: its words, its environment and its directory, without a job server.
pub fn single_command(
    alloc: Global,
    executable: &[u8],
    arguments: Vec<Vec<u8>>,
    env_vars: Vec<(Vec<u8>, Vec<u8>)>,
    cwd: &[u8],
) -> Mem<SingleCompileCommand>
    ensures { IfOk result (λ command. Builds command executable.now (words_of arguments.items) (pairs_of env_vars.items) cwd.now) }
{
    Ok(SingleCompileCommand {
        executable: Vec::from_slice(alloc, executable)?,
        arguments,
        env_vars,
        cwd: Vec::from_slice(alloc, cwd)?,
        share_jobserver: false,
    })
}

/// Makes the words of a record's compile command.
pub trait CommandWords {
    ghost use Rattle.std.specs.Prelude.{ℕ, List};
    ghost use Rattle.scl_text.specs.Records.{Parsed};

    /// The words of a record's command, for this object.
    ghost words: { Self → Parsed → List ℕ → List (List ℕ) };

    /// The words that make this object file.
    fn words(&self, alloc: Global, parsed: ParsedArguments, object: &[u8]) -> Mem<Vec<Vec<u8>>>
        ensures { IfOk result (λ made. words_of made.items ≡ words self.now (parsed_of parsed) object.now) };
}

/// The compile command of a record, and whether its result can be cached. The error is `MissingObj` exactly if the record has
/// no output `obj`, else `Memory`.
pub fn compile_command<W: CommandWords>(
    alloc: Global,
    words: &W,
    executable: &[u8],
    parsed: ParsedArguments,
    cwd: &[u8],
    env_vars: &[(Vec<u8>, Vec<u8>)],
    cacheable: Cacheable,
) -> Result<(SingleCompileCommand, Cacheable), CommandError>
    ensures command { IfOk result (λ built. IsBuiltCommand built.0 built.1 (command_by (W.words words.now) (parsed_of parsed)) executable.now (pairs_of env_vars.now) cwd.now cacheable) }
    ensures missing { (result ≡ Err CommandError.MissingObj) ↔ (object_of (parsed_of parsed) ≡ None) }
{
    let Some(object) = output_path(&parsed.outputs, "obj") else {
        return Err(CommandError::MissingObj);
    };
    let object = Vec::from_slice(alloc, object)?;
    let arguments = words.words(alloc, parsed, &object)?;
    let env_vars = copy_pairs(alloc, env_vars)?;
    let command = single_command(alloc, executable, arguments, env_vars, cwd)?;
    Ok((command, cacheable))
}
