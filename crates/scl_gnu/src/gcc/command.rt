//! The builder of Gcc's compile commands.
ghost use Rattle.std.specs.Prelude.{◌≡◌, ◌++◌, ◌↔◌, IfOk, OnOk, Err, None};
ghost use Rattle.std.specs.Option.{option_copied, option_map};
ghost use Rattle.scl_text.specs.Commands.{pairs_of, object_of};
ghost use Rattle.scl_text.specs.Compilers.{IsBuiltCommand};
ghost use Rattle.scl_text.specs.Languages.{gcc_text};
ghost use Rattle.scl_text.specs.Records.{parsed_of};
ghost use Rattle.scl_values.specs.Words.{words_of};
ghost use Rattle.scl_gnu.specs.Building.{front_words, color_words, command};

use super::words::{Lists, push_language, push_lists};
use scl_args::Mem;
use scl_text::command::{CommandWords, compile_command, push_dashes, push_word};
use scl_text::language::Language;
use scl_text::records::{
    CCompilerKind, Cacheable, ColorMode, CommandError, ParsedArguments, SingleCompileCommand,
};
use scl_text::view::View;
use std::alloc::Global;
use std::borrow::CowSlice;
use std::convert::AsStr;

/// The text that gcc's `-x` takes for the language, if there is one (docs/RULES.md, Languages).
pub fn language_to_gcc_arg(language: Language) -> Option<&'static str>
    ensures { option_copied result ≡ gcc_text language }
{
    language.to_gcc_arg()
}

fn front_words(
    alloc: Global,
    text: Option<&str>,
    object: &[u8],
    parsed: &ParsedArguments,
) -> Mem<Vec<Vec<u8>>>
    ensures { IfOk result (λ words. words_of words.items ≡ front_words (option_copied text.entry) object.now (parsed_of parsed.now)) }
{
    let mut words = Vec::new(alloc);
    push_language(alloc, &mut words, text)?;
    push_word(alloc, &mut words, &parsed.compilation_flag)?;
    push_word(alloc, &mut words, b"-o")?;
    push_word(alloc, &mut words, object)?;
    Ok(words)
}

fn push_color(alloc: Global, words: &mut Vec<Vec<u8>>, mode: ColorMode) -> Mem<()>
    ensures { OnOk result (words_of words.new.items ≡ words_of words.old.items ++ color_words mode) }
{
    match mode {
        ColorMode::On | ColorMode::Auto => {
            push_word(alloc, words, b"-fdiagnostics-color=always")
        }
        ColorMode::Off => Ok(()),
    }
}

/// The compile command with this text for the language.
#[derive(Clone, Copy)]
struct Command<'a>(Option<&'a str>);

impl<'a> CommandWords for Command<'a> {
    ghost use Rattle.std.specs.Option.{option_copied};
    ghost use Rattle.scl_gnu.specs.Building.{command_words};

    ghost words = { λ command. command_words (option_copied command.0) };

    fn words(&self, alloc: Global, parsed: ParsedArguments, object: &[u8]) -> Mem<Vec<Vec<u8>>> {
        let mut words = front_words(alloc, self.0, object, &parsed)?;
        let ParsedArguments {
            input,
            double_dash_input,
            color_mode,
            preprocessor_args,
            dependency_args,
            unhashed_args,
            common_args,
            arch_args,
            ..
        } = parsed;
        let lists = Lists {
            preprocessor: CowSlice::Owned(preprocessor_args),
            dependency: CowSlice::Owned(dependency_args),
            unhashed: CowSlice::Owned(unhashed_args),
            common: CowSlice::Owned(common_args),
            arch: CowSlice::Owned(arch_args),
        };
        push_lists(alloc, &mut words, lists)?;
        push_color(alloc, &mut words, color_mode)?;
        push_dashes(alloc, &mut words, double_dash_input)?;
        words.push(input)?;
        Ok(words)
    }
}

/// The compile command of a record, with the closure's text for the language; its result can always be cached (docs/RULES.md,
/// Gcc). It takes ownership of the record. The error is `MissingObj` exactly if the record has no output `obj`, else
/// `Memory`. The kind and the view are not used.
pub fn generate_compile_commands_owned<T: AsStr + Drop, F: Fn(Language) -> Option<T>>(
    alloc: Global,
    executable: &[u8],
    parsed: ParsedArguments,
    cwd: &[u8],
    env_vars: &[(Vec<u8>, Vec<u8>)],
    _kind: CCompilerKind,
    language_to_arg: F,
    _view: &View,
) -> Result<(SingleCompileCommand, Cacheable), CommandError>
    requires { F.IsAlwaysCallable language_to_arg }
    ensures command { IfOk result (λ built. (text : _) × F.post language_to_arg parsed.language text
        × IsBuiltCommand built.0 built.1 (command (option_map T.text text) (parsed_of parsed)) executable.now (pairs_of env_vars.now) cwd.now Cacheable.Yes) }
    ensures missing { (result ≡ Err CommandError.MissingObj) ↔ (object_of (parsed_of parsed) ≡ None) }
{
    let text = language_to_arg(parsed.language);
    let command = Command(text.as_ref().map(|text| text.as_str()));
    compile_command(
        alloc,
        &command,
        executable,
        parsed,
        cwd,
        env_vars,
        Cacheable::Yes,
    )
}

/// What `generate_compile_commands_owned` gives, with a copy of the record; the errors are the same.
pub fn generate_compile_commands<T: AsStr + Drop, F: Fn(Language) -> Option<T>>(
    alloc: Global,
    executable: &[u8],
    parsed: &ParsedArguments,
    cwd: &[u8],
    env_vars: &[(Vec<u8>, Vec<u8>)],
    kind: CCompilerKind,
    language_to_arg: F,
    view: &View,
) -> Result<(SingleCompileCommand, Cacheable), CommandError>
    requires { F.IsAlwaysCallable language_to_arg }
    ensures command { IfOk result (λ built. (text : _) × F.post language_to_arg parsed.now.language text
        × IsBuiltCommand built.0 built.1 (command (option_map T.text text) (parsed_of parsed.now)) executable.now (pairs_of env_vars.now) cwd.now Cacheable.Yes) }
    ensures missing { (result ≡ Err CommandError.MissingObj) ↔ (object_of (parsed_of parsed.now) ≡ None) }
{
    let parsed = parsed.copy_for_command(alloc)?;
    generate_compile_commands_owned(
        alloc,
        executable,
        parsed,
        cwd,
        env_vars,
        kind,
        language_to_arg,
        view,
    )
}
