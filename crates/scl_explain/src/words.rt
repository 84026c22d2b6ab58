//! The words of a command, written.
ghost use Rattle.std.specs.Prelude.{◌≡◌, ◌++◌, [], ◌∷◌, OnOk, IfOk};
ghost use Rattle.std.specs.List.{flat_map};
ghost use Rattle.scl_values.specs.Words.{words_of};
ghost use Rattle.scl_shell.specs.Quoted.{quoted_text};
ghost use Rattle.scl_shell.specs.Shown.{shown_text};
ghost use Rattle.scl_explain.specs.CommandTexts.{ended_by_nul, command_text};

use scl_reader::Mem;
use scl_shell::{quoted_command, shown_command};
use std::alloc::Global;

fn push_ended_by_nul(text: &mut Vec<u8>, word: &[u8]) -> Mem<()>
    ensures { OnOk result (text.new.items ≡ text.old.items ++ ended_by_nul word.now) }
{
    text.extend_from_slice(word)?;
    text.push(0)?;
    Ok(())
}

fn words_ended_by_nul(alloc: Global, program: &[u8], words: &[Vec<u8>]) -> Mem<Vec<u8>>
    ensures { IfOk result (λ text. text.items ≡ flat_map ended_by_nul (program.now ∷ words_of words.now)) }
{
    let mut text = Vec::new(alloc);
    push_ended_by_nul(&mut text, program)?;
    for word in words {
        push_ended_by_nul(&mut text, word)?;
    }
    Ok(text)
}

fn quoted_line(alloc: Global, program: &[u8], words: &[Vec<u8>]) -> Mem<Vec<u8>>
    ensures { IfOk result (λ text. text.items ≡ quoted_text (program.now ∷ words_of words.now) ++ 10 ∷ []) }
{
    let mut text = quoted_command(alloc, program, words)?;
    text.push(b'\n')?;
    Ok(text)
}

fn shown_line(alloc: Global, program: &[u8], words: &[Vec<u8>]) -> Mem<Vec<u8>>
    ensures { IfOk result (λ text. text.items ≡ shown_text (program.now ∷ words_of words.now) ++ 10 ∷ []) }
{
    let mut text = shown_command(alloc, program, words)?.into_bytes();
    text.push(b'\n')?;
    Ok(text)
}

/// How the words of a command are written.
#[derive(Debug, Clone, Copy, PartialEq, Eq)]
pub enum WordForm {
    /// A line, quoted for any shell.
    Quoted,
    /// A line for a terminal, with no hidden character.
    Shown,
    /// Each word with a NUL after it.
    EndedByNul,
}

/// The text of a command: a line that a shell reads back, or each word with a NUL after it.
pub fn command_text(
    alloc: Global,
    program: &[u8],
    words: &[Vec<u8>],
    form: WordForm,
) -> Mem<Vec<u8>>
    ensures { IfOk result (λ text. text.items ≡ command_text form (program.now ∷ words_of words.now)) }
{
    match form {
        WordForm::Quoted => quoted_line(alloc, program, words),
        WordForm::Shown => shown_line(alloc, program, words),
        WordForm::EndedByNul => words_ended_by_nul(alloc, program, words),
    }
}
