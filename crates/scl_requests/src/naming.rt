//! Which compiler a program is by its name, and which word of a command line is the program.
ghost use Rattle.std.specs.Prelude.{◌≡◌, ◌++◌, codes, IfOk, MatchResult, OnOk, Ok, Err};
ghost use Rattle.scl_values.specs.Words.{words_of};
ghost use Rattle.scl_description.specs.Lines.{lines_of};
ghost use Rattle.scl_description.specs.Rows.{entries_text, entry_text};
ghost use Rattle.scl_describe.specs.Descriptions.{version_entry};
ghost use Rattle.scl_describe.specs.OptionLines.{index_entry};
ghost use Rattle.scl_requests.specs.Naming.{compiler_at, compiler_entry, name_entries, named};

use scl_cl::{Compiler, Mem, NoLines, read_lines};
use scl_description::push_word;
use scl_names::{compiler_of, program_at};
use std::alloc::Global;

/// The compiler that the word at an index names.
fn compiler_at(alloc: Global, words: &[Vec<u8>], at: Option<usize>) -> Mem<Option<Compiler>>
    ensures { IfOk result (λ compiler. compiler ≡ compiler_at (words_of words.now) at) }
{
    match at {
        Some(at) if at < words.len() => compiler_of(alloc, &words[at]),
        Some(_) | None => Ok(None),
    }
}

/// Appends the row of the program's index, if there is one.
#[tactic(auto, unfolding(scl_description::specs::Rows::entry_text))]
fn push_program(alloc: Global, text: &mut Vec<u8>, at: Option<usize>) -> Mem<()>
    ensures { OnOk result (text.new.items ≡ text.old.items ++ entry_text (index_entry (codes "program") at)) }
{
    match at {
        Some(at) => push_word(text, "program", at.to_string(alloc)?.as_bytes()),
        None => Ok(()),
    }
}

/// Appends the row of a compiler, if there is one.
#[tactic(auto, unfolding(scl_description::specs::Rows::entry_text))]
fn push_compiler(text: &mut Vec<u8>, compiler: Option<Compiler>) -> Mem<()>
    ensures { OnOk result (text.new.items ≡ text.old.items ++ entry_text (compiler_entry compiler)) }
{
    match compiler {
        Some(compiler) => push_word(text, "compiler", compiler.name().as_bytes()),
        None => Ok(()),
    }
}

/// The rows of what the words of a command line name, the program's included.
fn name_text(alloc: Global, words: &[Vec<u8>]) -> Mem<Vec<u8>>
    ensures { IfOk result (λ text. text.items ≡ entries_text (name_entries (words_of words.now))) }
{
    let at = program_at(alloc, words)?;
    let compiler = compiler_at(alloc, words, at)?;
    let mut text = Vec::new(alloc);
    push_program(alloc, &mut text, at)?;
    push_compiler(&mut text, compiler)?;
    push_word(&mut text, "version", b"1")?;
    Ok(text)
}

/// What is answered to the lines after the first, `name`. A compiler is as if named before them, no matter which, since only words
/// are looked at.
#[tactic(auto, using(crate::proofs::NamingLaws::is_named, crate::proofs::NamingLaws::is_bad))]
pub(crate) fn named(alloc: Global, bytes: &[u8]) -> Mem<Result<Vec<u8>, u64>>
    ensures { IfOk result (λ said. MatchResult said (λ text. named (lines_of bytes.now) ≡ Ok text.items) (λ number. named (lines_of bytes.now) ≡ Err number)) }
{
    match read_lines(alloc, Some(Compiler::Gcc), 2, bytes, &mut NoLines)? {
        Ok(request) => Ok(Ok(name_text(alloc, &request.words)?)),
        Err(number) => Ok(Err(number)),
    }
}
