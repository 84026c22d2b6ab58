//! The texts of answers.
ghost use Rattle.std.specs.Prelude.{◌≡◌, ◌++◌, None, OnOk, IfOk};
ghost use Rattle.std.specs.List.{flat_map};
ghost use Rattle.scl_values.specs.Words.{words_of};
ghost use Rattle.scl_cl.specs.AnswerTexts.{arg_line, text_of};
ghost use Rattle.scl_reader.specs.Answers.{compiled, cannot_cache};
ghost use Rattle.scl_reader.specs.AnswersGiven.{answer_of};

use scl_description::push_field;
use scl_reader::Compilation;
use scl_text::Mem;
use scl_text::records::{Cacheable, CompilerArguments};
use std::alloc::Global;

/// Appends the line of a word.
fn push_arg(text: &mut Vec<u8>, word: &[u8]) -> Mem<()>
    ensures { OnOk result (text.new.items ≡ text.old.items ++ arg_line word.now) }
{
    text.extend_from_slice(b"arg ")?;
    push_field(text, word)?;
    text.push(b'\n')?;
    Ok(())
}

/// Appends the lines of all words.
fn push_args(text: &mut Vec<u8>, words: &[Vec<u8>]) -> Mem<()>
    ensures { OnOk result (text.new.items ≡ text.old.items ++ flat_map arg_line (words_of words.now)) }
{
    for word in words {
        push_arg(text, word)?;
    }
    Ok(())
}

/// The text of a command.
fn compiled_text(alloc: Global, words: &[Vec<u8>], cacheable: Cacheable) -> Mem<Vec<u8>>
    ensures { IfOk result (λ text. text.items ≡ text_of (compiled (words_of words.now) cacheable)) }
{
    let mut text = Vec::from_slice(alloc, b"ok\n")?;
    push_args(&mut text, words)?;
    let last = match cacheable {
        Cacheable::Yes => b"cacheable yes\n".as_slice(),
        Cacheable::No => b"cacheable no\n".as_slice(),
    };
    text.extend_from_slice(last)?;
    Ok(text)
}

/// The text of a reason.
fn reason_text(alloc: Global, reason: &str) -> Mem<Vec<u8>>
    ensures { IfOk result (λ text. text.items ≡ text_of (cannot_cache reason.now None)) }
{
    let mut text = Vec::from_slice(alloc, b"cannot-cache ")?;
    text.extend_from_slice(reason.as_bytes())?;
    text.push(b'\n')?;
    Ok(text)
}

/// The text of an answer: lines with LF. The text beside a reason is left out (docs/RULES.md, Answers).
pub fn answer_text(alloc: Global, answer: &CompilerArguments<Compilation>) -> Mem<Vec<u8>>
    ensures { IfOk result (λ text. text.items ≡ text_of (answer_of answer.now)) }
{
    match answer {
        CompilerArguments::Ok(compilation) => {
            compiled_text(alloc, &compilation.command.arguments, compilation.cacheable)
        }
        CompilerArguments::CannotCache(reason, _) => reason_text(alloc, reason),
        CompilerArguments::NotCompilation => Vec::from_slice(alloc, b"not-compilation\n"),
    }
}
