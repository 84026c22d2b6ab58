//! Words that no process can be given.
ghost use Rattle.std.specs.Prelude.{◌≡◌, ◌∷◌, IfOk};
ghost use Rattle.std.specs.Option.{is_some};
ghost use Rattle.scl_values.specs.Words.{words_of};
ghost use Rattle.scl_explain.specs.Nuls.{holds_nul, some_hold_nul};

use scl_reader::Mem;
use scl_shell::shown_briefly;
use std::alloc::Global;

fn holds_nul(word: &[u8]) -> bool
    ensures { result ≡ holds_nul word.now }
{
    word.iter().any(|byte| *byte == 0)
}

fn some_of(words: &[Vec<u8>]) -> bool
    ensures { result ≡ some_hold_nul (words_of words.now) }
{
    for word in words {
        if holds_nul(word) {
            return true;
        }
    }
    false
}

/// Whether a word of a program's command holds a NUL, the program included.
pub(crate) fn some_hold_nul(program: &[u8], words: &[Vec<u8>]) -> bool
    ensures { result ≡ some_hold_nul (program.now ∷ words_of words.now) }
{
    holds_nul(program) || some_of(words)
}

/// That no process can be given a word: the first that holds a NUL.
fn nul_text(alloc: Global, program: &[u8], words: &[Vec<u8>]) -> Mem<String> {
    let mut word = program;
    for other in words {
        if holds_nul(word) {
            break;
        }
        word = other;
    }
    let word = shown_briefly(alloc, word)?;
    format!(in alloc; "no process can be given the word {word}: it holds a NUL")
}

/// Why no process can be given a command: its first word that holds a NUL, by name; none of any other command.
pub fn unrunnable_text(alloc: Global, program: &[u8], words: &[Vec<u8>]) -> Mem<Option<String>>
    ensures { IfOk result (λ text. is_some text ≡ some_hold_nul (program.now ∷ words_of words.now)) }
{
    if some_hold_nul(program, words) {
        Ok(Some(nul_text(alloc, program, words)?))
    } else {
        Ok(None)
    }
}
