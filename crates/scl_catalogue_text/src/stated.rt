//! What an entry states, in the words of a catalogue's text.
ghost use Rattle.std.specs.Prelude.{◌≡◌, ◌∷◌, ◌++◌, IfOk, OnOk};
ghost use Rattle.scl_catalogue.specs.Views.{tells_of};
ghost use Rattle.scl_catalogue_text.specs.Written.{head_word, spaced, statement_of, words_behind};

use crate::names::{EFFECT, Kind, Named, PLAIN};
use scl_catalogue::Tells;
use scl_values::Mem;
use std::alloc::Global;

/// The word of the entry's head before its name.
fn head_word(tells: &Tells) -> &'static str
    ensures { result.now ≡ head_word (tells_of tells.now) }
{
    match tells {
        Tells::Hazard(_) => Kind::Hazard.name(),
        Tells::Effect(_, _) => EFFECT,
        Tells::Plain => PLAIN,
        Tells::Key(_) => Kind::Key.name(),
        Tells::Run(_) => Kind::Run.name(),
        Tells::Names(_) => Kind::Names.name(),
        Tells::Brings(_) => Kind::Brings.name(),
    }
}

/// Appends a word behind a blank.
fn push_word(text: &mut Vec<u8>, word: &[u8]) -> Mem<()>
    ensures { OnOk result (text.new.items ≡ text.old.items ++ 32 ∷ word.now) }
{
    text.push(b' ')?;
    text.extend_from_slice(word)
}

/// Appends the words of the entry's head behind its name.
fn push_words_behind(text: &mut Vec<u8>, tells: &Tells) -> Mem<()>
    ensures { OnOk result (text.new.items ≡ text.old.items ++ spaced (words_behind (tells_of tells.now))) }
{
    match tells {
        Tells::Hazard(danger) => push_word(text, danger.name().as_bytes()),
        Tells::Effect(verb, file) => {
            push_word(text, verb.name().as_bytes())?;
            push_word(text, file)
        }
        Tells::Plain => Ok(()),
        Tells::Key(doing) | Tells::Run(doing) => push_word(text, doing.name().as_bytes()),
        Tells::Names(naming) => push_word(text, naming.name().as_bytes()),
        Tells::Brings(brings) => push_word(text, brings.name().as_bytes()),
    }
}

/// What an entry states that tells this, as a text says it, without the entry's name.
pub fn statement(alloc: Global, tells: &Tells) -> Mem<Vec<u8>>
    ensures { IfOk result (λ text. text.items ≡ statement_of (tells_of tells.now)) }
{
    let mut text = Vec::from_slice(alloc, head_word(tells).as_bytes())?;
    push_words_behind(&mut text, tells)?;
    Ok(text)
}
