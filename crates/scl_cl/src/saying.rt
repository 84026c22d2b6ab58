//! What a line of a request says.
ghost use Rattle.std.specs.Prelude.{◌≡◌, IfOk};
ghost use Rattle.std.specs.Option.{option_map};
ghost use Rattle.scl_cl.specs.Sayings.{said, said_with, said_alone};
ghost use Rattle.scl_cl.specs.LinesRead.{said_by};

use crate::keyword::{Keyword, keyword_named};
use scl_description::{cut_at, read_field, read_two_fields};
use scl_reader::Compiler;
use scl_text::Mem;
use std::alloc::Global;

/// What a line says.
#[derive(Drop)]
pub(crate) enum Saying {
    Blank,
    Compiler(Compiler),
    Directory(Vec<u8>),
    Word(Vec<u8>),
    File(Vec<u8>, Vec<u8>),
    ViewedDirectory(Vec<u8>),
    Existing(Vec<u8>),
    Variable(Vec<u8>, Vec<u8>),
    Multiarch,
}

/// What a line without a space says.
fn saying_alone(line: &[u8]) -> Option<Saying>
    ensures { option_map said_by result ≡ said_alone line.now }
{
    if line == b"".as_slice() {
        Some(Saying::Blank)
    } else if line == b"multiarch".as_slice() {
        Some(Saying::Multiarch)
    } else {
        None
    }
}

/// What a line says by its keyword and the text after the keyword's space.
fn saying_with(alloc: Global, keyword: Keyword, text: &[u8]) -> Mem<Option<Saying>>
    ensures { IfOk result (λ saying. option_map said_by saying ≡ said_with text.now keyword) }
{
    Ok(match keyword {
        Keyword::Compiler => Compiler::named(text).map(Saying::Compiler),
        Keyword::Cwd => read_field(alloc, text)?.map(Saying::Directory),
        Keyword::Word => read_field(alloc, text)?.map(Saying::Word),
        Keyword::File => {
            read_two_fields(alloc, text)?.map(|(path, bytes)| Saying::File(path, bytes))
        }
        Keyword::Dir => read_field(alloc, text)?.map(Saying::ViewedDirectory),
        Keyword::Exists => read_field(alloc, text)?.map(Saying::Existing),
        Keyword::Env => {
            read_two_fields(alloc, text)?.map(|(key, value)| Saying::Variable(key, value))
        }
    })
}

/// What a line says, if it says anything.
pub(crate) fn read_line(alloc: Global, line: &[u8]) -> Mem<Option<Saying>>
    ensures { IfOk result (λ saying. option_map said_by saying ≡ said line.now) }
{
    let Some((keyword, text)) = cut_at(b' ', line) else {
        return Ok(saying_alone(line));
    };
    match keyword_named(keyword) {
        Some(keyword) => saying_with(alloc, keyword, text),
        None => Ok(None),
    }
}
