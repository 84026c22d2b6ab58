//! A preprocessed text told by base directories.
ghost use Rattle.std.specs.Prelude.{◌≡◌, IfOk, MatchResult, OnOk, false, Some, Ok, Err, []};
ghost use Rattle.std.specs.Option.{option_map};
ghost use Rattle.scl_description.specs.Lines.{lines_of};
ghost use Rattle.scl_description.specs.Rows.{entries_text};
ghost use Rattle.scl_requests.specs.Mapping.{answer_of, breaks, gathered, map_entries, mapped, quoting_named, said, said_with};
ghost use Rattle.scl_requests.specs.MappingRead.{gathered_by, said_by, with_line};

use scl_base_dirs::{Quoting, base_dirs, map_pieces};
use scl_cl::Mem;
use scl_describe::base_in;
use scl_description::{cut_at, next_line, push_word, read_field};
use std::alloc::Global;

/// What a line says.
#[derive(Drop)]
enum Saying {
    Blank,
    Base(Vec<u8>),
    Quotes(Quoting),
    Text(Vec<u8>),
}

/// How the compilers of this name quote names.
fn quoting_named(name: &[u8]) -> Option<Quoting>
    ensures { result ≡ quoting_named name.now }
{
    if name == b"gcc".as_slice() {
        Some(Quoting::Gcc)
    } else if name == b"clang".as_slice() {
        Some(Quoting::Clang)
    } else {
        None
    }
}

/// What a line says by its keyword and the text after the keyword's space.
fn saying_with(alloc: Global, keyword: &[u8], text: &[u8]) -> Mem<Option<Saying>>
    ensures { IfOk result (λ saying. option_map said_by saying ≡ said_with keyword.now text.now) }
{
    if keyword == b"text".as_slice() {
        Ok(read_field(alloc, text)?.map(Saying::Text))
    } else if keyword == b"base".as_slice() {
        Ok(base_in(alloc, text)?.map(Saying::Base))
    } else if keyword == b"quoting".as_slice() {
        Ok(quoting_named(text).map(Saying::Quotes))
    } else {
        Ok(None)
    }
}

/// What a line says, if it says anything.
fn read_line(alloc: Global, line: &[u8]) -> Mem<Option<Saying>>
    ensures { IfOk result (λ saying. option_map said_by saying ≡ said line.now) }
{
    match cut_at(b' ', line) {
        Some((keyword, text)) => saying_with(alloc, keyword, text),
        None if line.is_empty() => Ok(Some(Saying::Blank)),
        None => Ok(None),
    }
}

/// The rows of a mapped text.
fn map_text(alloc: Global, mapped: &[u8]) -> Mem<Vec<u8>>
    ensures { IfOk result (λ text. text.items ≡ entries_text (map_entries mapped.now)) }
{
    let mut text = Vec::new(alloc);
    push_word(&mut text, "text", mapped)?;
    push_word(&mut text, "version", b"1")?;
    Ok(text)
}

/// What the lines of a request have said so far.
#[derive(Drop)]
struct Draft {
    quoting: Option<Quoting>,
    dirs: Vec<Vec<u8>>,
    pieces: Vec<Vec<u8>>,
}

impl Draft {
    /// A draft without lines.
    fn new(alloc: Global) -> Draft
        ensures { gathered_by result ≡ gathered [] }
    {
        Draft {
            quoting: None,
            dirs: Vec::new(alloc),
            pieces: Vec::new(alloc),
        }
    }

    /// Whether the line repeats something that may be said only once.
    fn refuses(&self, saying: &Saying) -> bool
        ensures { result ≡ breaks (gathered_by self.now) (Some (said_by saying.now)) }
    {
        match saying {
            Saying::Quotes(_) => self.quoting.is_some(),
            Saying::Blank | Saying::Base(_) | Saying::Text(_) => false,
        }
    }

    /// Adds what the line says.
    fn take(&mut self, saying: Saying) -> Mem<()>
        requires { breaks (gathered_by self.old) (Some (said_by saying)) ≡ false }
        ensures { OnOk result (gathered_by self.new ≡ with_line (gathered_by self.old) (said_by saying)) }
    {
        match saying {
            Saying::Blank => {}
            Saying::Base(dir) => self.dirs.push(dir)?,
            Saying::Quotes(quoting) => self.quoting = Some(quoting),
            Saying::Text(piece) => self.pieces.push(piece)?,
        }
        Ok(())
    }

    /// The rows of the mapped text, if a line said how names are quoted.
    fn finish(self, alloc: Global) -> Mem<Option<Vec<u8>>>
        ensures { IfOk result (λ text. option_map (λ bytes. bytes.items) text ≡ answer_of (gathered_by self)) }
    {
        let Some(quoting) = self.quoting else {
            return Ok(None);
        };
        let dirs = base_dirs(alloc, &self.dirs)?;
        let mapped = map_pieces(alloc, quoting, &dirs, &self.pieces)?;
        Ok(Some(map_text(alloc, &mapped)?))
    }
}

/// What is answered to the lines of a text to be mapped, of which the first has the number 2.
pub(crate) fn mapped(alloc: Global, bytes: &[u8]) -> Mem<Result<Vec<u8>, u64>>
    ensures { IfOk result (λ said. MatchResult said (λ text. mapped (lines_of bytes.now) ≡ Ok text.items) (λ number. mapped (lines_of bytes.now) ≡ Err number)) }
{
    let mut draft = Draft::new(alloc);
    let mut number = 2;
    let mut left = bytes;
    while let Some((line, rest)) = next_line(left) {
        let Some(saying) = read_line(alloc, line)? else {
            return Ok(Err(number));
        };
        if draft.refuses(&saying) {
            return Ok(Err(number));
        }
        draft.take(saying)?;
        number += 1;
        left = rest;
    }
    match draft.finish(alloc)? {
        Some(text) => Ok(Ok(text)),
        None => Ok(Err(number)),
    }
}
