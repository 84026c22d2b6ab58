//! A request, read from its bytes.
ghost use Rattle.std.specs.Prelude.{◌≡◌, [], IfOk, MatchResult, Ok, Err, OnOk, map};
ghost use Rattle.scl_description.specs.Lines.{lines_of};
ghost use Rattle.scl_reader.specs.CommandLines.{given_by, given_in};
ghost use Rattle.scl_cl.specs.Requests.{naming, request_from, request_in};
ghost use Rattle.scl_cl.specs.Drafts.{asked_by};

use crate::draft::Draft;
use crate::saying::read_line;
use scl_description::next_line;
use scl_reader::{CommandLine, Compiler};
use scl_text::{Mem, View};
use std::alloc::Global;

/// A request: a compiler, its directory, its words, its environment, and the files that it may see (docs/RULES.md, Requests).
#[derive(Drop)]
pub struct Request {
    /// The compiler.
    pub compiler: Compiler,
    /// The path of the directory from which the words are read.
    pub directory: Vec<u8>,
    /// The words after the program.
    pub words: Vec<Vec<u8>>,
    /// The keys and values of the environment, in order.
    pub environment: Vec<(Vec<u8>, Vec<u8>)>,
    /// The files that may be read, and the other paths that exist.
    pub view: View,
}

impl Request {
    /// Its command line.
    pub fn line(&self) -> CommandLine<'_>
        ensures { given_by result ≡ given_in (asked_by self.now) }
    {
        CommandLine {
            words: &self.words,
            directory: &self.directory,
            environment: &self.environment,
            view: &self.view,
        }
    }
}

/// What is shown each line of a request first, and may take it.
pub trait TakesLines {
    ghost use Rattle.std.specs.Prelude.{◌≡◌, ◌∷◌, ℕ, List, IfOk, OnOk};

    /// What the request has in the place of a line.
    ghost left: { List ℕ → List ℕ };

    /// What is made of the lines that it takes.
    ghost Made: { Type 0 };

    /// What it makes once it was shown these lines too.
    ghost made: { Self → List (List ℕ) → Made };

    /// Takes the line, if it is one of its own, and gives what the request has in its place.
    fn take_line<'a>(&mut self, alloc: Global, line: &'a [u8]) -> Mem<&'a [u8]>
        ensures left { IfOk result (λ kept. kept.now ≡ left line.now) }
        ensures taken { OnOk result ((rest : List (List ℕ)) → made self.new rest ≡ made self.old (line.now ∷ rest)) };
}

/// Takes no line.
#[derive(Debug, Clone, Copy)]
pub struct NoLines;

impl TakesLines for NoLines {
    ghost left = { λ line. line };

    ghost Made = { Unit {0} };

    ghost made = { λ _ _. tt };

    fn take_line<'a>(&mut self, _: Global, line: &'a [u8]) -> Mem<&'a [u8]> {
        Ok(line)
    }
}

/// The request of lines, of which the first has the number `first`, or the number of the bad line. A line before them may have
/// named the compiler. The taker is shown each line first.
#[tactic(auto, using(crate::proofs::RequestLaws::starts, crate::proofs::RequestLaws::stops, crate::proofs::RequestLaws::ends))]
pub fn read_lines<T: TakesLines>(
    alloc: Global,
    compiler: Option<Compiler>,
    first: u8,
    bytes: &[u8],
    taker: &mut T,
) -> Mem<Result<Request, u64>>
    ensures read { IfOk result (λ read. MatchResult read
        (λ request. request_from first (naming compiler) (map T.left (lines_of bytes.now)) ≡ Ok (asked_by request))
        (λ number. request_from first (naming compiler) (map T.left (lines_of bytes.now)) ≡ Err number)) }
    ensures taken { IfOk result (λ read. OnOk read (T.made taker.new [] ≡ T.made taker.old (lines_of bytes.now))) }
{
    let mut draft = Draft::new(alloc, compiler);
    let mut number = u64::from(first);
    let mut left = bytes;
    while let Some((line, rest)) = next_line(left) {
        let kept = taker.take_line(alloc, line)?;
        let Some(saying) = read_line(alloc, kept)? else {
            return Ok(Err(number));
        };
        if draft.refuses(&saying) {
            return Ok(Err(number));
        }
        draft.take(saying)?;
        number += 1;
        left = rest;
    }
    match draft.finish(alloc) {
        Some(request) => Ok(Ok(request)),
        None => Ok(Err(number)),
    }
}

/// The request in these bytes, or the number of the bad line, counted from 1 (docs/RULES.md, Requests).
pub fn read_request(alloc: Global, bytes: &[u8]) -> Mem<Result<Request, u64>>
    ensures { IfOk result (λ read. MatchResult read
        (λ request. request_in (lines_of bytes.now) ≡ Ok (asked_by request))
        (λ number. request_in (lines_of bytes.now) ≡ Err number)) }
{
    read_lines(alloc, None, 1, bytes, &mut NoLines)
}
