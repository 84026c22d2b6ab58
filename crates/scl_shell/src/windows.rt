//! Splitting a command line of Windows into words.
ghost use Rattle.std.specs.Prelude.{◌≡◌, ◌<◌, ◌++◌, ◌∷◌, List, [], None, Some, Ok, Err, OnOk, IfOk, IfErr, IfSome, length, position};
ghost use Rattle.std.specs.List.{list_any};
ghost use Rattle.std.specs.Option.{option_map};
ghost use Rattle.scl_values.specs.Words.{words_of};
ghost use Rattle.scl_shell.specs.ShellReader.{begun_of};
ghost use Rattle.scl_shell.specs.ShellText.{kept, with};
ghost use Rattle.scl_shell.specs.WindowsReader.{both, made};
ghost use Rattle.scl_shell.specs.WindowsText.{bare_at, bare_program, is_ended, is_gap, is_quote, joined, program_in, quoted_at, windows_words, words_behind};
ghost use Rattle.scl_windows_words.specs.Parts.{Part, doubled, gap, stands};
ghost use Rattle.scl_windows_words.specs.Reading.{marked, stepped, stood};

use scl_values::Mem;
use scl_windows_words::{Gaps, Mark, Reader, Step};
use std::alloc::Global;
use thiserror::Error;

/// Why a text has no words that every program of Windows reads in it.
#[derive(Debug, Clone, Copy, PartialEq, Eq, Error)]
pub enum WindowsError {
    /// A quote opens right after one that closed.
    #[error("a quote follows one that closes, which programs of Windows read in several ways")]
    SecondQuote,
    /// The program's name begins with a blank, or has quotes other than one before it and one after it.
    #[error("the program's name has blanks or quotes that Windows reads in several ways")]
    Program,
}

fn is_gap(byte: u8) -> bool
    ensures { result ≡ is_gap byte }
{
    Gaps::Blanks.has(byte)
}

fn is_quote(byte: u8) -> bool
    ensures { result ≡ is_quote byte }
{
    byte == b'"'
}

fn quote_at(text: &[u8]) -> Option<usize>
    ensures at { result ≡ position is_quote text.now }
    ensures within { IfSome result (λ at. at < length text.now) }
{
    text.iter().position(|byte| is_quote(*byte))
}

fn gap_at(text: &[u8]) -> Option<usize>
    ensures at { result ≡ position is_gap text.now }
    ensures within { IfSome result (λ at. at < length text.now) }
{
    text.iter().position(|byte| is_gap(*byte))
}

/// Whether a gap or the end is here.
fn is_ended(text: &[u8]) -> bool
    ensures { result ≡ is_ended text.now }
{
    match text {
        [byte, ..] => is_gap(*byte),
        [] => true,
    }
}

fn has_quote(text: &[u8]) -> bool
    ensures { result ≡ list_any is_quote text.now }
{
    text.iter().any(|byte| is_quote(*byte))
}

/// A program and what follows it.
type Parted<'a> = (&'a [u8], &'a [u8]);

/// The program in quotes, of which the first has been read, and what follows the closing one.
fn quoted_program(text: &[u8]) -> Option<Parted<'_>>
    ensures { option_map both result ≡ quoted_at text.now (position is_quote text.now) }
{
    if let Some(at) = quote_at(text) {
        let rest = &text[at + 1..];
        if is_ended(rest) {
            return Some((&text[..at], rest));
        }
    }
    None
}

/// A program without quotes, and what follows it, if it is one.
fn bare_program<'a>(program: &'a [u8], rest: &'a [u8]) -> Option<Parted<'a>>
    ensures { option_map both result ≡ bare_program program.now rest.now }
{
    if !program.is_empty() && !has_quote(program) {
        Some((program, rest))
    } else {
        None
    }
}

/// The program without quotes, and what follows it.
fn program_before_gap(text: &[u8]) -> Option<Parted<'_>>
    ensures { option_map both result ≡ bare_at text.now (position is_gap text.now) }
{
    match gap_at(text) {
        Some(at) => bare_program(&text[..at], &text[at + 1..]),
        None => bare_program(text, &[]),
    }
}

/// The program of a text, and what follows it. In it a backslash is itself.
fn program_of(text: &[u8]) -> Option<Parted<'_>>
    ensures { option_map both result ≡ program_in text.now }
{
    match text {
        [first, rest @ ..] if is_quote(*first) => quoted_program(rest),
        [_, ..] => program_before_gap(text),
        [] => None,
    }
}

/// The complete words, the one that has begun, and whether a quote was read in several ways.
#[derive(Drop)]
pub(crate) struct Words {
    alloc: Global,
    whole: Vec<Vec<u8>>,
    begun: Option<Vec<u8>>,
    is_unclear: bool,
}

impl Words {
    #[tactic(auto, using(crate::proofs::WindowsLemmas::part_rules))]
    fn new(alloc: Global) -> Words
        ensures { (ps : List Part) → made result ps ≡ joined None ps }
    {
        Words {
            alloc,
            whole: Vec::new(alloc),
            begun: None,
            is_unclear: false,
        }
    }

    /// Appends bytes to a word, which begins with them if none has begun.
    fn stand(&mut self, bytes: &[u8]) -> Mem<()>
        ensures { OnOk result ((ps : List Part) → made self.new ps ≡ made self.old (stands bytes.now ∷ ps)) }
    {
        match &mut self.begun {
            Some(word) => word.extend_from_slice(bytes)?,
            None => self.begun = Some(Vec::from_slice(self.alloc, bytes)?),
        }
        Ok(())
    }

    /// Ends the word, if one has begun.
    fn end(&mut self) -> Mem<()>
        ensures whole { OnOk result (words_of self.new.whole.items ≡ words_of self.old.whole.items ++ kept (begun_of self.old.begun)) }
        ensures none { OnOk result (self.new.begun ≡ None) }
        ensures same { self.new.is_unclear ≡ self.old.is_unclear }
    {
        if let Some(word) = self.begun.take() {
            self.whole.push(word)?;
        }
        Ok(())
    }

    /// Reads a gap.
    #[tactic(auto, using(crate::proofs::WindowsLemmas::part_rules))]
    fn part(&mut self) -> Mem<()>
        ensures { OnOk result ((ps : List Part) → made self.new ps ≡ made self.old (gap ∷ ps)) }
    {
        self.end()?;
        Ok(())
    }

    /// Reads a quote that programs read in several ways.
    fn give_up(&mut self)
        ensures { (ps : List Part) → made self.new ps ≡ made self.old (doubled ∷ ps) }
    {
        self.is_unclear = true;
    }

    fn slashes(&mut self, count: usize) -> Mem<()>
        ensures { OnOk result ((ps : List Part) → made self.new ps ≡ made self.old (stood count ps)) }
    {
        if count == 0 {
            return Ok(());
        }
        let bytes = vec![in self.alloc; b'\\'; count]?;
        self.stand(&bytes)
    }

    fn mark(&mut self, mark: Mark) -> Mem<()>
        ensures { OnOk result ((ps : List Part) → made self.new ps ≡ made self.old (marked mark ps)) }
    {
        match mark {
            Mark::Nothing | Mark::StaysOpen => Ok(()),
            Mark::Separates => self.part(),
            Mark::Opens => self.stand(b""),
            Mark::Stands(byte) => self.stand(&[byte]),
            Mark::Doubles => {
                self.give_up();
                Ok(())
            }
        }
    }

    fn step(&mut self, step: Step) -> Mem<()>
        ensures { OnOk result ((ps : List Part) → made self.new ps ≡ made self.old (stepped step ps)) }
    {
        self.slashes(step.backslashes)?;
        self.mark(step.mark)
    }

    /// All words, after the last step.
    fn finish_after(self, step: Step) -> Mem<Option<Vec<Vec<u8>>>>
        ensures { IfOk result (λ said. option_map (λ words. words_of words.items) said ≡ made self (stepped step [])) }
    {
        let mut words = self;
        words.step(step)?;
        words.finish()
    }

    /// All words.
    #[tactic(auto, using(crate::proofs::WindowsLemmas::part_rules))]
    fn finish(self) -> Mem<Option<Vec<Vec<u8>>>>
        ensures { IfOk result (λ said. option_map (λ words. words_of words.items) said ≡ made self []) }
    {
        let mut words = self;
        if words.is_unclear {
            return Ok(None);
        }
        words.end()?;
        Ok(Some(words.whole))
    }
}

/// The words after a program; none where programs read them in several ways.
fn words_behind(alloc: Global, text: &[u8]) -> Mem<Option<Vec<Vec<u8>>>>
    ensures { IfOk result (λ said. option_map (λ words. words_of words.items) said ≡ words_behind text.now) }
{
    let mut words = Words::new(alloc);
    let mut reader = Reader::new(Gaps::Blanks);
    for byte in text {
        words.step(reader.read(*byte))?;
    }
    words.finish_after(reader.finish())
}

/// The words of a command line of Windows, the program's name first, as `CommandLineToArgvW` and the C runtime read them. The rules:
///
/// - The program's name ends at a blank, or stands in quotes; a backslash in it is itself.
/// - Space and tab separate words, outside quotes. The end closes quotes.
/// - Of backslashes before a quote half stand; after an odd one the quote is itself. All other backslashes are themselves.
///
/// Where those two read differently the error says so: `SecondQuote`, `Program`.
pub fn windows_words(alloc: Global, text: &[u8]) -> Mem<Result<Vec<Vec<u8>>, WindowsError>>
    ensures words { IfOk result (λ said. IfOk said (λ words. windows_words text.now ≡ Ok (words_of words.items))) }
    ensures unclear { IfOk result (λ said. IfErr said (λ error. windows_words text.now ≡ Err error)) }
{
    let Some((program, rest)) = program_of(text) else {
        return Ok(Err(WindowsError::Program));
    };
    match words_behind(alloc, rest)? {
        Some(mut words) => {
            words.insert(0, Vec::from_slice(alloc, program)?)?;
            Ok(Ok(words))
        }
        None => Ok(Err(WindowsError::SecondQuote)),
    }
}
