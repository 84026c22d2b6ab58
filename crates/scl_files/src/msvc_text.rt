//! The arguments of MSVC response files.
ghost use Rattle.std.specs.Prelude.{◌≡◌, ◌+◌, ◌++◌, OnOk, ◌<◌, ◌≤◌, ◌^◌, [], ◌∷◌, IfOk, MatchOption, false};
ghost use Rattle.std.specs.String.{string_bytes};
ghost use Rattle.scl_files.specs.MsvcText.{is_msvc_separator, msvc_arguments};
ghost use Rattle.scl_files.specs.MsvcReader.{backslashes, TakesChar};
ghost use Rattle.std.specs.Str.{chars};
ghost use Rattle.scl_values.specs.Words.{words_of};
ghost use Rattle.scl_files.specs.WordsToCome.{items_left, GivesText};

use scl_values::Mem;
use std::alloc::Global;
use std::marker::Model;

/// An argument so far, the backslashes after it, and whether a quote is open.
#[derive(Drop)]
pub(crate) struct Reader {
    argument: String,
    begun: bool,
    backslashes: usize,
    inside: bool,
}

fn is_msvc_separator(c: char) -> bool
    ensures { result ≡ is_msvc_separator c }
{
    matches!(c, ' ' | '\t' | '\n' | '\r')
}

fn push_backslashes(argument: &mut String, count: usize) -> Mem<()>
    ensures { OnOk result (string_bytes argument.new ≡ string_bytes argument.old ++ backslashes count) }
{
    for _ in 0..count {
        argument.push('\\')?;
    }
    Ok(())
}

impl Reader {
    /// Reads a character, and says whether it ends the argument.
    fn take(&mut self, c: char) -> Mem<bool>
        requires { self.old.backslashes + 1 < 2 ^ 64 }
        ensures takes { IfOk result (λ ends. TakesChar self.old c ends self.new) }
        ensures count { self.new.backslashes ≤ self.old.backslashes + 1 }
    {
        if c == '\\' {
            self.begun = true;
            self.backslashes += 1;
            return Ok(false);
        }
        let count = self.backslashes;
        self.backslashes = 0;
        if c == '"' {
            self.begun = true;
            push_backslashes(&mut self.argument, count / 2)?;
            if count % 2 == 0 {
                self.inside = !self.inside;
            } else {
                self.argument.push('"')?;
            }
            return Ok(false);
        }
        push_backslashes(&mut self.argument, count)?;
        if is_msvc_separator(c) && !self.inside {
            return Ok(self.begun);
        }
        self.begun = true;
        self.argument.push(c)?;
        Ok(false)
    }
}

/// The first argument of the text, and the text after it.
fn first_argument(alloc: Global, text: &str) -> Mem<Option<(String, &str)>>
    ensures first { IfOk result (λ o. MatchOption o (msvc_arguments (chars text.now) ≡ []) (λ p. msvc_arguments (chars text.now) ≡ string_bytes p.0 ∷ msvc_arguments (chars p.1.now))) }
{
    let mut reader = Reader {
        argument: String::new(alloc),
        begun: false,
        backslashes: 0,
        inside: false,
    };
    let mut chars = text.chars();
    while let Some(c) = chars.next() {
        if reader.take(c)? {
            return Ok(Some((reader.argument, chars.as_str())));
        }
    }
    push_backslashes(&mut reader.argument, reader.backslashes)?;
    if reader.begun {
        Ok(Some((reader.argument, chars.as_str())))
    } else {
        Ok(None)
    }
}

/// The arguments of an MSVC response file's text, one at a time (docs/RULES.md, MSVC text). A failed allocation is the last
/// item.
///
/// - A quote after an even number of backslashes toggles.
/// - A space, tab, LF or CR outside quotes splits.
/// - `""` gives an empty argument.
#[derive(Drop)]
pub struct SplitMsvcResponseFileArgs<'a> {
    alloc: Global,
    rest: &'a str,
    ended: bool,
}

impl<'a> Model for SplitMsvcResponseFileArgs<'a> {
    ghost use Rattle.std.specs.Str.{chars};
    ghost use Rattle.scl_files.specs.WordsToCome.{WordsToCome};
    ghost use Rattle.scl_files.specs.MsvcText.{msvc_arguments};

    ghost Value = { WordsToCome };

    ghost view = { λ s. record { words = msvc_arguments (chars s.rest.now); ended = s.ended } };
}

impl<'a> SplitMsvcResponseFileArgs<'a> {
    /// An iterator over the arguments of `text`. Each argument is a text of its own, allocated in `alloc` when it is read
    /// (docs/RULES.md, MSVC text).
    pub fn from(alloc: Global, text: &'a str) -> SplitMsvcResponseFileArgs<'a>
        ensures { result ≡ record { words = msvc_arguments (chars text.now); ended = false } }
    {
        SplitMsvcResponseFileArgs {
            alloc,
            rest: text,
            ended: false,
        }
    }
}

impl Iterator for SplitMsvcResponseFileArgs<'_> {
    type Item = Mem<String>;

    ghost next_gives = { GivesText };

    ghost remaining = { items_left };

    fn next(&mut self) -> Option<Mem<String>> {
        if self.ended {
            return None;
        }
        match first_argument(self.alloc, self.rest) {
            Ok(Some((argument, rest))) => {
                self.rest = rest;
                Some(Ok(argument))
            }
            Ok(None) => {
                self.ended = true;
                None
            }
            Err(error) => {
                self.ended = true;
                Some(Err(error))
            }
        }
    }
}

/// The arguments of an MSVC response file's text, each in UTF-8 (docs/RULES.md, MSVC text).
pub fn msvc_words(alloc: Global, text: &str) -> Mem<Vec<Vec<u8>>>
    ensures { IfOk result (λ v. words_of v.items ≡ msvc_arguments (chars text.now)) }
{
    let mut words = Vec::new(alloc);
    for argument in SplitMsvcResponseFileArgs::from(alloc, text) {
        words.push(argument?.into_bytes())?;
    }
    Ok(words)
}
