//! What a source reads that no name in it says.
ghost use Rattle.std.specs.Prelude.{◌≡◌, map};
ghost use Rattle.std.specs.List.{list_any};
ghost use Rattle.scl_readings.specs.Lines.{lines};
ghost use Rattle.scl_patterns.specs.Patterns.{behind};
ghost use Rattle.scl_patterns.specs.Unseen.{asks_by_macro, begins_directive, begins_macro, follows, goes_on, has_gap, has_sign, includes_by, includes_by_macro, is_macro_line, is_no_call, is_no_name, reads_by_pragma, reads_unseen, renames_asking, signs};

use crate::assembled::{Class, is_in};
use crate::pattern::{after, has_word, other_than};
use crate::source::{asked, first_line, skip_gap};
use memchr::memmem;
use scl_readings::cut_at;

/// What stands behind a word, perhaps behind a gap.
#[derive(Clone, Copy)]
pub(crate) enum Next {
    /// Anything.
    Anything,
    /// What begins a directive.
    Hash,
    /// A comment.
    Comment,
    /// What puts the bytes of a file there.
    Embed,
    /// A directive, or a comment before one.
    Directive,
    /// On the line, what reads a file, or says that a name means another file.
    Reading,
    /// No name where one is asked for.
    NoName,
    /// On the line, another name of what asks for a file.
    Renaming,
}

/// A word, and what stands behind it.
type Sign = (&'static [u8], Next);

/// The signs of what no name says. Compilers take a comment for a blank, so a directive may stand behind one; a name that is a
/// macro is whatever the macro is; trigraphs and digraphs are other ways to write `#` and the backslash.
static SIGNS: [Sign; 14] = [
    (b"__DATE__", Next::Anything),
    (b"__TIME__", Next::Anything),
    (b"__TIMESTAMP__", Next::Anything),
    (b"__has_embed", Next::Anything),
    (b"#", Next::Embed),
    (b"??/", Next::Anything),
    (b"??=", Next::Anything),
    (b"%:", Next::Directive),
    (b"*/", Next::Hash),
    (b"#", Next::Comment),
    (b"ragma", Next::Reading),
    (b"__has_include", Next::NoName),
    (b"define", Next::Renaming),
    (b"\0", Next::Anything),
];

fn signs() -> &'static [Sign]
    ensures { map (λ sign. (sign.0.now, sign.1)) result.now ≡ signs }
{
    &SIGNS
}

/// Whether the word stands there, perhaps behind a gap.
fn goes_on(word: &[u8], rest: &[u8]) -> bool
    ensures { result ≡ goes_on word.now rest.now }
{
    skip_gap(rest).starts_with(word)
}

/// In a parenthesis: whether there is no name.
fn is_no_name(inner: &[u8]) -> bool
    ensures { result ≡ is_no_name inner.now }
{
    other_than(b"<\"\n", skip_gap(inner))
}

/// After `__has_include`: whether there is a comment, or in the parenthesis no name.
fn asks_by_macro(rest: &[u8]) -> bool
    ensures { result ≡ asks_by_macro rest.now }
{
    let asked = asked(rest);
    if goes_on(b"/", asked) {
        return true;
    }
    match after(b"(", asked) {
        Some(inner) => is_no_name(inner),
        None => false,
    }
}

/// After `ragma`: whether it reads a file, or says that a name means another file.
fn reads_by_pragma(rest: &[u8]) -> bool
    ensures { result ≡ reads_by_pragma rest.now }
{
    let line = first_line(rest);
    has_word(b"dependency", line)
        || has_word(b"module", line)
        || has_word(b"pch_preprocess", line)
        || has_word(b"include_alias", line)
}

/// After `%:`, which is `#`: whether there is a directive, or a comment before one.
fn begins_directive(text: &[u8]) -> bool
    ensures { result ≡ begins_directive text.now }
{
    match text {
        [byte, ..] => *byte == b'/' || (b'a' <= *byte && *byte <= b'z'),
        [] => false,
    }
}

/// Whether no parenthesis follows.
fn is_no_call(rest: &[u8]) -> bool
    ensures { result ≡ is_no_call rest.now }
{
    !goes_on(b"(", rest)
}

fn has_gap(text: &[u8]) -> bool
    ensures { result ≡ has_gap text.now }
{
    match text {
        [byte, ..] => is_in(Class::Gap, *byte),
        [] => false,
    }
}

/// Whether the word stands on the line with no parenthesis behind it.
#[tactic(auto, using(crate::proofs::PlaceLemmas::all_stand))]
fn stands_alone(word: &[u8], line: &[u8]) -> bool
    ensures { result ≡ list_any is_no_call (behind word.now line.now) }
{
    for at in memmem::find_iter(line, word) {
        if is_no_call(&line[at + word.len()..]) {
            return true;
        }
    }
    false
}

/// After `define`: whether a macro stands for `__has_include`.
fn renames_asking(rest: &[u8]) -> bool
    ensures { result ≡ renames_asking rest.now }
{
    has_gap(rest) && stands_alone(b"__has_include", first_line(rest))
}

/// Whether this stands behind a word.
fn follows(next: Next, rest: &[u8]) -> bool
    ensures { result ≡ follows next rest.now }
{
    match next {
        Next::Anything => true,
        Next::Hash => goes_on(b"#", rest),
        Next::Comment => goes_on(b"/*", rest),
        Next::Embed => goes_on(b"embed", rest),
        Next::Directive => begins_directive(skip_gap(rest)),
        Next::Reading => reads_by_pragma(rest),
        Next::NoName => asks_by_macro(rest),
        Next::Renaming => renames_asking(rest),
    }
}

#[tactic(auto, using(crate::proofs::PlaceLemmas::all_stand))]
fn is_followed(word: &[u8], next: Next, text: &[u8]) -> bool
    ensures { result ≡ list_any (follows next) (behind word.now text.now) }
{
    for at in memmem::find_iter(text, word) {
        if follows(next, &text[at + word.len()..]) {
            return true;
        }
    }
    false
}

fn has_any_sign(text: &[u8]) -> bool
    ensures { result ≡ list_any (has_sign text.now) signs }
{
    for sign in signs() {
        if is_followed(sign.0, sign.1, text) {
            return true;
        }
    }
    false
}

// ---- an included name that is a macro

fn begins_macro(text: &[u8]) -> bool
    ensures { result ≡ begins_macro text.now }
{
    match text {
        [byte, ..] => is_in(Class::Name, *byte) || *byte == b'$' || *byte == b'/',
        [] => false,
    }
}

fn includes_by(word: &[u8], directive: &[u8]) -> bool
    ensures { result ≡ includes_by word.now directive.now }
{
    match after(word, directive) {
        Some(rest) => begins_macro(asked(rest)),
        None => false,
    }
}

fn includes_by_macro(directive: &[u8]) -> bool
    ensures { result ≡ includes_by_macro directive.now }
{
    includes_by(b"include", directive) || includes_by(b"import", directive)
}

/// Whether the line is a directive that includes what a macro names.
fn is_macro_line(line: &[u8]) -> bool
    ensures { result ≡ is_macro_line line.now }
{
    match after(b"#", skip_gap(line)) {
        Some(directive) => includes_by_macro(skip_gap(directive)),
        None => false,
    }
}

fn has_macro_line(text: &[u8]) -> bool
    ensures { result ≡ list_any is_macro_line (lines text.now) }
{
    let mut rest = text;
    while let Some((line, behind)) = cut_at(b'\n', rest) {
        if is_macro_line(line) {
            return true;
        }
        rest = behind;
    }
    is_macro_line(rest)
}

/// Whether a source whose lines are joined reads the time, or what no name in it says. A key that is found by the bytes of
/// named files is wrong then.
pub fn reads_unseen(text: &[u8]) -> bool
    ensures { result ≡ reads_unseen text.now }
{
    has_any_sign(text) || has_macro_line(text)
}
