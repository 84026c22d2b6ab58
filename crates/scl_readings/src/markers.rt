//! Line markers, and the pragma by which gcc says that it loads a header.
ghost use Rattle.std.specs.Prelude.{◌≡◌, ◌≤◌, length};
ghost use Rattle.std.specs.List.{prefix_len};
ghost use Rattle.std.specs.Option.{option_copied, option_map};
ghost use Rattle.scl_readings.specs.Markers.{is_blank, is_digit, skip, after, past, after_number, after_quote, marked, marker_of, enters, loaded_name};

use crate::cut::cut_at;
use crate::quoted::closing_at;

/// A line marker, as `# 12 "a.h" 1 3` and `#line 12 "a.h"`.
#[derive(Clone, Copy)]
pub struct Marker<'a> {
    /// The name as it is quoted (`unquoted`).
    pub name: &'a [u8],
    /// What stands after the name: the flags.
    pub flags: &'a [u8],
}

fn blank_count(text: &[u8]) -> usize
    ensures count { result ≡ prefix_len is_blank text.now }
    ensures within { result ≤ length text.now }
{
    let mut count = 0;
    while count < text.len() && (text[count] == b' ' || text[count] == b'\t') {
        count += 1;
    }
    count
}

fn digit_count(text: &[u8]) -> usize
    ensures count { result ≡ prefix_len is_digit text.now }
    ensures within { result ≤ length text.now }
{
    let mut count = 0;
    while count < text.len() && b'0' <= text[count] && text[count] <= b'9' {
        count += 1;
    }
    count
}

fn skip_blanks(text: &[u8]) -> &[u8]
    ensures { result.now ≡ skip is_blank text.now }
{
    &text[blank_count(text)..]
}

fn after<'a>(word: &[u8], text: &'a [u8]) -> Option<&'a [u8]>
    ensures { option_copied result ≡ after word.now text.now }
{
    if text.starts_with(word) {
        Some(&text[word.len()..])
    } else {
        None
    }
}

fn past<'a>(word: &[u8], text: &'a [u8]) -> &'a [u8]
    ensures { result.now ≡ past word.now text.now }
{
    if text.starts_with(word) {
        &text[word.len()..]
    } else {
        text
    }
}

fn after_number(text: &[u8]) -> Option<&[u8]>
    ensures { option_copied result ≡ after_number text.now }
{
    let count = digit_count(text);
    if count == 0 {
        None
    } else {
        Some(&text[count..])
    }
}

/// What follows the opening quote of the name in a line marker.
fn after_quote(directive: &[u8]) -> Option<&[u8]>
    ensures { option_copied result ≡ after_quote directive.now }
{
    let named = after_number(skip_blanks(past(b"line", skip_blanks(directive))))?;
    after(b"\"", skip_blanks(named))
}

/// The marker that a directive is; it is without its `#`.
pub fn marker_of(directive: &[u8]) -> Option<Marker<'_>>
    ensures { option_map (λ marker. marked marker.name.now marker.flags.now) result ≡ marker_of directive.now }
{
    let quoted = after_quote(directive)?;
    let end = closing_at(quoted)?;
    Some(Marker {
        name: &quoted[..end],
        flags: &quoted[end + 1..],
    })
}

impl Marker<'_> {
    /// Whether a file is entered there: the flag 1.
    pub fn enters(&self) -> bool
        ensures { result ≡ enters self.now.flags.now }
    {
        let mut rest = self.flags;
        while let Some((flag, behind)) = cut_at(b' ', rest) {
            if flag == b"1".as_slice() {
                return true;
            }
            rest = behind;
        }
        rest == b"1".as_slice()
    }
}

/// The name, as it is quoted, of the precompiled header that gcc loads by this directive, which is without its `#`.
pub fn loaded_name(directive: &[u8]) -> Option<&[u8]>
    ensures { option_copied result ≡ loaded_name directive.now }
{
    let quoted = after(b"pragma GCC pch_preprocess \"", directive)?;
    let end = closing_at(quoted)?;
    Some(&quoted[..end])
}
