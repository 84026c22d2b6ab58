//! Line markers of preprocessed texts.
ghost use Rattle.std.specs.Prelude.{◌≡◌, ◌++◌, ◌≤◌, OnOk, IfOk, length, false};
ghost use Rattle.std.specs.Option.{option_copied};
ghost use Rattle.std.specs.List.{prefix_len};
ghost use Rattle.scl_values.specs.Words.{words_of};
ghost use Rattle.scl_base_dirs.specs.Markers.{is_blank, is_digit, skip, behind, behind_line, behind_number, marked_name, has_raw_from, begins_raw, mapped_line};

use crate::spelling::Spelling;
use crate::told::push_path;
use scl_values::Mem;
use std::alloc::Global;

fn blank_count(text: &[u8]) -> usize
    ensures count { result ≡ prefix_len is_blank text.now }
    ensures within { result ≤ length text.now }
{
    let mut count = 0;
    while count < text.len() && (text[count] == b' ' || text[count] == b'\t') {
        count += 1;
    }
    count
}

fn digit_count(text: &[u8]) -> usize
    ensures count { result ≡ prefix_len is_digit text.now }
    ensures within { result ≤ length text.now }
{
    let mut count = 0;
    while count < text.len() && b'0' <= text[count] && text[count] <= b'9' {
        count += 1;
    }
    count
}

fn skip_blanks(text: &[u8]) -> &[u8]
    ensures { result.now ≡ skip is_blank text.now }
{
    &text[blank_count(text)..]
}

fn behind<'a>(word: &[u8], text: &'a [u8]) -> Option<&'a [u8]>
    ensures { option_copied result ≡ behind word.now text.now }
{
    if text.starts_with(word) {
        Some(&text[word.len()..])
    } else {
        None
    }
}

fn behind_line(text: &[u8]) -> &[u8]
    ensures { result.now ≡ behind_line text.now }
{
    if text.starts_with(b"line") {
        &text[4..]
    } else {
        text
    }
}

fn behind_number(text: &[u8]) -> Option<&[u8]>
    ensures { option_copied result ≡ behind_number text.now }
{
    let count = digit_count(text);
    if count == 0 {
        None
    } else {
        Some(&text[count..])
    }
}

/// What follows the opening quote of the name in a line marker.
fn marked_name(line: &[u8]) -> Option<&[u8]>
    ensures { option_copied result ≡ marked_name line.now }
{
    let rest = behind(b"#", line)?;
    let named = behind_number(skip_blanks(behind_line(skip_blanks(rest))))?;
    behind(b"\"", skip_blanks(named))
}

/// Whether `R"` stands in the text.
fn has_raw(text: &[u8]) -> bool
    ensures { result ≡ has_raw_from false text.now }
{
    let mut behind_r = false;
    for byte in text {
        if behind_r && *byte == b'"' {
            return true;
        }
        behind_r = *byte == b'R';
    }
    false
}

/// Appends a line; if it is a marker, its name is told by its base. Gives whether a raw string may begin in the line.
pub(crate) fn push_line(
    alloc: Global,
    mapped: &mut Vec<u8>,
    dirs: &[Vec<u8>],
    line: &[u8],
) -> Mem<bool>
    ensures line { OnOk result (mapped.new.items ≡ mapped.old.items ++ mapped_line (words_of dirs.now) line.now) }
    ensures raw { IfOk result (λ raw. raw ≡ begins_raw line.now) }
{
    let Some(name) = marked_name(line) else {
        mapped.extend_from_slice(line)?;
        return Ok(has_raw(line));
    };
    let begins = line.len().saturating_sub(name.len());
    mapped.extend_from_slice(&line[..begins])?;
    push_path(alloc, mapped, Spelling::Quoted, dirs, name)?;
    Ok(false)
}
