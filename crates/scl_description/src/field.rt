//! Fields: plain bytes, and `\xHH` for any other.
ghost use Rattle.std.specs.Prelude.{◌≡◌, ◌++◌, ◌<◌, length, true, false, MatchOption, IfOk, IfSome, OnOk, Some, None};
ghost use Rattle.std.specs.List.{list_all};
ghost use Rattle.std.specs.Option.{option_map};
ghost use Rattle.scl_values.specs.Escaped.{is_plain, digit_of, escape, escaped};
ghost use Rattle.scl_description.specs.Fields.{digit_value, escaped_byte, field_of, two_fields, before, starts_plain};

use crate::cut::cut_at;
use scl_text::Mem;
use std::alloc::Global;

/// Whether the byte is plain: written as it is.
pub fn is_plain(byte: u8) -> bool
    ensures { result ≡ is_plain byte }
{
    0x21 <= byte && byte <= 0x7e && byte != b'\\'
}

/// The plain bytes at the front, and the rest.
fn plain_prefix(bytes: &[u8]) -> (&[u8], &[u8])
    ensures plain { list_all is_plain result.0.now ≡ true }
    ensures ends { starts_plain result.1.now ≡ false }
    ensures whole { bytes.now ≡ result.0.now ++ result.1.now }
{
    for (at, byte) in bytes.iter().enumerate() {
        if !is_plain(*byte) {
            return bytes.split_at(at);
        }
    }
    (bytes, &[])
}

/// The hexadecimal digit of a number below 16.
fn digit_of(number: u8) -> u8
    requires { number < 16 }
    ensures { result ≡ digit_of number }
{
    if number < 10 {
        b'0' + number
    } else {
        b'a' - 10 + number
    }
}

/// Appends a byte that is not plain, escaped.
fn push_escape(text: &mut Vec<u8>, byte: u8) -> Mem<()>
    requires { is_plain byte ≡ false }
    ensures { OnOk result (text.new.items ≡ text.old.items ++ escape byte) }
{
    text.extend_from_slice(&[b'\\', b'x', digit_of(byte / 16), digit_of(byte % 16)])
}

/// Appends bytes as a field.
pub fn push_field(text: &mut Vec<u8>, bytes: &[u8]) -> Mem<()>
    ensures { OnOk result (text.new.items ≡ text.old.items ++ escaped bytes.now) }
{
    let (plain, mut left) = plain_prefix(bytes);
    text.extend_from_slice(plain)?;
    while let Some((byte, behind)) = left.split_first() {
        push_escape(text, *byte)?;
        let (plain, rest) = plain_prefix(behind);
        text.extend_from_slice(plain)?;
        left = rest;
    }
    Ok(())
}

/// The value of a hexadecimal digit.
fn digit_value(digit: u8) -> Option<u8>
    ensures value { result ≡ digit_value digit }
    ensures small { IfSome result (λ n. n < 16) }
{
    match digit {
        b'0'..=b'9' => Some(digit - b'0'),
        b'a'..=b'f' => Some(digit - b'a' + 10),
        _ => None,
    }
}

/// The byte of a backslash, an x and two digits.
fn escaped_byte(backslash: u8, letter: u8, high: u8, low: u8) -> Option<u8>
    ensures { result ≡ escaped_byte backslash letter high low }
{
    if backslash == b'\\' && letter == b'x' {
        Some(16 * digit_value(high)? + digit_value(low)?)
    } else {
        None
    }
}

/// The byte of the escape at the front of a field's text, and the text after it.
fn first_escape(text: &[u8]) -> Option<(u8, &[u8])>
    requires some { 0 < length text.now }
    requires escape { starts_plain text.now ≡ false }
    ensures byte { MatchOption result (field_of text.now ≡ None) (λ p. field_of text.now ≡ before (Some p.0) (field_of p.1.now)) }
    ensures shorter { IfSome result (λ p. length p.1.now < length text.now) }
{
    match text {
        [backslash, letter, high, low, rest @ ..] => {
            Some((escaped_byte(*backslash, *letter, *high, *low)?, rest))
        }
        _ => None,
    }
}

/// The bytes that a field's text means.
pub fn read_field(alloc: Global, text: &[u8]) -> Mem<Option<Vec<u8>>>
    ensures { IfOk result (λ field. option_map (λ bytes. bytes.items) field ≡ field_of text.now) }
{
    let mut bytes = Vec::with_capacity(alloc, text.len())?;
    let (plain, mut left) = plain_prefix(text);
    bytes.extend_from_slice(plain)?;
    while !left.is_empty() {
        let Some((byte, behind)) = first_escape(left) else {
            return Ok(None);
        };
        bytes.push(byte)?;
        let (plain, rest) = plain_prefix(behind);
        bytes.extend_from_slice(plain)?;
        left = rest;
    }
    Ok(Some(bytes))
}

/// The bytes of two fields with a tab between them.
pub fn read_two_fields(alloc: Global, text: &[u8]) -> Mem<Option<(Vec<u8>, Vec<u8>)>>
    ensures { IfOk result (λ fields. option_map (λ p. (p.0.items, p.1.items)) fields ≡ two_fields text.now) }
{
    let Some((first, second)) = cut_at(b'\t', text) else {
        return Ok(None);
    };
    let Some(first) = read_field(alloc, first)? else {
        return Ok(None);
    };
    let Some(second) = read_field(alloc, second)? else {
        return Ok(None);
    };
    Ok(Some((first, second)))
}
