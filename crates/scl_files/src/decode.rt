//! Bytes as text: UTF-8, UTF-16 with a byte order mark, windows-1252.
ghost use Rattle.std.specs.Prelude.{◌≡◌, IfOk};
ghost use Rattle.std.specs.Option.{option_map, option_copied};
ghost use Rattle.std.specs.String.{string_bytes};
ghost use Rattle.scl_files.specs.Decoding.{unit_of, units, utf8_text, utf16_text, windows_char, windows_text, decoded};

use bstr::ByteSlice;
use scl_values::Mem;
use std::alloc::Global;

/// Which byte of a 16-bit number comes first.
#[derive(Clone, Copy)]
pub(crate) enum Order {
    LittleEndFirst,
    BigEndFirst,
}

/// The characters of the bytes 80 to 9F in windows-1252.
const WINDOWS_1252: [char; 32] = [
    '\u{20AC}', '\u{81}', '\u{201A}', '\u{192}', '\u{201E}', '\u{2026}', '\u{2020}', '\u{2021}',
    '\u{2C6}', '\u{2030}', '\u{160}', '\u{2039}', '\u{152}', '\u{8D}', '\u{17D}', '\u{8F}',
    '\u{90}', '\u{2018}', '\u{2019}', '\u{201C}', '\u{201D}', '\u{2022}', '\u{2013}', '\u{2014}',
    '\u{2DC}', '\u{2122}', '\u{161}', '\u{203A}', '\u{153}', '\u{9D}', '\u{17E}', '\u{178}',
];

fn windows_char(byte: u8) -> char
    ensures { result ≡ windows_char byte }
{
    if 0x80 <= byte && byte < 0xA0 {
        WINDOWS_1252[(byte - 0x80) as usize]
    } else {
        char::from(byte)
    }
}

fn windows_text(alloc: Global, bytes: &[u8]) -> Mem<String>
    ensures { IfOk result (λ s. string_bytes s ≡ windows_text bytes.now) }
{
    let mut text = String::new(alloc);
    for byte in bytes {
        text.push(windows_char(*byte))?;
    }
    Ok(text)
}

fn unit_of(order: Order, a: u8, b: u8) -> u16
    ensures { result ≡ unit_of order a b }
{
    match order {
        Order::LittleEndFirst => u16::from(b) * 256 + u16::from(a),
        Order::BigEndFirst => u16::from(a) * 256 + u16::from(b),
    }
}

#[tactic(auto, using(crate::proofs::DecodeLemmas::units_rules))]
fn units(alloc: Global, bytes: &[u8], order: Order) -> Mem<Option<Vec<u16>>>
    ensures { IfOk result (λ o. option_map (λ v. v.items) o ≡ units order bytes.now) }
{
    let mut made = Vec::new(alloc);
    let mut rest = bytes;
    while rest.len() > 1 {
        made.push(unit_of(order, rest[0], rest[1]))?;
        rest = &rest[2..];
    }
    if rest.is_empty() {
        Ok(Some(made))
    } else {
        Ok(None)
    }
}

fn utf16_text(alloc: Global, bytes: &[u8], order: Order) -> Mem<Option<String>>
    ensures { IfOk result (λ o. option_map string_bytes o ≡ utf16_text order bytes.now) }
{
    let Some(units) = units(alloc, bytes, order)? else {
        return Ok(None);
    };
    Ok(String::from_utf16(alloc, &units)?.ok())
}

/// The bytes as a text, if they are UTF-8.
#[tactic(auto, using(crate::proofs::DecodeLemmas::utf8_rules))]
pub(crate) fn utf8_text(bytes: &[u8]) -> Option<&str>
    ensures { option_copied result ≡ utf8_text bytes.now }
{
    bytes.to_str().ok()
}

/// All the bytes as a text in UTF-8; a leading mark `EF BB BF` is part of the text. None if they are malformed
/// (docs/RULES.md, Decoding).
pub fn from_local_codepage(alloc: Global, bytes: &[u8]) -> Mem<Option<String>>
    ensures { IfOk result (λ o. option_map string_bytes o ≡ utf8_text bytes.now) }
{
    match utf8_text(bytes) {
        Some(text) => Ok(Some(String::from_str(alloc, text)?)),
        None => Ok(None),
    }
}

/// The text of a file's bytes: by its mark UTF-8 or UTF-16 of either byte order, without the mark; else windows-1252. None if
/// they are malformed (docs/RULES.md, Decoding).
#[tactic(auto, unfolding(crate::specs::Decoding::decoded))]
pub fn read_text(alloc: Global, bytes: &[u8]) -> Mem<Option<String>>
    ensures { IfOk result (λ o. option_map string_bytes o ≡ decoded bytes.now) }
{
    match bytes {
        [0xEF, 0xBB, 0xBF, rest @ ..] => from_local_codepage(alloc, rest),
        [0xFF, 0xFE, rest @ ..] => utf16_text(alloc, rest, Order::LittleEndFirst),
        [0xFE, 0xFF, rest @ ..] => utf16_text(alloc, rest, Order::BigEndFirst),
        _ => Ok(Some(windows_text(alloc, bytes)?)),
    }
}
