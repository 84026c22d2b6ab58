//! A text as an assembler reads it: what escapes stand for, and strings that stand side by side as one.
ghost use Rattle.std.specs.Prelude.{◌≡◌, ◌+◌, ◌*◌, ◌%◌, ◌<◌, ◌++◌, ◌≤◌, length, drop, map, IfOk, OnOk};
ghost use Rattle.std.specs.Option.{option_to_list};
ghost use Rattle.scl_patterns.specs.declared.assembled.Class.TheVariants as classes;
ghost use Rattle.scl_patterns.specs.Assembled.{assembled, break_at, closed_joint, digit, escape_at, has_first, hex_in, is_hex, is_in, joint_at, letter_break, number_in, octal_in, read, read_from, reading, run_length, small, universal_in, value_from};

use crate::pattern::is_among;
use scl_values::Mem;
use std::alloc::Global;

/// Bytes that are passed over together.
#[derive(Debug, Clone, Copy, PartialEq, Eq)]
pub(crate) enum Class {
    /// White space.
    White,
    /// White space within a line.
    Space,
    /// What may stand between the parts of a directive.
    Gap,
    /// Digits of base 16.
    Hex,
    /// Zeros.
    Zero,
    /// Digits of base 8.
    Octal,
    /// Letters, digits and `_`.
    Name,
}

/// What is read at once.
#[derive(Debug, Clone, Copy, PartialEq, Eq)]
pub(crate) enum Pass {
    /// Ends of statements that are spelled.
    Breaks,
    /// Strings that stand side by side.
    Joints,
    /// Bytes that are spelled as numbers.
    Escapes,
}

/// A byte or none, in place of the first byte and some more.
#[derive(Debug, Clone, Copy, PartialEq, Eq)]
pub(crate) struct Stands {
    pub(crate) byte: Option<u8>,
    pub(crate) more: usize,
}

fn is_hex(byte: u8) -> bool
    ensures { result ≡ is_hex byte }
{
    (b'0' <= byte && byte <= b'9')
        || (b'a' <= byte && byte <= b'f')
        || (b'A' <= byte && byte <= b'F')
}

fn is_name_byte(byte: u8) -> bool
    ensures { result ≡ is_in classes.Name byte }
{
    byte == b'_'
        || (b'0' <= byte && byte <= b'9')
        || (b'A' <= byte && byte <= b'Z')
        || (b'a' <= byte && byte <= b'z')
}

/// Whether a byte is of a class.
pub(crate) fn is_in(class: Class, byte: u8) -> bool
    ensures { result ≡ is_in class byte }
{
    match class {
        Class::White => matches!(byte, b'\n' | b' ' | b'\t' | 0xB | 0xC | b'\r'),
        Class::Space => matches!(byte, b' ' | b'\t' | 0xB | 0xC | b'\r'),
        Class::Gap => byte != b'\n' && (byte < 0x21 || 0x7E < byte),
        Class::Hex => is_hex(byte),
        Class::Zero => byte == b'0',
        Class::Octal => b'0' <= byte && byte <= b'7',
        Class::Name => is_name_byte(byte),
    }
}

/// How many bytes of a class a text begins with.
pub(crate) fn run_length(class: Class, text: &[u8]) -> usize
    ensures count { result ≡ run_length class text.now }
    ensures within { result ≤ length text.now }
{
    let mut count = 0;
    while count < text.len() && is_in(class, text[count]) {
        count += 1;
    }
    count
}

fn digit(byte: u8) -> u8
    ensures value { result ≡ digit byte }
    ensures within { result < 16 }
{
    if b'0' <= byte && byte <= b'9' {
        byte - b'0'
    } else if b'a' <= byte && byte <= b'f' {
        byte - 0x57
    } else if b'A' <= byte && byte <= b'F' {
        byte - 0x37
    } else {
        0
    }
}

/// The value of digits of base 16 with one more, as a byte.
fn with_hex(value: u8, byte: u8) -> u8
    ensures { result ≡ (value * 16 + digit byte) % 256 }
{
    ((u16::from(value) * 16 + u16::from(digit(byte))) % 256) as u8
}

/// The value of digits of base 16, as a byte.
fn hex_value(digits: &[u8]) -> u8
    ensures { result ≡ value_from 16 0 digits.now }
{
    let mut value: u8 = 0;
    for byte in digits {
        value = with_hex(value, *byte);
    }
    value
}

/// The value of digits of base 8 with one more, as a byte.
fn with_octal(value: u8, byte: u8) -> u8
    ensures { result ≡ (value * 8 + digit byte) % 256 }
{
    ((u16::from(value) * 8 + u16::from(digit(byte))) % 256) as u8
}

/// The value of digits of base 8, as a byte.
fn octal_value(digits: &[u8]) -> u8
    ensures { result ≡ value_from 8 0 digits.now }
{
    let mut value: u8 = 0;
    for byte in digits {
        value = with_octal(value, *byte);
    }
    value
}

/// After a backslash: a letter that ends a statement, as white space does.
fn letter_break(text: &[u8]) -> Option<Stands>
    ensures { result ≡ letter_break text.now }
{
    match text {
        [byte, ..] if is_among(*byte, b"abfrv") => Some(Stands {
            byte: Some(b'\n'),
            more: 1,
        }),
        [_, ..] | [] => None,
    }
}

fn break_at(text: &[u8]) -> Option<Stands>
    ensures { result ≡ break_at text.now }
{
    let [byte, rest @ ..] = text else {
        return None;
    };
    if *byte == b'\\' {
        letter_break(rest)
    } else if *byte == 0xC || *byte == 0xD {
        Some(Stands {
            byte: Some(b'\n'),
            more: 0,
        })
    } else {
        None
    }
}

/// After a quote: another, behind white space.
fn closed_joint(text: &[u8]) -> Option<Stands>
    ensures { result ≡ closed_joint text.now }
{
    let count = run_length(Class::White, text);
    if text[count..].starts_with(b"\"") {
        Some(Stands {
            byte: None,
            more: count + 1,
        })
    } else {
        None
    }
}

fn joint_at(text: &[u8]) -> Option<Stands>
    ensures { result ≡ joint_at text.now }
{
    match text {
        [b'"', rest @ ..] => closed_joint(rest),
        [_, ..] | [] => None,
    }
}

/// 1 if the text begins with the byte.
fn has_first(byte: u8, text: &[u8]) -> usize
    ensures count { result ≡ has_first byte text.now }
    ensures within { result ≤ length text.now }
    ensures one { result ≤ 1 }
{
    match text {
        [first, ..] if *first == byte => 1,
        [_, ..] | [] => 0,
    }
}

/// After `\x`: digits, perhaps in braces.
fn hex_in(text: &[u8]) -> Option<Stands>
    ensures { result ≡ hex_in text.now }
{
    let opening = has_first(b'{', text);
    let digits = &text[opening..];
    let count = run_length(Class::Hex, digits);
    if count == 0 {
        return None;
    }
    let closing = has_first(b'}', &digits[count..]);
    Some(Stands {
        byte: Some(hex_value(&digits[..count])),
        more: 1 + opening + count + closing,
    })
}

/// After `\u` or `\U`: two digits after zeros.
fn universal_in(text: &[u8]) -> Option<Stands>
    ensures { result ≡ universal_in text.now }
{
    let count = run_length(Class::Hex, text);
    if 2 <= count && count <= run_length(Class::Zero, text) + 2 {
        Some(Stands {
            byte: Some(hex_value(&text[..count])),
            more: 1 + count,
        })
    } else {
        None
    }
}

/// After a backslash: up to three digits.
fn octal_in(text: &[u8]) -> Option<Stands>
    ensures { result ≡ octal_in text.now }
{
    let all = run_length(Class::Octal, text);
    let count = if all <= 3 { all } else { 3 };
    if count == 0 {
        return None;
    }
    Some(Stands {
        byte: Some(octal_value(&text[..count])),
        more: count,
    })
}

/// After a backslash: a byte that is spelled as a number.
fn number_in(text: &[u8]) -> Option<Stands>
    ensures { result ≡ number_in text.now }
{
    let [byte, rest @ ..] = text else {
        return None;
    };
    if *byte == b'x' {
        hex_in(rest)
    } else if *byte == b'u' || *byte == b'U' {
        universal_in(rest)
    } else {
        octal_in(text)
    }
}

fn escape_at(text: &[u8]) -> Option<Stands>
    ensures { result ≡ escape_at text.now }
{
    match text {
        [b'\\', rest @ ..] => number_in(rest),
        [_, ..] | [] => None,
    }
}

/// What stands at the start of a text.
fn reading(pass: Pass, text: &[u8]) -> Option<Stands>
    ensures { result ≡ reading pass text.now }
{
    match pass {
        Pass::Breaks => break_at(text),
        Pass::Joints => joint_at(text),
        Pass::Escapes => escape_at(text),
    }
}

fn push_some(read: &mut Vec<u8>, byte: Option<u8>) -> Mem<()>
    ensures { OnOk result (read.new.items ≡ read.old.items ++ option_to_list byte) }
{
    if let Some(byte) = byte {
        read.push(byte)?;
    }
    Ok(())
}

/// Reads at the start of a text, and says how many bytes behind the first are passed over.
fn step(read: &mut Vec<u8>, pass: Pass, text: &[u8]) -> Mem<usize>
    ensures { IfOk result (λ more. read.new.items ++ read_from (reading pass) more (drop 1 text.now) ≡ read.old.items ++ read_from (reading pass) 0 text.now) }
{
    let [byte, ..] = text else {
        return Ok(0);
    };
    match reading(pass, text) {
        Some(it) => {
            push_some(read, it.byte)?;
            Ok(it.more)
        }
        None => {
            read.push(*byte)?;
            Ok(0)
        }
    }
}

/// Reads at the start of a text, unless its first byte is passed over.
#[tactic(auto, using(crate::proofs::AssembledLemmas::passed_over))]
fn next(read: &mut Vec<u8>, pass: Pass, skip: usize, text: &[u8]) -> Mem<usize>
    ensures { IfOk result (λ more. read.new.items ++ read_from (reading pass) more (drop 1 text.now) ≡ read.old.items ++ read_from (reading pass) skip text.now) }
{
    if skip > 0 {
        return Ok(skip - 1);
    }
    step(read, pass, text)
}

/// A text with what stands for other bytes.
fn read(alloc: Global, pass: Pass, text: &[u8]) -> Mem<Vec<u8>>
    ensures { IfOk result (λ it. it.items ≡ read pass text.now) }
{
    let mut read = Vec::new(alloc);
    let mut skip = 0;
    let mut rest = text;
    while let [_, behind @ ..] = rest {
        skip = next(&mut read, pass, skip, rest)?;
        rest = behind;
    }
    Ok(read)
}

fn small(byte: u8) -> u8
    ensures { result ≡ small byte }
{
    if b'A' <= byte && byte <= b'Z' {
        byte + 32
    } else {
        byte
    }
}

fn in_small_letters(alloc: Global, text: &[u8]) -> Mem<Vec<u8>>
    ensures { IfOk result (λ it. it.items ≡ map small text.now) }
{
    let mut letters = Vec::new(alloc);
    for byte in text {
        letters.push(small(*byte))?;
    }
    Ok(letters)
}

/// A text as an assembler reads it, in small letters.
pub(crate) fn assembled(alloc: Global, text: &[u8]) -> Mem<Vec<u8>>
    ensures { IfOk result (λ it. it.items ≡ assembled text.now) }
{
    let ended = read(alloc, Pass::Breaks, text)?;
    let joined = read(alloc, Pass::Joints, &ended)?;
    let read = read(alloc, Pass::Escapes, &joined)?;
    in_small_letters(alloc, &read)
}
