//! Quoted names, with escapes as in C.
ghost use Rattle.std.specs.Prelude.{◌≡◌, ◌<◌, ◌∷◌, ◌++◌, ℕ, List, IfSome, IfOk, OnOk, length, true, false};
ghost use Rattle.scl_readings.specs.Quoted.{is_octal, letter, with_digit, closing_at, unquoted_from, at_end, unquoted};

use scl_values::Mem;
use std::alloc::Global;

/// Where a quoted text that has begun ends: at the first quote that no backslash escapes.
pub fn closing_at(text: &[u8]) -> Option<usize>
    ensures at { result ≡ closing_at 0 false text.now }
    ensures within { IfSome result (λ at. at < length text.now) }
{
    let mut is_escaped = false;
    for (at, byte) in text.iter().enumerate() {
        if is_escaped {
            is_escaped = false;
            continue;
        }
        if *byte == b'"' {
            return Some(at);
        }
        is_escaped = *byte == b'\\';
    }
    None
}

/// Where in a quoted text: at a byte, after a backslash, or after octal digits, with how many more there may be and their value.
#[derive(Clone, Copy)]
pub(crate) enum At {
    Byte,
    Escape,
    Digits(u8, u8),
}

fn is_octal(byte: u8) -> bool
    ensures { result ≡ is_octal byte }
{
    b'0' <= byte && byte <= b'7'
}

/// The byte that C writes with this one after a backslash.
fn letter(byte: u8) -> u8
    ensures { result ≡ letter byte }
{
    match byte {
        b'a' => 7,
        b'b' => 8,
        b't' => 9,
        b'n' => 10,
        b'v' => 11,
        b'f' => 12,
        b'r' => 13,
        _ => byte,
    }
}

/// The value of octal digits with one more, as a byte.
fn with_digit(value: u8, digit: u8) -> u8
    requires { is_octal digit ≡ true }
    ensures { result ≡ with_digit value digit }
{
    ((u16::from(value) * 8 + u16::from(digit - b'0')) % 256) as u8
}

fn plain(name: &mut Vec<u8>, byte: u8) -> Mem<At>
    ensures { IfOk result (λ at. (rest : List ℕ) → name.new.items ++ unquoted_from at rest ≡ name.old.items ++ unquoted_from At.Byte (byte ∷ rest)) }
{
    if byte == b'\\' {
        return Ok(At::Escape);
    }
    name.push(byte)?;
    Ok(At::Byte)
}

fn escaped(name: &mut Vec<u8>, byte: u8) -> Mem<At>
    ensures { IfOk result (λ at. (rest : List ℕ) → name.new.items ++ unquoted_from at rest ≡ name.old.items ++ unquoted_from At.Escape (byte ∷ rest)) }
{
    if is_octal(byte) {
        return Ok(At::Digits(2, with_digit(0, byte)));
    }
    name.push(letter(byte))?;
    Ok(At::Byte)
}

fn digits(name: &mut Vec<u8>, more: u8, value: u8, byte: u8) -> Mem<At>
    ensures { IfOk result (λ at. (rest : List ℕ) → name.new.items ++ unquoted_from at rest ≡ name.old.items ++ unquoted_from (At.Digits more value) (byte ∷ rest)) }
{
    if more > 0 && is_octal(byte) {
        return Ok(At::Digits(more - 1, with_digit(value, byte)));
    }
    name.push(value)?;
    plain(name, byte)
}

fn step(name: &mut Vec<u8>, at: At, byte: u8) -> Mem<At>
    ensures { IfOk result (λ next. (rest : List ℕ) → name.new.items ++ unquoted_from next rest ≡ name.old.items ++ unquoted_from at (byte ∷ rest)) }
{
    match at {
        At::Byte => plain(name, byte),
        At::Escape => escaped(name, byte),
        At::Digits(more, value) => digits(name, more, value, byte),
    }
}

fn end(name: &mut Vec<u8>, at: At) -> Mem<()>
    ensures { OnOk result (name.new.items ≡ name.old.items ++ at_end at) }
{
    match at {
        At::Byte => {}
        At::Escape => name.push(b'\\')?,
        At::Digits(_, value) => name.push(value)?,
    }
    Ok(())
}

/// A quoted text as C reads it: `\\`, `\"`, up to three octal digits, and the letters of C.
pub fn unquoted(alloc: Global, quoted: &[u8]) -> Mem<Vec<u8>>
    ensures { IfOk result (λ name. name.items ≡ unquoted quoted.now) }
{
    let mut name = Vec::new(alloc);
    let mut at = At::Byte;
    for byte in quoted {
        at = step(&mut name, at, *byte)?;
    }
    end(&mut name, at)?;
    Ok(name)
}
