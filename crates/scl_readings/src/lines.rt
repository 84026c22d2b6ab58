//! Lines of a text, by the byte that they begin with.
ghost use Rattle.std.specs.Prelude.{◌≡◌, IfOk, map};
ghost use Rattle.std.specs.Option.{option_copied};
ghost use Rattle.scl_readings.specs.Lines.{is_space, after_byte, has_other_text, lines_after, leading_lines};

use crate::cut::cut_at;
use scl_values::Mem;
use std::alloc::Global;

/// What follows the byte, if the line begins with it.
fn after_byte(first: u8, line: &[u8]) -> Option<&[u8]>
    ensures { option_copied result ≡ after_byte first line.now }
{
    match line {
        [byte, rest @ ..] if *byte == first => Some(rest),
        _ => None,
    }
}

/// Of each line that begins with the byte what follows it. So directives are found by `#`; by a space the folders that `-v` names,
/// and the commands of a plan, as `-###` writes it.
pub fn lines_after<'a>(alloc: Global, first: u8, text: &'a [u8]) -> Mem<Vec<&'a [u8]>>
    ensures { IfOk result (λ lines. map (λ line. line.now) lines.items ≡ lines_after first text.now) }
{
    let mut lines = Vec::new(alloc);
    let mut rest = text;
    while let Some((line, behind)) = cut_at(b'\n', rest) {
        if let Some(found) = after_byte(first, line) {
            lines.push(found)?;
        }
        rest = behind;
    }
    if let Some(found) = after_byte(first, rest) {
        lines.push(found)?;
    }
    Ok(lines)
}

fn is_space(byte: u8) -> bool
    ensures { result ≡ is_space byte }
{
    matches!(byte, b' ' | b'\t' | 0xB | 0xC | b'\r')
}

/// Whether the line has text and is no directive.
fn has_other_text(line: &[u8]) -> bool
    ensures { result ≡ has_other_text line.now }
{
    for byte in line {
        if !is_space(*byte) {
            return *byte != b'#';
        }
    }
    false
}

/// The directives before any other text: of each line that begins with `#` what follows it, up to the first line that has text
/// and is no directive.
pub fn leading_lines<'a>(alloc: Global, text: &'a [u8]) -> Mem<Vec<&'a [u8]>>
    ensures { IfOk result (λ lines. map (λ line. line.now) lines.items ≡ leading_lines text.now) }
{
    let mut lines = Vec::new(alloc);
    let mut rest = text;
    while let Some((line, behind)) = cut_at(b'\n', rest) {
        if has_other_text(line) {
            return Ok(lines);
        }
        if let Some(found) = after_byte(b'#', line) {
            lines.push(found)?;
        }
        rest = behind;
    }
    if let Some(found) = after_byte(b'#', rest) {
        lines.push(found)?;
    }
    Ok(lines)
}
