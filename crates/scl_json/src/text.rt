//! Values of JSON, as bytes.
ghost use Rattle.std.specs.Prelude.{◌≡◌, ◌++◌, ◌<◌, ◌%◌, OnOk, codes, map};
ghost use Rattle.std.specs.List.{flat_map};
ghost use Rattle.std.specs.Char.{encode_utf8};
ghost use Rattle.std.specs.Str.{chars};
ghost use Rattle.scl_values.specs.Escaped.{digit_of};
ghost use Rattle.scl_values.specs.Words.{words_of};
ghost use Rattle.scl_json.specs.Texts.{behind_comma, char_text, digits_of, is_mark, is_plain, joined, name_text, number_escape, quoted, quoted_digits, raw, surrogates, text, texts, unit_escape};

use scl_shell::is_hidden;
use scl_text::Mem;
use std::str;

/// The hexadecimal digit of a number below 16.
fn digit_of(number: u8) -> u8
    requires { number < 16 }
    ensures { result ≡ digit_of number }
{
    if number < 10 {
        b'0' + number
    } else {
        b'a' - 10 + number
    }
}

/// The last digit of a number.
fn last_digit(number: u32) -> u8
    ensures { result ≡ digit_of (number % 16) }
{
    digit_of((number % 16) as u8)
}

/// Appends `\u` and four digits.
fn push_unit(json: &mut Vec<u8>, number: u32) -> Mem<()>
    ensures { OnOk result (json.new.items ≡ json.old.items ++ unit_escape number) }
{
    json.extend_from_slice(b"\\u")?;
    json.push(last_digit(number / 4096))?;
    json.push(last_digit(number / 256))?;
    json.push(last_digit(number / 16))?;
    json.push(last_digit(number))?;
    Ok(())
}

/// Appends the two surrogates of a number.
fn push_surrogates(json: &mut Vec<u8>, number: u32) -> Mem<()>
    ensures { OnOk result (json.new.items ≡ json.old.items ++ surrogates number) }
{
    push_unit(json, 0xd800 + number / 1024 % 1024)?;
    push_unit(json, 0xdc00 + number % 1024)
}

/// Appends a character by its number, or by its two surrogates.
fn push_number(json: &mut Vec<u8>, c: char) -> Mem<()>
    ensures { OnOk result (json.new.items ≡ json.old.items ++ number_escape c) }
{
    let number = u32::from(c);
    if number < 0x1_0000 {
        push_unit(json, number)
    } else {
        push_surrogates(json, number - 0x1_0000)
    }
}

fn is_mark(c: char) -> bool
    ensures { result ≡ is_mark c }
{
    c == '"' || c == '\\'
}

/// Appends a character as it is.
fn push_itself(json: &mut Vec<u8>, c: char) -> Mem<()>
    ensures { OnOk result (json.new.items ≡ json.old.items ++ encode_utf8 c) }
{
    let mut room = [0; 4];
    json.extend_from_slice(c.encode_utf8(&mut room).as_bytes())
}

/// Whether a character of ASCII stands for itself.
fn is_plain(c: char) -> bool
    ensures { result ≡ is_plain c }
{
    matches!(c, ' '..='~') && !is_mark(c)
}

#[tactic(auto, using(crate::proofs::CharLaws::plain_rules))]
fn push_char(json: &mut Vec<u8>, c: char) -> Mem<()>
    ensures { OnOk result (json.new.items ≡ json.old.items ++ char_text c) }
{
    if is_plain(c) {
        json.push(c as u8)?;
        Ok(())
    } else if is_hidden(c) {
        push_number(json, c)
    } else if is_mark(c) {
        json.push(b'\\')?;
        push_itself(json, c)
    } else {
        push_itself(json, c)
    }
}

#[tactic(auto, using(crate::proofs::CharLaws::chars_rules))]
fn push_chars(json: &mut Vec<u8>, text: &str) -> Mem<()>
    ensures { OnOk result (json.new.items ≡ json.old.items ++ flat_map char_text (chars text.now)) }
{
    for c in text.chars() {
        push_char(json, c)?;
    }
    Ok(())
}

/// Appends characters in double quotes.
fn push_quoted(json: &mut Vec<u8>, text: &str) -> Mem<()>
    ensures { OnOk result (json.new.items ≡ json.old.items ++ quoted (chars text.now)) }
{
    json.push(b'"')?;
    push_chars(json, text)?;
    json.push(b'"')?;
    Ok(())
}

/// Appends a byte as two digits.
fn push_digits_of(json: &mut Vec<u8>, byte: u8) -> Mem<()>
    ensures { OnOk result (json.new.items ≡ json.old.items ++ digits_of byte) }
{
    json.push(digit_of(byte / 16 % 16))?;
    json.push(digit_of(byte % 16))?;
    Ok(())
}

fn push_all_digits(json: &mut Vec<u8>, bytes: &[u8]) -> Mem<()>
    ensures { OnOk result (json.new.items ≡ json.old.items ++ flat_map digits_of bytes.now) }
{
    for byte in bytes {
        push_digits_of(json, *byte)?;
    }
    Ok(())
}

/// Appends bytes as digits in double quotes.
fn push_quoted_digits(json: &mut Vec<u8>, bytes: &[u8]) -> Mem<()>
    ensures { OnOk result (json.new.items ≡ json.old.items ++ quoted_digits bytes.now) }
{
    json.push(b'"')?;
    push_all_digits(json, bytes)?;
    json.push(b'"')?;
    Ok(())
}

/// Appends bytes that are no UTF-8: an object with their digits.
fn push_raw(json: &mut Vec<u8>, bytes: &[u8]) -> Mem<()>
    ensures { OnOk result (json.new.items ≡ json.old.items ++ raw bytes.now) }
{
    json.extend_from_slice(b"{\"hex\":")?;
    push_quoted_digits(json, bytes)?;
    json.push(b'}')?;
    Ok(())
}

/// Appends bytes: a text where they are UTF-8, else an object with their digits.
#[tactic(auto, using(scl_shell::proofs::ShownLaws::text_rules))]
pub(crate) fn push_text(json: &mut Vec<u8>, bytes: &[u8]) -> Mem<()>
    ensures { OnOk result (json.new.items ≡ json.old.items ++ text bytes.now) }
{
    match str::from_utf8(bytes) {
        Ok(text) => push_quoted(json, text),
        Err(_) => push_raw(json, bytes),
    }
}

/// Appends the name of a member.
#[tactic(auto, using(scl_shell::proofs::ShownLaws::text_rules))]
fn push_name(json: &mut Vec<u8>, bytes: &[u8]) -> Mem<()>
    ensures { OnOk result (json.new.items ≡ json.old.items ++ name_text bytes.now) }
{
    match str::from_utf8(bytes) {
        Ok(text) => push_quoted(json, text),
        Err(_) => push_quoted_digits(json, bytes),
    }
}

/// Appends texts, a comma before each.
fn push_texts_behind(json: &mut Vec<u8>, words: &[Vec<u8>]) -> Mem<()>
    ensures { OnOk result (json.new.items ≡ json.old.items ++ flat_map behind_comma (map text (words_of words.now))) }
{
    for word in words {
        json.push(b',')?;
        push_text(json, word)?;
    }
    Ok(())
}

/// Appends texts with a comma between two.
fn push_texts_joined(json: &mut Vec<u8>, words: &[Vec<u8>]) -> Mem<()>
    ensures { OnOk result (json.new.items ≡ json.old.items ++ joined (map text (words_of words.now))) }
{
    if let Some((first, others)) = words.split_first() {
        push_text(json, first)?;
        push_texts_behind(json, others)?;
    }
    Ok(())
}

/// Appends an array of texts.
pub(crate) fn push_texts(json: &mut Vec<u8>, words: &[Vec<u8>]) -> Mem<()>
    ensures { OnOk result (json.new.items ≡ json.old.items ++ texts (words_of words.now)) }
{
    json.push(b'[')?;
    push_texts_joined(json, words)?;
    json.push(b']')?;
    Ok(())
}

/// Appends a member's name and the colon after it.
pub(crate) fn push_member(json: &mut Vec<u8>, name: &[u8]) -> Mem<()>
    ensures { OnOk result (json.new.items ≡ json.old.items ++ name_text name.now ++ codes ":") }
{
    push_name(json, name)?;
    json.push(b':')?;
    Ok(())
}
