//! Reads patterns.
ghost use Rattle.std.specs.Prelude.{◌≡◌, ◌<◌, ◌++◌, ◌==◌, ◌&&◌, not, true, map, None, IfOk, IfSome, MatchOption, Ok};
ghost use Rattle.std.specs.Option.{option_map};
ghost use Rattle.scl_catalogue.specs.Views.{patterns_of, text_of};
ghost use Rattle.std.specs.List.{list_any};
ghost use Rattle.scl_catalogue_text.specs.Cutting.{words};
ghost use Rattle.scl_catalogue_text.specs.Outcome.{after, each, Reads};
ghost use Rattle.scl_catalogue_text.specs.Reading.{appended, digit, escape, escapes, hex_byte, pattern_as, pattern_read, patterns_read, starred_parts, text_of_parts, text_read, text_with, text_without, unescaped};

use crate::cut::{is_one_part, lacks, next_word, parts};
use crate::mistake::{Mistake, Part, Stop};
use scl_catalogue::{Cut, How, Patterns, Text};
use scl_values::Mem;
use std::alloc::Global;

fn digit(byte: u8) -> Option<u8>
    ensures value { result ≡ digit byte }
    ensures low { IfSome result (λ value. value < 16) }
{
    match byte {
        b'0'..=b'9' => Some(byte - b'0'),
        b'a'..=b'f' => Some(byte - b'a' + 10),
        _ => None,
    }
}

/// The byte that two digits stand for, and the bytes after them.
#[tactic(auto, unfolding(crate::specs::Reading::hex_byte))]
fn hex_byte(bytes: &[u8]) -> Option<(u8, &[u8])>
    ensures { option_map (λ pair. (pair.0, pair.1.now)) result ≡ hex_byte bytes.now }
{
    let (first, behind) = bytes.split_first()?;
    let (second, rest) = behind.split_first()?;
    let high = digit(*first)?;
    let low = digit(*second)?;
    Some((high * 16 + low, rest))
}

/// Adds the bytes for which a part after a backslash stands.
#[tactic(auto, unfolding(crate::specs::Reading::escape))]
fn push_escaped(bytes: &mut Vec<u8>, part: &[u8]) -> Part<()>
    ensures { Reads (λ _. bytes.new.items) result (after (escape part.now) (λ added. Ok (bytes.old.items ++ added))) }
{
    let Some((first, rest)) = part.split_first() else {
        return Err(Stop::Mistake(Mistake::WrongEscape));
    };
    if *first == b'e' {
        bytes.extend_from_slice(rest)?;
        return Ok(());
    }
    if *first != b'x' {
        return Err(Stop::Mistake(Mistake::WrongEscape));
    }
    let Some((byte, rest)) = hex_byte(rest) else {
        return Err(Stop::Mistake(Mistake::WrongEscape));
    };
    bytes.push(byte)?;
    bytes.extend_from_slice(rest)?;
    Ok(())
}

/// Adds the bytes for which each part after a backslash stands.
fn push_each_escaped(bytes: &mut Vec<u8>, parts: &[&[u8]]) -> Part<()>
    ensures { Reads (λ _. bytes.new.items) result (after (escapes (map (λ part. part.now) parts.now)) (λ added. Ok (bytes.old.items ++ added))) }
{
    for part in parts {
        push_escaped(bytes, part)?;
    }
    Ok(())
}

/// The bytes for which a word stands: `\xHH` is a byte, `\e` nothing.
#[tactic(auto, unfolding(crate::specs::Reading::unescaped))]
fn unescaped(alloc: Global, word: &[u8]) -> Part<Vec<u8>>
    ensures { Reads (λ bytes. bytes.items) result (unescaped word.now) }
{
    let parts = parts(alloc, word, b'\\')?;
    let Some((first, escaped)) = parts.split_first() else {
        return Ok(Vec::new(alloc));
    };
    let mut bytes = Vec::with_capacity(alloc, word.len())?;
    bytes.extend_from_slice(first)?;
    push_each_escaped(&mut bytes, escaped)?;
    Ok(bytes)
}

/// How a word is compared, and with what, as it is written: a star first or last says how.
#[tactic(auto, unfolding(crate::specs::Reading::starred_parts))]
fn starred<'a>(parts: &[&'a [u8]]) -> Option<(How, &'a [u8])>
    ensures { MatchOption result (starred_parts (map (λ part. part.now) parts.now) ≡ None) (λ starred. starred_parts (map (λ part. part.now) parts.now) ≡ pattern_as starred.0 starred.1.now) }
{
    match parts {
        [text] => Some((How::Is, *text)),
        [text, behind] if behind.is_empty() => Some((How::Begins, *text)),
        [before, text] if before.is_empty() => Some((How::Ends, *text)),
        [before, text, behind] if before.is_empty() && behind.is_empty() => {
            Some((How::Holds, *text))
        }
        _ => None,
    }
}

/// Appends the text of a pattern to those of others, and says how it is cut from them.
fn push_text(texts: &mut Vec<u8>, how: How, text: &[u8]) -> Mem<Cut>
    ensures { IfOk result (λ cut. (cut, texts.new.items) ≡ appended texts.old.items (record { how = how; text = text.now })) }
{
    texts.extend_from_slice(text)?;
    Ok(Cut {
        how,
        length: text.len(),
    })
}

/// Appends the text of a pattern with stars within it, or with escapes.
#[tactic(auto, unfolding(crate::specs::Reading::pattern_read))]
fn push_with_marks(alloc: Global, texts: &mut Vec<u8>, word: &[u8]) -> Part<Cut>
    ensures { Reads (λ cut. (cut, texts.new.items)) result (after (pattern_read word.now) (λ p. Ok (appended texts.old.items p))) }
{
    let parts = parts(alloc, word, b'*')?;
    let Some((how, text)) = starred(&parts) else {
        return Err(Stop::Mistake(Mistake::WrongPattern));
    };
    let text = unescaped(alloc, text)?;
    let cut = push_text(texts, how, &text)?;
    Ok(cut)
}

/// Whether neither a star nor a backslash stands there.
fn is_plain(bytes: &[u8]) -> bool
    ensures { result ≡ (not (list_any (λ byte. byte == 42) bytes.now) && not (list_any (λ byte. byte == 92) bytes.now)) }
{
    lacks(bytes, b'*') && lacks(bytes, b'\\')
}

/// The word without its stars, where they stand last, or first and last; and how it is compared if no mark stands in the rest.
#[tactic(auto, using(crate::proofs::PlainLemmas::plain_is, crate::proofs::PlainLemmas::plain_begins, crate::proofs::PlainLemmas::plain_holds))]
fn bare(word: &[u8]) -> (How, &[u8])
    ensures { (not (list_any (λ byte. byte == 42) result.1.now) && not (list_any (λ byte. byte == 92) result.1.now)) ≡ true → pattern_read word.now ≡ Ok (record { how = result.0; text = result.1.now }) }
{
    if let Some((last, front)) = word.split_last()
        && *last == b'*'
    {
        return match front.split_first() {
            Some((first, text)) if *first == b'*' => (How::Holds, text),
            _ => (How::Begins, front),
        };
    }
    (How::Is, word)
}

/// Appends the text of the pattern, and says how it is cut from those of others.
fn push_pattern(alloc: Global, texts: &mut Vec<u8>, word: &[u8]) -> Part<Cut>
    ensures { Reads (λ cut. (cut, texts.new.items)) result (after (pattern_read word.now) (λ p. Ok (appended texts.old.items p))) }
{
    let (how, text) = bare(word);
    if is_plain(text) {
        let cut = push_text(texts, how, text)?;
        return Ok(cut);
    }
    push_with_marks(alloc, texts, word)
}

#[tactic(auto, using(crate::proofs::PatternLemmas::pattern_first, crate::proofs::PatternLemmas::pattern_last, crate::proofs::PatternLemmas::pattern_stop))]
fn each_pattern(alloc: Global, bytes: &[u8]) -> Part<Patterns>
    ensures { Reads patterns_of result (each pattern_read (words bytes.now)) }
{
    let mut texts = Vec::with_capacity(alloc, bytes.len())?;
    let mut cuts = Vec::with_capacity(alloc, bytes.len() / 8 + 1)?;
    let mut left = bytes;
    while let Some((word, others)) = next_word(left) {
        let cut = push_pattern(alloc, &mut texts, word)?;
        cuts.push(cut)?;
        left = others;
    }
    Ok(Patterns { texts, cuts })
}

#[tactic(auto, unfolding(crate::specs::Reading::patterns_read), using(crate::proofs::PatternLemmas::pattern_some))]
fn patterns(alloc: Global, bytes: &[u8]) -> Part<Patterns>
    ensures { Reads patterns_of result (patterns_read bytes.now) }
{
    let all = each_pattern(alloc, bytes)?;
    if all.cuts.is_empty() {
        return Err(Stop::Mistake(Mistake::NoPattern));
    }
    Ok(all)
}

#[tactic(auto, unfolding(crate::specs::Reading::text_with))]
fn text_with(alloc: Global, any: &[u8], but: &[u8]) -> Part<Text>
    ensures { Reads text_of result (text_with any.now but.now) }
{
    let any = patterns(alloc, any)?;
    let but = patterns(alloc, but)?;
    Ok(Text { any, but })
}

#[tactic(auto, unfolding(crate::specs::Reading::text_without))]
fn text_without(alloc: Global, any: &[u8]) -> Part<Text>
    ensures { Reads text_of result (text_without any.now) }
{
    let any = patterns(alloc, any)?;
    Ok(Text {
        any,
        but: Patterns {
            texts: Vec::new(alloc),
            cuts: Vec::new(alloc),
        },
    })
}

#[tactic(auto, unfolding(crate::specs::Reading::text_of_parts))]
fn text_of(alloc: Global, parts: &[&[u8]]) -> Part<Text>
    ensures { Reads text_of result (text_of_parts (map (λ part. part.now) parts.now)) }
{
    match parts {
        [any] => text_without(alloc, any),
        [any, but] => text_with(alloc, any, but),
        _ => Err(Stop::Mistake(Mistake::ExceptTwice)),
    }
}

/// Patterns, and after a mark those that are left out.
#[tactic(auto, unfolding(crate::specs::Reading::text_read, crate::specs::Reading::text_of_parts))]
pub(crate) fn text(alloc: Global, bytes: &[u8]) -> Part<Text>
    ensures { Reads text_of result (text_read bytes.now) }
{
    if is_one_part(bytes, b'!') {
        return text_without(alloc, bytes);
    }
    let parts = parts(alloc, bytes, b'!')?;
    text_of(alloc, &parts)
}
