//! The dependency file that clang-cl does not write, made from the names of included files that it prints.
ghost use Rattle.std.specs.Prelude.{◌≡◌, ◌++◌, IfOk, OnOk};
ghost use Rattle.std.specs.Cmp.Lexicographic.{slice_cmp};
ghost use Rattle.std.specs.List.Sorted.{IsStrictlySortedBy};
ghost use Rattle.std.specs.Option.{option_copied};
ghost use Rattle.std.specs.Ordering.{nat_cmp};
ghost use Rattle.scl_values.specs.Words.{words_of};
ghost use Rattle.scl_devices.specs.Writes.{WriteEnds};
ghost use Rattle.scl_text.specs.Records.{parsed_of};
ghost use Rattle.scl_msvc.specs.Depfile.{name_in, names, ended_by, kept_text, HasWords, rules, IsDepfile, depfile_object, IsDepfileAnswer};

use bstr::ByteSlice;
use scl_args::{Counted, Mem, WriteFault, write_whole};
use scl_text::command::push_word;
use scl_text::outputs::output_path;
use scl_text::records::ParsedArguments;
use std::alloc::{AllocError, Global};
use std::collections::BTreeSet;
use std::io::Write;
use thiserror::Error;

/// The text of a dependency file, and the rest of the error output from which it was made, both in bytes.
#[derive(Debug, PartialEq, Eq, Drop)]
pub struct DepfileText {
    /// The bytes of the dependency file.
    pub text: Vec<u8>,
    /// The lines of the error output that are kept, each with its LF.
    pub kept: Vec<u8>,
}

/// Why there is no text of a dependency file: the error output is not UTF-8, or an allocation failed.
#[derive(Debug, PartialEq, Eq, Drop, Error)]
pub enum DepfileError {
    /// The error output is not UTF-8, and a text is wanted.
    #[error("error output is not UTF-8")]
    NotUtf8,
    /// A memory allocation failed.
    #[error("out of memory")]
    Memory,
}

impl From<AllocError> for DepfileError {
    ghost use Rattle.std.specs.Prelude.{◌≡◌};
    ghost use Rattle.scl_msvc.specs.declared.msvc.depfile.DepfileError.TheVariants.{Memory};

    ghost from_gives = { λ _ e. e ≡ Memory };

    fn from(_: AllocError) -> DepfileError {
        DepfileError::Memory
    }
}

/// The file that a line names after the prefix, if the name has no space.
fn name_in<'a>(line: &'a [u8], prefix: &[u8]) -> Option<&'a [u8]>
    ensures { option_copied result ≡ name_in prefix.now line.now }
{
    let name = line.strip_prefix(prefix)?.trim();
    if name.contains(&b' ') {
        None
    } else {
        Some(name)
    }
}

/// The files that the lines of an error output name, each at its first occurrence, and the set of all of them.
fn gather(alloc: Global, stderr: &[u8], prefix: &[u8]) -> Mem<(Vec<Vec<u8>>, BTreeSet<Vec<u8>>)>
    ensures names { IfOk result (λ made. words_of made.0.items ≡ names prefix.now stderr.now) }
    ensures set { IfOk result (λ made. HasWords made.1 (words_of made.0.items)) }
{
    let mut names = Vec::new(alloc);
    let mut seen = BTreeSet::new(alloc);
    for line in stderr.lines() {
        let Some(name) = name_in(line, prefix) else {
            continue;
        };
        if seen.insert(Vec::from_slice(alloc, name)?)? {
            push_word(alloc, &mut names, name)?;
        }
    }
    Ok((names, seen))
}

/// The words of a set, in order.
fn in_order(alloc: Global, words: BTreeSet<Vec<u8>>) -> Mem<Vec<Vec<u8>>>
    ensures order { IfOk result (λ made. IsStrictlySortedBy (slice_cmp nat_cmp) (words_of made.items)) }
    ensures words { IfOk result (λ made. made.items ≡ words.keys) }
{
    words.into_iter().collect(alloc)
}

/// Appends each word, and this text after each.
fn push_ended(text: &mut Vec<u8>, words: &[Vec<u8>], end: &[u8]) -> Mem<()>
    ensures { OnOk result (text.new.items ≡ text.old.items ++ ended_by end.now (words_of words.now)) }
{
    for word in words {
        text.extend_from_slice(word)?;
        text.extend_from_slice(end)?;
    }
    Ok(())
}

/// The rule of the object, then an empty rule for the input and for each file.
fn rules(
    alloc: Global,
    object: &[u8],
    input: &[u8],
    names: &[Vec<u8>],
    sorted: &[Vec<u8>],
) -> Mem<Vec<u8>>
    ensures { IfOk result (λ text. text.items ≡ rules object.now input.now (words_of names.now) (words_of sorted.now)) }
{
    let mut text = Vec::from_slice(alloc, object)?;
    text.extend_from_slice(b": ")?;
    text.extend_from_slice(input)?;
    text.extend_from_slice(b" ")?;
    push_ended(&mut text, names, b" ")?;
    text.extend_from_slice(b"\n")?;
    text.extend_from_slice(input)?;
    text.extend_from_slice(b":\n")?;
    push_ended(&mut text, sorted, b":\n")?;
    Ok(text)
}

/// The kept lines of an error output, each with a line feed.
fn kept_text(alloc: Global, stderr: &[u8], prefix: &[u8], keeps_all: bool) -> Mem<Vec<u8>>
    ensures { IfOk result (λ kept. kept.items ≡ kept_text keeps_all prefix.now stderr.now) }
{
    let mut kept = Vec::new(alloc);
    for line in stderr.lines() {
        if keeps_all || !line.starts_with(prefix) {
            kept.extend_from_slice(line)?;
            kept.push(b'\n')?;
        }
    }
    Ok(kept)
}

/// The text of the dependency file of an object, and what is kept of the error output.
fn depfile_of(
    alloc: Global,
    parsed: &ParsedArguments,
    object: &[u8],
    prefix: &[u8],
    stderr: &[u8],
) -> Mem<DepfileText>
    ensures { IfOk result (λ made. IsDepfile (parsed_of parsed.now) object.now prefix.now stderr.now made) }
{
    let (names, seen) = gather(alloc, stderr, prefix)?;
    let sorted = in_order(alloc, seen)?;
    Ok(DepfileText {
        text: rules(alloc, object, &parsed.input, &names, &sorted)?,
        kept: kept_text(alloc, stderr, prefix, parsed.msvc_show_includes)?,
    })
}

/// The object whose dependency file is wanted: that of a record for clang which has a dependency file.
fn depfile_object(parsed: &ParsedArguments, is_clang: bool) -> Option<&[u8]>
    ensures { option_copied result ≡ depfile_object is_clang (parsed_of parsed.now) }
{
    if is_clang && parsed.depfile.is_some() {
        output_path(&parsed.outputs, "obj")
    } else {
        None
    }
}

/// The text of the dependency file, from the lines of the error output that begin with the prefix, and the rest of that
/// output. None unless the record is for clang, has a dependency file and an output `obj` (docs/RULES.md, Dependency files).
/// The error is `NotUtf8` exactly if a text is wanted and the error output is not UTF-8, else `Memory`.
pub fn depfile_text(
    alloc: Global,
    parsed: &ParsedArguments,
    is_clang: bool,
    prefix: &str,
    stderr: &[u8],
) -> Result<Option<DepfileText>, DepfileError>
    ensures { IsDepfileAnswer (parsed_of parsed.now) prefix.now stderr.now (depfile_object is_clang (parsed_of parsed.now)) result }
{
    let Some(object) = depfile_object(parsed, is_clang) else {
        return Ok(None);
    };
    if !stderr.is_utf8() {
        return Err(DepfileError::NotUtf8);
    }
    let made = depfile_of(alloc, parsed, object, prefix.as_bytes(), stderr)?;
    Ok(Some(made))
}

/// Writes the whole text of a dependency file. If a write fails, the fault says how many bytes the writer took before
/// (docs/RULES.md, Dependency files).
pub fn write_depfile<W: Write>(writer: &mut Counted<W>, text: &[u8]) -> Result<(), WriteFault>
    ensures { WriteEnds (W.contents writer.old.device) (W.contents writer.new.device) writer.old.failed writer.new.failed text.now result }
{
    write_whole(writer, text)
}
