//! The files that the words of a command may read, by what the words hold.
ghost use Rattle.std.specs.Prelude.{◌≡◌, ◌++◌, ◌∷◌, [], map, filter, if◌then◌else◌, IfOk, OnOk};
ghost use Rattle.std.specs.List.{flat_map};
ghost use Rattle.std.specs.Option.{option_copied};
ghost use Rattle.scl_values.specs.Words.{words_of};
ghost use Rattle.scl_text.specs.Commands.{object_of};
ghost use Rattle.scl_text.specs.Records.{parsed_of};
ghost use Rattle.scl_key.specs.Effects.{judged};
ghost use Rattle.scl_key.specs.Families.{is_clang};
ghost use Rattle.scl_key.specs.Known.{macro_files};
ghost use Rattle.scl_key.specs.KnownViews.{all_judged, known_of};
ghost use Rattle.scl_key.specs.Reads.{comma_parts, files_perhaps, is_path, paths_by, precompiled, precompiled_headers, profile_by, values, with_values, without_at};

use crate::effect::{Judged, has_comma, is_plain, push_pieces, until};
use crate::family::is_clang;
use crate::given::values_among;
use crate::known::Known;
use crate::told::Line;
use scl_catalogue::{Brings, Doing};
use scl_files::path::with_extension;
use scl_reader::Compiler;
use scl_text::Mem;
use scl_text::command::push_word;
use scl_text::outputs::output_path;
use scl_text::records::ParsedArguments;
use std::alloc::Global;

/// How many values of a text have the text to its end; further ones end at the next `=`, so that all together are no longer than
/// a few such texts.
const WHOLE_VALUES: usize = 4;

/// Appends a text, and what stands after each of its `=`.
fn push_with_values<'a>(values: &mut Vec<&'a [u8]>, text: &'a [u8]) -> Mem<()>
    ensures { OnOk result (map (λ value. value.now) values.new.items ≡ map (λ value. value.now) values.old.items ++ with_values text.now) }
{
    values.push(text)?;
    push_pieces(values, b'=', WHOLE_VALUES, text)
}

/// The parts between commas, if there are any.
fn comma_parts<'a>(alloc: Global, text: &'a [u8]) -> Mem<Vec<&'a [u8]>>
    ensures { IfOk result (λ parts. map (λ part. part.now) parts.items ≡ comma_parts text.now) }
{
    let mut parts = Vec::new(alloc);
    if has_comma(text) {
        parts.push(until(b',', text))?;
        push_pieces(&mut parts, b',', 0, text)?;
    }
    Ok(parts)
}

/// Appends each text, and what stands after each of its `=`.
fn push_all_with_values<'a>(values: &mut Vec<&'a [u8]>, texts: &[&'a [u8]]) -> Mem<()>
    ensures { OnOk result (map (λ value. value.now) values.new.items ≡ map (λ value. value.now) values.old.items ++ flat_map with_values (map (λ text. text.now) texts.now)) }
{
    for text in texts {
        push_with_values(values, text)?;
    }
    Ok(())
}

/// What a word may hold that names a file.
fn values<'a>(alloc: Global, word: &'a [u8]) -> Mem<Vec<&'a [u8]>>
    ensures { IfOk result (λ found. map (λ value. value.now) found.items ≡ values word.now) }
{
    let mut found = Vec::new(alloc);
    push_with_values(&mut found, word)?;
    let parts = comma_parts(alloc, word)?;
    push_all_with_values(&mut found, &parts)?;
    Ok(found)
}

fn without_at(value: &[u8]) -> &[u8]
    ensures { result.now ≡ without_at value.now }
{
    value.strip_prefix(b"@").unwrap_or(value)
}

pub(crate) fn is_path(value: &[u8]) -> bool
    ensures { result ≡ is_path value.now }
{
    match value {
        [] => false,
        [byte, ..] => *byte != b'-',
    }
}

/// Appends the values that may be paths.
fn push_those_that_are(alloc: Global, paths: &mut Vec<Vec<u8>>, values: &[&[u8]]) -> Mem<()>
    ensures { OnOk result (words_of paths.new.items ≡ words_of paths.old.items ++ filter is_path (map without_at (map (λ value. value.now) values.now))) }
{
    for value in values {
        let path = without_at(value);
        if is_path(path) {
            push_word(alloc, paths, path)?;
        }
    }
    Ok(())
}

/// Appends the paths that a word that does this may name.
fn push_paths_by(alloc: Global, paths: &mut Vec<Vec<u8>>, doing: Doing, word: &[u8]) -> Mem<()>
    ensures { OnOk result (words_of paths.new.items ≡ words_of paths.old.items ++ paths_by (judged word.now doing)) }
{
    if is_plain(doing) {
        return Ok(());
    }
    let values = values(alloc, word)?;
    push_those_that_are(alloc, paths, &values)
}

/// Appends the paths that words may name.
fn push_paths(alloc: Global, paths: &mut Vec<Vec<u8>>, words: &[Judged<'_>]) -> Mem<()>
    ensures { OnOk result (words_of paths.new.items ≡ words_of paths.old.items ++ flat_map paths_by (all_judged words.now)) }
{
    for one in words {
        push_paths_by(alloc, paths, one.doing, one.word)?;
    }
    Ok(())
}

/// Appends the profile that a word makes the compiler read, if it has a name that the word does not say.
fn push_profile(
    alloc: Global,
    paths: &mut Vec<Vec<u8>>,
    object: Option<&[u8]>,
    doing: Doing,
) -> Mem<()>
    ensures { OnOk result (words_of paths.new.items ≡ words_of paths.old.items ++ profile_by (option_copied object.entry) doing) }
{
    match doing {
        Doing::ReadsCounts => match object {
            Some(object) => {
                paths.push(with_extension(alloc, object, b"gcda")?)?;
                Ok(())
            }
            None => Ok(()),
        },
        Doing::ReadsSamples => push_word(alloc, paths, b"fbdata.afdo"),
        Doing::Plain | Doing::Exact | Doing::Macros | Doing::WritesUnnamed | Doing::TextHides => Ok(
            (),
        ),
    }
}

/// Appends the profiles that words make the compiler read.
fn push_profiles_of(
    alloc: Global,
    paths: &mut Vec<Vec<u8>>,
    object: Option<&[u8]>,
    words: &[Judged<'_>],
) -> Mem<()>
    ensures { OnOk result (words_of paths.new.items ≡ words_of paths.old.items ++ flat_map (λ j. profile_by (option_copied object.entry) j.doing) (all_judged words.now)) }
{
    for one in words {
        push_profile(alloc, paths, object, one.doing)?;
    }
    Ok(())
}

/// Appends the profiles that the common words make the compiler read.
fn push_profiles(
    alloc: Global,
    paths: &mut Vec<Vec<u8>>,
    common: &[Judged<'_>],
    parsed: &ParsedArguments,
) -> Mem<()>
    ensures { OnOk result (words_of paths.new.items ≡ words_of paths.old.items ++ flat_map (λ j. profile_by (object_of (parsed_of parsed.now)) j.doing) (all_judged common.now)) }
{
    let object = output_path(&parsed.outputs, "obj");
    push_profiles_of(alloc, paths, object, common)
}

/// Appends values, each with this text after it.
fn push_with(alloc: Global, paths: &mut Vec<Vec<u8>>, header: &[u8], text: &[u8]) -> Mem<()>
    ensures { OnOk result (words_of paths.new.items ≡ words_of paths.old.items ++ (header.now ++ text.now) ∷ []) }
{
    let mut path = Vec::from_slice(alloc, header)?;
    path.extend_from_slice(text)?;
    paths.push(path)?;
    Ok(())
}

/// Appends what clang may read in the place of a header that is included first.
fn push_precompiled(alloc: Global, paths: &mut Vec<Vec<u8>>, header: &[u8]) -> Mem<()>
    ensures { OnOk result (words_of paths.new.items ≡ words_of paths.old.items ++ precompiled header.now) }
{
    push_with(alloc, paths, header, b".pch")?;
    push_with(alloc, paths, header, b".gch")
}

/// Appends what clang may read in the place of each of these headers.
fn push_all_precompiled(alloc: Global, paths: &mut Vec<Vec<u8>>, headers: &[&[u8]]) -> Mem<()>
    ensures { OnOk result (words_of paths.new.items ≡ words_of paths.old.items ++ flat_map precompiled (map (λ header. header.now) headers.now)) }
{
    for header in headers {
        push_precompiled(alloc, paths, header)?;
    }
    Ok(())
}

/// Appends what clang may read in the place of headers that are included first.
fn push_precompiled_headers(
    alloc: Global,
    paths: &mut Vec<Vec<u8>>,
    compiler: Compiler,
    known: &Known<'_>,
) -> Mem<()>
    ensures { OnOk result (words_of paths.new.items ≡ words_of paths.old.items ++ precompiled_headers compiler (known_of known.now)) }
{
    if !is_clang(compiler) {
        return Ok(());
    }
    let headers = values_among(alloc, Brings::Header, &known.given)?;
    push_all_precompiled(alloc, paths, &headers)
}

/// Appends values.
pub(crate) fn push_values(alloc: Global, paths: &mut Vec<Vec<u8>>, values: &[&[u8]]) -> Mem<()>
    ensures { OnOk result (words_of paths.new.items ≡ words_of paths.old.items ++ map (λ value. value.now) values.now) }
{
    for value in values {
        push_word(alloc, paths, value)?;
    }
    Ok(())
}

/// Appends the files of which only the macros are read.
fn push_macro_files(alloc: Global, paths: &mut Vec<Vec<u8>>, known: &Known<'_>) -> Mem<()>
    ensures { OnOk result (words_of paths.new.items ≡ words_of paths.old.items ++ macro_files (known_of known.now)) }
{
    let files = values_among(alloc, Brings::MacroFile, &known.given)?;
    push_values(alloc, paths, &files)
}

/// All files that may be read, and need not be there.
pub(crate) fn files_perhaps(
    alloc: Global,
    line: &Line<'_, '_>,
    known: &Known<'_>,
) -> Mem<Vec<Vec<u8>>>
    ensures { IfOk result (λ paths. words_of paths.items ≡ files_perhaps (known_of known.now) line.now.compiler (parsed_of line.now.parsed.now)) }
{
    let mut paths = Vec::new(alloc);
    push_paths(alloc, &mut paths, &known.common)?;
    push_paths(alloc, &mut paths, &known.unhashed)?;
    push_macro_files(alloc, &mut paths, known)?;
    push_profiles(alloc, &mut paths, &known.common, line.parsed)?;
    push_precompiled_headers(alloc, &mut paths, line.compiler, known)?;
    Ok(paths)
}
