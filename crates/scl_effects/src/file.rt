//! Patterns of the names that an effect states.
ghost use Rattle.std.specs.Prelude.{◌≡◌, ◌++◌, map, false, IfOk, OnOk};
ghost use Rattle.std.specs.List.{slice_split};
ghost use Rattle.std.specs.Option.{option_copied};
ghost use Rattle.std.specs.Str.{bytes_eq};
ghost use Rattle.scl_catalogue.specs.Views.{line_of};
ghost use Rattle.scl_effects.specs.Files.{dotted, dump, filled, has_value, is_brace, is_like, meant, parts_meant, stem, without_star};

use scl_catalogue::{Line, holds};
use scl_files::path::{extension, file_name};
use scl_values::Mem;
use std::alloc::Global;

/// A path without its extension and the dot before that.
fn stem(path: &[u8]) -> &[u8]
    ensures { result.now ≡ stem path.now }
{
    match extension(path) {
        Some(extension) => &path[..path.len().saturating_sub(extension.len().saturating_add(1))],
        None => path,
    }
}

/// Appends an extension and the dot before it.
fn push_dotted(text: &mut Vec<u8>, extension: Option<&[u8]>) -> Mem<()>
    ensures { OnOk result (text.new.items ≡ text.old.items ++ dotted (option_copied extension.entry)) }
{
    if let Some(extension) = extension {
        text.push(b'.')?;
        text.extend_from_slice(extension)?;
    }
    Ok(())
}

/// Appends the object's path with the input's extension in place of its own.
fn push_dump(text: &mut Vec<u8>, line: &Line<'_>) -> Mem<()>
    ensures { OnOk result (text.new.items ≡ text.old.items ++ dump (line_of line.now)) }
{
    text.extend_from_slice(stem(line.object))?;
    push_dotted(text, line.extension)
}

fn is(name: &[u8], text: &str) -> bool
    ensures { result ≡ bytes_eq name.now text.now }
{
    name == text.as_bytes()
}

/// Appends what a name stands for, of an option that has this value.
fn push_meant(text: &mut Vec<u8>, line: &Line<'_>, value: &[u8], name: &[u8]) -> Mem<()>
    ensures { OnOk result (text.new.items ≡ text.old.items ++ meant (line_of line.now) value.now name.now) }
{
    if is(name, "value") {
        text.extend_from_slice(value)?;
    } else if is(name, "object") {
        text.extend_from_slice(line.object)?;
    } else if is(name, "object-stem") {
        text.extend_from_slice(stem(line.object))?;
    } else if is(name, "input-stem") {
        text.extend_from_slice(stem(file_name(line.input).unwrap_or(&[])))?;
    } else if is(name, "dump") {
        push_dump(text, line)?;
    } else {
        text.extend_from_slice(name)?;
    }
    Ok(())
}

/// The parts of a pattern between braces.
fn parts(alloc: Global, file: &[u8]) -> Mem<Vec<&[u8]>>
    ensures { IfOk result (λ all. map (λ part. part.now) all.items ≡ slice_split is_brace file.now) }
{
    file.split(|byte| *byte == b'{' || *byte == b'}')
        .collect(alloc)
}

/// Parts as they stand, but each second one is a name.
fn parts_meant(alloc: Global, line: &Line<'_>, value: &[u8], parts: &[&[u8]]) -> Mem<Vec<u8>>
    ensures { IfOk result (λ text. text.items ≡ parts_meant (line_of line.now) value.now false (map (λ part. part.now) parts.now)) }
{
    let mut text = Vec::new(alloc);
    let mut is_name = false;
    for part in parts {
        if is_name {
            push_meant(&mut text, line, value, part)?;
        } else {
            text.extend_from_slice(part)?;
        }
        is_name = !is_name;
    }
    Ok(text)
}

/// A pattern with what its names stand for, of an option that has this value.
#[tactic(auto, unfolding(crate::specs::Files::filled))]
pub(crate) fn filled(alloc: Global, line: &Line<'_>, value: &[u8], file: &[u8]) -> Mem<Vec<u8>>
    ensures { IfOk result (λ text. text.items ≡ filled (line_of line.now) value.now file.now) }
{
    let parts = parts(alloc, file)?;
    parts_meant(alloc, line, value, &parts)
}

/// Whether the pattern has the value of an option.
pub(crate) fn has_value(file: &[u8]) -> bool
    ensures { result ≡ has_value file.now }
{
    holds(file, b"{value}")
}

/// Whether the pattern is of all names that begin so.
pub(crate) fn is_like(file: &[u8]) -> bool
    ensures { result ≡ is_like file.now }
{
    file.ends_with(b"*")
}

/// The pattern without the star at its end.
pub(crate) fn without_star(file: &[u8]) -> &[u8]
    ensures { result.now ≡ without_star file.now }
{
    if is_like(file) {
        &file[..file.len().saturating_sub(1)]
    } else {
        file
    }
}
