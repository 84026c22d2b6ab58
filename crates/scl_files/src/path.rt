//! Paths as bytes, compared by their components.
ghost use Rattle.std.specs.Prelude.{◌≡◌, ◌++◌, ◌+◌, ◌≤◌, None, length, IfOk, position, drop, not};
ghost use Rattle.std.specs.List.{before_first, last_or, suffix_len};
ghost use Rattle.std.specs.Option.{option_copied, option_map};
ghost use Rattle.std.specs.Iterator.{YieldsFirstBy, item_count};
ghost use Rattle.scl_files.specs.Paths.{placed, places, places_from, start, file_place, stem_of_name, extension, join, with_extension, parent, with_file_name, same_path, file_name, is_name, is_slash, is_dot, extension_of_name};

use scl_values::Mem;
use std::alloc::Global;

/// The position of the first slash.
fn slash_at(path: &[u8]) -> Option<usize>
    ensures { result ≡ position is_slash path.now }
{
    path.iter().position(|byte| *byte == b'/')
}

/// The part of a path before its first slash.
#[tactic(auto, using(crate::proofs::PathLemmas::part_rules))]
fn first_part(path: &[u8]) -> &[u8]
    ensures part { result.now ≡ before_first is_slash path.now }
    ensures within { length result.now ≤ length path.now }
{
    match slash_at(path) {
        Some(at) => &path[..at],
        None => path,
    }
}

/// The part of a path from a position to the next slash.
fn part_from(path: &[u8], at: usize) -> &[u8]
    requires { at ≤ length path.now }
    ensures part { result.now ≡ before_first is_slash (drop at path.now) }
    ensures within { at + length result.now ≤ length path.now }
{
    first_part(&path[at..])
}

fn is_name(part: &[u8]) -> bool
    ensures { result ≡ is_name part.now }
{
    !part.is_empty() && part != b".".as_slice()
}

/// A name in a path, with the bytes before it and the path up to its end.
#[derive(Drop)]
pub(crate) struct Place<'a> {
    before: &'a [u8],
    pub(crate) name: &'a [u8],
    through: &'a [u8],
    ghost joined: { through.now ≡ before.now ++ name.now },
}

/// The names of a path from a position on.
#[derive(Drop)]
pub(crate) struct Places<'a> {
    path: &'a [u8],
    at: usize,
    ghost within: { at ≤ length path.now },
}

impl<'a> Places<'a> {
    #[tactic(auto, unfolding(crate::specs::Paths::places, crate::specs::Paths::places_from))]
    pub(crate) fn new(path: &'a [u8]) -> Places<'a>
        ensures { places_from result.path.now result.at ≡ places path.now }
    {
        Places { path, at: 0 }
    }
}

impl<'a> Iterator for Places<'a> {
    type Item = Place<'a>;

    ghost next_gives = { YieldsFirstBy (λ place. placed place.before.now place.name.now) (λ s. places_from s.path.now s.at) };

    ghost remaining = { item_count (λ s. places_from s.path.now s.at) };

    #[tactic(auto, using(crate::proofs::PathLemmas::place_rules))]
    fn next(&mut self) -> Option<Place<'a>> {
        while self.at < self.path.len() {
            let begins = self.at;
            let name = part_from(self.path, begins);
            let ends = begins + name.len();
            self.at = self.path.len().min(ends + 1);
            if is_name(name) {
                return Some(Place {
                    before: &self.path[..begins],
                    name,
                    through: &self.path[..ends],
                });
            }
        }
        None
    }
}

/// How a path starts: with the root, with a first part `.`, or with neither.
pub(crate) fn start(path: &[u8]) -> &[u8]
    ensures { result.now ≡ start path.now }
{
    if path.starts_with(b"/") {
        b"/"
    } else if first_part(path) == b".".as_slice() {
        b"."
    } else {
        &[]
    }
}

/// The last of the path's names.
fn last_place(path: &[u8]) -> Option<Place<'_>>
    ensures { option_map (λ place. placed place.before.now place.name.now) result ≡ last_or None (places path.now) }
{
    Places::new(path).last()
}

/// The place of the file name: the last component, unless that is `.`, `..`, the root or absent.
fn file_place(path: &[u8]) -> Option<Place<'_>>
    ensures { option_map (λ place. placed place.before.now place.name.now) result ≡ file_place path.now }
{
    let place = last_place(path)?;
    if place.name == b"..".as_slice() {
        return None;
    }
    Some(place)
}

/// The last component of a path, unless that is `.`, `..`, the root or absent (docs/RULES.md, Paths).
pub fn file_name(path: &[u8]) -> Option<&[u8]>
    ensures { option_copied result ≡ file_name path.now }
{
    Some(file_place(path)?.name)
}

/// The position after a name's last dot; 0 if it has none.
fn after_last_dot(name: &[u8]) -> usize
    ensures { result + suffix_len (λ byte. not (is_dot byte)) name.now ≡ length name.now }
{
    let mut at = name.len();
    while at > 0 && name[at - 1] != b'.' {
        at -= 1;
    }
    at
}

/// A name's stem, and its extension if it has one.
fn stem_and_extension(name: &[u8]) -> (&[u8], Option<&[u8]>)
    ensures stem { result.0.now ≡ stem_of_name name.now }
    ensures extension { option_copied result.1 ≡ extension_of_name name.now }
{
    let at = after_last_dot(name);
    if at > 1 {
        (&name[..at - 1], Some(&name[at..]))
    } else {
        (name, None)
    }
}

/// What follows the last dot of a path's file name. None if there is no file name, no dot, or the only dot is the first byte
/// (docs/RULES.md, Paths).
pub fn extension(path: &[u8]) -> Option<&[u8]>
    ensures { option_copied result ≡ extension path.now }
{
    stem_and_extension(file_name(path)?).1
}

/// The second path, in the directory of the first. It is only the second if that begins with `/` or the first is empty; else
/// both, with a `/` between them unless the first ends in one (docs/RULES.md, Paths).
pub fn join(alloc: Global, directory: &[u8], path: &[u8]) -> Mem<Vec<u8>>
    ensures { IfOk result (λ joined. joined.items ≡ join directory.now path.now) }
{
    if path.starts_with(b"/") || directory.is_empty() {
        return Vec::from_slice(alloc, path);
    }
    let mut joined = Vec::from_slice(alloc, directory)?;
    if !directory.ends_with(b"/") {
        joined.push(b'/')?;
    }
    joined.extend_from_slice(path)?;
    Ok(joined)
}

/// The path up to the end of its file name's stem, then a dot and the extension. A path without a file name is unchanged
/// (docs/RULES.md, Paths).
pub fn with_extension(alloc: Global, path: &[u8], extension: &[u8]) -> Mem<Vec<u8>>
    ensures { IfOk result (λ whole. whole.items ≡ with_extension path.now extension.now) }
{
    let Some(place) = file_place(path) else {
        return Vec::from_slice(alloc, path);
    };
    let (stem, _) = stem_and_extension(place.name);
    let mut whole = Vec::from_slice(alloc, place.before)?;
    whole.extend_from_slice(stem)?;
    whole.push(b'.')?;
    whole.extend_from_slice(extension)?;
    Ok(whole)
}

/// The path up to the end of the component before its last name.
fn parent(path: &[u8]) -> &[u8]
    ensures { result.now ≡ parent path.now }
{
    let mut parent = start(path);
    let mut through = start(path);
    for place in Places::new(path) {
        parent = through;
        through = place.through;
    }
    parent
}

/// The path without its file name and without the slashes and `.` parts before it, joined with a name. A path without a file
/// name is joined as it is (docs/RULES.md, Paths).
pub fn with_file_name(alloc: Global, path: &[u8], name: &[u8]) -> Mem<Vec<u8>>
    ensures { IfOk result (λ whole. whole.items ≡ with_file_name path.now name.now) }
{
    match file_place(path) {
        Some(_) => join(alloc, parent(path), name),
        None => join(alloc, path, name),
    }
}

/// Whether two paths have the same components: the same start and the same names (docs/RULES.md, Paths).
pub fn same_path(a: &[u8], b: &[u8]) -> bool
    ensures { result ≡ same_path a.now b.now }
{
    if start(a) != start(b) {
        return false;
    }
    let mut others = Places::new(b);
    for place in Places::new(a) {
        let Some(other) = others.next() else {
            return false;
        };
        if place.name != other.name {
            return false;
        }
    }
    others.next().is_none()
}
