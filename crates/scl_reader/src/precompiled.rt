//! The precompiled headers that Gcc and Clang may take in the place of headers that a command line names.
ghost use Rattle.std.specs.Prelude.{◌≡◌, ◌++◌, map, IfOk, OnOk};
ghost use Rattle.std.specs.List.{flat_map, list_any};
ghost use Rattle.std.specs.Option.{option_map};
ghost use Rattle.std.specs.Str.{bytes_eq};
ghost use Rattle.scl_files.specs.Paths.{join};
ghost use Rattle.scl_files.specs.Views.{exists};
ghost use Rattle.scl_gnu_reading.specs.Data.{kind_of, word_of};
ghost use Rattle.scl_values.specs.Seen.{seen};
ghost use Rattle.scl_values.specs.Words.{words_of};
ghost use Rattle.scl_reader.specs.CommandLines.{given_by};
ghost use Rattle.scl_reader.specs.PrecompiledHeaders.{are_few, concerned, concerned_in, folders_named, has_precompiled_header, headers_named, paths_named, places, precompiled_at, precompiled_for, precompiled_headers, precompiled_in};

use crate::command_line::CommandLine;
use crate::reading::Reading;
use scl_args::{Argument, Options, ReadArg, Test, texts};
use scl_gnu_reading::gcc::{ArgData, Kind};
use scl_text::path::join;
use scl_text::records::CompilerArguments;
use scl_text::{Mem, View};
use std::alloc::Global;

/// The longest path that is looked at, in bytes: longer ones name no file.
const LONGEST: usize = 4096;

/// How many headers are looked at, each counted at each place.
const MOST: usize = 4096;

/// The test that options with one of these flags pass, and a path after it.
#[derive(Clone, Copy)]
struct NamesBy<'a>(&'a [&'static str]);

impl<'a> NamesBy<'a> {
    /// Whether the flag is one of these.
    fn has(&self, flag: &str) -> bool
        ensures { result ≡ list_any (λ other. bytes_eq other flag.now) (map (λ flag. flag.now) self.now.0.now) }
    {
        for other in self.0 {
            if *other == flag {
                return true;
            }
        }
        false
    }
}

impl<'a> Test<ArgData> for NamesBy<'a> {
    ghost use Rattle.std.specs.Prelude.{map};
    ghost use Rattle.scl_reader.specs.PrecompiledHeaders.{names_by};

    ghost passes = { λ test. names_by (map (λ flag. flag.now) test.0.now) };

    fn passes(&self, option: &Argument<ArgData>) -> bool {
        match option {
            Argument::Raw(_) | Argument::UnknownFlag(_) => false,
            Argument::Flag(flag, value) | Argument::WithValue(flag, value, _) => {
                self.has(flag) && value.word().len() <= LONGEST
            }
        }
    }
}

/// The options for which it matters if a precompiled header is there.
struct Concerning;

impl Test<ArgData> for Concerning {
    ghost use Rattle.scl_reader.specs.PrecompiledHeaders.{is_concerned};

    ghost passes = { λ _. is_concerned };

    fn passes(&self, option: &Argument<ArgData>) -> bool {
        match option {
            Argument::Raw(_) => false,
            Argument::UnknownFlag(word) => word.as_slice() == b"-Winvalid-pch".as_slice(),
            Argument::Flag(_, value) | Argument::WithValue(_, value, _) => {
                value.kind() == Kind::SplitDwarf
            }
        }
    }
}

/// The path of a header that is precompiled, at a place.
fn precompiled(alloc: Global, header: &[u8], extension: &[u8], place: &[u8]) -> Mem<Vec<u8>>
    ensures { IfOk result (λ path. path.items ≡ join place.now (header.now ++ extension.now)) }
{
    let mut name = Vec::from_slice(alloc, header)?;
    name.extend_from_slice(extension)?;
    join(alloc, place, &name)
}

/// Appends the paths of a header's precompiled ones at a place.
fn push_at(alloc: Global, paths: &mut Vec<Vec<u8>>, header: &[u8], place: &[u8]) -> Mem<()>
    ensures { OnOk result (words_of paths.new.items ≡ words_of paths.old.items ++ precompiled_at header.now place.now) }
{
    paths.push(precompiled(alloc, header, b".gch", place)?)?;
    paths.push(precompiled(alloc, header, b".pch", place)?)?;
    Ok(())
}

/// Appends those at each of the places.
fn push_header(
    alloc: Global,
    paths: &mut Vec<Vec<u8>>,
    header: &[u8],
    places: &[Vec<u8>],
) -> Mem<()>
    ensures { OnOk result (words_of paths.new.items ≡ words_of paths.old.items ++ flat_map (precompiled_at header.now) (words_of places.now)) }
{
    for place in places {
        push_at(alloc, paths, header, place)?;
    }
    Ok(())
}

/// Those of each header.
fn precompiled_in(alloc: Global, headers: &[Vec<u8>], places: &[Vec<u8>]) -> Mem<Vec<Vec<u8>>>
    ensures { IfOk result (λ paths. words_of paths.items ≡ precompiled_in (words_of headers.now) (words_of places.now)) }
{
    let mut paths = Vec::new(alloc);
    for header in headers {
        push_header(alloc, &mut paths, header, places)?;
    }
    Ok(paths)
}

/// The directory, and the folders by it.
fn places(alloc: Global, directory: &[u8], folders: &[Vec<u8>]) -> Mem<Vec<Vec<u8>>>
    ensures { IfOk result (λ found. words_of found.items ≡ places directory.now (words_of folders.now)) }
{
    let mut found = vec![in alloc; Vec::from_slice(alloc, directory)?]?;
    for folder in folders {
        found.push(join(alloc, directory, folder)?)?;
    }
    Ok(found)
}

/// Whether the headers are few enough, each counted at each place.
fn are_few(headers: &[Vec<u8>], folders: &[Vec<u8>]) -> bool
    ensures { result ≡ are_few (words_of headers.now) (words_of folders.now) }
{
    headers.len().saturating_mul(folders.len() + 1) <= MOST
}

/// The paths at which precompiled headers may be, unless there are too many.
fn precompiled_for(
    alloc: Global,
    directory: &[u8],
    headers: &[Vec<u8>],
    folders: &[Vec<u8>],
) -> Mem<Option<Vec<Vec<u8>>>>
    ensures { IfOk result (λ paths. option_map (λ paths. words_of paths.items) paths ≡ precompiled_for directory.now (words_of headers.now) (words_of folders.now)) }
{
    if !are_few(headers, folders) {
        return Ok(None);
    }
    let places = places(alloc, directory, folders)?;
    Ok(Some(precompiled_in(alloc, headers, &places)?))
}

/// The headers that the options name.
fn headers_named(alloc: Global, options: &[Argument<ArgData>]) -> Mem<Vec<Vec<u8>>>
    ensures { IfOk result (λ headers. words_of headers.items ≡ headers_named (map (seen kind_of word_of) options.now)) }
{
    texts(alloc, options, &NamesBy(&["-include"]))
}

/// The folders in which they are searched.
fn folders_named(alloc: Global, options: &[Argument<ArgData>]) -> Mem<Vec<Vec<u8>>>
    ensures { IfOk result (λ folders. words_of folders.items ≡ folders_named (map (seen kind_of word_of) options.now)) }
{
    let searching = NamesBy(&["-I", "-iquote", "-isystem", "-idirafter"]);
    texts(alloc, options, &searching)
}

/// The paths at which precompiled headers may be that the options name, unless there are too many.
fn paths_named(
    alloc: Global,
    directory: &[u8],
    options: &[Argument<ArgData>],
) -> Mem<Option<Vec<Vec<u8>>>>
    ensures { IfOk result (λ paths. option_map (λ paths. words_of paths.items) paths ≡ paths_named directory.now (map (seen kind_of word_of) options.now)) }
{
    let headers = headers_named(alloc, options)?;
    let folders = folders_named(alloc, options)?;
    precompiled_for(alloc, directory, &headers, &folders)
}

/// Whether the view has something at one of the paths.
fn is_any_there(paths: &[Vec<u8>], view: &View) -> bool
    ensures { result ≡ list_any (λ path. exists path view.now) (words_of paths.now) }
{
    for path in paths {
        if view.exists(path) {
            return true;
        }
    }
    false
}

/// The options, where it matters for one of them if a precompiled header is there.
fn concerned(options: &Options<ArgData>) -> &[Argument<ArgData>]
    ensures { map (seen kind_of word_of) result.now ≡ concerned options.now }
{
    if options.any(&Concerning) {
        options.as_slice()
    } else {
        &[]
    }
}

impl Reading {
    /// The options of the given line of Gcc or Clang, where it is not refused and it matters for one of them if a precompiled
    /// header is there.
    fn concerned(&self) -> &[Argument<ArgData>]
        ensures { map (seen kind_of word_of) result.now ≡ concerned_in self.now }
    {
        let Reading::Gnu(reading) = self else {
            return &[];
        };
        match reading.outcome() {
            CompilerArguments::Ok(_) => concerned(reading.outer().line().options()),
            CompilerArguments::CannotCache(_, _) | CompilerArguments::NotCompilation => &[],
        }
    }

    /// The paths at which precompiled headers matter, unless there are too many.
    fn paths_named(&self, alloc: Global, line: &CommandLine<'_>) -> Mem<Option<Vec<Vec<u8>>>>
        ensures { IfOk result (λ paths. option_map (λ paths. words_of paths.items) paths ≡ paths_named line.now.directory.now (concerned_in self.now)) }
    {
        paths_named(alloc, line.directory, self.concerned())
    }

    /// The paths at which precompiled headers matter, in the order in which they are named.
    pub(crate) fn precompiled_headers(
        &self,
        alloc: Global,
        line: &CommandLine<'_>,
    ) -> Mem<Vec<Vec<u8>>>
        ensures { IfOk result (λ paths. words_of paths.items ≡ precompiled_headers (given_by line.now) self.now) }
    {
        match self.paths_named(alloc, line)? {
            Some(paths) => Ok(paths),
            None => Ok(Vec::new(alloc)),
        }
    }

    /// Whether the view of this command line has a precompiled header that gcc, g++, clang or clang++ may take in the place of
    /// one that `-include` names, or the line names more headers and folders than are looked at. It matters for lines with
    /// split debug information or `-Winvalid-pch`; of others it is false (docs/RULES.md, Questions).
    pub fn has_precompiled_header(&self, alloc: Global, line: &CommandLine<'_>) -> Mem<bool>
        ensures { IfOk result (λ has. has ≡ has_precompiled_header (given_by line.now) self.now) }
    {
        match self.paths_named(alloc, line)? {
            Some(paths) => Ok(is_any_there(&paths, line.view)),
            None => Ok(true),
        }
    }
}
