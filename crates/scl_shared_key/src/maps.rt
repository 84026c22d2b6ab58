//! Prefix maps: words by which the compiler writes another name in the place of a directory.
ghost use Rattle.std.specs.Prelude.{◌≡◌, ◌++◌, ◌∷◌, [], drop, OnOk};
ghost use Rattle.std.specs.List.{list_all, list_any};
ghost use Rattle.std.specs.Option.{option_map};
ghost use Rattle.scl_values.specs.Words.{words_of};
ghost use Rattle.scl_catalogue.specs.Views.{lexicon_of};
ghost use Rattle.scl_shared_key.specs.MapViews.{map_of, maps_of};
ghost use Rattle.scl_shared_key.specs.Maps.{all_free, are_apart, begin_alike, begins_with_other, debug_info_is_free, frees_dir, is_free, macros_are_free, map_by, maps_among, maps_dir, maps_hold, maps_in_debug_info, maps_in_macros};

use crate::usual::has_usual_bytes;
use scl_catalogue::{Lexicon, Naming, behind_equals};
use scl_values::Mem;

/// A map.
#[derive(Debug, Clone, Copy)]
pub(crate) struct PrefixMap<'a> {
    /// Whether it counts in debug information.
    pub(crate) in_debug_info: bool,
    /// Whether it counts in macros.
    pub(crate) in_macros: bool,
    /// `OLD=NEW`.
    pub(crate) value: &'a [u8],
}

/// The bytes after this many.
fn behind(text: &[u8], count: usize) -> &[u8]
    ensures { result.now ≡ drop count text.now }
{
    text.get(count..).unwrap_or(&[])
}

/// The map that a word is.
fn map_by(naming: Naming, word: &[u8]) -> Option<PrefixMap<'_>>
    ensures { option_map map_of result ≡ map_by naming word.now }
{
    match naming {
        Naming::FileMap => Some(PrefixMap {
            in_debug_info: true,
            in_macros: true,
            value: behind_equals(word),
        }),
        Naming::DebugMap => Some(PrefixMap {
            in_debug_info: true,
            in_macros: false,
            value: behind_equals(word),
        }),
        Naming::MacroMap => Some(PrefixMap {
            in_debug_info: false,
            in_macros: true,
            value: behind_equals(word),
        }),
        Naming::Nothing | Naming::DebugInfo | Naming::Anything => None,
    }
}

/// Appends the map that a word is, if it is one.
fn push_map<'a>(maps: &mut Vec<PrefixMap<'a>>, lexicon: &Lexicon<'_>, word: &'a [u8]) -> Mem<()>
    ensures { OnOk result (maps_of maps.new.items ≡ maps_of maps.old.items ++ maps_among (lexicon_of lexicon.now) (word.now ∷ [])) }
{
    if let Some(one) = map_by(lexicon.naming_of(word), word) {
        maps.push(one)?;
    }
    Ok(())
}

/// Appends the maps among words.
pub(crate) fn push_maps<'a>(
    maps: &mut Vec<PrefixMap<'a>>,
    lexicon: &Lexicon<'_>,
    words: &'a [Vec<u8>],
) -> Mem<()>
    ensures { OnOk result (maps_of maps.new.items ≡ maps_of maps.old.items ++ maps_among (lexicon_of lexicon.now) (words_of words.now)) }
{
    for word in words {
        push_map(maps, lexicon, word)?;
    }
    Ok(())
}

/// Whether one of two texts begins with the other.
fn begin_alike(one: &[u8], other: &[u8]) -> bool
    ensures { result ≡ begin_alike one.now other.now }
{
    one.starts_with(other) || other.starts_with(one)
}

/// Whether a name and one of the directories begin alike.
fn begins_as_any(dirs: &[Vec<u8>], name: &[u8]) -> bool
    ensures { result ≡ list_any (begin_alike name.now) (words_of dirs.now) }
{
    for dir in dirs {
        if begin_alike(name, dir) {
            return true;
        }
    }
    false
}

/// Whether a name that a map gives stays free of the directories, however a compiler splits maps and often it maps.
fn is_free(dirs: &[Vec<u8>], name: &[u8]) -> bool
    ensures { result ≡ is_free (words_of dirs.now) name.now }
{
    has_usual_bytes(name) && !begins_as_any(dirs, name)
}

impl PrefixMap<'_> {
    /// Whether it maps this very directory.
    fn maps_dir(&self, dir: &[u8]) -> bool
        ensures { result ≡ maps_dir dir.now (map_of self.now) }
    {
        self.value.starts_with(dir) && behind(self.value, dir.len()).starts_with(b"=")
    }

    /// Whether it maps this directory to a free name.
    fn frees_dir(&self, dirs: &[Vec<u8>], dir: &[u8]) -> bool
        ensures { result ≡ frees_dir (words_of dirs.now) (map_of self.now) dir.now }
    {
        let new = behind(behind(self.value, dir.len()), 1);
        self.maps_dir(dir) && is_free(dirs, new)
    }

    /// Whether it maps one of the directories to a free name.
    fn frees_one(&self, dirs: &[Vec<u8>]) -> bool
        ensures { result ≡ list_any (frees_dir (words_of dirs.now) (map_of self.now)) (words_of dirs.now) }
    {
        for dir in dirs {
            if self.frees_dir(dirs, dir) {
                return true;
            }
        }
        false
    }
}

fn all_free(dirs: &[Vec<u8>], maps: &[PrefixMap<'_>]) -> bool
    ensures { result ≡ all_free (words_of dirs.now) (maps_of maps.now) }
{
    for one in maps {
        if !one.frees_one(dirs) {
            return false;
        }
    }
    true
}

fn maps_in_debug_info(maps: &[PrefixMap<'_>], dir: &[u8]) -> bool
    ensures { result ≡ maps_in_debug_info (maps_of maps.now) dir.now }
{
    for one in maps {
        if one.in_debug_info && one.maps_dir(dir) {
            return true;
        }
    }
    false
}

fn maps_in_macros(maps: &[PrefixMap<'_>], dir: &[u8]) -> bool
    ensures { result ≡ maps_in_macros (maps_of maps.now) dir.now }
{
    for one in maps {
        if one.in_macros && one.maps_dir(dir) {
            return true;
        }
    }
    false
}

/// Whether a directory begins with the text of another one.
fn begins_with_other(dirs: &[Vec<u8>], dir: &[u8]) -> bool
    ensures { result ≡ begins_with_other (words_of dirs.now) dir.now }
{
    for other in dirs {
        if dir != other.as_slice() && dir.starts_with(other) {
            return true;
        }
    }
    false
}

fn are_apart(dirs: &[Vec<u8>]) -> bool
    ensures { result ≡ are_apart (words_of dirs.now) }
{
    for dir in dirs {
        if begins_with_other(dirs, dir) {
            return false;
        }
    }
    true
}

fn all_in_debug_info(dirs: &[Vec<u8>], maps: &[PrefixMap<'_>]) -> bool
    ensures { result ≡ list_all (maps_in_debug_info (maps_of maps.now)) (words_of dirs.now) }
{
    for dir in dirs {
        if !maps_in_debug_info(maps, dir) {
            return false;
        }
    }
    true
}

fn all_in_macros(dirs: &[Vec<u8>], maps: &[PrefixMap<'_>]) -> bool
    ensures { result ≡ list_all (maps_in_macros (maps_of maps.now)) (words_of dirs.now) }
{
    for dir in dirs {
        if !maps_in_macros(maps, dir) {
            return false;
        }
    }
    true
}

fn maps_hold(dirs: &[Vec<u8>], maps: &[PrefixMap<'_>]) -> bool
    ensures { result ≡ maps_hold (words_of dirs.now) (maps_of maps.now) }
{
    are_apart(dirs) && all_free(dirs, maps)
}

/// Whether all names in debug information are free of the directories.
pub(crate) fn debug_info_is_free(dirs: &[Vec<u8>], maps: &[PrefixMap<'_>]) -> bool
    ensures { result ≡ debug_info_is_free (words_of dirs.now) (maps_of maps.now) }
{
    maps_hold(dirs, maps) && all_in_debug_info(dirs, maps)
}

/// Whether all names that macros give are free of the directories.
pub(crate) fn macros_are_free(dirs: &[Vec<u8>], maps: &[PrefixMap<'_>]) -> bool
    ensures { result ≡ macros_are_free (words_of dirs.now) (maps_of maps.now) }
{
    maps_hold(dirs, maps) && all_in_macros(dirs, maps)
}
