//! An object, as far as its command says whether it names the place where it is made.
ghost use Rattle.std.specs.Prelude.{◌≡◌};
ghost use Rattle.std.specs.List.{list_any};
ghost use Rattle.scl_values.specs.Words.{words_of};
ghost use Rattle.scl_catalogue.specs.Lookup.{naming_of};
ghost use Rattle.scl_catalogue.specs.Views.{lexicon_of};
ghost use Rattle.scl_shared_key.specs.Namings.{is_anything, is_debug_info};
ghost use Rattle.scl_shared_key.specs.Objects.{has_debug_info, is_macro, maps_reach, may_name_anything};
ghost use Rattle.scl_shared_key.specs.Views.{object_of};

use crate::naming::{is_anything, is_debug_info};
use scl_catalogue::Lexicon;

/// An object, as its command makes it.
#[derive(Debug, Clone, Copy)]
pub struct Object<'a, 'c> {
    /// Whether Gcc makes it.
    pub is_by_gcc: bool,
    /// Whether C is compiled, not C++.
    pub is_of_c: bool,
    /// Whether C or C++ is compiled to an object, and runs show the words of the preprocessor.
    pub is_of_shown_text: bool,
    /// Whether nothing else comes out but objects and files of dependencies.
    pub is_alone: bool,
    /// What a catalogue says of the words of its command.
    pub lexicon: &'c Lexicon<'c>,
    /// The common words of the command.
    pub common: &'a [Vec<u8>],
    /// Those of architectures.
    pub arch: &'a [Vec<u8>],
    /// Those that are not hashed.
    pub unhashed: &'a [Vec<u8>],
}

fn some_name_anything(lexicon: &Lexicon<'_>, words: &[Vec<u8>]) -> bool
    ensures { result ≡ list_any (λ word. is_anything (naming_of (lexicon_of lexicon.now) word)) (words_of words.now) }
{
    for word in words {
        if is_anything(lexicon.naming_of(word)) {
            return true;
        }
    }
    false
}

fn some_make_debug_info(lexicon: &Lexicon<'_>, words: &[Vec<u8>]) -> bool
    ensures { result ≡ list_any (λ word. is_debug_info (naming_of (lexicon_of lexicon.now) word)) (words_of words.now) }
{
    for word in words {
        if is_debug_info(lexicon.naming_of(word)) {
            return true;
        }
    }
    false
}

impl Object<'_, '_> {
    /// Whether it may name anything.
    pub fn may_name_anything(&self) -> bool
        ensures { result ≡ may_name_anything (object_of self.now) }
    {
        !self.is_alone
            || some_name_anything(self.lexicon, self.common)
            || some_name_anything(self.lexicon, self.arch)
            || some_name_anything(self.lexicon, self.unhashed)
    }

    /// Whether it has debug information.
    pub(crate) fn has_debug_info(&self) -> bool
        ensures { result ≡ has_debug_info (object_of self.now) }
    {
        some_make_debug_info(self.lexicon, self.common)
            || some_make_debug_info(self.lexicon, self.arch)
            || some_make_debug_info(self.lexicon, self.unhashed)
    }

    /// Whether maps reach all names in its debug information.
    pub(crate) fn maps_reach(&self) -> bool
        ensures { result ≡ maps_reach (object_of self.now) }
    {
        self.is_by_gcc || self.is_of_c
    }
}

/// Whether a word defines a macro.
pub fn is_macro(word: &[u8]) -> bool
    ensures { result ≡ is_macro word.now }
{
    word.starts_with(b"-D") && word.len() > 2
}
