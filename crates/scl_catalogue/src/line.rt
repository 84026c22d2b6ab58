//! What conditions are asked of: a command line as it was read.
ghost use Rattle.std.specs.Prelude.{◌≡◌};
ghost use Rattle.scl_catalogue.specs.Found.{has_fact};

use crate::case::{Compiler, Version};
use crate::condition::Fact;
use crate::seen::Seen;

/// Which facts a line has.
#[derive(Clone, Copy, Debug, PartialEq, Eq)]
pub struct Facts {
    /// `Fact::Plusplus`.
    pub is_plusplus: bool,
    /// `Fact::Apple`.
    pub is_apple: bool,
    /// `Fact::Preprocessed`.
    pub is_preprocessed: bool,
    /// `Fact::OtherLanguage`.
    pub is_other_language: bool,
    /// `Fact::SplitOtherwise`.
    pub is_split_otherwise: bool,
    /// `Fact::EnvironmentSplitOtherwise`.
    pub is_environment_split_otherwise: bool,
    /// `Fact::HiddenInput`.
    pub is_input_hidden: bool,
    /// `Fact::HiddenObject`.
    pub is_object_hidden: bool,
    /// `Fact::OtherTarget`.
    pub has_other_target: bool,
    /// `Fact::RenamedObject`.
    pub is_object_renamed: bool,
    /// `Fact::PrecompiledHeader`.
    pub has_precompiled_header: bool,
}

/// A command line that has a record.
#[derive(Clone, Copy, Debug)]
pub struct Line<'a> {
    /// The compiler that is run.
    pub compiler: Compiler,
    /// Its version, where it is known.
    pub version: Option<Version>,
    /// The facts that the line has.
    pub facts: Facts,
    /// The options that its words are cut into.
    pub options: &'a [Seen<'a>],
    /// The options of the inner command line, in the order in which they are passed on.
    pub inner: &'a [Seen<'a>],
    /// The words, with response files put in place.
    pub words: &'a [Vec<u8>],
    /// The texts of response files that were put in place.
    pub files: &'a [Vec<u8>],
    /// The words that the environment gives.
    pub environment: &'a [Vec<u8>],
    /// The name of the record's language.
    pub language: &'a [u8],
    /// The path of the input.
    pub input: &'a [u8],
    /// Its extension, where it has one.
    pub extension: Option<&'a [u8]>,
    /// The path of the object.
    pub object: &'a [u8],
}

impl Facts {
    /// Whether the line has the fact.
    pub(crate) fn has(&self, fact: Fact) -> bool
        ensures { result ≡ has_fact self.now fact }
    {
        match fact {
            Fact::Plusplus => self.is_plusplus,
            Fact::Apple => self.is_apple,
            Fact::Preprocessed => self.is_preprocessed,
            Fact::OtherLanguage => self.is_other_language,
            Fact::SplitOtherwise => self.is_split_otherwise,
            Fact::EnvironmentSplitOtherwise => self.is_environment_split_otherwise,
            Fact::HiddenInput => self.is_input_hidden,
            Fact::HiddenObject => self.is_object_hidden,
            Fact::OtherTarget => self.has_other_target,
            Fact::RenamedObject => self.is_object_renamed,
            Fact::PrecompiledHeader => self.has_precompiled_header,
        }
    }
}
