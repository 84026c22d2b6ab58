//! What is known of a compiler.
ghost use Rattle.std.specs.Prelude.{◌≡◌};
ghost use Rattle.scl_catalogue.specs.Views.{catalogue_of};

use scl_catalogue::{Catalogue, Version};
use std::marker::Model;

/// What is known of the compiler that is run: the catalogue, which version of those of which it speaks is meant, and whether that
/// is Apple's clang.
#[derive(Debug, Drop)]
pub struct Known<'a> {
    catalogue: &'a Catalogue,
    version: Option<Version>,
    is_apple: bool,
}

impl<'a> Model for Known<'a> {
    ghost use Rattle.scl_catalogue.specs.Views.{catalogue_of};
    ghost use Rattle.scl_hazards.specs.Hazards.{Known};

    ghost Value = { Known };

    ghost view = { λ k. record { catalogue = catalogue_of k.catalogue.now; version = k.version; is_apple = k.is_apple } };
}

impl<'a> Known<'a> {
    /// What a catalogue knows of a compiler of this version, Apple's clang or another; where no version is given, each case is
    /// meant.
    pub fn new(catalogue: &'a Catalogue, version: Option<Version>, is_apple: bool) -> Known<'a>
        ensures { result ≡ record { catalogue = catalogue_of catalogue.now; version = version; is_apple = is_apple } }
    {
        Known {
            catalogue,
            version,
            is_apple,
        }
    }

    /// The catalogue.
    pub fn catalogue(&self) -> &'a Catalogue
        ensures { catalogue_of result.now ≡ self.now.catalogue }
    {
        self.catalogue
    }

    /// The version that is meant, where one is given.
    pub(crate) fn version(&self) -> Option<Version>
        ensures { result ≡ self.now.version }
    {
        self.version
    }

    /// Whether Apple's clang is meant.
    pub(crate) fn is_apple(&self) -> bool
        ensures { result ≡ self.now.is_apple }
    {
        self.is_apple
    }
}
