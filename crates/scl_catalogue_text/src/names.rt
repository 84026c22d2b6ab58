//! The words by which a catalogue's text names things.
ghost use Rattle.std.specs.Prelude.{ℕ, ◌≡◌, List};
ghost use Rattle.std.specs.Str.{bytes_eq};
ghost use Rattle.scl_catalogue_text.specs.Names.{all_brings, all_classes, all_compilers, all_dangers, all_doings, all_facts, all_kinds, all_marks, all_namings, all_places, all_verbs, brings_name, class_name, compiler_name, danger_name, doing_name, fact_name, kind_name, mark_name, naming_name, place_name, verb_name, named_by};

use scl_catalogue::{Brings, Class, Compiler, Danger, Doing, Fact, Mark, Naming, Place, Verb};

/// The first word of an entry that says what commands do with a file.
pub(crate) const EFFECT: &str = "effect";

/// The first word of an entry that states nothing.
pub(crate) const PLAIN: &str = "plain";

/// The entries that are a name and one word of a list.
#[derive(Clone, Copy, Debug, PartialEq, Eq)]
pub(crate) enum Kind {
    Hazard,
    Key,
    Run,
    Names,
    Brings,
}

/// Whether the word is this name.
pub(crate) fn is(word: &[u8], name: &str) -> bool
    ensures { result ≡ bytes_eq word.now name.now }
{
    word == name.as_bytes()
}

/// What has a word of a list as its name.
pub(crate) trait Named: Copy + 'static {
    ghost all_of: { List Self };

    ghost name_of: { Self → List ℕ };

    /// All that have such a name.
    fn all() -> &'static [Self]
        ensures { result.now ≡ all_of };

    fn name(self) -> &'static str
        ensures { result.now ≡ name_of self };

    /// The first that has the word as its name.
    final fn named(word: &[u8]) -> Option<Self>
        ensures { result ≡ named_by name_of all_of word.now }
    {
        Self::all().iter().copied().find(|one| is(word, one.name()))
    }
}

impl Named for Class {
    ghost all_of = { all_classes };

    ghost name_of = { class_name };

    fn all() -> &'static [Class] {
        &[
            Class::Option,
            Class::Raw,
            Class::Unknown,
            Class::Flag,
            Class::Kind,
        ]
    }

    fn name(self) -> &'static str {
        match self {
            Class::Option => "option",
            Class::Raw => "raw",
            Class::Unknown => "unknown",
            Class::Flag => "flag",
            Class::Kind => "kind",
        }
    }
}

impl Named for Mark {
    ghost all_of = { all_marks };

    ghost name_of = { mark_name };

    fn all() -> &'static [Mark] {
        &[
            Mark::Stays,
            Mark::Apart,
            Mark::Joined,
            Mark::DelimiterDropped,
            Mark::HiddenValue,
        ]
    }

    fn name(self) -> &'static str {
        match self {
            Mark::Stays => "stays",
            Mark::Apart => "apart",
            Mark::Joined => "joined",
            Mark::DelimiterDropped => "delimiter-dropped",
            Mark::HiddenValue => "hidden-value",
        }
    }
}

impl Named for Fact {
    ghost all_of = { all_facts };

    ghost name_of = { fact_name };

    fn all() -> &'static [Fact] {
        &[
            Fact::Plusplus,
            Fact::Apple,
            Fact::Preprocessed,
            Fact::OtherLanguage,
            Fact::SplitOtherwise,
            Fact::EnvironmentSplitOtherwise,
            Fact::HiddenInput,
            Fact::HiddenObject,
            Fact::OtherTarget,
            Fact::RenamedObject,
            Fact::PrecompiledHeader,
        ]
    }

    fn name(self) -> &'static str {
        match self {
            Fact::Plusplus => "plusplus",
            Fact::Apple => "apple",
            Fact::Preprocessed => "preprocessed",
            Fact::OtherLanguage => "other-language",
            Fact::SplitOtherwise => "split-otherwise",
            Fact::EnvironmentSplitOtherwise => "environment-split-otherwise",
            Fact::HiddenInput => "hidden-input",
            Fact::HiddenObject => "hidden-object",
            Fact::OtherTarget => "other-target",
            Fact::RenamedObject => "renamed-object",
            Fact::PrecompiledHeader => "precompiled-header",
        }
    }
}

impl Named for Place {
    ghost all_of = { all_places };

    ghost name_of = { place_name };

    fn all() -> &'static [Place] {
        &[
            Place::Word,
            Place::File,
            Place::Environment,
            Place::Language,
            Place::Input,
            Place::Extension,
            Place::Object,
        ]
    }

    fn name(self) -> &'static str {
        match self {
            Place::Word => "word",
            Place::File => "file",
            Place::Environment => "environment",
            Place::Language => "language",
            Place::Input => "input",
            Place::Extension => "extension",
            Place::Object => "object",
        }
    }
}

impl Named for Compiler {
    ghost all_of = { all_compilers };

    ghost name_of = { compiler_name };

    fn all() -> &'static [Compiler] {
        &[
            Compiler::Gcc,
            Compiler::Clang,
            Compiler::ClangCl,
            Compiler::Cl,
            Compiler::Diab,
            Compiler::Tasking,
        ]
    }

    fn name(self) -> &'static str {
        match self {
            Compiler::Gcc => "gcc",
            Compiler::Clang => "clang",
            Compiler::ClangCl => "clang-cl",
            Compiler::Cl => "cl",
            Compiler::Diab => "diab",
            Compiler::Tasking => "tasking",
        }
    }
}

impl Named for Danger {
    ghost all_of = { all_dangers };

    ghost name_of = { danger_name };

    fn all() -> &'static [Danger] {
        &[
            Danger::Object,
            Danger::Failure,
            Danger::SideFile,
            Danger::Messages,
            Danger::Run,
        ]
    }

    fn name(self) -> &'static str {
        match self {
            Danger::Object => "object",
            Danger::Failure => "failure",
            Danger::SideFile => "side-file",
            Danger::Messages => "messages",
            Danger::Run => "run",
        }
    }
}

impl Named for Verb {
    ghost all_of = { all_verbs };

    ghost name_of = { verb_name };

    fn all() -> &'static [Verb] {
        &[Verb::Reads, Verb::Writes, Verb::Asks, Verb::Loads]
    }

    fn name(self) -> &'static str {
        match self {
            Verb::Reads => "reads",
            Verb::Writes => "writes",
            Verb::Asks => "asks",
            Verb::Loads => "loads",
        }
    }
}

impl Named for Doing {
    ghost all_of = { all_doings };

    ghost name_of = { doing_name };

    fn all() -> &'static [Doing] {
        &[
            Doing::Plain,
            Doing::Exact,
            Doing::Macros,
            Doing::WritesUnnamed,
            Doing::TextHides,
            Doing::ReadsCounts,
            Doing::ReadsSamples,
        ]
    }

    fn name(self) -> &'static str {
        match self {
            Doing::Plain => "plain",
            Doing::Exact => "exact",
            Doing::Macros => "macros",
            Doing::WritesUnnamed => "writes-unnamed",
            Doing::TextHides => "hides-text",
            Doing::ReadsCounts => "reads-counts",
            Doing::ReadsSamples => "reads-samples",
        }
    }
}

impl Named for Naming {
    ghost all_of = { all_namings };

    ghost name_of = { naming_name };

    fn all() -> &'static [Naming] {
        &[
            Naming::Nothing,
            Naming::DebugInfo,
            Naming::FileMap,
            Naming::DebugMap,
            Naming::MacroMap,
            Naming::Anything,
        ]
    }

    fn name(self) -> &'static str {
        match self {
            Naming::Nothing => "nothing",
            Naming::DebugInfo => "debug-info",
            Naming::FileMap => "maps-files",
            Naming::DebugMap => "maps-debug-info",
            Naming::MacroMap => "maps-macros",
            Naming::Anything => "anything",
        }
    }
}

impl Named for Brings {
    ghost all_of = { all_brings };

    ghost name_of = { brings_name };

    fn all() -> &'static [Brings] {
        &[
            Brings::Folder,
            Brings::Header,
            Brings::MacroFile,
            Brings::Other,
            Brings::Dependencies,
            Brings::Unknown,
        ]
    }

    fn name(self) -> &'static str {
        match self {
            Brings::Folder => "folder",
            Brings::Header => "header",
            Brings::MacroFile => "macro-file",
            Brings::Other => "other",
            Brings::Dependencies => "dependencies",
            Brings::Unknown => "unknown",
        }
    }
}

impl Named for Kind {
    ghost all_of = { all_kinds };

    ghost name_of = { kind_name };

    fn all() -> &'static [Kind] {
        &[
            Kind::Hazard,
            Kind::Key,
            Kind::Run,
            Kind::Names,
            Kind::Brings,
        ]
    }

    fn name(self) -> &'static str {
        match self {
            Kind::Hazard => "hazard",
            Kind::Key => "key",
            Kind::Run => "run",
            Kind::Names => "names",
            Kind::Brings => "brings",
        }
    }
}
