//! The languages of source files, by extension and by the texts of `-x`.
ghost use Rattle.std.specs.Prelude.{◌≡◌};
ghost use Rattle.std.specs.Option.{option_copied};
ghost use Rattle.scl_text.specs.Languages.{clang_text, gcc_text, language_of_file_name, language_of_gcc_text, language_named, rows_of, needs_c_preprocessing};

use scl_files::path::extension;

/// A language of source files (docs/RULES.md, Languages).
#[derive(Debug, Clone, Copy, PartialEq, Eq)]
pub enum Language {
    /// Assembler that needs no preprocessor.
    Assembler,
    /// Assembler that the C preprocessor runs on first.
    AssemblerToPreprocess,
    /// C.
    C,
    /// A C header, as `-x c-header` has it.
    CHeader,
    /// A header with the extension `h`, of any language; no text of `-x` names it.
    GenericHeader,
    /// C++.
    Cxx,
    /// A C++ header.
    CxxHeader,
    /// A C++ module interface.
    CxxModule,
    /// Objective-C.
    ObjectiveC,
    /// An Objective-C header, as `-x objective-c-header` has it.
    ObjectiveCHeader,
    /// Objective-C++.
    ObjectiveCxx,
    /// An Objective-C++ header, as `-x objective-c++-header` has it.
    ObjectiveCxxHeader,
    /// CUDA.
    Cuda,
    /// Rust; it has no text for `-x` of gcc or clang.
    Rust,
    /// HIP.
    Hip,
}

/// The extensions of files and their languages.
static EXTENSIONS: [(&'static str, Language); 30] = [
    ("s", Language::Assembler),
    ("S", Language::AssemblerToPreprocess),
    ("sx", Language::AssemblerToPreprocess),
    ("c", Language::C),
    ("h", Language::GenericHeader),
    ("C", Language::Cxx),
    ("cc", Language::Cxx),
    ("cp", Language::Cxx),
    ("cpp", Language::Cxx),
    ("CPP", Language::Cxx),
    ("cxx", Language::Cxx),
    ("c++", Language::Cxx),
    ("H", Language::CxxHeader),
    ("hh", Language::CxxHeader),
    ("hp", Language::CxxHeader),
    ("hpp", Language::CxxHeader),
    ("HPP", Language::CxxHeader),
    ("hxx", Language::CxxHeader),
    ("h++", Language::CxxHeader),
    ("tcc", Language::CxxHeader),
    ("cppm", Language::CxxModule),
    ("ccm", Language::CxxModule),
    ("cxxm", Language::CxxModule),
    ("c++m", Language::CxxModule),
    ("m", Language::ObjectiveC),
    ("M", Language::ObjectiveCxx),
    ("mm", Language::ObjectiveCxx),
    ("cu", Language::Cuda),
    ("rs", Language::Rust),
    ("hip", Language::Hip),
];

/// The texts that are read after `-x`.
static READ_TEXTS: [(&'static str, Language); 15] = [
    ("assembler", Language::Assembler),
    ("assembler-with-cpp", Language::AssemblerToPreprocess),
    ("c", Language::C),
    ("c-header", Language::CHeader),
    ("c++", Language::Cxx),
    ("c++-header", Language::CxxHeader),
    ("c++-module", Language::CxxModule),
    ("objective-c", Language::ObjectiveC),
    ("objective-c-header", Language::ObjectiveCHeader),
    ("objective-c++", Language::ObjectiveCxx),
    ("objective-c++-header", Language::ObjectiveCxxHeader),
    ("cu", Language::Cuda),
    ("cuda", Language::Cuda),
    ("rs", Language::Rust),
    ("hip", Language::Hip),
];

fn language_named(rows: &[(&'static str, Language)], text: &[u8]) -> Option<Language>
    ensures { result ≡ language_named (rows_of rows.now) text.now }
{
    for (name, language) in rows {
        if name.as_bytes() == text {
            return Some(*language);
        }
    }
    None
}

impl Language {
    /// The language of a file, by the extension of its name; `None` if it has no extension or the table does not have it
    /// (docs/RULES.md, Languages).
    pub fn from_file_name(path: &[u8]) -> Option<Language>
        ensures { result ≡ language_of_file_name path.now }
    {
        language_named(&EXTENSIONS, extension(path)?)
    }

    /// The language that a text after `-x` names: a text of gcc or clang, or `rs`; `None` for any other text (docs/RULES.md,
    /// Languages).
    pub fn from_gcc_arg(text: &[u8]) -> Option<Language>
        ensures { result ≡ language_of_gcc_text text.now }
    {
        language_named(&READ_TEXTS, text)
    }

    /// The text of the language for gcc's `-x`, if it has one (docs/RULES.md, Languages).
    pub fn to_gcc_arg(self) -> Option<&'static str>
        ensures { option_copied result ≡ gcc_text self }
    {
        match self {
            Language::Assembler => Some("assembler"),
            Language::AssemblerToPreprocess => Some("assembler-with-cpp"),
            Language::C => Some("c"),
            Language::CHeader => Some("c-header"),
            Language::GenericHeader => None,
            Language::Cxx => Some("c++"),
            Language::CxxHeader => Some("c++-header"),
            Language::CxxModule => Some("c++-module"),
            Language::ObjectiveC => Some("objective-c"),
            Language::ObjectiveCHeader => Some("objective-c-header"),
            Language::ObjectiveCxx => Some("objective-c++"),
            Language::ObjectiveCxxHeader => Some("objective-c++-header"),
            Language::Cuda => Some("cu"),
            Language::Rust => None,
            Language::Hip => Some("hip"),
        }
    }

    /// The text of the language for clang's `-x`: gcc's, except `cuda` for Cuda (docs/RULES.md, Languages).
    pub fn to_clang_arg(self) -> Option<&'static str>
        ensures { option_copied result ≡ clang_text self }
    {
        match self {
            Language::Cuda => Some("cuda"),
            Language::Assembler
            | Language::AssemblerToPreprocess
            | Language::C
            | Language::CHeader
            | Language::GenericHeader
            | Language::Cxx
            | Language::CxxHeader
            | Language::CxxModule
            | Language::ObjectiveC
            | Language::ObjectiveCHeader
            | Language::ObjectiveCxx
            | Language::ObjectiveCxxHeader
            | Language::Rust
            | Language::Hip => self.to_gcc_arg(),
        }
    }

    /// Whether the C preprocessor runs before the language is compiled: for all but Assembler and Rust.
    pub fn needs_c_preprocessing(self) -> bool
        ensures { result ≡ needs_c_preprocessing self }
    {
        match self {
            Language::Assembler | Language::Rust => false,
            Language::AssemblerToPreprocess
            | Language::C
            | Language::CHeader
            | Language::GenericHeader
            | Language::Cxx
            | Language::CxxHeader
            | Language::CxxModule
            | Language::ObjectiveC
            | Language::ObjectiveCHeader
            | Language::ObjectiveCxx
            | Language::ObjectiveCxxHeader
            | Language::Cuda
            | Language::Hip => true,
        }
    }
}
