//! The kinds of options, and their values.
use scl_args::{
    ArgParseResult, ArgToStringResult, ArgumentValue, ExactArg, Held, IntoArg, Mem, PathArg,
    ReadArg,
};
use scl_values::of_kinds;
use std::alloc::Global;

/// What an option of Msvc means, apart from its value (docs/RULES.md, Msvc).
#[derive(Debug, Clone, Copy, PartialEq, Eq)]
pub enum Kind {
    /// A flag that is refused.
    TooHardFlag,
    /// A word whose flag is refused.
    TooHard,
    /// An option with a path whose flag is refused, such as a response file.
    TooHardPath,
    /// A flag that suppresses compilation.
    SuppressCompilation,
    /// A flag that requests a compilation.
    DoCompilation,
    /// The path of the object, or its folder.
    Output,
    /// The path of an input in C.
    CInput,
    /// The path of an input in C++.
    CxxInput,
    /// The language of all inputs; only for clang-cl.
    ClangLanguage,
    /// A module's file, after its name and `=` or without these; only for clang-cl. It is hashed.
    ClangModuleFile,
    /// The path of the module that is made.
    ClangModuleOutput,
    /// The path of a file that is hashed.
    ExtraHashFile,
    /// A flag with which cl writes debug information into a separate file.
    DebugInfo,
    /// The path of the file of debug information.
    ProgramDatabase,
    /// The path of the dependency file.
    DepFile,
    /// A flag that prints the names of included files.
    ShowIncludes,
    /// A word for the preprocessor.
    PreprocessorArgument,
    /// A path for the preprocessor.
    PreprocessorArgumentPath,
    /// The path of a folder of external includes.
    ExternalIncludePath,
    /// A flag that goes to the common words.
    PassThrough,
    /// An option with a path that goes to the common words.
    PassThroughWithPath,
    /// An option with a word that goes to the common words.
    PassThroughWithSuffix,
    /// A word of the inner command line after `-Xclang`.
    XClang,
    /// A word of the inner command line after `-clang:`.
    Clang,
    /// A flag that is not part of the command.
    Ignore,
    /// An option with a word that is not part of the command.
    IgnoreWithSuffix,
}

/// A kind with its value: a path, a word or none. Each variant has the kind of the same name (docs/RULES.md, Msvc).
#[derive(Debug, PartialEq, Eq, Drop)]
pub enum ArgData {
    TooHardFlag,
    TooHard(Vec<u8>),
    TooHardPath(PathArg),
    SuppressCompilation,
    DoCompilation,
    Output(PathArg),
    CInput(PathArg),
    CxxInput(PathArg),
    ClangLanguage(Vec<u8>),
    ClangModuleFile(Vec<u8>),
    ClangModuleOutput(Vec<u8>),
    ExtraHashFile(PathArg),
    DebugInfo,
    ProgramDatabase(PathArg),
    DepFile(PathArg),
    ShowIncludes,
    PreprocessorArgument(Vec<u8>),
    PreprocessorArgumentPath(PathArg),
    ExternalIncludePath(PathArg),
    PassThrough,
    PassThroughWithPath(PathArg),
    PassThroughWithSuffix(Vec<u8>),
    XClang(Vec<u8>),
    Clang(Vec<u8>),
    Ignore,
    IgnoreWithSuffix(Vec<u8>),
}

// each kind once, by what its values hold
macro_rules! kinds {
    ($($question:tt)*) => {
        of_kinds!(
            $($question)*;
            Nothing: TooHardFlag, SuppressCompilation, DoCompilation, DebugInfo, ShowIncludes,
                PassThrough, Ignore;
            Word: TooHard, ClangLanguage, ClangModuleFile, ClangModuleOutput, PreprocessorArgument,
                PassThroughWithSuffix, XClang, Clang, IgnoreWithSuffix;
            Path: TooHardPath, Output, CInput, CxxInput, ExtraHashFile, ProgramDatabase, DepFile,
                PreprocessorArgumentPath, ExternalIncludePath, PassThroughWithPath
        )
    };
}

impl ReadArg for ArgData {
    fn kind(&self) -> Kind {
        kinds!(kind of self)
    }

    fn held(&self) -> Held<'_> {
        kinds!(held by self)
    }
}

impl IntoArg for ArgData {
    ghost use Rattle.scl_msvc_reading.specs.Data.{word_of, is_path};

    ghost word_of = { word_of };

    ghost is_path = { is_path };

    fn into_arg_os_string(&self, alloc: Global) -> Mem<Vec<u8>> {
        Vec::from_slice(alloc, self.held().word())
    }

    fn into_arg_string<F: FnMut(&[u8]) -> Option<String>>(
        &self,
        alloc: Global,
        f: &mut F,
    ) -> ArgToStringResult {
        self.held().text(alloc, f)
    }
}

impl ArgumentValue for ArgData {
    ghost use Rattle.scl_values.specs.Values.{MakesOf};
    ghost use Rattle.scl_msvc_reading.specs.Data.{holds_value, kind_of, word_of};

    type Kind = Kind;

    ghost make_gives = { MakesOf kind_of word_of holds_value };

    ghost holds_value = { holds_value };

    ghost kind_of = { kind_of };

    fn make(_alloc: Global, kind: Kind, word: Vec<u8>) -> ArgParseResult<ArgData> {
        kinds!(made of kind, word)
    }
}

impl ExactArg for ArgData {
    ghost use Rattle.scl_values.specs.Values.{exact, keeps};
    ghost use Rattle.scl_msvc_reading.specs.Data.{holds_value, kind_of, word_of};

    ghost exact = { exact kind_of word_of holds_value };

    ghost keeps = { keeps kind_of word_of holds_value };
}
