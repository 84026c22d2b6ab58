//! The kinds of options, and their values.
use scl_args::{
    ArgParseResult, ArgToStringResult, ArgumentValue, ExactArg, Held, IntoArg, Mem, PathArg,
    ReadArg,
};
use scl_values::of_kinds;
use std::alloc::Global;

/// What an option of Gcc or Clang means, apart from its value (docs/RULES.md, Gcc).
#[derive(Debug, Clone, Copy, PartialEq, Eq)]
pub enum Kind {
    /// A flag with which a command line can't be cached, such as `-E`.
    TooHardFlag,
    /// An option with a value with which a command line can't be cached, such as `@file`.
    TooHard,
    /// `-fdiagnostics-color`: its value says whether messages are coloured.
    DiagnosticsColor,
    /// A flag that colours messages.
    DiagnosticsColorFlag,
    /// A flag for messages without colour.
    NoDiagnosticsColorFlag,
    /// `-arch`: an architecture to compile for.
    Arch,
    /// `--coverage`: the compiled program counts what is run; notes for this are an output.
    Coverage,
    /// `-ftest-coverage`: notes for counting what is run are an output.
    TestCoverage,
    /// The path of the dependency file, such as `-MF`.
    DepArgumentPath,
    /// The target in the dependency file, such as `-MT`.
    DepTarget,
    /// A flag that requests a dependency file or its targets, such as `-MD`.
    NeedDepTarget,
    /// `-c`: requests a compilation.
    DoCompilation,
    /// A file on whose contents the result depends, such as `-fplugin` of Clang.
    ExtraHashFile,
    /// `-fmodule-file` of Clang: a file on whose contents the result depends, after a name and `=` if there is one.
    ExtraHashFileClangModuleFile,
    /// `-x`: the language of the input.
    Language,
    /// `-gsplit-dwarf`: debug information in a separate file, which is an output.
    SplitDwarf,
    /// `-o`: the path of the object.
    Output,
    /// An option with a word that goes to the common words, such as `-D`.
    PassThrough,
    /// A flag that goes to the common words.
    PassThroughFlag,
    /// An option with a path that goes to the common words, such as `--sysroot`.
    PassThroughPath,
    /// An option with a word for the preprocessor, such as `-Xpreprocessor`.
    PreprocessorArgument,
    /// A flag for the preprocessor, such as `-nostdinc`.
    PreprocessorArgumentFlag,
    /// An option with a path for the preprocessor, such as `-I`.
    PreprocessorArgumentPath,
    /// A flag with which the compiled program writes a profile when it runs.
    ProfileGenerate,
    /// The path of a profile of earlier runs, a file or its directory, such as `-fprofile-use` of Clang.
    ClangProfileUse,
    /// `--serialize-diagnostics` of Gcc's table: a file of messages, which is an output.
    SerializeDiagnostics,
    /// A flag that does not change the result, such as `-pipe`.
    UnhashedFlag,
    /// An option with a value that does not change the result, such as `-parallel-jobs`.
    Unhashed,
    /// A flag that warns of code the standard does not allow, such as `-pedantic`.
    PedanticFlag,
    /// `-std`: the standard of the language.
    Standard,
    /// `-Xclang`: a word of the inner command line.
    XClang,
    /// A flag with which the module itself is the object, such as `--precompile`.
    ModuleOnlyFlag,
    /// `-fmodule-output`: the path of a module, after `=`.
    ClangModuleOutput,
    /// A flag with which the compiler assembles by itself.
    IntegratedAs,
    /// A flag with which the assembler is a separate program.
    NoIntegratedAs,
}

/// A kind with its value: a path, a word or none. Each variant has the kind of the same name (docs/RULES.md, Gcc).
#[derive(Debug, PartialEq, Eq, Drop)]
pub enum ArgData {
    TooHardFlag,
    TooHard(Vec<u8>),
    DiagnosticsColor(Vec<u8>),
    DiagnosticsColorFlag,
    NoDiagnosticsColorFlag,
    Arch(Vec<u8>),
    Coverage,
    TestCoverage,
    DepArgumentPath(PathArg),
    DepTarget(Vec<u8>),
    NeedDepTarget,
    DoCompilation,
    ExtraHashFile(PathArg),
    ExtraHashFileClangModuleFile(Vec<u8>),
    Language(Vec<u8>),
    SplitDwarf,
    Output(PathArg),
    PassThrough(Vec<u8>),
    PassThroughFlag,
    PassThroughPath(PathArg),
    PreprocessorArgument(Vec<u8>),
    PreprocessorArgumentFlag,
    PreprocessorArgumentPath(PathArg),
    ProfileGenerate,
    ClangProfileUse(PathArg),
    SerializeDiagnostics(PathArg),
    UnhashedFlag,
    Unhashed(Vec<u8>),
    PedanticFlag,
    Standard(Vec<u8>),
    XClang(Vec<u8>),
    ModuleOnlyFlag,
    ClangModuleOutput(Vec<u8>),
    IntegratedAs,
    NoIntegratedAs,
}

// each kind once, by what its values hold
macro_rules! kinds {
    ($($question:tt)*) => {
        of_kinds!(
            $($question)*;
            Nothing: TooHardFlag, DiagnosticsColorFlag, NoDiagnosticsColorFlag, Coverage,
                TestCoverage, NeedDepTarget, DoCompilation, SplitDwarf, PassThroughFlag,
                PreprocessorArgumentFlag, ProfileGenerate, UnhashedFlag, PedanticFlag,
                ModuleOnlyFlag, IntegratedAs, NoIntegratedAs;
            Word: TooHard, DiagnosticsColor, Arch, DepTarget, ExtraHashFileClangModuleFile,
                Language, PassThrough, PreprocessorArgument, Unhashed, Standard, XClang,
                ClangModuleOutput;
            Path: DepArgumentPath, ExtraHashFile, Output, PassThroughPath,
                PreprocessorArgumentPath, ClangProfileUse, SerializeDiagnostics
        )
    };
}

impl ReadArg for ArgData {
    fn kind(&self) -> Kind {
        kinds!(kind of self)
    }

    fn held(&self) -> Held<'_> {
        kinds!(held by self)
    }
}

impl IntoArg for ArgData {
    ghost use Rattle.scl_gnu_reading.specs.Data.{word_of, is_path};

    ghost word_of = { word_of };

    ghost is_path = { is_path };

    fn into_arg_os_string(&self, alloc: Global) -> Mem<Vec<u8>> {
        Vec::from_slice(alloc, self.held().word())
    }

    fn into_arg_string<F: FnMut(&[u8]) -> Option<String>>(
        &self,
        alloc: Global,
        f: &mut F,
    ) -> ArgToStringResult {
        self.held().text(alloc, f)
    }
}

impl ArgumentValue for ArgData {
    ghost use Rattle.scl_values.specs.Values.{MakesOf};
    ghost use Rattle.scl_gnu_reading.specs.Data.{holds_value, kind_of, word_of};

    type Kind = Kind;

    ghost make_gives = { MakesOf kind_of word_of holds_value };

    ghost holds_value = { holds_value };

    ghost kind_of = { kind_of };

    fn make(_alloc: Global, kind: Kind, word: Vec<u8>) -> ArgParseResult<ArgData> {
        kinds!(made of kind, word)
    }
}

impl ExactArg for ArgData {
    ghost use Rattle.scl_values.specs.Values.{exact, keeps};
    ghost use Rattle.scl_gnu_reading.specs.Data.{holds_value, kind_of, word_of};

    ghost exact = { exact kind_of word_of holds_value };

    ghost keeps = { keeps kind_of word_of holds_value };
}
