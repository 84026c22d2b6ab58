//! TaskingVX's kinds of options, and their values.
use scl_args::{
    ArgParseResult, ArgToStringResult, ArgumentValue, ExactArg, Held, IntoArg, Mem, PathArg,
    ReadArg,
};
use scl_values::of_kinds;
use std::alloc::Global;

/// What an option of TaskingVX means, apart from its value (docs/RULES.md, Diab and TaskingVX).
#[derive(Clone, Copy, Debug, PartialEq, Eq)]
pub enum Kind {
    /// A flag with which a command line can't be cached.
    TooHardFlag,
    /// An option with a value with which a command line can't be cached.
    TooHard,
    /// A flag with which nothing is compiled.
    NotCompilationFlag,
    /// An option with a value with which nothing is compiled.
    NotCompilation,
    /// The flag that requests a compilation.
    DoCompilation,
    /// The path of the object file.
    Output,
    /// A word that changes the result.
    PassThrough,
    /// A word for the preprocessor.
    PreprocessorArgument,
    /// A path for the preprocessor.
    PreprocessorArgumentPath,
    /// The path of the dependency file.
    DepFile,
}

/// A kind with its value: a path, a word or none. Each variant has the kind of the same name (docs/RULES.md, Diab and
/// TaskingVX).
#[derive(Debug, PartialEq, Eq, Drop)]
pub enum ArgData {
    TooHardFlag,
    TooHard(Vec<u8>),
    NotCompilationFlag,
    NotCompilation(Vec<u8>),
    DoCompilation,
    Output(PathArg),
    PassThrough(Vec<u8>),
    PreprocessorArgument(Vec<u8>),
    PreprocessorArgumentPath(PathArg),
    DepFile(PathArg),
}

// each kind once, by what its values hold
macro_rules! kinds {
    ($($question:tt)*) => {
        of_kinds!(
            $($question)*;
            Nothing: TooHardFlag, NotCompilationFlag, DoCompilation;
            Word: TooHard, NotCompilation, PassThrough, PreprocessorArgument;
            Path: Output, PreprocessorArgumentPath, DepFile
        )
    };
}

impl ReadArg for ArgData {
    fn kind(&self) -> Kind {
        kinds!(kind of self)
    }

    fn held(&self) -> Held<'_> {
        kinds!(held by self)
    }
}

impl IntoArg for ArgData {
    ghost use Rattle.scl_small.specs.TaskingValues.{word_of, is_path};

    ghost word_of = { word_of };

    ghost is_path = { is_path };

    fn into_arg_os_string(&self, alloc: Global) -> Mem<Vec<u8>> {
        Vec::from_slice(alloc, self.held().word())
    }

    fn into_arg_string<F: FnMut(&[u8]) -> Option<String>>(
        &self,
        alloc: Global,
        f: &mut F,
    ) -> ArgToStringResult {
        self.held().text(alloc, f)
    }
}

impl ArgumentValue for ArgData {
    ghost use Rattle.scl_values.specs.Values.{MakesOf};
    ghost use Rattle.scl_small.specs.TaskingValues.{word_of, kind_of, holds_value};

    type Kind = Kind;

    ghost make_gives = { MakesOf kind_of word_of holds_value };

    ghost holds_value = { holds_value };

    ghost kind_of = { kind_of };

    fn make(_alloc: Global, kind: Kind, word: Vec<u8>) -> ArgParseResult<ArgData> {
        kinds!(made of kind, word)
    }
}

impl ExactArg for ArgData {
    ghost use Rattle.scl_small.specs.TaskingValues.{word_of, kind_of, holds_value};
    ghost use Rattle.scl_values.specs.Values.{exact, keeps};

    ghost exact = { exact kind_of word_of holds_value };

    ghost keeps = { keeps kind_of word_of holds_value };
}
