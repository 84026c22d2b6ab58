//! What the compilers have in common.
ghost use Rattle.std.specs.Prelude.{◌≡◌, map};
ghost use Rattle.scl_key.specs.Families.{folder_variables, has_plan, is_clang, is_gcc, is_gnu, notes_by_runs, unset_variables, variables};

use scl_reader::Compiler;

/// Variables of the language and look of gcc's messages.
static GCC_MESSAGE_VARIABLES: [&'static [u8]; 9] = [
    b"LC_ALL",
    b"LC_CTYPE",
    b"LC_MESSAGES",
    b"LANG",
    b"LANGUAGE",
    b"GCC_COLORS",
    b"GCC_URLS",
    b"TERM_URLS",
    b"GCC_EXTRA_DIAGNOSTIC_OUTPUT",
];

/// The variable of the language of cl's messages.
static CL_MESSAGE_VARIABLES: [&'static [u8]; 1] = [b"VSLANG"];

/// Variables by which gcc writes a file.
static GCC_FILE_VARIABLES: [&'static [u8]; 2] = [b"DEPENDENCIES_OUTPUT", b"SUNPRO_DEPENDENCIES"];

/// Variables by which clang writes a file, and one that changes its words.
static CLANG_FILE_VARIABLES: [&'static [u8]; 5] = [
    b"CC_PRINT_OPTIONS",
    b"CC_PRINT_HEADERS",
    b"CC_LOG_DIAGNOSTICS",
    b"CC_PRINT_PROC_STAT",
    b"CCC_OVERRIDE_OPTIONS",
];

/// Variables that add words.
static CL_WORD_VARIABLES: [&'static [u8]; 2] = [b"CL", b"_CL_"];

/// A variable that adds words for Diab.
static DIAB_WORD_VARIABLES: [&'static [u8]; 1] = [b"DFLAGS"];

/// A variable that adds words for TaskingVX.
static TASKING_WORD_VARIABLES: [&'static [u8]; 1] = [b"CCTCOPT"];

/// Variables that add words, or by which clang-cl writes a file.
static CLANG_CL_VARIABLES: [&'static [u8]; 7] = [
    b"CL",
    b"_CL_",
    b"CC_PRINT_OPTIONS",
    b"CC_PRINT_HEADERS",
    b"CC_LOG_DIAGNOSTICS",
    b"CC_PRINT_PROC_STAT",
    b"CCC_OVERRIDE_OPTIONS",
];

/// Variables that name folders in which headers are searched.
static FOLDER_VARIABLES: [&'static [u8]; 4] = [
    b"CPATH",
    b"C_INCLUDE_PATH",
    b"CPLUS_INCLUDE_PATH",
    b"OBJC_INCLUDE_PATH",
];

/// Whether it is a driver of Gcc or Clang.
pub(crate) fn is_gnu(compiler: Compiler) -> bool
    ensures { result ≡ is_gnu compiler }
{
    is_gcc(compiler) || is_clang(compiler)
}

/// Whether it is a driver of Gcc.
pub fn is_gcc(compiler: Compiler) -> bool
    ensures { result ≡ is_gcc compiler }
{
    match compiler {
        Compiler::Gcc | Compiler::Gxx => true,
        Compiler::Clang
        | Compiler::Clangxx
        | Compiler::Cl
        | Compiler::ClangCl
        | Compiler::Diab
        | Compiler::Tasking => false,
    }
}

/// Whether it is a driver of Clang.
pub fn is_clang(compiler: Compiler) -> bool
    ensures { result ≡ is_clang compiler }
{
    match compiler {
        Compiler::Clang | Compiler::Clangxx => true,
        Compiler::Gcc
        | Compiler::Gxx
        | Compiler::Cl
        | Compiler::ClangCl
        | Compiler::Diab
        | Compiler::Tasking => false,
    }
}

/// Whether it is a compiler whose runs of the preprocessor write the file of dependencies, and not its command.
pub(crate) fn notes_by_runs(compiler: Compiler) -> bool
    ensures { result ≡ notes_by_runs compiler }
{
    match compiler {
        Compiler::Diab | Compiler::Tasking => true,
        Compiler::Gcc
        | Compiler::Gxx
        | Compiler::Clang
        | Compiler::Clangxx
        | Compiler::Cl
        | Compiler::ClangCl => false,
    }
}

/// Variables that decide, and that neither a plan nor a run shows.
pub(crate) fn variables(compiler: Compiler) -> &'static [&'static [u8]]
    ensures { map (λ name. name.now) result.now ≡ variables compiler }
{
    match compiler {
        Compiler::Gcc | Compiler::Gxx => &GCC_MESSAGE_VARIABLES,
        Compiler::Cl => &CL_MESSAGE_VARIABLES,
        Compiler::Clang
        | Compiler::Clangxx
        | Compiler::ClangCl
        | Compiler::Diab
        | Compiler::Tasking => &[],
    }
}

/// Variables that must not be set.
pub(crate) fn unset_variables(compiler: Compiler) -> &'static [&'static [u8]]
    ensures { map (λ name. name.now) result.now ≡ unset_variables compiler }
{
    match compiler {
        Compiler::Gcc | Compiler::Gxx => &GCC_FILE_VARIABLES,
        Compiler::Clang | Compiler::Clangxx => &CLANG_FILE_VARIABLES,
        Compiler::Cl => &CL_WORD_VARIABLES,
        Compiler::ClangCl => &CLANG_CL_VARIABLES,
        Compiler::Diab => &DIAB_WORD_VARIABLES,
        Compiler::Tasking => &TASKING_WORD_VARIABLES,
    }
}

/// Variables that name folders in which headers are searched.
pub(crate) fn folder_variables() -> &'static [&'static [u8]]
    ensures { map (λ name. name.now) result.now ≡ folder_variables }
{
    &FOLDER_VARIABLES
}
