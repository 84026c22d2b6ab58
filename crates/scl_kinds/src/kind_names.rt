//! The names of kinds of options, a row each, in the order of their enums.
use scl_gnu_reading::gcc;
use scl_msvc_reading::msvc;
use scl_small::{diab, tasking_vx};

/// A kind, its name in descriptions, and that in catalogues.
type Names<K> = (K, &'static str, &'static str);

macro_rules! names {
    ($compiler:ident: $($kind:ident $text:literal,)*) => {
        [$(($compiler::Kind::$kind, stringify!($kind), $text)),*]
    };
}

/// Of gcc and clang.
pub(crate) static GNU: &[Names<gcc::Kind>] = &names![
    gcc:
    TooHardFlag "too-hard-flag",
    TooHard "too-hard",
    DiagnosticsColor "diagnostics-color",
    DiagnosticsColorFlag "diagnostics-color-flag",
    NoDiagnosticsColorFlag "no-diagnostics-color-flag",
    Arch "arch",
    Coverage "coverage",
    TestCoverage "test-coverage",
    DepArgumentPath "dep-argument-path",
    DepTarget "dep-target",
    NeedDepTarget "need-dep-target",
    DoCompilation "do-compilation",
    ExtraHashFile "extra-hash-file",
    ExtraHashFileClangModuleFile "extra-hash-file-clang-module-file",
    Language "language",
    SplitDwarf "split-dwarf",
    Output "output",
    PassThrough "pass-through",
    PassThroughFlag "pass-through-flag",
    PassThroughPath "pass-through-path",
    PreprocessorArgument "preprocessor-argument",
    PreprocessorArgumentFlag "preprocessor-argument-flag",
    PreprocessorArgumentPath "preprocessor-argument-path",
    ProfileGenerate "profile-generate",
    ClangProfileUse "clang-profile-use",
    SerializeDiagnostics "serialize-diagnostics",
    UnhashedFlag "unhashed-flag",
    Unhashed "unhashed",
    PedanticFlag "pedantic-flag",
    Standard "standard",
    XClang "x-clang",
    ModuleOnlyFlag "module-only-flag",
    ClangModuleOutput "clang-module-output",
    IntegratedAs "integrated-as",
    NoIntegratedAs "no-integrated-as",
];

/// Of cl and clang-cl.
pub(crate) static MSVC: &[Names<msvc::Kind>] = &names![
    msvc:
    TooHardFlag "too-hard-flag",
    TooHard "too-hard",
    TooHardPath "too-hard-path",
    SuppressCompilation "suppress-compilation",
    DoCompilation "do-compilation",
    Output "output",
    CInput "c-input",
    CxxInput "cxx-input",
    ClangLanguage "clang-language",
    ClangModuleFile "clang-module-file",
    ClangModuleOutput "clang-module-output",
    ExtraHashFile "extra-hash-file",
    DebugInfo "debug-info",
    ProgramDatabase "program-database",
    DepFile "dep-file",
    ShowIncludes "show-includes",
    PreprocessorArgument "preprocessor-argument",
    PreprocessorArgumentPath "preprocessor-argument-path",
    ExternalIncludePath "external-include-path",
    PassThrough "pass-through",
    PassThroughWithPath "pass-through-with-path",
    PassThroughWithSuffix "pass-through-with-suffix",
    XClang "x-clang",
    Clang "clang",
    Ignore "ignore",
    IgnoreWithSuffix "ignore-with-suffix",
];

/// Of Diab.
pub(crate) static DIAB: &[Names<diab::Kind>] = &names![
    diab:
    TooHardFlag "too-hard-flag",
    TooHard "too-hard",
    DoCompilation "do-compilation",
    Output "output",
    PassThrough "pass-through",
    PreprocessorArgument "preprocessor-argument",
    PreprocessorArgumentPath "preprocessor-argument-path",
    DepArgumentFlag "dep-argument-flag",
    DepArgument "dep-argument",
    DepArgumentPath "dep-argument-path",
];

/// Of TaskingVX.
pub(crate) static TASKING: &[Names<tasking_vx::Kind>] = &names![
    tasking_vx:
    TooHardFlag "too-hard-flag",
    TooHard "too-hard",
    NotCompilationFlag "not-compilation-flag",
    NotCompilation "not-compilation",
    DoCompilation "do-compilation",
    Output "output",
    PassThrough "pass-through",
    PreprocessorArgument "preprocessor-argument",
    PreprocessorArgumentPath "preprocessor-argument-path",
    DepFile "dep-file",
];

/// A kind of options that has names.
pub trait NamedKind {
    ghost use Rattle.std.specs.Prelude.{◌≡◌, ℕ, List};
    ghost use Rattle.scl_kinds.specs.KindNames.{lowered};

    ghost name_of: { Self → List ℕ };

    /// Its name in descriptions (docs/FLAGS.md).
    fn name(&self) -> &'static str
        ensures { result.now ≡ name_of self.now };

    /// Its name in catalogues: the same in lower case, with a `-` between words.
    fn text(&self) -> &'static str
        ensures { result.now ≡ lowered (name_of self.now) };
}

impl NamedKind for gcc::Kind {
    ghost use Rattle.scl_kinds.specs.KindNames.{gnu_kind_name};

    ghost name_of = { gnu_kind_name };

    #[tactic(auto, unfolding(crate::specs::KindNames::gnu_kind_name))]
    fn name(&self) -> &'static str {
        GNU[*self as usize].1
    }

    #[tactic(auto, unfolding(crate::specs::KindNames::gnu_kind_name))]
    fn text(&self) -> &'static str {
        GNU[*self as usize].2
    }
}

impl NamedKind for msvc::Kind {
    ghost use Rattle.scl_kinds.specs.KindNames.{msvc_kind_name};

    ghost name_of = { msvc_kind_name };

    #[tactic(auto, unfolding(crate::specs::KindNames::msvc_kind_name))]
    fn name(&self) -> &'static str {
        MSVC[*self as usize].1
    }

    #[tactic(auto, unfolding(crate::specs::KindNames::msvc_kind_name))]
    fn text(&self) -> &'static str {
        MSVC[*self as usize].2
    }
}

impl NamedKind for diab::Kind {
    ghost use Rattle.scl_kinds.specs.KindNames.{diab_kind_name};

    ghost name_of = { diab_kind_name };

    #[tactic(auto, unfolding(crate::specs::KindNames::diab_kind_name))]
    fn name(&self) -> &'static str {
        DIAB[*self as usize].1
    }

    #[tactic(auto, unfolding(crate::specs::KindNames::diab_kind_name))]
    fn text(&self) -> &'static str {
        DIAB[*self as usize].2
    }
}

impl NamedKind for tasking_vx::Kind {
    ghost use Rattle.scl_kinds.specs.KindNames.{tasking_kind_name};

    ghost name_of = { tasking_kind_name };

    #[tactic(auto, unfolding(crate::specs::KindNames::tasking_kind_name))]
    fn name(&self) -> &'static str {
        TASKING[*self as usize].1
    }

    #[tactic(auto, unfolding(crate::specs::KindNames::tasking_kind_name))]
    fn text(&self) -> &'static str {
        TASKING[*self as usize].2
    }
}
