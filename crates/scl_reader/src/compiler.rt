//! The compilers that are served.
ghost use Rattle.std.specs.Prelude.{◌≡◌};
ghost use Rattle.scl_reader.specs.Compilers.{name_of, served, compiler_named, expansion_of};

use scl_text::ExpansionKind;

/// A compiler that is served (docs/RULES.md, Requests).
#[derive(Debug, Clone, Copy, PartialEq, Eq)]
pub enum Compiler {
    /// Gcc, as its driver for C.
    Gcc,
    /// Gcc, as its driver for C++.
    Gxx,
    /// Clang, as its driver for C.
    Clang,
    /// Clang, as its driver for C++.
    Clangxx,
    /// Microsoft's cl.
    Cl,
    /// Clang, as a driver in the place of cl.
    ClangCl,
    /// Diab.
    Diab,
    /// TaskingVX.
    Tasking,
}

/// The compilers that are served (docs/DESIGN.md, Recipes, has what a new one takes).
static SERVED: [Compiler; 8] = [
    Compiler::Gcc,
    Compiler::Gxx,
    Compiler::Clang,
    Compiler::Clangxx,
    Compiler::Cl,
    Compiler::ClangCl,
    Compiler::Diab,
    Compiler::Tasking,
];

fn served() -> &'static [Compiler]
    ensures { result.now ≡ served }
{
    &SERVED
}

impl Compiler {
    /// The name that a request gives the compiler (docs/RULES.md, Requests).
    pub fn name(self) -> &'static str
        ensures { result.now ≡ name_of self }
    {
        match self {
            Compiler::Gcc => "gcc",
            Compiler::Gxx => "g++",
            Compiler::Clang => "clang",
            Compiler::Clangxx => "clang++",
            Compiler::Cl => "cl",
            Compiler::ClangCl => "clang-cl",
            Compiler::Diab => "diab",
            Compiler::Tasking => "tasking",
        }
    }

    /// The compiler with this name, if it is served (docs/RULES.md, Requests).
    pub fn named(name: &[u8]) -> Option<Compiler>
        ensures { result ≡ compiler_named name.now }
    {
        served()
            .iter()
            .copied()
            .find(|compiler| compiler.name().as_bytes() == name)
    }
    /// Whose response files the given words name, if they may name any (docs/RULES.md, Expansion).
    pub fn expansion(self) -> Option<ExpansionKind>
        ensures { result ≡ expansion_of self }
    {
        match self {
            Compiler::Gcc | Compiler::Gxx | Compiler::Clang | Compiler::Clangxx => {
                Some(ExpansionKind::Gnu)
            }
            Compiler::Cl | Compiler::ClangCl => Some(ExpansionKind::Msvc),
            Compiler::Diab => Some(ExpansionKind::Diab),
            Compiler::Tasking => None,
        }
    }
}
