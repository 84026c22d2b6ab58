//! The names of dangers and compilers.
ghost use Rattle.std.specs.Prelude.{◌≡◌};
ghost use Rattle.std.specs.List.{list_any};
ghost use Rattle.scl_catalogue.specs.Views.{case_of, entry_of};
ghost use Rattle.scl_hazards.specs.Hazards.{compiler_name, danger_name};
ghost use Rattle.scl_hazards.specs.Serving.{is_case_of, is_of, serves};

use scl_catalogue::{Case, Compiler, Danger, Entry, Served};

/// The name of a danger, as programs print it.
pub fn danger_name(danger: Danger) -> &'static str
    ensures { result.now ≡ danger_name danger }
{
    match danger {
        Danger::Object => "object",
        Danger::Failure => "failure",
        Danger::SideFile => "side-file",
        Danger::Messages => "messages",
        Danger::Run => "run",
    }
}

/// The name of a compiler, as programs print it.
pub fn compiler_name(compiler: Compiler) -> &'static str
    ensures { result.now ≡ compiler_name compiler }
{
    match compiler {
        Compiler::Gcc => "gcc",
        Compiler::Clang => "clang",
        Compiler::ClangCl => "clang-cl",
        Compiler::Cl => "cl",
        Compiler::Diab => "diab",
        Compiler::Tasking => "tasking",
    }
}

fn serves(served: &[Served], compiler: Compiler) -> bool
    ensures { result ≡ list_any (serves compiler) served.now }
{
    for one in served {
        if one.compiler == compiler {
            return true;
        }
    }
    false
}

fn is_case_of(case: &Case, compiler: Compiler) -> bool
    ensures { result ≡ is_case_of compiler (case_of case.now) }
{
    serves(&case.served, compiler)
}

/// Whether a case of the entry speaks of the compiler, in one of its versions.
pub fn is_of(entry: &Entry, compiler: Compiler) -> bool
    ensures { result ≡ is_of compiler (entry_of entry.now) }
{
    for case in &entry.cases {
        if is_case_of(case, compiler) {
            return true;
        }
    }
    false
}
