//! The names of compilers.
ghost use Rattle.std.specs.Prelude.{◌≡◌, IfOk, map};
ghost use Rattle.scl_names.specs.Names.{entry_of, names, is_open, before_number, stands, fits, compiler_named, compiler_of};

use crate::file_name::{stem_of, without_number};
use scl_reader::{Compiler, Mem};
use std::alloc::Global;

/// How a name may be used.
#[derive(Clone, Copy)]
pub(crate) enum Standing {
    /// Only by itself.
    Alone,
    /// By itself, or after a prefix that ends in `-`, such as `x86_64-linux-gnu-gcc`.
    Prefixed,
    /// The same, and digits may follow it, such as FreeBSD's `gcc12`.
    Numbered,
}

/// A name, and its compiler.
pub(crate) struct Name {
    text: &'static str,
    standing: Standing,
    compiler: Compiler,
}

macro_rules! names {
    ($($text:literal $standing:ident $compiler:ident,)*) => {
        [$(Name { text: $text, standing: Standing::$standing, compiler: Compiler::$compiler },)*]
    };
}

/// The known names. No program matches two of them.
static NAMES: &[Name] = &names![
    "clang-cl" Numbered ClangCl,
    "clang++" Numbered Clangxx,
    "clang" Numbered Clang,
    "amdclang++" Prefixed Clangxx,
    "amdclang" Prefixed Clang,
    "g++" Numbered Gxx,
    "gcc" Numbered Gcc,
    "c++" Prefixed Gxx,
    "cc" Prefixed Gcc,
    "cl" Alone Cl,
    "dcc" Alone Diab,
    "cctc" Alone Tasking,
];

fn names() -> &'static [Name]
    ensures { map entry_of result.now ≡ names }
{
    NAMES
}

/// Whether a name may follow this: it is empty, or ends in `-`.
fn is_open(before: &[u8]) -> bool
    ensures { result ≡ is_open before.now }
{
    before.is_empty() || before.ends_with(b"-")
}

impl Standing {
    /// What a name that is used so ends: the whole, or what stands before its digits.
    fn numbered_part(self, stem: &[u8]) -> &[u8]
        ensures { result.now ≡ before_number self stem.now }
    {
        match self {
            Standing::Alone | Standing::Prefixed => stem,
            Standing::Numbered => without_number(stem),
        }
    }

    /// Whether a name that is used so may follow this.
    fn is_behind(self, before: &[u8]) -> bool
        ensures { result ≡ stands self before.now }
    {
        match self {
            Standing::Alone => before.is_empty(),
            Standing::Prefixed | Standing::Numbered => is_open(before),
        }
    }
}

#[tactic(auto, unfolding(crate::specs::Names::fits))]
fn fits(name: &Name, stem: &[u8]) -> bool
    ensures { result ≡ fits stem.now (entry_of name.now) }
{
    match name
        .standing
        .numbered_part(stem)
        .strip_suffix(name.text.as_bytes())
    {
        Some(before) => name.standing.is_behind(before),
        None => false,
    }
}

fn compiler_named(stem: &[u8]) -> Option<Compiler>
    ensures { result ≡ compiler_named stem.now }
{
    let all = names();
    for name in all {
        if fits(name, stem) {
            return Some(name.compiler);
        }
    }
    None
}

/// The compiler of a program, by its path, if the name is known. The name is what follows the last `/` or `\`, without `.exe`
/// (in any case; the name is then compared in lower case), without a version such as `-18` or `-4.9.2`, and without a variant:
/// `-posix`, `-win32`, `-mp`. The names:
///
/// - by themselves or after a prefix that ends in `-`, and before digits: `clang-cl`, `clang++`, `clang`, `g++`, `gcc`;
/// - by themselves or after such a prefix: `amdclang++`, `amdclang`, `c++` (g++), `cc` (gcc);
/// - only by themselves: `cl`, `dcc` (Diab), `cctc` (TaskingVX).
pub fn compiler_of(alloc: Global, program: &[u8]) -> Mem<Option<Compiler>>
    ensures { IfOk result (λ compiler. compiler ≡ compiler_of program.now) }
{
    let stem = stem_of(alloc, program)?;
    Ok(compiler_named(&stem))
}
