//! What is queried of a compiler, whichever of the served ones it is.
ghost use Rattle.std.specs.Prelude.{◌≡◌, IfOk, None, string_bytes};
ghost use Rattle.std.specs.Option.{option_map};
ghost use Rattle.scl_reader.specs.Apple.{is_apple};
ghost use Rattle.scl_reader.specs.Definitions.{definitions_of, definitions_with};

use crate::apple::is_apple;
use crate::compiler::Compiler;
use scl_gnu::clang::Clang;
use scl_gnu::gcc::Gcc;
use scl_msvc::msvc::Msvc;
use scl_small::diab::Diab;
use scl_small::tasking_vx::TaskingVX;
use scl_text::{CCompilerImpl, Mem};
use std::alloc::Global;

/// What can be queried of every compiler that is served. A query holds what it is about: words, a record, settings.
pub(crate) trait Query: Sized {
    ghost use Rattle.std.specs.Prelude.{IfOk};
    ghost use Rattle.scl_text.specs.Commands.{command_by};
    ghost use Rattle.scl_reader.specs.Definitions.{Definitions};

    /// What answers it.
    type Answer;

    /// What it gives by the definitions of a compiler.
    ghost gives: { Self → Definitions → Self.Answer → Type 0 };

    /// The answer of a compiler.
    fn ask<C: CCompilerImpl>(self, alloc: Global, compiler: &C) -> Mem<Self::Answer>
        ensures { IfOk result (λ answer. gives self (record {
          reading = λ line. C.reading compiler.now line.words line.directory line.environment line.view;
          command = command_by (C.command compiler.now);
          environment = C.environment compiler.now;
          cacheable = λ line parsed. C.cacheable compiler.now parsed line.directory line.view;
          is_read_again = λ line. C.is_read_again compiler.now line.words line.directory line.environment line.view;
          runs = C.runs compiler.now;
        }) answer) };
}

/// Clang, whose version has this text, if it is known: Apple's where the text says so.
fn clang(clangplusplus: bool, version: Option<String>) -> Clang
    ensures driver { result.clangplusplus ≡ clangplusplus }
    ensures maker { result.is_appleclang ≡ is_apple (option_map string_bytes version) }
    ensures version { option_map string_bytes result.version ≡ option_map string_bytes version }
    ensures assembler { result.assembler_digest ≡ None }
{
    Clang {
        clangplusplus,
        is_appleclang: is_apple(version.as_deref()),
        version,
        assembler_digest: None,
    }
}

impl Compiler {
    /// The answer to a query, by the definitions of the compiler with this name, of which no version is known (docs/RULES.md,
    /// Compilers).
    pub(crate) fn ask<Q: Query>(self, alloc: Global, query: Q) -> Mem<Q::Answer>
        ensures { IfOk result (λ answer. Q.gives query (definitions_of self) answer) }
    {
        self.ask_with(alloc, query, None)
    }

    /// The answer to a query, by the definitions of the compiler with this name, whose version has this text, if it is known
    /// (docs/RULES.md, Compilers): no other than Clang's is looked at.
    pub(crate) fn ask_with<Q: Query>(
        self,
        alloc: Global,
        query: Q,
        version: Option<String>,
    ) -> Mem<Q::Answer>
        ensures { IfOk result (λ answer. Q.gives query (definitions_with (option_map string_bytes version) self) answer) }
    {
        match self {
            Compiler::Gcc => query.ask(alloc, &Gcc::new(false)),
            Compiler::Gxx => query.ask(alloc, &Gcc::new(true)),
            Compiler::Clang => query.ask(alloc, &clang(false, version)),
            Compiler::Clangxx => query.ask(alloc, &clang(true, version)),
            Compiler::Cl => query.ask(alloc, &Msvc::new(false, String::new(alloc))),
            Compiler::ClangCl => query.ask(alloc, &Msvc::new(true, String::new(alloc))),
            Compiler::Diab => query.ask(alloc, &Diab::new()),
            Compiler::Tasking => query.ask(alloc, &TaskingVX),
        }
    }
}
