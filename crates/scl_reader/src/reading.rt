//! A command line that was read.
ghost use Rattle.std.specs.Prelude.{◌≡◌, ◌++◌, IfOk, OnOk};
ghost use Rattle.std.specs.Option.{option_copied, option_map};
ghost use Rattle.std.specs.Result.{result_ok};
ghost use Rattle.scl_text.specs.Records.{outcome_of, parsed_of};
ghost use Rattle.scl_values.specs.Words.{words_of};
ghost use Rattle.scl_reader.specs.Reads.{compiler_of, files_lacked, gnu_compiler, lacked_of, msvc_compiler, named_by, outcome_in};

use crate::compiler::Compiler;
use scl_gnu_reading::gcc::GnuReading;
use scl_msvc_reading::msvc::MsvcReading;
use scl_small::{SmallReading, diab, tasking_vx};
use scl_text::records::{CCompilerKind, CompilerArguments, ParsedArguments};
use scl_text::{ExpansionKind, Mem};
use std::alloc::Global;

/// A command line that was read: all that is said of it is a function of this.
#[derive(Drop)]
pub enum Reading {
    /// That of gcc, g++, clang or clang++.
    Gnu(GnuReading),
    /// That of cl or clang-cl.
    Msvc(MsvcReading),
    /// That of Diab.
    Diab(SmallReading<diab::ArgData>),
    /// That of TaskingVX.
    Tasking(SmallReading<tasking_vx::ArgData>),
}

/// A response file that a command line names and its view lacks.
#[derive(Debug, Drop)]
pub struct LackedFile {
    /// Whose response file it is.
    pub kind: ExpansionKind,
    /// Its path.
    pub path: Vec<u8>,
}

/// The driver of Gcc or Clang of this kind.
fn gnu_compiler(kind: CCompilerKind, plusplus: bool) -> Compiler
    ensures { result ≡ gnu_compiler kind plusplus }
{
    let is_clang = kind == CCompilerKind::Clang;
    match (is_clang, plusplus) {
        (false, false) => Compiler::Gcc,
        (false, true) => Compiler::Gxx,
        (true, false) => Compiler::Clang,
        (true, true) => Compiler::Clangxx,
    }
}

/// Appends files of a kind, by their paths.
fn push_lacked(
    alloc: Global,
    files: &mut Vec<LackedFile>,
    kind: ExpansionKind,
    paths: &[Vec<u8>],
) -> Mem<()>
    ensures { OnOk result (lacked_of files.new.items ≡ lacked_of files.old.items ++ named_by kind (words_of paths.now)) }
{
    for path in paths {
        let path = Vec::from_slice(alloc, path)?;
        files.push(LackedFile { kind, path })?;
    }
    Ok(())
}

/// Appends the files that the lines of cl or clang-cl lack, given and inner.
fn push_lacked_of_cl(alloc: Global, files: &mut Vec<LackedFile>, reading: &MsvcReading) -> Mem<()>
    ensures { OnOk result (lacked_of files.new.items ≡ lacked_of files.old.items ++ files_lacked (Reading.Msvc reading.now)) }
{
    let (outer, xclang) = (reading.outer().lacked(), reading.xclang().lacked());
    push_lacked(alloc, files, ExpansionKind::Msvc, outer)?;
    push_lacked(alloc, files, ExpansionKind::Gnu, xclang)?;
    push_lacked(alloc, files, ExpansionKind::Gnu, reading.clang().lacked())
}

impl Reading {
    /// The compiler that read it.
    pub fn compiler(&self) -> Compiler
        ensures { result ≡ compiler_of self.now }
    {
        match self {
            Reading::Gnu(reading) => gnu_compiler(reading.kind(), reading.plusplus()),
            Reading::Msvc(reading) if reading.is_clang() => Compiler::ClangCl,
            Reading::Msvc(_) => Compiler::Cl,
            Reading::Diab(_) => Compiler::Diab,
            Reading::Tasking(_) => Compiler::Tasking,
        }
    }

    /// What it says: the record, or why it is refused.
    pub fn outcome(&self) -> &CompilerArguments<ParsedArguments>
        ensures { outcome_of result.now ≡ outcome_in self.now }
    {
        match self {
            Reading::Gnu(reading) => reading.outcome(),
            Reading::Msvc(reading) => reading.outcome(),
            Reading::Diab(reading) => reading.outcome(),
            Reading::Tasking(reading) => reading.outcome(),
        }
    }

    /// What it says, and nothing else of it.
    pub fn into_outcome(self) -> CompilerArguments<ParsedArguments>
        ensures { outcome_of result ≡ outcome_in self }
    {
        match self {
            Reading::Gnu(reading) => reading.into_outcome(),
            Reading::Msvc(reading) => reading.into_outcome(),
            Reading::Diab(reading) => reading.into_outcome(),
            Reading::Tasking(reading) => reading.into_outcome(),
        }
    }

    /// The record, if it has one.
    pub fn record(&self) -> Option<&ParsedArguments>
        ensures { option_map parsed_of (option_copied result) ≡ result_ok (outcome_in self.now) }
    {
        match self.outcome() {
            CompilerArguments::Ok(parsed) => Some(parsed),
            CompilerArguments::CannotCache(_, _) | CompilerArguments::NotCompilation => None,
        }
    }

    /// The response files that its command lines name and the view lacks: those that given words ask for, then for cl and
    /// clang-cl those that inner ones do, in order and as often as they are asked for.
    pub fn files_lacked(&self, alloc: Global) -> Mem<Vec<LackedFile>>
        ensures { IfOk result (λ files. lacked_of files.items ≡ files_lacked self.now) }
    {
        let mut files = Vec::new(alloc);
        match self {
            Reading::Gnu(reading) => {
                let lacked = reading.outer().lacked();
                push_lacked(alloc, &mut files, ExpansionKind::Gnu, lacked)?;
            }
            Reading::Msvc(reading) => push_lacked_of_cl(alloc, &mut files, reading)?,
            Reading::Diab(reading) => {
                let lacked = reading.outer().lacked();
                push_lacked(alloc, &mut files, ExpansionKind::Diab, lacked)?;
            }
            Reading::Tasking(_) => {}
        }
        Ok(files)
    }
}
