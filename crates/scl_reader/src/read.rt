//! A command line of any compiler that is served is read.
ghost use Rattle.std.specs.Prelude.{◌≡◌, ◌∷◌, [], true, false, length, IfOk, IsTrue, MatchResult};
ghost use Rattle.scl_files.specs.Expanded.{IsExpanded, expanded_of};
ghost use Rattle.scl_files.specs.Openings.{is_expanded_within};
ghost use Rattle.scl_files.specs.Sources.{indices};
ghost use Rattle.scl_files.specs.Within.{is_within};
ghost use Rattle.scl_gnu_reading.specs.ClangRows.{clang_tables};
ghost use Rattle.scl_gnu_reading.specs.Data.{holds_value};
ghost use Rattle.scl_gnu_reading.specs.GccRows.{gcc_rows};
ghost use Rattle.scl_msvc.specs.Reads.{is_surrounded_within, surrounded_read};
ghost use Rattle.scl_values.specs.Tables.{tables_hold_values};
ghost use Rattle.scl_values.specs.Words.{words_of};
ghost use Rattle.scl_reader.specs.CommandLines.{asked_for, given_by};
ghost use Rattle.scl_reader.specs.Reads.{read_of, gnu_read, diab_read, tasking_read};
ghost use Rattle.scl_reader.specs.Within.{has_at_most, in_directory, is_gnu_within};

use crate::command_line::CommandLine;
use crate::compiler::Compiler;
use crate::reading::Reading;
use scl_args::{FlagTree, SearchableArgInfo};
use scl_gnu::{clang, gcc};
use scl_gnu_reading::gcc::GnuReading;
use scl_msvc::msvc;
use scl_small::{SmallReading, diab, tasking_vx};
use scl_text::command::copy_words;
use scl_text::records::CCompilerKind;
use scl_text::{
    Expanded, ExpansionKind, Limits, Mem, Sourced, TooManyWords, expand_line, standing_line,
};
use std::alloc::Global;

/// The limits in a directory: each word may be a path that is written behind it, and all of these are within the bytes.
fn in_directory(most: Limits, directory: &[u8]) -> Limits
    ensures { result ≡ in_directory most directory.now }
{
    if directory.is_empty() {
        return most;
    }
    Limits {
        words: most.words.min(most.bytes / directory.len()),
        bytes: most.bytes,
    }
}

/// The words of a line, copied, with their indices.
fn given(alloc: Global, line: &CommandLine<'_>) -> Mem<Sourced>
    ensures words { IfOk result (λ given. words_of given.words.items ≡ words_of line.now.words.now) }
    ensures ats { IfOk result (λ given. given.ats.items ≡ indices (length (words_of line.now.words.now))) }
{
    Sourced::given(alloc, copy_words(alloc, line.words)?)
}

/// The words of a line, with response files put in place.
fn expanded(
    alloc: Global,
    kind: ExpansionKind,
    line: &CommandLine<'_>,
    most: Limits,
) -> Mem<Result<Expanded, TooManyWords>>
    ensures { IfOk result (λ said. let words = words_of line.now.words.now in IsExpanded most kind line.now.directory.now line.now.view.now.files words (indices (length words)) said) }
{
    let given = given(alloc, line)?;
    expand_line(alloc, kind, line.directory, given, line.view, most)
}

/// A driver of Gcc or Clang.
#[derive(Clone, Copy)]
struct GnuDriver {
    kind: CCompilerKind,
    plusplus: bool,
}

/// A command line of Gcc or Clang, by these tables.
fn read_gnu<S: SearchableArgInfo<gcc::ArgData>>(
    alloc: Global,
    line: &CommandLine<'_>,
    arg_info: &S,
    driver: GnuDriver,
    most: Limits,
) -> Mem<Result<Reading, TooManyWords>>
    requires { IsTrue (tables_hold_values holds_value (S.tables arg_info.now)) }
    ensures { IfOk result (λ said. let within = is_gnu_within most driver.kind (S.tables arg_info.now) (given_by line.now) in
        MatchResult said (λ reading. (within ≡ true) × (reading ≡ Reading.Gnu (gnu_read driver.kind driver.plusplus (S.tables arg_info.now) (given_by line.now)))) (λ _. within ≡ false)) }
{
    let expanded = match expanded(alloc, ExpansionKind::Gnu, line, most)? {
        Ok(expanded) => expanded,
        Err(too_many) => return Ok(Err(too_many)),
    };
    let (directory, view) = (line.directory, line.view);
    let GnuDriver { kind, plusplus } = driver;
    match GnuReading::read(
        alloc, expanded, directory, arg_info, plusplus, kind, view, most,
    )? {
        Ok(reading) => Ok(Ok(Reading::Gnu(reading))),
        Err(too_many) => Ok(Err(too_many)),
    }
}

/// A command line of Gcc.
fn read_gcc(
    alloc: Global,
    line: &CommandLine<'_>,
    plusplus: bool,
    most: Limits,
) -> Mem<Result<Reading, TooManyWords>>
    ensures { IfOk result (λ said. let within = is_gnu_within most CCompilerKind.Gcc (gcc_rows ∷ []) (given_by line.now) in
        MatchResult said (λ reading. (within ≡ true) × (reading ≡ Reading.Gnu (gnu_read CCompilerKind.Gcc plusplus (gcc_rows ∷ []) (given_by line.now)))) (λ _. within ≡ false)) }
{
    let tree = FlagTree::build(alloc, &gcc::table())?;
    let kind = CCompilerKind::Gcc;
    read_gnu(alloc, line, &tree, GnuDriver { kind, plusplus }, most)
}

/// A command line of Clang.
fn read_clang(
    alloc: Global,
    line: &CommandLine<'_>,
    plusplus: bool,
    most: Limits,
) -> Mem<Result<Reading, TooManyWords>>
    ensures { IfOk result (λ said. let within = is_gnu_within most CCompilerKind.Clang clang_tables (given_by line.now) in
        MatchResult said (λ reading. (within ≡ true) × (reading ≡ Reading.Gnu (gnu_read CCompilerKind.Clang plusplus clang_tables (given_by line.now)))) (λ _. within ≡ false)) }
{
    let trees = clang::trees(alloc)?;
    let kind = CCompilerKind::Clang;
    read_gnu(alloc, line, &trees, GnuDriver { kind, plusplus }, most)
}

/// A command line of cl or clang-cl.
fn read_msvc(
    alloc: Global,
    line: &CommandLine<'_>,
    is_clang: bool,
    most: Limits,
) -> Mem<Result<Reading, TooManyWords>>
    ensures { IfOk result (λ said. let g = given_by line.now in let within = is_surrounded_within most is_clang g.directory g.environment g.view g.words in
        MatchResult said (λ reading. (within ≡ true) × (reading ≡ Reading.Msvc (surrounded_read is_clang g.directory g.environment g.view g.words))) (λ _. within ≡ false)) }
{
    let (words, directory) = (line.words, line.directory);
    let (environment, view) = (line.environment, line.view);
    match msvc::read_surrounded(alloc, words, directory, environment, is_clang, view, most)? {
        Ok(reading) => Ok(Ok(Reading::Msvc(reading))),
        Err(too_many) => Ok(Err(too_many)),
    }
}

/// A command line of Diab.
fn read_diab(
    alloc: Global,
    line: &CommandLine<'_>,
    most: Limits,
) -> Mem<Result<Reading, TooManyWords>>
    ensures { IfOk result (λ said. let within = is_expanded_within most ExpansionKind.Diab line.now.directory.now line.now.view.now.files (words_of line.now.words.now) in
        MatchResult said (λ reading. (within ≡ true) × (reading ≡ Reading.Diab (diab_read (given_by line.now)))) (λ _. within ≡ false)) }
{
    let expanded = match expanded(alloc, ExpansionKind::Diab, line, most)? {
        Ok(expanded) => expanded,
        Err(too_many) => return Ok(Err(too_many)),
    };
    let tree = FlagTree::build(alloc, &diab::table())?;
    Ok(Ok(Reading::Diab(SmallReading::read(alloc, expanded, &tree)?)))
}

/// A command line of TaskingVX, in which no file is put in place.
fn read_tasking(
    alloc: Global,
    line: &CommandLine<'_>,
    most: Limits,
) -> Mem<Result<Reading, TooManyWords>>
    ensures { IfOk result (λ said. let within = is_within most (words_of line.now.words.now) in
        MatchResult said (λ reading. (within ≡ true) × (reading ≡ Reading.Tasking (tasking_read (given_by line.now)))) (λ _. within ≡ false)) }
{
    let expanded = match standing_line(alloc, given(alloc, line)?, most) {
        Ok(expanded) => expanded,
        Err(too_many) => return Ok(Err(too_many)),
    };
    let tree = FlagTree::build(alloc, &tasking_vx::table())?;
    Ok(Ok(Reading::Tasking(SmallReading::read(alloc, expanded, &tree)?)))
}

impl Compiler {
    /// The command line, read once, where each of its lines, given and inner, is within the limits; else `TooManyWords`, before
    /// any is refused (docs/RULES.md, Expansion). No work is done, and no memory taken, beyond what the line, its files and the
    /// limits allow. The outer error is the refusal of memory.
    pub fn read(
        self,
        alloc: Global,
        line: &CommandLine<'_>,
        most: Limits,
    ) -> Mem<Result<Reading, TooManyWords>>
        ensures { IfOk result (λ said. let request = asked_for self (given_by line.now) in
            MatchResult said (λ reading. (has_at_most most request ≡ true) × (reading ≡ read_of request)) (λ _. has_at_most most request ≡ false)) }
    {
        let most = in_directory(most, line.directory);
        match self {
            Compiler::Gcc => read_gcc(alloc, line, false, most),
            Compiler::Gxx => read_gcc(alloc, line, true, most),
            Compiler::Clang => read_clang(alloc, line, false, most),
            Compiler::Clangxx => read_clang(alloc, line, true, most),
            Compiler::Cl => read_msvc(alloc, line, false, most),
            Compiler::ClangCl => read_msvc(alloc, line, true, most),
            Compiler::Diab => read_diab(alloc, line, most),
            Compiler::Tasking => read_tasking(alloc, line, most),
        }
    }
}
