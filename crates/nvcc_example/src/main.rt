//! Reads a command line of nvcc by Gcc's parser, with a table of its own beside Gcc's and Clang's, and prints the words of
//! the command to run in its place, or why there is none: `nvcc_example -c a.c --threads 2 -arch compute_50 -code=sm_50`.
#![tactic(auto)]

ghost use Rattle.std.specs.Prelude.{◌≡◌, [], ◌∷◌, ℕ, false, codes, List, IsTrue, IfOk, Ok};
ghost use Rattle.std.specs.List.{flat_map};
ghost use Rattle.scl_values.specs.Tables.{tables_hold_values};
ghost use Rattle.scl_values.specs.Words.{words_of};
ghost use Rattle.scl_files.specs.Views.{Viewed};
ghost use Rattle.scl_text.specs.Languages.{gcc_text};
ghost use Rattle.scl_text.specs.Records.{outcome_of, parsed_of};
ghost use Rattle.scl_gnu_reading.specs.Data.{holds_value};
ghost use Rattle.scl_gnu_reading.specs.Readings.{reading};
ghost use Rattle.scl_gnu.specs.OwnTables.{OwnCommandIsReadAgain};
ghost use Rattle.nvcc_example.specs.Nvcc.{nvcc_rows, nvcc_tables};

use bstr::ByteSlice;
use scl_args::ArgDisposition::{CanBeSeparated, Separated};
use scl_args::ArgRow::TakeArg;
use scl_args::{ArgInfo, FlagTable, Mem, Tables};
use scl_gnu::clang;
use scl_gnu::gcc::{self, ArgData, Gcc, Kind};
use scl_text::records::{
    CCompilerKind, Cacheable, CommandError, CompilerArguments, ParsedArguments,
    SingleCompileCommand,
};
use scl_text::{CCompilerImpl, View};
use std::alloc::Global;
use std::{env, io};

/// What nvcc reads differently from Gcc and Clang, in the order of the flags' bytes. A row of the last table owns its
/// flag, so `-arch` names no architecture of Gcc's here, and may stand more than once.
static NVCC: [ArgInfo<ArgData>; 4] = [
    // How many threads nvcc starts says nothing of what it makes.
    TakeArg("--threads", Kind::Unhashed, Separated),
    // A device's architecture is a word that the command keeps.
    TakeArg("-arch", Kind::PassThrough, Separated),
    // So is what is made, and for which devices; the value may follow `=`.
    TakeArg("-code", Kind::PassThrough, CanBeSeparated(Some(b'='))),
    TakeArg("-gencode", Kind::PassThrough, CanBeSeparated(Some(b'='))),
];

/// The table above.
#[tactic(auto, unfolding(crate::specs::Nvcc::nvcc_rows))]
fn nvcc_table() -> FlagTable<'static, ArgData>
    ensures rows { result ≡ nvcc_rows }
    ensures values { IsTrue (tables_hold_values holds_value (result ∷ [])) }
{
    FlagTable::new(&NVCC).unwrap()
}

/// The tables of Gcc and Clang, and the one above. The parser takes tables whose rows with a value have kinds that hold
/// one, which the second clause says of these.
fn tables(alloc: Global) -> Mem<Tables<FlagTable<'static, ArgData>>>
    ensures rows { IfOk result (λ tables. flat_map (λ table. table ∷ []) tables ≡ nvcc_tables) }
    ensures values { IfOk result (λ tables. IsTrue (tables_hold_values holds_value (flat_map (λ table. table ∷ []) tables))) }
{
    Ok(Tables::new(vec![in alloc; gcc::table(), clang::table(), nvcc_table()]?))
}

/// What the words say by the tables above, in a directory with no response files.
fn read(alloc: Global, words: &[Vec<u8>], view: &View) -> Mem<CompilerArguments<ParsedArguments>>
    ensures { IfOk result (λ answer. outcome_of answer ≡ reading CCompilerKind.Gcc false nvcc_tables (codes "/work") view.now (words_of words.now)) }
{
    let tables = tables(alloc)?;
    gcc::parse_arguments(
        alloc,
        words,
        b"/work",
        tables,
        false,
        CCompilerKind::Gcc,
        view,
    )
}

/// The command of a record, and whether its outcome may be kept. Where the record is what words say by the tables above, the command is read again by them
/// (`laws::of_own_tables` of `scl_gnu`, whose condition these tables meet by evaluation).
fn build(
    alloc: Global,
    record: &ParsedArguments,
    view: &View,
) -> Result<(SingleCompileCommand, Cacheable), CommandError>
    ensures { IfOk result (λ built. (directory : List ℕ) (files : Viewed) (words : List (List ℕ)) →
        reading CCompilerKind.Gcc false nvcc_tables directory files words ≡ Ok (parsed_of record.now) →
        OwnCommandIsReadAgain CCompilerKind.Gcc nvcc_tables gcc_text directory files words (parsed_of record.now) (words_of built.0.arguments.items)) }
{
    let gcc = Gcc::new(false);
    gcc.generate_compile_commands(alloc, b"nvcc", record, b"/work", &[], view)
}

/// What is read as that messages have no colour, and stands in no command. nvcc has no option for colours, and without this word
/// each command would have Gcc's.
const NO_COLOUR: &[u8] = b"-fdiagnostics-color=never";

/// The words after the name of the program, after the one that keeps colours away.
fn given_words(rt: &HostRuntime) -> io::Result<Vec<Vec<u8>>> {
    let mut words = Vec::new(rt.alloc());
    words.push(Vec::from_slice(rt.alloc(), NO_COLOUR)?)?;
    for word in env::args(rt)?.skip(1) {
        words.push(Vec::from_slice(rt.alloc(), word.as_bytes())?)?;
    }
    Ok(words)
}

fn print_command(rt: &HostRuntime, record: &ParsedArguments, view: &View) -> io::Result<()> {
    match build(rt.alloc(), record, view) {
        Ok((command, _)) => {
            for word in &command.arguments {
                println!(rt; "{}", word.as_slice().as_bstr())?;
            }
            Ok(())
        }
        Err(error) => println!(rt; "no command: {error}"),
    }
}

fn main(rt: HostRuntime) -> io::Result<()> {
    let words = given_words(&rt)?;
    let view = View::new(rt.alloc());
    match read(rt.alloc(), &words, &view)? {
        CompilerArguments::Ok(record) => print_command(&rt, &record, &view),
        CompilerArguments::CannotCache(reason, Some(text)) => {
            println!(rt; "cannot be cached: {reason} ({text})")
        }
        CompilerArguments::CannotCache(reason, None) => {
            println!(rt; "cannot be cached: {reason}")
        }
        CompilerArguments::NotCompilation => println!(rt; "compiles nothing"),
    }
}
