//! The command line of a request.
ghost use Rattle.std.specs.Prelude.{◌≡◌, ◌+◌, ◌<◌, ◌++◌, IfOk, MatchResult, OnOk, Some, length};
ghost use Rattle.scl_values.specs.Words.{words_of};
ghost use Rattle.scl_text.specs.Commands.{pairs_of};
ghost use Rattle.scl_explain.specs.Cases.{IsCase, IsDivided, IsNoCase, assigned, assigned_by, compiler_for};

use scl_describe::Settings;
use scl_names::{assignment_at, compiler_of, program_behind};
use scl_reader::{Compiler, Mem};
use scl_shell::{beginning, shown_command};
use std::alloc::Global;
use thiserror::Error;

/// The command line of a request.
#[derive(Drop)]
pub struct Case {
    /// The compiler whose command line it is.
    pub compiler: Compiler,
    /// The program, as it is named.
    pub program: Vec<u8>,
    /// The words after the program.
    pub words: Vec<Vec<u8>>,
    /// The directory that it is run in.
    pub cwd: Vec<u8>,
    /// The variables of its environment that are known.
    pub env_vars: Vec<(Vec<u8>, Vec<u8>)>,
    /// Whether several architectures are allowed.
    pub multiarch: bool,
    /// How it is described.
    pub settings: Settings,
}

/// What a command line has besides its words.
#[derive(Drop)]
pub struct Conditions {
    /// The directory that it is run in.
    pub cwd: Vec<u8>,
    /// The variables of its environment that are known.
    pub env_vars: Vec<(Vec<u8>, Vec<u8>)>,
    /// Whether several architectures are allowed.
    pub multiarch: bool,
    /// How it is described.
    pub settings: Settings,
}

/// Why words are no command line of a compiler that is served.
#[derive(Debug, Drop, Error)]
pub enum CaseError {
    /// There is no word but launchers and assignments.
    #[error("no word names a compiler")]
    NoProgram,
    /// The program's name is not known: the number of its word, from 1, and the name, quoted for a shell.
    #[error("{1}, word {0}, is no compiler by its name; --compiler NAME says which one it is, --launcher NAME that it starts one")]
    UnknownCompiler(usize, String),
}

/// The words of a command line, divided.
#[derive(Drop)]
struct Divided {
    front: Vec<Vec<u8>>,
    program: Vec<u8>,
    words: Vec<Vec<u8>>,
}

/// The words before the program, the program, and those after it.
#[tactic(auto, using(crate::proofs::CaseLemmas::divided_rules))]
fn divide(mut all: Vec<Vec<u8>>, at: usize) -> Mem<Divided>
    requires { at < length all.items }
    ensures { IfOk result (λ divided. IsDivided (words_of all.items) at divided) }
{
    let mut words = all.split_off(at)?;
    let program = words.remove(0);
    Ok(Divided {
        front: all,
        program,
        words,
    })
}

/// Puts the variable that a word assigns, if it assigns one, before others.
fn put_assigned(alloc: Global, env_vars: &mut Vec<(Vec<u8>, Vec<u8>)>, word: &[u8]) -> Mem<()>
    ensures { OnOk result (pairs_of env_vars.new.items ≡ assigned_by word.now ++ pairs_of env_vars.old.items) }
{
    if let Some(at) = assignment_at(word) {
        let key = Vec::from_slice(alloc, &word[..at])?;
        let value = Vec::from_slice(alloc, &word[at + 1..])?;
        env_vars.insert(0, (key, value))?;
    }
    Ok(())
}

/// Variables, with those that words assign before them, the last first.
fn with_assigned(
    alloc: Global,
    env_vars: Vec<(Vec<u8>, Vec<u8>)>,
    words: &[Vec<u8>],
) -> Mem<Vec<(Vec<u8>, Vec<u8>)>>
    ensures { IfOk result (λ all. pairs_of all.items ≡ assigned (words_of words.now) ++ pairs_of env_vars.items) }
{
    let mut all = env_vars;
    for word in words {
        put_assigned(alloc, &mut all, word)?;
    }
    Ok(all)
}

fn compiler_for(alloc: Global, named: Option<Compiler>, program: &[u8]) -> Mem<Option<Compiler>>
    ensures { IfOk result (λ compiler. compiler ≡ compiler_for named program.now) }
{
    match named {
        Some(compiler) => Ok(Some(compiler)),
        None => compiler_of(alloc, program),
    }
}

/// The number of a word, from 1.
fn number_of(words: &[Vec<u8>], at: usize) -> usize
    requires { at < length words.now }
    ensures { result ≡ at + 1 }
{
    let _ = words;
    at + 1
}

/// A program's name, or the beginning of a long one, quoted for a shell.
fn quoted(alloc: Global, program: &[u8]) -> Mem<String> {
    shown_command(alloc, beginning(program), &[])
}

impl Case {
    /// The command line that these words are, the program's included: launchers, also of these further names, and assignments
    /// before it are left out. The variables that are assigned come before those of the conditions, the last first, since of
    /// several values the first counts. It is `named`'s, where a compiler is named, and else that of the compiler that the
    /// program's name names. `UnknownCompiler` where it names none, `NoProgram` where no word may be a program.
    #[tactic(auto, using(crate::proofs::CaseLemmas::program_inside))]
    pub fn of_words(
        alloc: Global,
        all: Vec<Vec<u8>>,
        launchers: &[Vec<u8>],
        named: Option<Compiler>,
        conditions: Conditions,
    ) -> Mem<Result<Case, CaseError>>
        ensures { IfOk result (λ said. MatchResult said (IsCase (words_of launchers.now) (words_of all.items) named conditions) (IsNoCase (words_of launchers.now) (words_of all.items) named)) }
    {
        let Some(at) = program_behind(alloc, launchers, &all)? else {
            return Ok(Err(CaseError::NoProgram));
        };
        let number = number_of(&all, at);
        let Divided {
            front,
            program,
            words,
        } = divide(all, at)?;
        let Some(compiler) = compiler_for(alloc, named, &program)? else {
            return Ok(Err(CaseError::UnknownCompiler(number, quoted(alloc, &program)?)));
        };
        let env_vars = with_assigned(alloc, conditions.env_vars, &front)?;
        Ok(Ok(Case {
            compiler,
            program,
            words,
            cwd: conditions.cwd,
            env_vars,
            multiarch: conditions.multiarch,
            settings: conditions.settings,
        }))
    }
}
