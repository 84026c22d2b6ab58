//! Reads a command line of gcc, and prints the command to run in its place, what was read, and what it makes.
#![tactic(auto)]

use bstr::ByteSlice;
use scl_cl::{
    CommandLine, Compilation, Compiler, CompilerArguments, Mem, ParsedArguments,
    SingleCompileCommand, View,
};
use std::alloc::Global;
use std::io;

/// The words after the name of the program.
static WORDS: [&str; 7] = [
    "-c",
    "-O2",
    "-Iinclude",
    "-MD",
    "@flags",
    "-gsplit-dwarf",
    "src/main.c",
];

/// The words, as byte strings.
fn words(alloc: Global) -> Mem<Vec<Vec<u8>>> {
    let mut words = Vec::new(alloc);
    for word in WORDS {
        words.push(Vec::from_slice(alloc, word.as_bytes())?)?;
    }
    Ok(words)
}

/// What may be read: a response file, by its path from the directory.
fn view(alloc: Global) -> Mem<View> {
    let path = Vec::from_slice(alloc, b"/work/flags")?;
    let bytes = Vec::from_slice(alloc, b"-DNAME='a b' -arch x86_64")?;
    let mut view = View::new(alloc);
    view.add_file(path, bytes)?;
    Ok(view)
}

fn print_words(rt: &impl Print, title: &str, words: &[Vec<u8>]) -> io::Result<()> {
    println!(rt; "{title}:")?;
    for word in words {
        println!(rt; "    {}", word.as_slice().as_bstr())?;
    }
    Ok(())
}

fn print_command(rt: &impl Print, command: &SingleCompileCommand) -> io::Result<()> {
    println!(rt; "program: {}", command.executable.as_slice().as_bstr())?;
    println!(rt; "directory: {}", command.cwd.as_slice().as_bstr())?;
    print_words(rt, "words", &command.arguments)
}

fn print_lists(rt: &impl Print, parsed: &ParsedArguments) -> io::Result<()> {
    println!(rt; "input: {}", parsed.input.as_slice().as_bstr())?;
    println!(rt; "language: {:?}", parsed.language)?;
    print_words(rt, "preprocessor", &parsed.preprocessor_args)?;
    print_words(rt, "dependency", &parsed.dependency_args)?;
    print_words(rt, "common", &parsed.common_args)?;
    print_words(rt, "architectures", &parsed.arch_args)
}

fn print_outputs(rt: &impl Print, parsed: &ParsedArguments) -> io::Result<()> {
    println!(rt; "outputs:")?;
    for (name, output) in parsed.outputs.iter() {
        let path = output.path.as_slice().as_bstr();
        let sometimes = if output.optional { " (optional)" } else { "" };
        println!(rt; "    {name}: {path}{sometimes}")?;
    }
    Ok(())
}

fn print_compilation(rt: &impl Print, compilation: &Compilation) -> io::Result<()> {
    print_command(rt, &compilation.command)?;
    println!(rt; "cacheable: {:?}", compilation.cacheable)?;
    print_lists(rt, &compilation.parsed)?;
    print_outputs(rt, &compilation.parsed)
}

fn main(rt: HostRuntime) -> io::Result<()> {
    let alloc = rt.alloc();
    let (words, view) = (words(alloc)?, view(alloc)?);
    let line = CommandLine {
        words: &words,
        directory: b"/work",
        environment: &[],
        view: &view,
    };
    let answer = Compiler::Gcc.answer(alloc, b"/usr/bin/gcc", &line)?;
    match &answer {
        CompilerArguments::Ok(compilation) => print_compilation(&rt, compilation),
        CompilerArguments::CannotCache(reason, Some(text)) => {
            println!(rt; "cannot be cached: {reason} ({text})")
        }
        CompilerArguments::CannotCache(reason, None) => {
            println!(rt; "cannot be cached: {reason}")
        }
        CompilerArguments::NotCompilation => println!(rt; "compiles nothing"),
    }
}
