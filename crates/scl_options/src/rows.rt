//! The options of the program's commands, a row each.

/// What an option or a value takes.
#[derive(Clone, Copy)]
pub enum Takes {
    /// Nothing: it is a flag.
    Nothing,
    /// One value.
    One,
    /// A value, and it may be given again.
    Several,
    /// One of these names.
    NameOf(&'static [&'static str]),
    /// One of these names, which has to be given.
    OneNameOf(&'static [&'static str]),
    /// A path; without one it is this.
    PathOr(&'static str),
    /// Paths, at least one.
    Paths,
    /// All that follows, at least one word.
    Rest,
    /// All that follows, or nothing.
    RestOrNothing,
    /// The same, which begins with one of these names; the program looks whether it does.
    NameAndRest(&'static [&'static str]),
}

/// An option of commands, or a value without one.
pub struct Row {
    /// The commands that have it.
    pub of: &'static [&'static str],
    /// Its name: `--json`, `-p`, or a word for a value without an option.
    pub name: &'static str,
    /// How its value is called.
    pub value: &'static str,
    /// What it takes.
    pub takes: Takes,
    /// What it does.
    pub help: &'static str,
}

macro_rules! rows {
    ($(($of:expr, $name:literal, $value:literal, $takes:expr, $help:literal),)*) => {
        &[$(Row { of: $of, name: $name, value: $value, takes: $takes, help: $help }),*]
    };
}

/// The names of compilers, in the order of docs/RULES.md.
const COMPILERS: &[&str] = &[
    "gcc", "g++", "clang", "clang++", "cl", "clang-cl", "diab", "tasking",
];

/// The kinds of entries.
const KINDS: &[&str] = &["ok", "hazard", "refused"];

/// When messages have colours.
const COLORS: &[&str] = &["auto", "never", "always"];

/// The shells for which there are completions.
const SHELLS: &[&str] = &["bash", "zsh", "fish"];

/// The commands that read command lines.
const ALL: &[&str] = &["explain", "command", "check", "database", "why", "diff"];

/// The commands that read one command line.
const LINE: &[&str] = &["explain", "command", "check"];

/// The commands that take a catalogue.
const KNOWING: &[&str] = &[
    "explain", "command", "check", "database", "why", "diff", "flags", "reasons",
];

/// The options, and the values without one, in the order of the help.
#[rattlefmt::skip]
pub static ROWS: &[Row] = rows![
    (&["database"], "path", "FILE", Takes::PathOr("compile_commands.json"), "The database; - is standard input"),
    (&["command"], "-0", "", Takes::Nothing, "End each word with a NUL, in place of quotes for a shell"),
    (&["command"], "--strict", "", Takes::Nothing, "Write no command where a hazard concerns the files that it makes"),
    (&["check"], "--keep", "", Takes::Nothing, "Say whether the result may be kept under a key, in place of the hazards"),
    (&["database"], "--keep", "", Takes::Nothing, "Count what may be kept under a key, and why the rest may not"),
    (&["database"], "--only", "WHAT", Takes::NameOf(KINDS), "Write only the entries of this kind"),
    (&["command"], "--color", "WHEN", Takes::NameOf(COLORS), "When messages of gcc and clang have colours: always, as without it; never; auto: where they go to a terminal"),
    (&["explain", "check", "database"], "--json", "", Takes::Nothing, "Write JSON, an object a line"),
    (&["why", "diff", "flags", "reasons"], "--json", "", Takes::Nothing, "Write a JSON document"),
    (&["why", "diff"], "-p", "BUILD", Takes::Several, "The folder of compile_commands.json, or a database; this folder if none is named"),
    (LINE, "--cwd", "DIR", Takes::One, "The directory that the command is run in, if not this one"),
    (ALL, "--may-dist", "", Takes::Nothing, "The runs of the preprocessor are for a distant compiler"),
    (ALL, "--bound", "N", Takes::One, "Refuse a command line of more than N words, or one that opens files more than N times, in place of 1000000"),
    (ALL, "--bytes", "N", Takes::One, "Refuse a command line of more than N bytes, those of its response files among them, in place of 67108864"),
    (ALL, "--base", "DIR", Takes::Several, "Write keys by this base directory, an absolute path, as in every other checkout (--json); it may be given again"),
    (ALL, "--keep-shown", "", Takes::Nothing, "Keep macros of the command as facts of its key, also those that no source may name (--json)"),
    (ALL, "--env", "NAME=VALUE", Takes::Several, "A variable of the compiler's environment; it may be given again"),
    (ALL, "--clear-env", "", Takes::Nothing, "Take no words of CL and _CL_ from this environment"),
    (ALL, "--compiler", "NAME", Takes::NameOf(COMPILERS), "Read it as this compiler's, whatever the program is called"),
    (ALL, "--launcher", "NAME", Takes::Several, "Pass over programs of this name, which start the compiler; it may be given again"),
    (ALL, "--multiarch", "", Takes::Nothing, "Allow several -arch"),
    (ALL, "--compiler-version", "VERSION", Takes::One, "The compiler's version: 14 or 12.2 for hazards, 14.0.6 for runs, or a text that names Apple's"),
    (KNOWING, "--catalogue", "FILE", Takes::One, "Add what this catalogue says of compilers to the built-in one; an entry takes the place of the built-in one of its name"),
    (LINE, "words", "COMPILER WORD", Takes::Rest, "The compiler and its words"),
    (&["why"], "files", "FILE", Takes::Paths, "A source of an entry: its path, or the last parts of it"),
    (&["diff"], "words", "A B", Takes::RestOrNothing, "Two sources of entries; or, after --, two command lines with -- between them"),
    (&["flags"], "words", "COMPILER WORD", Takes::NameAndRest(COMPILERS), "The compiler, all of them without; and words of its command line, of which each is explained"),
    (&["completions"], "shell", "SHELL", Takes::OneNameOf(SHELLS), "The shell"),
];
