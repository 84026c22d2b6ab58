//! The commands of the program, each with what it does and, after its options, what it writes, how it ends, and calls of it.

/// A command of the program.
pub struct Part {
    /// Its name.
    pub name: &'static str,
    /// What it does.
    pub about: &'static str,
    /// What it writes, how it ends, and calls of it; or nothing.
    pub example: &'static str,
}

/// The release, the version of sccache whose rules these are, and the number of the protocol (docs/PROTOCOL.md).
pub const VERSION: &str = "1.0.0\nrules 0.19.0\nprotocol 1";

/// What the program is for.
pub const ABOUT: &str =
    "Understands the command lines of gcc, clang, cl, clang-cl, Diab and TaskingVX";

/// How the program ends, and which compiler a command line is of.
pub const STATUSES: &str =
    "Statuses: 0 answered; 1 the keys cannot be equal (diff), or there is no key (check --keep); 2 wrong words, or a line of the catalogue is wrong; 3 out of memory; 4 a file cannot be read or the answer not be written; 5 the database is broken, or an entry is not valid (all others are answered); 10 cannot be cached; 11 compiles nothing; 12 a hazard; 13 a word holds a NUL, so no process can be given the command; 14 there is a command, and its result may not be kept in the cache.

Which compiler: by the file name of the first word that is neither a launcher (ccache, sccache, distcc, icecc, recc, buildcache, env, nice, time, or one that --launcher names), nor an option of env (-u), nice (-n) or time before the compiler, nor an assignment (NAME=.., NAME of letters, digits and _); without .exe and a version it ends in clang-cl, clang++, clang, g++, gcc, c++ or cc (the whole name, or what follows a -), or is cl, dcc or cctc. cc and c++ are gcc and g++ unless --compiler says otherwise.

A response file is read where it is a regular file whose size the system tells, and has 67108864 bytes at most.

Example:
    scl explain gcc -c src/foo.c -O2 -Iinclude -MMD -o foo.o";

/// The commands, in the order of the help.
pub static PARTS: &[Part] = &[
    Part {
        name: "explain",
        about: "Says what a compile command is: what becomes of it, what it reads and writes, and the command to run in its place",
        example: "Ends with status 0 whatever the answer is. A word with a character that cannot be seen stands in $'..'.

Example:
    scl explain gcc -c src/foo.c -O2 -Iinclude -MMD -o foo.o
    scl explain --json --compiler clang -- /opt/wrapper -c foo.c",
    },
    Part {
        name: "command",
        about: "Writes the command to run in the place of a compile command",
        example: "Ends with status 10 where the outcome cannot be cached, 11 where nothing is compiled, and 13 where a word holds a NUL; then no command is written. With --strict none is written where a hazard concerns the files that are made, and the status is 12: run the command as given. With status 14 the command is written: it may be run, and its result may not be kept in the cache.

The command is a line for any shell. On a terminal a word with a character that cannot be seen stands in $'..', which bash, zsh and ksh read; with -0 each word is written as it is.

Words before the compiler are left out: run the command in the environment that they make, without CL and _CL_, whose words stand in a command of cl or clang-cl. A variable that such a word assigns has that value.

Commands of gcc and clang force colours. With --color never they have none, and with --color auto the compiler colours what it writes to a terminal. An option for colours that stands in the line counts before --color.

Example:
    scl command gcc -c src/foo.c -o foo.o
    scl command --color auto gcc -c src/foo.c -o foo.o
    scl command --strict gcc -c src/foo.c -o foo.o
    scl command -0 gcc -c src/foo.c | xargs -0 env",
    },
    Part {
        name: "check",
        about: "Names each hazard of a compile command: where the compiler is known to make something else of the command that is built",
        example: "Writes a line for each hazard, its name and what happens. Ends with status 12 where there is one, 0 where there is none, 10 where the outcome cannot be cached, 11 where nothing is compiled, 13 where a word holds a NUL, and 14 where no hazard is named and the result may not be kept in the cache. Most hazards are known of gcc, clang and clang-cl.

With --keep it writes a line for each row keep, with what it means. Then it ends with status 0 where the result may be kept under a key, 1 where it has none or an option is not known, and 14 where the compiler's rules say that the result may not be kept.

Example:
    scl check gcc -c src/foo.c -MD -MT one -MT two -o foo.o
    scl check --keep gcc -c src/foo.c -o foo.o
    scl check --json clang -c src/foo.c -o foo.o",
    },
    Part {
        name: "database",
        about: "Answers each entry of a compile database",
        example: "Each entry has a \"directory\", and \"arguments\" or a \"command\" of shell words; in a directory with a drive or a backslash, of words as Windows splits them. Entries are answered as they are read. With --json each answer is an object in a line; otherwise a summary is written, also of the entries before a mistake. With --only a line for each entry of that kind comes first. With --keep the summary counts what may be kept under a key.

Example:
    scl database build/compile_commands.json
    scl database --json --only refused - < compile_commands.json",
    },
    Part {
        name: "flags",
        about: "Lists the flags of the compilers' tables, or says what one word is",
        example: "Writes a line for each flag: how its value stands, its kind, and where its words go. Where a flag takes a value, the place is that with a value that is not refused. Of a WORD that no table has it says where it goes. After each WORD comes a line for each entry of the catalogue that speaks of it in some version of the compiler: what it states, its name, and its sentence. An entry may want more than the WORD. All words after the compiler are its words; options of scl come before it.

Example:
    scl flags clang
    scl flags gcc -MF -std=c99
    scl flags --json cl /FoX",
    },
    Part {
        name: "why",
        about: "Says of the entries of some sources why they can or cannot be cached",
        example: "Writes for each entry of a source its outcome in a line, and below it why. Ends with status 5 where an entry is no command line, 4 where a file cannot be read, and 2 where no entry has such a source.

Example:
    scl why src/foo.c
    scl why -p build foo.c bar.c",
    },
    Part {
        name: "diff",
        about: "Says what two command lines differ in: options, and rows of their keys",
        example: "Writes the options and the rows of the key that only one of the two has. What the rows ask, such as the contents of files, is not compared: rows that leave the keys equal if the answers are stand apart. Ends with status 0 where the keys can be equal, and 1 where not.

Example:
    scl diff -p build src/a.c src/b.c
    scl diff -p build1 -p build2
    scl diff -- gcc -c a.c -O1 -- gcc -c a.c -O2",
    },
    Part {
        name: "reasons",
        about: "Lists each reason why a command cannot be cached or its result not be kept, and each hazard, with a sentence for people",
        example: "",
    },
    Part {
        name: "completions",
        about: "Writes the completions of this program for a shell",
        example: "Example:
    scl completions bash > /usr/share/bash-completion/completions/scl",
    },
    Part {
        name: "man",
        about: "Writes the manual page of this program",
        example: "Example:
    scl man | man -l -",
    },
];
