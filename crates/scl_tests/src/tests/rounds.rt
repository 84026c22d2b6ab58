//! Lookups over machines of a few files: what each round asks, and the rows at the end, by docs/PROTOCOL.md, A key.
//!
//! A machine is a text of lines `QUESTION => ANSWER`: a file's sum, `/` of a folder, what a run writes. What no line asks for is not
//! there, and such a run fails. In its texts `|` is the end of a line.
use scl_cl::Mem;
use scl_key::{Ask, Direct, Output, Part};
use scl_questions::{Answer, Field, Language, Program, Question, Standing, Written};
use scl_rounds::{Key, Next, look_up};
use std::alloc::Global;
use std::mem::swap;
use std::test::Fail;

// ---- texts of keys

/// What gcc's keys look for in texts: that sources count, and that an assembler reads a file.
static TELLING: &str =
    "__builtin_(COLUMN|LINE|FILE|source_location)|diagnostic[ \t]+error|__has_embed|#[ \t]*embed";

static INCLUDING: &str =
    "(^|[^])A-Za-z0-9_.$]|\\\\[nt])\\.[Ii][Nn][Cc]([Bb][Ii][Nn]|[Ll][Uu][Dd][Ee])([^A-Za-z0-9_]|$)|^[ \t]*#[ \t]*embed|\\.[A-Za-z0-9_]*\\\\\\\\[A-Za-z0-9_(@]";

fn words(alloc: Global, text: &str) -> Mem<Vec<Vec<u8>>> {
    let mut words = Vec::new(alloc);
    for word in text.split(' ') {
        words.push(Vec::from_slice(alloc, word.as_bytes())?)?;
    }
    Ok(words)
}

fn asked(alloc: Global, ask: Ask, name: &str) -> Mem<Part> {
    Ok(Part::Asked(ask, Vec::from_slice(alloc, name.as_bytes())?))
}

fn output(alloc: Global, path: &str) -> Mem<Part> {
    Ok(Part::Output(Output {
        name: Vec::from_slice(alloc, b"obj")?,
        path: Vec::from_slice(alloc, path.as_bytes())?,
        optional: false,
    }))
}

/// The part of a row of this name, with these fields. The names of two rows stand for them with the patterns above.
fn part(alloc: Global, name: &str, fields: &str) -> Mem<Part> {
    match name {
        "output" => output(alloc, fields),
        "directory" => Ok(Part::Directory),
        "compiler" => Ok(Part::Compiler),
        "env" => asked(alloc, Ask::Env, fields),
        "unset" => asked(alloc, Ask::Unset, fields),
        "maybe" => asked(alloc, Ask::Maybe, fields),
        "regular" => asked(alloc, Ask::Regular, fields),
        "if-telling" => asked(alloc, Ask::SourcesIfShown, TELLING),
        "unless-including" => asked(alloc, Ask::RefuseIfShown, INCLUDING),
        "run" => Ok(Part::Run(words(alloc, fields)?)),
        "run-else" => Ok(Part::RunElse(words(alloc, fields)?)),
        "pch" => Ok(Part::Pch(words(alloc, fields)?)),
        "sources" => Ok(Part::Sources),
        "times" => Ok(Part::Times),
        _ => Ok(Part::Is(words(alloc, fields)?)),
    }
}

fn parts(alloc: Global, key: &str) -> Mem<Vec<Part>> {
    let mut parts = Vec::new(alloc);
    for row in key.lines() {
        let (name, fields) = row.split_once(' ').unwrap_or((row, ""));
        if name != "search" {
            parts.push(part(alloc, name, fields)?)?;
        }
    }
    Ok(parts)
}

/// What finds the key without a run, of the rows `search`.
fn direct(alloc: Global, key: &str) -> Mem<Vec<Direct>> {
    let mut direct = Vec::new(alloc);
    for row in key.lines() {
        if let Some(fields) = row.strip_prefix("search ") {
            direct.push(Direct::Search(words(alloc, fields)?))?;
        }
    }
    Ok(direct)
}

// ---- texts of questions, and machines

fn push_named(text: &mut Vec<u8>, what: &str, name: &[u8]) -> Mem<()> {
    text.extend_from_slice(what.as_bytes())?;
    text.push(b' ')?;
    text.extend_from_slice(name)
}

fn push_run(text: &mut Vec<u8>, language: Language, words: &[Vec<u8>]) -> Mem<()> {
    text.extend_from_slice(match language {
        Language::C => b"run-in-C".as_slice(),
        Language::Own => b"run".as_slice(),
    })?;
    for word in words {
        push_named(text, "", word)?;
    }
    Ok(())
}

fn push_question(text: &mut Vec<u8>, question: &Question) -> Mem<()> {
    match question {
        Question::Env(name) => push_named(text, "env", name),
        Question::Program(name) => push_named(text, "program", name),
        Question::File(path) => push_named(text, "file", path),
        Question::Bytes(path) => push_named(text, "bytes", path),
        Question::Names(path) => push_named(text, "names", path),
        Question::Real(path) => push_named(text, "real", path),
        Question::Times(path) => push_named(text, "times", path),
        Question::Run(language, words) => push_run(text, *language, words),
    }
}

fn told<'a>(alloc: Global, machine: &'a str, question: &Question) -> Mem<Option<&'a str>> {
    let mut asked = Vec::new(alloc);
    push_question(&mut asked, question)?;
    for line in machine.lines() {
        if let Some((fact, answer)) = line.split_once(" => ") {
            if fact.as_bytes() == asked.as_slice() {
                return Ok(Some(answer));
            }
        }
    }
    Ok(None)
}

fn bytes(alloc: Global, text: &str) -> Mem<Vec<u8>> {
    Vec::from_slice(alloc, text.as_bytes())
}

fn some_bytes(alloc: Global, text: Option<&str>) -> Mem<Option<Vec<u8>>> {
    match text {
        Some(text) => Ok(Some(bytes(alloc, text)?)),
        None => Ok(None),
    }
}

fn program(alloc: Global, sum: Option<&str>) -> Mem<Option<Program>> {
    match sum {
        Some(sum) => Ok(Some(Program {
            sum: bytes(alloc, sum)?,
            links: words(alloc, "/usr/bin/gcc /usr/bin/gcc-12")?,
        })),
        None => Ok(None),
    }
}

fn standing(alloc: Global, text: Option<&str>) -> Mem<Standing> {
    match text {
        None => Ok(Standing::Missing),
        Some("/") => Ok(Standing::Folder),
        Some("!") => Ok(Standing::Special),
        Some(sum) => Ok(Standing::Regular(bytes(alloc, sum)?)),
    }
}

/// What a run writes: in C to standard error, else to standard output.
fn written(alloc: Global, language: Language, text: Option<&str>) -> Mem<Written> {
    let mut output = Vec::new(alloc);
    for byte in text.unwrap_or("").as_bytes() {
        output.push(if *byte == b'|' { b'\n' } else { *byte })?;
    }
    let mut written = Written {
        status: if text.is_some() { 0 } else { 1 },
        output,
        messages: Vec::new(alloc),
        own: Vec::new(alloc),
    };
    if language == Language::C {
        swap(&mut written.output, &mut written.messages);
    }
    Ok(written)
}

fn answer(alloc: Global, machine: &str, question: &Question) -> Mem<Answer> {
    let told = told(alloc, machine, question)?;
    let text = told.unwrap_or("");
    match question {
        Question::Env(_) => Ok(Answer::Value(some_bytes(alloc, told)?)),
        Question::Program(_) => Ok(Answer::Program(program(alloc, told)?)),
        Question::File(_) => Ok(Answer::Standing(standing(alloc, told)?)),
        Question::Bytes(_) => Ok(Answer::Bytes(some_bytes(alloc, told)?)),
        Question::Names(_) => Ok(Answer::Names(words(alloc, text)?)),
        Question::Real(_) => Ok(Answer::Real(bytes(alloc, text)?)),
        Question::Times(_) => Ok(Answer::Times(bytes(alloc, text)?)),
        Question::Run(language, _) => Ok(Answer::Written(written(alloc, *language, told)?)),
    }
}

// ---- a lookup

/// What was asked, with an empty line after each round; and the end.
#[derive(Debug, Drop)]
struct Talk {
    asked: Vec<u8>,
    end: Vec<u8>,
}

/// Appends a field: `:` and a text, or `=` and a sum.
fn push_field(text: &mut Vec<u8>, field: &Field) -> Mem<()> {
    let (mark, written) = match field {
        Field::Said(text) => (b':', text),
        Field::Summed(sum) => (b'=', sum),
    };
    text.push(mark)?;
    for byte in written {
        text.push(if *byte == b'\n' { b'|' } else { *byte })?;
    }
    Ok(())
}

fn push_row(text: &mut Vec<u8>, row: &[Field]) -> Mem<()> {
    for (at, field) in row.iter().enumerate() {
        if at > 0 {
            text.push(b' ')?;
        }
        push_field(text, field)?;
    }
    text.push(b'\n')?;
    Ok(())
}

fn push_rows(text: &mut Vec<u8>, rows: &[Vec<Field>]) -> Mem<()> {
    for row in rows {
        push_row(text, row)?;
    }
    Ok(())
}

/// Appends the questions of a round, and what the machine answers.
fn take_round(
    alloc: Global,
    talk: &mut Talk,
    answers: &mut Vec<Answer>,
    machine: &str,
    questions: &[Question],
) -> Mem<()> {
    for question in questions {
        push_question(&mut talk.asked, question)?;
        talk.asked.push(b'\n')?;
        answers.push(answer(alloc, machine, question)?)?;
    }
    talk.asked.push(b'\n')?;
    Ok(())
}

/// Talks until there is an end, in as many rounds as there are.
fn talked(alloc: Global, key: &str, machine: &str) -> Mem<Talk> {
    let parts = parts(alloc, key)?;
    let direct = direct(alloc, key)?;
    let mut answers = Vec::new(alloc);
    let mut talk = Talk {
        asked: Vec::new(alloc),
        end: Vec::new(alloc),
    };
    let key = Key {
        place: b"/w",
        parts: &parts,
        direct: &direct,
    };
    for _ in 0..7 {
        match look_up(alloc, &key, &answers)? {
            Next::LookUp(questions) => {
                take_round(alloc, &mut talk, &mut answers, machine, &questions)?
            }
            Next::Found(rows, is_listed) => {
                push_rows(&mut talk.end, &rows)?;
                if is_listed {
                    talk.end.extend_from_slice(b"listed")?;
                }
                return Ok(talk);
            }
            Next::Nothing => {
                talk.end.extend_from_slice(b"nothing")?;
                return Ok(talk);
            }
            Next::Refused(_) => {
                talk.end.extend_from_slice(b"refused")?;
                return Ok(talk);
            }
        }
    }
    Ok(talk)
}

fn shown(text: &[u8]) -> &str {
    str::from_utf8(text).unwrap_or("no text")
}

// ---- a plain line

static PLAIN: &str = "is input a.c
output a.o
directory
compiler
env LANG
unset SUNPRO_DEPENDENCIES
maybe a.o
regular a.c
run -E -Ii a.c
pch beside a.c folder i variable CPATH
if-telling
unless-including";

static PLAIN_MACHINE: &str = r#"env PWD => /home/w
env LANG => C
program  => of-gcc
file a.c => of-a
file i/s.h => of-s
real /home/w => /disk/w
real /w => /disk/w
run -E -Ii a.c => # 1 "a.c"|# 1 "i/s.h" 1|int s;|# 2 "a.c" 2|int x = __LINE__;|
"#;

static PLAIN_ASKED: &str = "env PWD
program\u{20}
env LANG
env SUNPRO_DEPENDENCIES
file a.c
env CPATH

real /home/w
real /w
run -E -Ii a.c

file i/s.h
file i/i/s.h.gch
file i/s.h.gch
file s.h.gch
file a.c.gch

";

static PLAIN_ROWS: &str = r#":is :input :a.c
:output :obj :a.o
:directory :/home/w
:compiler :gcc =of-gcc
:env :LANG :=C
:unset :SUNPRO_DEPENDENCIES
:maybe :a.o
:regular :a.c
:run :# 1 "a.c"|# 1 "i/s.h" 1|int s;|# 2 "a.c" 2|int x = __LINE__;| : :
:pch
"#;

#[test]
fn a_plain_line_has_rows(rt: HostRuntime) -> Result<(), Fail> {
    let talk = talked(rt.alloc(), PLAIN, PLAIN_MACHINE)?;
    let asked = shown(&talk.asked);
    assert!(rt; asked == PLAIN_ASKED, "{asked}");
    let rows = shown(&talk.end);
    let rest = rows.strip_prefix(PLAIN_ROWS).ok_or("other rows")?;
    let patterns = format!(in rt.alloc();
        ":sources-if-shown :{TELLING} :-\n:refuse-if-shown :{INCLUDING}\n"
    )?;
    assert!(rt; rest == patterns.as_str(), "{rest}");
    Ok(())
}

// ---- precompiled headers

static SEARCHED: &str = "is input a.c
run -E -Ij -Ik a.c
pch beside a.c folder j folder k";

static SEARCHED_AS_SYSTEM: &str = "is input a.c
run -E -isystem j -Ik a.c
pch beside a.c folder j folder k";

static WITHOUT_HEADER: &str = r#"run -E -Ij -Ik a.c => # 1 "a.c"|# 1 "k/h.h" 1|int h;|
run -E -isystem j -Ik a.c => # 1 "a.c"|# 1 "k/h.h" 1|int h;|
file a.c => of-a
file k/h.h => of-h
"#;

static WITH_HEADER: &str = r#"run -E -Ij -Ik a.c => # 1 "a.c"|# 1 "k/h.h" 1|int h;|
run -E -isystem j -Ik a.c => # 1 "a.c"|# 1 "k/h.h" 1|int h;|
file k/h.h => of-h
file k/h.h.gch => of-k
file j/h.h.gch => /
names j/h.h.gch => c.gch c++.gch
file j/h.h.gch/c.gch => of-c
"#;

static PLACES: &str = "file a.c
file k/h.h
file j/k/h.h.gch
file j/h.h.gch
file k/k/h.h.gch
file k/h.h.gch
file h.h.gch
file a.c.gch

";

static INSIDE: &str = "names j/h.h.gch

file j/h.h.gch/c.gch
file j/h.h.gch/c++.gch

";

static FOUND: &str =
    ":j/k/h.h.gch :- :j/h.h.gch :/ :k/k/h.h.gch :- :k/h.h.gch =of-k :h.h.gch :- :a.c.gch :- :j/h.h.gch/c.gch =of-c :j/h.h.gch/c++.gch :-\n";

#[test]
fn a_precompiled_header_brings_the_words_of_runs(rt: HostRuntime) -> Result<(), Fail> {
    for (key, words) in [
        (SEARCHED, ":pch :29:4::run3::-E4::-Ij4::-Ik4::a.c "),
        (
            SEARCHED_AS_SYSTEM,
            ":pch :38:4::run3::-E9::-isystem2::j4::-Ik4::a.c ",
        ),
    ] {
        let talk = talked(rt.alloc(), key, WITH_HEADER)?;
        let asked = shown(&talk.asked);
        let (_, behind) = asked.split_once("\n\n").ok_or("one round")?;
        assert!(rt; behind.strip_prefix(PLACES) == Some(INSIDE), "{asked}");
        let rows = shown(&talk.end);
        let (_, row) = rows.split_once(words).ok_or("other words")?;
        assert!(rt; row == FOUND, "{rows}");
    }
    Ok(())
}

#[test]
fn without_precompiled_header_words_of_runs_are_no_matter(rt: HostRuntime) -> Result<(), Fail> {
    let talk_of_both = talked(rt.alloc(), SEARCHED, WITHOUT_HEADER)?;
    let other = talked(rt.alloc(), SEARCHED_AS_SYSTEM, WITHOUT_HEADER)?;
    let rows = shown(&talk_of_both.end);
    assert!(rt; rows.ends_with("\n:pch\n"), "{rows}");
    assert!(rt; rows == shown(&other.end));
    Ok(())
}

// ---- the folders that the compiler names

/// What gcc 12 writes for `-E -x c -v -iquote q -Ij -`.
static GCC_SAYS: &str = r#"Using built-in specs.
COLLECT_GCC=gcc-12
OFFLOAD_TARGET_NAMES=nvptx-none:amdgcn-amdhsa
OFFLOAD_TARGET_DEFAULT=1
Target: x86_64-linux-gnu
Configured with: ../src/configure -v --with-pkgversion='Debian 12.2.0-14+deb12u1' --with-bugurl=file:///usr/share/doc/gcc-12/README.Bugs --enable-languages=c,ada,c++,go,d,fortran,objc,obj-c++,m2 --prefix=/usr --with-gcc-major-version-only --program-suffix=-12 --program-prefix=x86_64-linux-gnu- --enable-shared --enable-linker-build-id --libexecdir=/usr/lib --without-included-gettext --enable-threads=posix --libdir=/usr/lib --enable-nls --enable-clocale=gnu --enable-libstdcxx-debug --enable-libstdcxx-time=yes --with-default-libstdcxx-abi=new --enable-gnu-unique-object --disable-vtable-verify --enable-plugin --enable-default-pie --with-system-zlib --enable-libphobos-checking=release --with-target-system-zlib=auto --enable-objc-gc=auto --enable-multiarch --disable-werror --enable-cet --with-arch-32=i686 --with-abi=m64 --with-multilib-list=m32,m64,mx32 --enable-multilib --with-tune=generic --enable-offload-targets=nvptx-none=/build/reproducible-path/gcc-12-12.2.0/debian/tmp-nvptx/usr,amdgcn-amdhsa=/build/reproducible-path/gcc-12-12.2.0/debian/tmp-gcn/usr --enable-offload-defaulted --without-cuda-driver --enable-checking=release --build=x86_64-linux-gnu --host=x86_64-linux-gnu --target=x86_64-linux-gnu
Thread model: posix
Supported LTO compression algorithms: zlib zstd
gcc version 12.2.0 (Debian 12.2.0-14+deb12u1) 
COLLECT_GCC_OPTIONS='-E' '-v' '-iquote' 'q' '-I' 'j' '-mtune=generic' '-march=x86-64'
 /usr/lib/gcc/x86_64-linux-gnu/12/cc1 -E -quiet -v -I j -imultiarch x86_64-linux-gnu -iquote q - -mtune=generic -march=x86-64 -fasynchronous-unwind-tables -dumpbase -
ignoring nonexistent directory "/usr/local/include/x86_64-linux-gnu"
ignoring nonexistent directory "/usr/lib/gcc/x86_64-linux-gnu/12/include-fixed"
ignoring nonexistent directory "/usr/lib/gcc/x86_64-linux-gnu/12/../../../../x86_64-linux-gnu/include"
#include "..." search starts here:
 q
#include <...> search starts here:
 j
 /usr/lib/gcc/x86_64-linux-gnu/12/include
 /usr/local/include
 /usr/include/x86_64-linux-gnu
 /usr/include
End of search list.
COMPILER_PATH=/usr/lib/gcc/x86_64-linux-gnu/12/:/usr/lib/gcc/x86_64-linux-gnu/12/:/usr/lib/gcc/x86_64-linux-gnu/:/usr/lib/gcc/x86_64-linux-gnu/12/:/usr/lib/gcc/x86_64-linux-gnu/
LIBRARY_PATH=/usr/lib/gcc/x86_64-linux-gnu/12/:/usr/lib/gcc/x86_64-linux-gnu/12/../../../x86_64-linux-gnu/:/usr/lib/gcc/x86_64-linux-gnu/12/../../../../lib/:/lib/x86_64-linux-gnu/:/lib/../lib/:/usr/lib/x86_64-linux-gnu/:/usr/lib/../lib/:/usr/lib/gcc/x86_64-linux-gnu/12/../../../:/lib/:/usr/lib/
COLLECT_GCC_OPTIONS='-E' '-v' '-iquote' 'q' '-I' 'j' '-mtune=generic' '-march=x86-64'
"#;

/// What clang 14 writes for the same words.
static CLANG_SAYS: &str = r#"Debian clang version 14.0.6
Target: x86_64-pc-linux-gnu
Thread model: posix
InstalledDir: /usr/bin
Found candidate GCC installation: /usr/bin/../lib/gcc/x86_64-linux-gnu/12
Selected GCC installation: /usr/bin/../lib/gcc/x86_64-linux-gnu/12
Candidate multilib: .;@m64
Selected multilib: .;@m64
Found CUDA installation: /usr/local/cuda, version 
 (in-process)
 "/usr/lib/llvm-14/bin/clang" -cc1 -triple x86_64-pc-linux-gnu -E -disable-free -clear-ast-before-backend -disable-llvm-verifier -discard-value-names -main-file-name - -mrelocation-model pic -pic-level 2 -pic-is-pie -mframe-pointer=all -fmath-errno -ffp-contract=on -fno-rounding-math -mconstructor-aliases -funwind-tables=2 -target-cpu x86-64 -tune-cpu generic -debugger-tuning=gdb -v -fcoverage-compilation-dir=/tmp/gt -resource-dir /usr/lib/llvm-14/lib/clang/14.0.6 -iquote q -I j -internal-isystem /usr/lib/llvm-14/lib/clang/14.0.6/include -internal-isystem /usr/local/include -internal-isystem /usr/bin/../lib/gcc/x86_64-linux-gnu/12/../../../../x86_64-linux-gnu/include -internal-externc-isystem /usr/include/x86_64-linux-gnu -internal-externc-isystem /include -internal-externc-isystem /usr/include -fdebug-compilation-dir=/tmp/gt -ferror-limit 19 -fgnuc-version=4.2.1 -faddrsig -D__GCC_HAVE_DWARF2_CFI_ASM=1 -o - -x c -
clang -cc1 version 14.0.6 based upon LLVM 14.0.6 default target x86_64-pc-linux-gnu
ignoring nonexistent directory "/usr/bin/../lib/gcc/x86_64-linux-gnu/12/../../../../x86_64-linux-gnu/include"
ignoring nonexistent directory "/include"
#include "..." search starts here:
 q
#include <...> search starts here:
 j
 /usr/lib/llvm-14/lib/clang/14.0.6/include
 /usr/local/include
 /usr/include/x86_64-linux-gnu
 /usr/include
End of search list.
"#;

static WITH_SEARCH: &str = "is input a.c
run -E a.c
pch beside a.c
search -E -x c -v -";

static WITH_SEARCH_ASKED: &str = "run-in-C -E -x c -v -

file a.c
file h.h
file h.h.gch
file q/h.h.gch
file j/h.h.gch
";

static WITH_SEARCH_BEHIND: &str = "file /usr/local/include/h.h.gch
file /usr/include/x86_64-linux-gnu/h.h.gch
file /usr/include/h.h.gch
";

/// Where gcc ignores a folder, and clang.
static GCC_IGNORES: &str = "file /usr/local/include/x86_64-linux-gnu/h.h.gch
file /usr/lib/gcc/x86_64-linux-gnu/12/include-fixed/h.h.gch
file /usr/lib/gcc/x86_64-linux-gnu/12/../../../../x86_64-linux-gnu/include/h.h.gch
";

static CLANG_IGNORES: &str =
    "file /usr/bin/../lib/gcc/x86_64-linux-gnu/12/../../../../x86_64-linux-gnu/include/h.h.gch
file /include/h.h.gch
";

/// A text in the place of an answer.
fn in_one_line(alloc: Global, text: &str) -> Mem<Vec<u8>> {
    let mut line = Vec::new(alloc);
    for byte in text.as_bytes() {
        line.push(if *byte == b'\n' { b'|' } else { *byte })?;
    }
    Ok(line)
}

#[test]
fn precompiled_headers_stand_where_the_compiler_searches(rt: HostRuntime) -> Result<(), Fail> {
    for (said, own, ignored) in [
        (
            GCC_SAYS,
            "/usr/lib/gcc/x86_64-linux-gnu/12/include",
            GCC_IGNORES,
        ),
        (
            CLANG_SAYS,
            "/usr/lib/llvm-14/lib/clang/14.0.6/include",
            CLANG_IGNORES,
        ),
    ] {
        let line = in_one_line(rt.alloc(), said)?;
        let text = "# 1 \"a.c\"|# 1 \"h.h\" 1|int h;|";
        let says = shown(&line);
        let machine = format!(in rt.alloc();
            "run -E a.c => {text}\nrun-in-C -E -x c -v - => {says}\nfile h.h => of-h\nfile /usr/include/h.h.gch => of-gch\n"
        )?;
        let talk = talked(rt.alloc(), WITH_SEARCH, machine.as_str())?;
        let asked = shown(&talk.asked);
        let places = format!(in rt.alloc();
            "run -E a.c\n{WITH_SEARCH_ASKED}file {own}/h.h.gch\n{WITH_SEARCH_BEHIND}{ignored}file a.c.gch\n\nbytes h.h\n\n"
        )?;
        assert!(rt; asked.starts_with(places.as_str()), "{asked}");
        let rows = shown(&talk.end);
        assert!(rt; rows.contains(" :/usr/include/h.h.gch =of-gch "), "{rows}");
    }
    Ok(())
}

#[test]
fn a_search_that_fails_names_no_folders(rt: HostRuntime) -> Result<(), Fail> {
    let machine = "run -E a.c => # 1 \"a.c\"|# 1 \"h.h\" 1|int h;|";
    let talk = talked(rt.alloc(), WITH_SEARCH, machine)?;
    let asked = shown(&talk.asked);
    assert!(rt;
        asked.ends_with("\n\nfile a.c\nfile h.h\nfile h.h.gch\nfile a.c.gch\n\n"),
        "{asked}"
    );
    Ok(())
}

// ---- lists

/// A line whose runs read two headers, one of them beside another that is not there.
static LISTED: &str = "is input a.c
run -E a.c
search -E -x c -v -";

static LISTED_MACHINE: &str = r#"run -E a.c => # 1 "a.c"|# 1 "i/h.h" 1|int h;|
file a.c => of-a
file i/h.h => of-h
bytes i/h.h => int h;
"#;

static SEARCHED_FOLDERS: &str =
    r#"run-in-C -E -x c -v - => ignoring nonexistent directory "/n"|#include "..." search starts here:|#include <...> search starts here:| i| /s|End of search list.|
"#;

static LISTED_ASKED: &str = "run -E a.c
run-in-C -E -x c -v -

file a.c
file i/h.h

bytes a.c
bytes i/h.h

real i
real /s
real /n
file h.h
file k.h
file i/k.h
file /s/h.h
file /s/k.h
file /n/h.h
file /n/k.h

";

/// The end where the answers to all but the run stand for what it writes, and where they do not.
static LISTED_END: &str = ":is :input :a.c\n:run :# 1 \"a.c\"|# 1 \"i/h.h\" 1|int h;| : :\nlisted";

static UNLISTED_END: &str = ":is :input :a.c\n:run :# 1 \"a.c\"|# 1 \"i/h.h\" 1|int h;| : :\n";

#[test]
fn a_list_has_what_is_not_there(rt: HostRuntime) -> Result<(), Fail> {
    let machine = format!(in rt.alloc();
        "{LISTED_MACHINE}{SEARCHED_FOLDERS}bytes a.c => #include \"h.h\" #include <k.h>"
    )?;
    let talk = talked(rt.alloc(), LISTED, machine.as_str())?;
    let (questions, told) = (shown(&talk.asked), shown(&talk.end));
    assert!(rt; questions == LISTED_ASKED, "{questions}");
    assert!(rt; told == LISTED_END, "{told}");
    Ok(())
}

#[test]
fn some_runs_have_no_list(rt: HostRuntime) -> Result<(), Fail> {
    for (search, text) in [
        (SEARCHED_FOLDERS, "int t = __TIME__;"),
        (SEARCHED_FOLDERS, "#include HEADER"),
        ("", "#include <k.h>"),
        (
            "run-in-C -E -x c -v - => | i|End of search list.|\n",
            "#include <k.h>",
        ),
        (
            "run-in-C -E -x c -v - => search starts here:| /f (framework directory)|End of search list.|\n",
            "#include <k.h>",
        ),
    ] {
        let machine = format!(in rt.alloc(); "{LISTED_MACHINE}{search}bytes a.c => {text}")?;
        let talk = talked(rt.alloc(), LISTED, machine.as_str())?;
        let told = shown(&talk.end);
        assert!(rt; told == UNLISTED_END, "{told}");
    }
    Ok(())
}

// ---- runs that fail, and answers that do not fit

static WITH_ELSE: &str = "is input a.c
run -E a.c
run-else -E -fdirectives-only a.c
sources
times";

static ELSE_MACHINE: &str =
    r#"run -E -fdirectives-only a.c => # 1 "h.h"|#pragma GCC pch_preprocess "h.h.gch"|
file a.c => of-a
file h.h => of-h
file h.h.gch => of-gch
times h.h => 12 34
"#;

static ELSE_ASKED: &str = "run -E a.c

run -E -fdirectives-only a.c

file h.h.gch
file h.h
file a.c

times h.h

";

static ELSE_ROWS: &str = r#":is :input :a.c
:run :-
:run-else :# 1 "h.h"|#pragma GCC pch_preprocess "h.h.gch"| : : :h.h.gch =of-gch
:sources :h.h =of-h :a.c =of-a
:times :h.h :12 34
"#;

/// The text of the run names no source.
static UNNAMED: &str = "is input a.s
run -E a.s
unless-including";

static UNNAMED_MACHINE: &str = "run -E a.s => \nfile a.s => of-a\nbytes a.s => .incbin \"x\"";

static UNNAMED_ASKED: &str = "run -E a.s

file a.s

bytes a.s

";

/// The text of the run enters a header.
static ENTERING: &str = "run -E a.c => # 1 \"a.c\"|# 1 \"h.h\" 1|int h;|";

static ENTERED: &str = "run -E a.c\n\nfile a.c\nfile h.h\n\n";

#[test]
fn what_a_run_read_can_be_read_again(rt: HostRuntime) -> Result<(), Fail> {
    for (files, end) in [
        (
            "file h.h => of-h",
            ":run :# 1 \"a.c\"|# 1 \"h.h\" 1|int h;| : :\n",
        ),
        ("file h.h => !", "nothing"),
        ("file h.h => of-h\nfile a.c => !", "nothing"),
        ("file a.c => of-a", "nothing"),
    ] {
        let machine = format!(in rt.alloc(); "{ENTERING}\n{files}")?;
        let talk = talked(rt.alloc(), "run -E a.c", machine.as_str())?;
        let (questions, told) = (shown(&talk.asked), shown(&talk.end));
        assert!(rt; questions == ENTERED, "{questions}");
        assert!(rt; told == end, "{told}");
    }
    Ok(())
}

#[test]
fn runs_may_fail(rt: HostRuntime) -> Result<(), Fail> {
    for (key, machine, asked, end) in [
        (SEARCHED, "", "run -E -Ij -Ik a.c\n\n", "nothing"),
        (WITH_ELSE, ELSE_MACHINE, ELSE_ASKED, ELSE_ROWS),
        (
            WITH_ELSE,
            "",
            "run -E a.c\n\nrun -E -fdirectives-only a.c\n\n",
            "nothing",
        ),
        ("unset V\nrun -E a.c", "env V => ", "env V\n\n", "nothing"),
        (
            "regular a.c\nrun -E a.c",
            "file a.c => !",
            "file a.c\n\n",
            "nothing",
        ),
        (
            "run -E a.c\nsources",
            "run -E a.c => int x;",
            "run -E a.c\n\n",
            "nothing",
        ),
        (UNNAMED, UNNAMED_MACHINE, UNNAMED_ASKED, "nothing"),
    ] {
        let talk = talked(rt.alloc(), key, machine)?;
        let (questions, told) = (shown(&talk.asked), shown(&talk.end));
        assert!(rt; questions == asked, "{questions}");
        assert!(rt; told == end, "{told}");
    }
    Ok(())
}

#[test]
fn answers_of_other_questions_are_refused(rt: HostRuntime) -> Result<(), Fail> {
    let parts = parts(rt.alloc(), "env A\nregular a.c")?;
    let key = Key {
        place: b"/w",
        parts: &parts,
        direct: &[],
    };
    let mut answers = Vec::new(rt.alloc());
    answers.push(Answer::Value(None))?;
    let early = look_up(rt.alloc(), &key, &answers)?;
    assert!(rt; matches!(early, Next::Refused(1)));
    answers.push(Answer::Bytes(None))?;
    let other = look_up(rt.alloc(), &key, &answers)?;
    assert!(rt; matches!(other, Next::Refused(1)));
    answers.pop();
    answers.push(Answer::Standing(Standing::Missing))?;
    let right = look_up(rt.alloc(), &key, &answers)?;
    assert!(rt; matches!(right, Next::Found(_, false)));
    answers.push(Answer::Value(None))?;
    let more = look_up(rt.alloc(), &key, &answers)?;
    assert!(rt; matches!(more, Next::Refused(2)));
    Ok(())
}
