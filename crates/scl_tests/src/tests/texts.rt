//! What errors print.
use scl_cl::args::{ArgParseError, ArgToStringError};
use scl_cl::msvc::DepfileError;
use scl_cl::{CommandError, Mem, Outcome};
use std::alloc::Global;
use std::fmt::Display;
use std::test::Fail;

fn push(alloc: Global, lines: &mut String, error: &impl Display) -> Mem<()> {
    lines.push_str(format!(in alloc; "{error}\n")?.as_str())
}

fn word(alloc: Global) -> Mem<Vec<u8>> {
    Vec::from_slice(alloc, b"a \\\xff")
}

fn push_errors_of_words(alloc: Global, lines: &mut String) -> Mem<()> {
    push(alloc, lines, &ArgParseError::UnexpectedEndOfArgs)?;
    push(alloc, lines, &ArgParseError::Other("why"))?;
    push(alloc, lines, &ArgParseError::InvalidUnicode(word(alloc)?))?;
    push(alloc, lines, &ArgParseError::Memory)
}

fn push_errors_of_texts(alloc: Global, lines: &mut String) -> Mem<()> {
    push(
        alloc,
        lines,
        &ArgToStringError::InvalidUnicode(word(alloc)?),
    )?;
    push(
        alloc,
        lines,
        &ArgToStringError::FailedPathTransform(word(alloc)?),
    )?;
    push(alloc, lines, &ArgToStringError::Memory)
}

fn push_errors_of_commands(alloc: Global, lines: &mut String) -> Mem<()> {
    push(alloc, lines, &CommandError::MissingObj)?;
    push(alloc, lines, &CommandError::Memory)?;
    push(alloc, lines, &DepfileError::NotUtf8)?;
    push(alloc, lines, &DepfileError::Memory)
}

fn push_outcomes(alloc: Global, lines: &mut String) -> Mem<()> {
    for outcome in [
        Outcome::Answered,
        Outcome::BadLine(120),
        Outcome::OutOfMemory,
        Outcome::ReadFailed,
        Outcome::WriteFailed,
    ] {
        push(alloc, lines, &outcome)?;
    }
    Ok(())
}

static TEXTS: &str = r#"Unexpected end of args
Arg-specific parsing failed: why
String "a\x20\x5c\xff" contained invalid unicode
out of memory
String "a\x20\x5c\xff" contained invalid unicode
Path "a\x20\x5c\xff" could not be transformed
out of memory
Missing object file output
out of memory
error output is not UTF-8
out of memory
answered
bad line 120
out of memory
read failed
write failed
"#;

#[test]
fn errors_have_texts(rt: HostRuntime) -> Result<(), Fail> {
    let mut lines = String::new(rt.alloc());
    push_errors_of_words(rt.alloc(), &mut lines)?;
    push_errors_of_texts(rt.alloc(), &mut lines)?;
    push_errors_of_commands(rt.alloc(), &mut lines)?;
    push_outcomes(rt.alloc(), &mut lines)?;
    assert!(rt; lines.as_str() == TEXTS, "{lines}");
    Ok(())
}
