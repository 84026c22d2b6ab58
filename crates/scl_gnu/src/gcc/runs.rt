//! Joining the outputs of the preprocessor's runs for several architectures.
ghost use Rattle.std.specs.Prelude.{◌≡◌, ◌++◌, not, find, IfOk, OnOk};
ghost use Rattle.std.specs.Option.{option_map};
ghost use Rattle.scl_gnu.specs.Runs.{arch_output, arch_outputs, output_of, succeeded, ended, line_feeds, header, section, sections, errors, join_passes};

use scl_args::Mem;
use scl_text::records::PassOutput;
use std::alloc::Global;

/// The number of line feeds of a text, with one added at its end if it does not end with one.
fn ended_line_feeds(text: &[u8]) -> usize
    ensures { result ≡ line_feeds (ended text.now) }
{
    let count = text.iter().filter(|byte| **byte == b'\n').count();
    if text.ends_with(b"\n") {
        count
    } else {
        count + 1
    }
}

/// Appends a text, and a line feed if it does not end with one.
fn push_ended(made: &mut Vec<u8>, text: &[u8]) -> Mem<()>
    ensures { OnOk result (made.new.items ≡ made.old.items ++ ended text.now) }
{
    made.extend_from_slice(text)?;
    if !text.ends_with(b"\n") {
        made.push(b'\n')?;
    }
    Ok(())
}

/// Appends a line with an architecture and a number of line feeds.
fn push_header(alloc: Global, made: &mut Vec<u8>, arch: &[u8], count: usize) -> Mem<()>
    ensures { OnOk result (made.new.items ≡ made.old.items ++ header arch.now count) }
{
    let count = format!(in alloc; "{count}")?;
    made.extend_from_slice(b"#pragma sccache arch ")?;
    made.extend_from_slice(arch)?;
    made.extend_from_slice(b" ")?;
    made.extend_from_slice(count.as_bytes())?;
    made.extend_from_slice(b"\n")?;
    Ok(())
}

/// Appends the output of a run, after a line with its architecture and its number of lines.
fn push_section(alloc: Global, made: &mut Vec<u8>, arch: &[u8], text: &[u8]) -> Mem<()>
    ensures { OnOk result (made.new.items ≡ made.old.items ++ section arch.now text.now) }
{
    push_header(alloc, made, arch, ended_line_feeds(text))?;
    push_ended(made, text)
}

/// The outputs of the runs, one after the other.
fn sections(alloc: Global, runs: &[(Vec<u8>, PassOutput)]) -> Mem<Vec<u8>>
    ensures { IfOk result (λ made. made.items ≡ sections (arch_outputs runs.now)) }
{
    let mut made = Vec::new(alloc);
    for (arch, output) in runs {
        push_section(alloc, &mut made, arch, &output.stdout)?;
    }
    Ok(made)
}

/// The error outputs of all runs.
fn errors(alloc: Global, runs: &[(Vec<u8>, PassOutput)]) -> Mem<Vec<u8>>
    ensures { IfOk result (λ made. made.items ≡ errors (arch_outputs runs.now)) }
{
    let mut made = Vec::new(alloc);
    for (_, output) in runs {
        made.extend_from_slice(&output.stderr)?;
    }
    Ok(made)
}

/// The first run that failed.
fn first_failed(runs: &[(Vec<u8>, PassOutput)]) -> Option<&(Vec<u8>, PassOutput)>
    ensures { option_map (λ run. arch_output run.now) result ≡ find (λ run. not (succeeded run)) (arch_outputs runs.now) }
{
    for run in runs {
        if run.1.status != 0 {
            return Some(run);
        }
    }
    None
}

/// The outputs of the preprocessor's runs for several architectures, joined: in order, each after a line with its
/// architecture. If a run failed, the output is that of the first failed run. All error outputs are joined in both cases
/// (docs/RULES.md, Preprocessing).
pub fn join_passes(alloc: Global, runs: Vec<(Vec<u8>, PassOutput)>) -> Mem<PassOutput>
    ensures { IfOk result (λ made. output_of made ≡ join_passes (arch_outputs runs.items)) }
{
    let stderr = errors(alloc, &runs)?;
    match first_failed(&runs) {
        Some((_, failed)) => Ok(PassOutput {
            status: failed.status,
            stdout: Vec::from_slice(alloc, &failed.stdout)?,
            stderr,
        }),
        None => Ok(PassOutput {
            status: 0,
            stdout: sections(alloc, &runs)?,
            stderr,
        }),
    }
}
