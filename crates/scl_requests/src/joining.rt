//! What runs of the preprocessor for several architectures wrote, joined.
ghost use Rattle.std.specs.Prelude.{◌≡◌, IfOk, MatchOption, MatchResult, None, Some, Ok, Err};
ghost use Rattle.std.specs.List.{filter_map};
ghost use Rattle.std.specs.Option.{option_map};
ghost use Rattle.scl_description.specs.Lines.{lines_of};
ghost use Rattle.scl_description.specs.Rows.{entries_text};
ghost use Rattle.scl_gnu.specs.Runs.{arch_output, arch_outputs, output_of};
ghost use Rattle.scl_requests.specs.Joining.{first_untold, join_entries, joined, run_cut, run_in, run_of, status_of};

use scl_cl::Mem;
use scl_describe::number_of;
use scl_description::{cut_at, next_line, push_word, read_field, read_two_fields};
use scl_gnu::gcc::join_passes;
use scl_text::records::PassOutput;
use std::alloc::Global;

/// The exit status that decimal digits write.
fn status_of(digits: &[u8]) -> Option<i32>
    ensures { result ≡ status_of digits.now }
{
    match number_of(digits) {
        Some(number) if number < 0x8000_0000 => Some(number as i32),
        Some(_) | None => None,
    }
}

/// The run of an architecture by the text after it: the status, the output and the error output.
fn run_cut(alloc: Global, arch: &[u8], text: &[u8]) -> Mem<Option<(Vec<u8>, PassOutput)>>
    ensures { IfOk result (λ run. option_map arch_output run ≡ run_cut arch.now text.now) }
{
    let Some(arch) = read_field(alloc, arch)? else {
        return Ok(None);
    };
    let Some((status, texts)) = cut_at(b'\t', text) else {
        return Ok(None);
    };
    let Some(status) = status_of(status) else {
        return Ok(None);
    };
    let Some((stdout, stderr)) = read_two_fields(alloc, texts)? else {
        return Ok(None);
    };
    let output = PassOutput {
        status,
        stdout,
        stderr,
    };
    Ok(Some((arch, output)))
}

/// The run that four fields tell, with tabs between them.
fn run_in(alloc: Global, text: &[u8]) -> Mem<Option<(Vec<u8>, PassOutput)>>
    ensures { IfOk result (λ run. option_map arch_output run ≡ run_in text.now) }
{
    match cut_at(b'\t', text) {
        Some((arch, rest)) => run_cut(alloc, arch, rest),
        None => Ok(None),
    }
}

/// The run that a line tells.
fn run_of(alloc: Global, line: &[u8]) -> Mem<Option<(Vec<u8>, PassOutput)>>
    ensures { IfOk result (λ run. option_map arch_output run ≡ run_of line.now) }
{
    match cut_at(b' ', line) {
        Some((keyword, text)) if keyword == b"ran".as_slice() => run_in(alloc, text),
        Some(_) | None => Ok(None),
    }
}

/// The runs that lines tell, of which the first has the number 2, or the number of the first that tells none and is not empty.
#[tactic(auto, using(crate::proofs::JoiningLaws::goes_on, crate::proofs::JoiningLaws::goes_on_blank, crate::proofs::JoiningLaws::is_stopped, crate::proofs::JoiningLaws::all_told, crate::proofs::JoiningLaws::none_untold))]
fn runs_of(alloc: Global, bytes: &[u8]) -> Mem<Result<Vec<(Vec<u8>, PassOutput)>, u64>>
    ensures told { IfOk result (λ read. MatchResult read (λ runs. arch_outputs runs.items ≡ filter_map run_of (lines_of bytes.now)) (λ number. Unit)) }
    ensures untold { IfOk result (λ read. MatchResult read (λ runs. first_untold 2 (lines_of bytes.now) ≡ None) (λ number. first_untold 2 (lines_of bytes.now) ≡ Some number)) }
{
    let mut runs = Vec::new(alloc);
    let mut number = 2;
    let mut left = bytes;
    while let Some((line, rest)) = next_line(left) {
        match run_of(alloc, line)? {
            Some(run) => runs.push(run)?,
            None if line.is_empty() => {}
            None => return Ok(Err(number)),
        }
        number += 1;
        left = rest;
    }
    Ok(Ok(runs))
}

/// The rows of what a run gave.
fn join_text(alloc: Global, made: &PassOutput) -> Mem<Vec<u8>>
    ensures { IfOk result (λ text. text.items ≡ entries_text (join_entries (output_of made.now))) }
{
    let mut text = Vec::new(alloc);
    push_word(
        &mut text,
        "status",
        made.status.to_string(alloc)?.as_bytes(),
    )?;
    push_word(&mut text, "text", &made.stdout)?;
    push_word(&mut text, "messages", &made.stderr)?;
    push_word(&mut text, "version", b"1")?;
    Ok(text)
}

/// What is answered to the lines of runs, of which the first has the number 2.
#[tactic(auto, using(crate::proofs::JoiningLaws::is_joined, crate::proofs::JoiningLaws::is_untold))]
pub(crate) fn joined(alloc: Global, bytes: &[u8]) -> Mem<Result<Vec<u8>, u64>>
    ensures { IfOk result (λ said. MatchResult said (λ text. joined (lines_of bytes.now) ≡ Ok text.items) (λ number. joined (lines_of bytes.now) ≡ Err number)) }
{
    match runs_of(alloc, bytes)? {
        Ok(runs) => {
            let made = join_passes(alloc, runs)?;
            Ok(Ok(join_text(alloc, &made)?))
        }
        Err(number) => Ok(Err(number)),
    }
}
